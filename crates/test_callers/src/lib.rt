//! Tests of what a caller outside gets of laws: that the functions of `test_laws` which log one message answer a report where the message was posted,
//! with its line in the file, and none where it was not. What a report says where there is one their clauses say.
#![tactic(auto)]

#[cfg(test)]
mod one_message_tests;
#[cfg(test)]
mod setups;
