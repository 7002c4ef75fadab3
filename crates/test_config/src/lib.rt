//! Tests of configurations and of the stepped system that no command shows: what is said of a fault that is none of the document's,
//! what errors say, those of sinks and scripts too, and the law over whole runs at a store.
#![tactic(auto)]

#[cfg(test)]
mod error_tests;
#[cfg(test)]
mod fault_tests;
#[cfg(test)]
mod law_tests;
