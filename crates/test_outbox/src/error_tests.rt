//! What a drain says where it takes nothing.
use alog_outbox::TakeError;
use std::alloc::{AllocError, Global};
use std::process::Abort;

/// This is said.
fn says(rt: &impl Abort, shown: Result<String, AllocError>, wanted: &str) {
    match shown {
        Ok(shown) => assert!(rt; shown.as_str() == wanted),
        Err(_) => panic!(rt; "out of memory"),
    }
}

// Nothing was taken.
fn nothing(rt: &impl Abort, alloc: Global) {
    for (error, wanted) in [
        (TakeError::TooShort, "there is no room for an area"),
        (TakeError::Nothing, "there is nothing to take"),
        (TakeError::Ended, "all was taken"),
    ] {
        says(rt, format!(in alloc; "{error}"), wanted);
    }
}

#[test]
fn what_errors_say(rt: HostRuntime) {
    nothing(&rt, rt.alloc());
}
