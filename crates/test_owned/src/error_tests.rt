//! What the errors of hosted and of owned pools say.
use alog_hosted::WorkerError;
use alog_msg::MessageError;
use alog_owned::{LogError, OwnedDumpError};
use alog_registry::DumpError;
use std::alloc::{AllocError, Global};
use std::process::Abort;

const WORKERS: &str = "the pool made as many workers as its setup says";

const TEXT: &str = "the text is longer than the text limit, which may be 64 to 8,192 bytes";

const MEMORY: &str = "out of memory";

/// This is said.
fn says(rt: &impl Abort, shown: Result<String, AllocError>, wanted: &str) {
    match shown {
        Ok(shown) => assert!(rt; shown.as_str() == wanted),
        Err(_) => panic!(rt; "out of memory"),
    }
}

// A worker that was not made.
fn no_worker(rt: &impl Abort, alloc: Global) {
    for (error, wanted) in [
        (WorkerError::TooMany, WORKERS),
        (WorkerError::OutOfMemory, MEMORY),
    ] {
        says(rt, format!(in alloc; "{error}"), wanted);
    }
}

// What was not logged, and what was not dumped.
fn no_log(rt: &impl Abort, alloc: Global) {
    let text = LogError::Refused(MessageError::TextTooLong);
    for (error, wanted) in [
        (LogError::NoLogger, "there is no such logger"),
        (text, TEXT),
    ] {
        says(rt, format!(in alloc; "{error}"), wanted);
    }
    let held = OwnedDumpError::Refused(DumpError::Held);
    for (error, wanted) in [
        (OwnedDumpError::NoLogger, "there is no such logger"),
        (held, "another thread is at the backtrace"),
    ] {
        says(rt, format!(in alloc; "{error}"), wanted);
    }
}

#[test]
fn what_errors_say(rt: HostRuntime) {
    let alloc = rt.alloc();
    no_worker(&rt, alloc);
    no_log(&rt, alloc);
}
