//! What the errors of messages, of backtraces and of loggers say.
use alog_msg::{MessageError, WriteError};
use alog_registry::{AddError, BacktraceError, DumpError};
use std::alloc::{AllocError, Global};
use std::process::Abort;

const TEXT: &str = "the text is longer than the text limit, which may be 64 to 8,192 bytes";

const FIELD: &str = "the file has more than 256 bytes or the function more than 128";

const LIMIT: &str = "a backtrace keeps at most 4096 messages";

const MEMORY: &str = "out of memory";

/// This is said.
fn says(rt: &impl Abort, shown: Result<String, AllocError>, wanted: &str) {
    match shown {
        Ok(shown) => assert!(rt; shown.as_str() == wanted),
        Err(_) => panic!(rt; "out of memory"),
    }
}

// A message that was not made, and a block that was not written.
fn no_message(rt: &impl Abort, alloc: Global) {
    for (error, wanted) in [
        (MessageError::TextTooLong, TEXT),
        (MessageError::FieldTooLong, FIELD),
        (MessageError::OutOfMemory, MEMORY),
    ] {
        says(rt, format!(in alloc; "{error}"), wanted);
    }
    for (error, wanted) in [
        (WriteError::TextTooLong, TEXT),
        (WriteError::FieldTooLong, FIELD),
    ] {
        says(rt, format!(in alloc; "{error}"), wanted);
    }
}

// A logger that was not added.
fn no_logger(rt: &impl Abort, alloc: Global) {
    for (error, wanted) in [
        (AddError::FieldTooLong, "the name has more than 64 bytes"),
        (AddError::NameTaken, "a logger has this name"),
        (AddError::TooMany, "there are 256 loggers"),
        (AddError::BadLimit, LIMIT),
        (AddError::OutOfMemory, MEMORY),
    ] {
        says(rt, format!(in alloc; "{error}"), wanted);
    }
}

// A backtrace that was not made, and one that was not dumped.
fn no_backtrace(rt: &impl Abort, alloc: Global) {
    for (error, wanted) in [
        (BacktraceError::BadLimit, LIMIT),
        (BacktraceError::OutOfMemory, MEMORY),
    ] {
        says(rt, format!(in alloc; "{error}"), wanted);
    }
    for (error, wanted) in [
        (DumpError::OutOfMemory, MEMORY),
        (DumpError::Held, "another thread is at the backtrace"),
    ] {
        says(rt, format!(in alloc; "{error}"), wanted);
    }
}

#[test]
fn what_errors_say(rt: HostRuntime) {
    let alloc = rt.alloc();
    no_message(&rt, alloc);
    no_logger(&rt, alloc);
    no_backtrace(&rt, alloc);
}
