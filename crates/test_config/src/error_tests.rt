//! What the errors of sinks, of the stepped system and of scripts say, but for those that the tests of sinks show.
use alog_replay::{LineError, ReplayError};
use alog_sink::{NameError, SinkError, StoreError};
use alog_system::{BeginError, SystemError};
use std::alloc::{AllocError, Global};
use std::process::Abort;

const SIZE: &str = "the number of places is no power of two from 2 to 65,536";

const TEXT: &str = "the text is longer than the text limit, which may be 64 to 8,192 bytes";

const BROKEN: &str = "the sink is broken, since its store failed";

const MEMORY: &str = "out of memory";

/// This is said.
fn says(rt: &impl Abort, shown: Result<String, AllocError>, wanted: &str) {
    match shown {
        Ok(shown) => assert!(rt; shown.as_str() == wanted),
        Err(_) => panic!(rt; "out of memory"),
    }
}

// A turn at a sink, and a name that is none.
fn no_turn(rt: &impl Abort, alloc: Global) {
    for (error, wanted) in [
        (SinkError::Store, "the sink's store failed"),
        (SinkError::Broken, BROKEN),
    ] {
        says(rt, format!(in alloc; "{error}"), wanted);
    }
    let name = NameError::NameTooLong;
    says(
        rt,
        format!(in alloc; "{name}"),
        "the name has more than 64 bytes",
    );
    says(rt, format!(in alloc; "{StoreError}"), "the store failed");
}

// A deed that did not begin.
fn no_deed(rt: &impl Abort, alloc: Global) {
    for (error, wanted) in [
        (BeginError::NoActor, "the actor is not from 0 to 63"),
        (BeginError::InCall, "the actor is in a call"),
        (BeginError::TextTooLong, TEXT),
        (BeginError::OutOfMemory, MEMORY),
    ] {
        says(rt, format!(in alloc; "{error}"), wanted);
    }
}

// A system that was not made.
fn no_system(rt: &impl Abort, alloc: Global) {
    for (error, wanted) in [
        (SystemError::BadSize, SIZE),
        (SystemError::OutOfMemory, MEMORY),
    ] {
        says(rt, format!(in alloc; "{error}"), wanted);
    }
}

// A line that was not carried out, and a script that was not replayed.
fn no_script(rt: &impl Abort, alloc: Global) {
    for (error, wanted) in [
        (LineError::Refused, "the line is refused"),
        (LineError::OutOfMemory, MEMORY),
    ] {
        says(rt, format!(in alloc; "{error}"), wanted);
    }
    for (error, wanted) in [
        (ReplayError::LineRefused { line: 7 }, "line 7 is refused"),
        (ReplayError::ReadFault, "the script could not be read"),
        (ReplayError::WriteFault, "the output could not be written"),
        (ReplayError::OutOfMemory, MEMORY),
    ] {
        says(rt, format!(in alloc; "{error}"), wanted);
    }
}

#[test]
fn what_errors_say(rt: HostRuntime) {
    let alloc = rt.alloc();
    no_turn(&rt, alloc);
    no_deed(&rt, alloc);
    no_system(&rt, alloc);
    no_script(&rt, alloc);
}
