//! What the errors of pools, of loads and of servers say, but for those that hold the words of another.
use alog_load::LoadError;
use alog_pool::{ProducerError, StartError};
use alog_server::{LogError, RunError};
use std::alloc::{AllocError, Global};
use std::process::Abort;

const SIZE: &str = "the queue's number of places is no power of two from 2 to 65,536";

const LOAD: &str = "the producers are not from 1 to 64, or the messages are over 1,000,000";

const FIELD: &str = "the file has more than 256 bytes or the function more than 128";

const TIME: &str = "the clock cannot be read, or shows a time after 2262";

const TEXT: &str =
    "the text is longer than the key `text` of the configuration allows, which may be 64 to 8,192 bytes";

const PRODUCERS: &str = "the pool made as many producers as it may, at most 4,096";

const MEMORY: &str = "out of memory";

const THREAD: &str = "out of memory, or a thread could not be started";

/// This is said.
fn says(rt: &impl Abort, shown: Result<String, AllocError>, wanted: &str) {
    match shown {
        Ok(shown) => assert!(rt; shown.as_str() == wanted),
        Err(_) => panic!(rt; "out of memory"),
    }
}

// A pool that was not started.
fn no_pool(rt: &impl Abort, alloc: Global) {
    for (error, wanted) in [
        (
            StartError::BadWorkers,
            "the number of workers is not from 1 to 64",
        ),
        (StartError::BadSize, SIZE),
        (StartError::BadFirst, "the first ticket is not below 2^62"),
        (StartError::OutOfMemory, THREAD),
    ] {
        says(rt, format!(in alloc; "{error}"), wanted);
    }
}

// A producer that was not made.
fn no_producer(rt: &impl Abort, alloc: Global) {
    for (error, wanted) in [
        (ProducerError::TooMany, PRODUCERS),
        (ProducerError::OutOfMemory, MEMORY),
    ] {
        says(rt, format!(in alloc; "{error}"), wanted);
    }
}

// A load without a report.
fn no_load(rt: &impl Abort, alloc: Global) {
    let store = LoadError::Store {
        sink: 1,
        reason: None,
    };
    for (error, wanted) in [
        (LoadError::BadValue, LOAD),
        (store, "a store failed"),
        (LoadError::OutOfMemory, THREAD),
    ] {
        says(rt, format!(in alloc; "{error}"), wanted);
    }
}

// What a client of a server did not log.
fn no_log(rt: &impl Abort, alloc: Global) {
    for (error, wanted) in [
        (LogError::NoLogger, "there is no logger of this name"),
        (LogError::NoTime, TIME),
        (LogError::TextTooLong, TEXT),
        (LogError::FieldTooLong, FIELD),
        (LogError::OutOfMemory, MEMORY),
    ] {
        says(rt, format!(in alloc; "{error}"), wanted);
    }
}

// A server that did not run.
fn no_run(rt: &impl Abort, alloc: Global) {
    for (error, wanted) in [
        (RunError::BadThreads, "the threads are not from 1 to 4,096"),
        (RunError::OutOfMemory, MEMORY),
    ] {
        says(rt, format!(in alloc; "{error}"), wanted);
    }
}

#[test]
fn what_errors_say(rt: HostRuntime) {
    let alloc = rt.alloc();
    no_pool(&rt, alloc);
    no_producer(&rt, alloc);
    no_load(&rt, alloc);
    no_log(&rt, alloc);
    no_run(&rt, alloc);
}
