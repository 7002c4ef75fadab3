//! What a server is asked, and what it tells: values that know nothing of its stores.
//!
//! A function over any host is dear, whatever it does, and so is a test that calls one: there is one that tests call, `tells` of
//! `answers.rt`, which answers a `bool`, and each of them calls it in one place.
use crate::leveling::Leveling;
use alog_config::{Config, leaves, read};
use alog_msg::{Level, SourceRef};
use alog_server::{
    Client, Folders, Home, LogError, Logger, Patience, Ran, RunError, Server, SinkEnd, StartError,
    Work, folder_stores, start,
};
use alog_sink::Store;
use std::alloc::{AllocError, Global};
use std::mem;
use std::rt::Files;
use std::sync::Wait;
use std::thread::Threads;
use std::time::Clock;

/// What a server runs on.
pub(crate) trait Host: Files
    + Folders
    + Threads
    + Wait
    + Clock
    + Clone
    + Drop
    + Send
    + Sync
    + 'static {}

impl<R> Host for R
where
    R: Files + Folders + Threads + Wait + Clock + Clone + Drop + Send + Sync + 'static,
{}

/// A thread that logs this text to this logger, so many times.
pub(crate) struct Talk {
    pub(crate) logger: &'static str,
    pub(crate) text: &'static str,
    pub(crate) messages: usize,
}

impl<R: Wait + Clock> Work<R> for Talk {
    type Error = LogError;

    fn work<H: Home>(
        &self,
        rt: &R,
        _thread: usize,
        client: &mut Client<H>,
    ) -> Result<(), LogError> {
        let logger = client.logger(self.logger)?;
        for _ in 0..self.messages {
            client.info(rt, &logger, self.text)?;
        }
        Ok(())
    }
}

pub(crate) const HELLO: Talk = Talk {
    logger: "net",
    text: "hello",
    messages: 100,
};

/// Four threads that log ten times, each in a way of its own: with waiting, at once, from a place in a program, and what is kept and dumped.
struct Ways;

/// Logs at once.
fn at_once<H: Home>(
    clock: &impl Clock,
    client: &mut Client<H>,
    logger: &Logger<H>,
) -> Result<(), LogError> {
    client.log_now(clock, logger, Level::Info, "hello")?;
    Ok(())
}

/// Logs from a place in a program.
fn from_a_place<H: Home>(
    rt: &(impl Wait + Clock),
    client: &mut Client<H>,
    logger: &Logger<H>,
) -> Result<(), LogError> {
    let here = SourceRef {
        file: "main.rs",
        line: 7,
        function: "main",
    };
    client.log_from(rt, logger, Level::Info, "hello", here)?;
    Ok(())
}

/// Dumps what is kept.
fn dumps<H: Home>(
    rt: &(impl Wait + Clock),
    client: &mut Client<H>,
    logger: &Logger<H>,
) -> Result<(), LogError> {
    client.dump_backtrace(rt, logger)?;
    Ok(())
}

/// Logs once, in the way of this thread.
fn says<H: Home>(
    rt: &(impl Wait + Clock),
    thread: usize,
    client: &mut Client<H>,
    logger: &Logger<H>,
) -> Result<(), LogError> {
    match thread {
        0 => at_once(rt, client, logger),
        1 => from_a_place(rt, client, logger),
        2 => dumps(rt, client, logger),
        _ => Ok(()),
    }
}

impl<R: Wait + Clock> Work<R> for Ways {
    type Error = LogError;

    fn work<H: Home>(&self, rt: &R, thread: usize, client: &mut Client<H>) -> Result<(), LogError> {
        let logger = client.logger("net")?;
        for _ in 0..10 {
            client.info(rt, &logger, "hello")?;
            says(rt, thread, client, &logger)?;
        }
        Ok(())
    }
}

/// A thread whose work ends early, with what is printed of its client and of a logger.
#[derive(Drop)]
struct Print(Global);

/// What is printed of a client and of its logger `net`.
fn handles<H: Home>(alloc: Global, client: &Client<H>) -> Result<String, AllocError> {
    match client.logger("net") {
        Ok(logger) => format!(in alloc; "{client:?}, {logger:?}"),
        Err(error) => format!(in alloc; "{error}"),
    }
}

impl<R> Work<R> for Print {
    type Error = String;

    fn work<H: Home>(&self, _rt: &R, _thread: usize, client: &mut Client<H>) -> Result<(), String> {
        match handles(self.0, client) {
            Ok(text) => Err(text),
            Err(_) => Ok(()),
        }
    }
}

/// What a server is asked.
#[derive(Clone, Copy)]
pub(crate) enum Ask<'a> {
    /// To run so many threads that do this work.
    Run(usize, &'a Talk),
    /// To run one, while others are started over its folder, before and behind that.
    Hold,
    /// To run threads that log in each way.
    Ways,
    /// To run one that sets levels.
    Levels,
    /// To run one, over the stores of a folder that it does not hold.
    Over,
    /// What is printed of it and of its run, a line each.
    Print,
}

/// What it tells.
#[derive(Drop)]
pub(crate) enum Told {
    /// It was not started.
    Refused(StartError),
    /// It did not run.
    Unrun(RunError),
    /// It ran: how many messages were asked and handled, why a work ended early, and its sinks.
    Ran((u64, u64), Option<LogError>, Vec<SinkEnd>),
    /// Why others were not started, before and behind its run.
    Held(Option<String>, Option<String>),
    Printed(String),
}

/// Starts a server. What `start` promises is told to no test by it.
fn started<R: Host>(
    rt: &R,
    alloc: Global,
    document: &str,
    folder: &str,
) -> Result<Server<R::Folder, R::Lock>, StartError> {
    start(rt, alloc, document.as_bytes(), folder)
}

/// Lets so many threads do this work. What `Server::run` promises is told to no test by it.
fn ran<R: Threads + Wait + Clock + Sync, S: Store + Drop + Send + 'static, L: Drop>(
    rt: &R,
    server: Server<S, L>,
    threads: usize,
    work: &Talk,
) -> Result<Ran<S, LogError, L>, RunError> {
    server.run(rt, threads, work)
}

/// Lets four threads log, each in its way. What `Server::run` promises is told to no test by it.
fn ran_in_ways<R: Threads + Wait + Clock + Sync, S: Store + Drop + Send + 'static, L: Drop>(
    rt: &R,
    server: Server<S, L>,
) -> Result<Ran<S, LogError, L>, RunError> {
    server.run(rt, 4, &Ways)
}

/// Lets one thread set levels. What `Server::run` promises is told to no test by it.
fn ran_at_levels<R: Threads + Wait + Clock + Sync, S: Store + Drop + Send + 'static, L: Drop>(
    rt: &R,
    server: Server<S, L>,
) -> Result<Ran<S, LogError, L>, RunError> {
    server.run(rt, 1, &Leveling)
}

/// What a run tells.
fn told_of<S: Store + Drop, L: Drop>(
    alloc: Global,
    ran: Result<Ran<S, LogError, L>, RunError>,
) -> Told {
    match ran {
        Ok(ran) => {
            let mut ran = ran;
            let sinks = mem::replace(&mut ran.sinks, Vec::new(alloc));
            let totals = &ran.report.totals;
            Told::Ran((totals.asked, totals.handled), ran.error, sinks)
        }
        Err(error) => Told::Unrun(error),
    }
}

/// Why no server is started over this folder, where that cannot be written. One that is started has to be ended.
fn refusal<R: Host>(rt: &R, alloc: Global, document: &str, folder: &str) -> Option<String> {
    match started(rt, alloc, document, folder) {
        Ok(server) => {
            drop(ran(rt, server, 1, &HELLO));
            None
        }
        Err(StartError::Unwritable { text }) => Some(text),
        Err(_) => None,
    }
}

/// A server keeps its folder until what its run answers is dropped: the buffers of its files are written then.
fn held<R: Host>(
    rt: &R,
    alloc: Global,
    server: Server<R::Folder, R::Lock>,
    document: &str,
    folder: &str,
) -> Told {
    let before = refusal(rt, alloc, document, folder);
    let ran = ran(rt, server, 1, &HELLO);
    let behind = refusal(rt, alloc, document, folder);
    drop(ran);
    Told::Held(before, behind)
}

/// What is printed of a server.
fn server_text<S: Store, L>(alloc: Global, server: &Server<S, L>) -> Result<String, AllocError> {
    format!(in alloc; "{server:?}")
}

/// What is printed of a run.
fn run_text<S: Store + Drop, L: Drop>(
    alloc: Global,
    ran: Result<Ran<S, String, L>, RunError>,
) -> Result<String, AllocError> {
    format!(in alloc; "{ran:?}")
}

/// Two texts, a line each.
fn two_lines(
    alloc: Global,
    first: Result<String, AllocError>,
    second: Result<String, AllocError>,
) -> Result<String, AllocError> {
    format!(in alloc; "{}\n{}", first?, second?)
}

/// Lets one thread print. What `Server::run` promises is told to no test by it.
fn ran_printing<R: Threads + Wait + Clock + Sync, S: Store + Drop + Send + 'static, L: Drop>(
    rt: &R,
    alloc: Global,
    server: Server<S, L>,
) -> Result<Ran<S, String, L>, RunError> {
    server.run(rt, 1, &Print(alloc))
}

/// What is printed of a server and of its run.
fn printed<R: Threads + Wait + Clock + Sync, S: Store + Drop + Send + 'static, L: Drop>(
    rt: &R,
    alloc: Global,
    server: Server<S, L>,
) -> Result<String, AllocError> {
    let before = server_text(alloc, &server);
    let behind = run_text(alloc, ran_printing(rt, alloc, server));
    two_lines(alloc, before, behind)
}

/// A server of this configuration, over the stores of a folder.
fn over_stores<R: Host>(
    rt: &R,
    alloc: Global,
    config: &Config,
    folder: &str,
) -> Result<Server<R::Folder>, StartError> {
    match folder_stores(rt, alloc, folder, leaves(config), Patience::Times(0)) {
        Ok(stores) => Server::over(rt, alloc, config, stores),
        Err(error) => Err(StartError::from(error)),
    }
}

/// What a server over the stores of a folder tells.
fn over<R: Host>(rt: &R, alloc: Global, document: &str, folder: &str) -> Told {
    let Ok(config) = read(alloc, document.as_bytes()) else {
        return Told::Refused(StartError::OutOfMemory);
    };
    match over_stores(rt, alloc, &config, folder) {
        Ok(server) => told_of(alloc, ran(rt, server, 1, &HELLO)),
        Err(error) => Told::Refused(error),
    }
}

/// What a server tells that is started.
fn told_by<R: Host>(
    rt: &R,
    alloc: Global,
    server: Server<R::Folder, R::Lock>,
    (document, folder): (&str, &str),
    ask: Ask<'_>,
) -> Told {
    match ask {
        Ask::Run(threads, work) => told_of(alloc, ran(rt, server, threads, work)),
        Ask::Ways => told_of(alloc, ran_in_ways(rt, server)),
        Ask::Levels => told_of(alloc, ran_at_levels(rt, server)),
        Ask::Hold | Ask::Over => held(rt, alloc, server, document, folder),
        Ask::Print => match printed(rt, alloc, server) {
            Ok(text) => Told::Printed(text),
            Err(_) => Told::Refused(StartError::OutOfMemory),
        },
    }
}

/// What a server of this document tells, with its files in this folder.
pub(crate) fn tell<R: Host>(
    rt: &R,
    alloc: Global,
    (document, folder): (&str, &str),
    ask: Ask<'_>,
) -> Told {
    if matches!(ask, Ask::Over) {
        return over(rt, alloc, document, folder);
    }
    match started(rt, alloc, document, folder) {
        Ok(server) => told_by(rt, alloc, server, (document, folder), ask),
        Err(error) => Told::Refused(error),
    }
}
