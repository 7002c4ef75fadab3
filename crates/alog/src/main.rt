//! The program `alog`: `main` over the library `alog_program`, whose `run` is the whole program over any reader and two writers.
#![tactic(auto)]

pub use alog_program::run;
use alog_program::{ReadAside, Screen, TimedRead, collect_words, refuse_arguments};
use alog_server::Folders;
use std::convert::AsStr;
use std::fs::File;
use std::io::{self, Stdin, Write};
use std::process::ExitCode;
use std::rt::Files;
use std::sync::Wait;
use std::thread::Threads;
use std::time::Clock;

/// Collects the words, and hands `run` these and the standard streams.
fn main(rt: HostRuntime) -> ExitCode {
    let _held = (held(&rt), held(&rt), held(&rt));
    let status = match collect_words(rt.alloc(), &rt) {
        Ok(words) => run_on(
            &rt,
            words.as_slice(),
            &mut input_for(&rt, words.as_slice(), rt.stdin()),
            &mut rt.stdout(),
            &mut rt.stderr(),
        ),
        Err(error) => refuse_arguments(error, &mut rt.stderr()),
    };
    ExitCode::from(status)
}

/// Takes the number of a standard stream that was closed before the program began, if there is one: else the next file that is opened
/// would get it, and the program's words would be written there. What it is taken for can neither be read nor written.
/// `sessions/pipes.session` shows it.
fn held<R: Files>(files: &R) -> io::Result<R::File> {
    File::open(files, "/")
}

/// Standard input, which a thread reads for a pipe that has something else to do. Where no thread can be had the pipe waits.
fn input_for<R, S: AsStr>(rt: &R, words: &[S], input: Stdin) -> ReadAside<R, Stdin>
where
    R: AllocGlobal + Threads + Wait + Copy + Drop + Send + 'static,
{
    let mut input = ReadAside::new(*rt, input);
    if words.get(1).is_some_and(|word| word.as_str() == "pipe") {
        let _ = input.start(rt);
    }
    input
}

/// Runs the program by `run`, and answers its status. What `run` promises it does not repeat: the proof of `main` would carry that at the
/// type of the host, and has no use for it.
fn run_on<R, S: AsStr, I: TimedRead, O: Write, E: Write>(
    rt: &R,
    words: &[S],
    input: &mut I,
    output: &mut O,
    errors: &mut E,
) -> u8
where
    R: AllocGlobal + Files + Folders + Screen + Threads + Wait + Clock,
    R: Clone + Drop + Send + Sync + 'static,
{
    run(rt, words, input, output, errors)
}
