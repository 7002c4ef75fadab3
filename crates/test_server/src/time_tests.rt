//! The times of messages: those of the calls of a client.
use crate::answers::{SinkRow, Wanted, tells};
use crate::asks::{Ask, Host};
use std::alloc::Global;
use std::io;
use std::process::Abort;
use std::time::Clock;
use test_runs::{folder, lines_in};

/// Each line is the time of its message, in nanoseconds since 1970. All messages are kept for a backtrace, too.
const TIMES: &str =
    "queue = 1_024\n\n[[sink]]\nname = \"out\"\nkind = \"memory\"\npattern = \"%E%F\"\n\n\
                     [[logger]]\nname = \"net\"\nsinks = [\"out\"]\nbacktrace = 4\n";

/// Its sink, without a fault.
static OUT: [SinkRow; 1] = [("out", 0, &["out"])];

fn out() -> &'static [SinkRow] {
    &OUT
}

/// Whether this is a time between these.
fn is_between(line: &str, from: u128, to: u128) -> bool {
    match line.parse::<u64>() {
        Ok(time) => from <= u128::from(time) && u128::from(time) <= to,
        Err(_) => false,
    }
}

/// Whether these are some lines, each of a time between these.
fn are_between(text: &str, from: u128, to: u128) -> bool {
    !text.is_empty() && text.lines().all(|line| is_between(line, from, to))
}

/// The time now, in nanoseconds since 1970.
fn now(clock: &impl Clock) -> io::Result<u128> {
    Ok(clock.since_1970()?.as_nanos())
}

/// Whether a server runs as it is to, whose clients log in each way, and the times of its start and its end.
fn ran<R: Host>(rt: &R, alloc: Global, folder: &str) -> io::Result<(bool, u128, u128)> {
    let from = now(rt)?;
    let at = (TIMES, folder);
    let so = tells(rt, alloc, at, Ask::Ways, Wanted::Sinks(out()));
    Ok((so, from, now(rt)?))
}

/// Each call of a client stamps its message with the time of the call, and a dump its markers.
#[test]
fn messages_have_the_times_of_their_calls(rt: HostRuntime) -> io::Result<()> {
    let folder = folder(&rt)?;
    let (so, from, to) = ran(&rt, rt.alloc(), folder.as_str())?;
    let lines = lines_in(&rt, &folder)?;
    assert!(rt; so && are_between(lines.as_str(), from, to));
    Ok(())
}
