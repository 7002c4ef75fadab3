//! A filtered text takes no memory.
//!
//! The system tells the most memory that the process ever had. A text of many megabytes is logged below the level of a logger that keeps
//! nothing, and refused at it: whoever copied it would have had as many bytes more.
ghost use Rattle.std.specs.Prelude.{◌<◌, length};

use crate::refusal_tests::looks_at_none_below;
use crate::trial::{at_level, backtrace_of, desk_of, one};
use crate::wait_tests::below_on_a_lane;
use alog_msg::{Item, Level};
use alog_policy::{Desk, Policy};
use alog_registry::Loggers;
use std::alloc::Global;
use std::fs;
use std::process::Abort;
use std::sync::Wait;
use std::test::Fail;
use std::time::Clock;

/// Where the system tells it.
const STATUS: &str = "/proc/self/status";

/// The text is so many times sixteen bytes: 64 megabytes.
const TIMES: usize = 1 << 22;

/// How many kilobytes more the process may have had, for all but a copy of the text.
const MORE: u64 = 1 << 15;

/// The most kilobytes that the process had.
fn most_memory(rt: &HostRuntime) -> Result<Option<u64>, Fail> {
    let status = fs::read_to_string(rt, STATUS)?;
    for line in status.lines() {
        if let Some(most) = line.strip_prefix("VmHWM:") {
            return Ok(most.trim().trim_end_matches(" kB").parse().ok());
        }
    }
    Ok(None)
}

/// Whether the process had little more than before.
fn had_little_more(rt: &HostRuntime, before: Option<u64>) -> Result<bool, Fail> {
    let (Some(before), Some(after)) = (before, most_memory(rt)?) else {
        return Ok(false);
    };
    Ok(after.saturating_sub(before) < MORE)
}

/// An actor of a new desk logs this text.
fn below_on_a_desk(
    rt: &impl Abort,
    bare: &Loggers,
    alloc: Global,
    desk: &mut Desk<Item>,
    long: &str,
)
    requires { 0 < length bare.now }
{
    let mut none = backtrace_of(rt, alloc, 0);
    let Ok(mut outlet) = desk.outlet(1) else {
        panic!(rt; "the actor is in no call")
    };
    let long = at_level(Level::Debug, long);
    looks_at_none_below(rt, bare, alloc, &mut outlet, &mut none, long);
}

/// A long text takes little on a desk.
fn takes_little(
    rt: &impl Abort,
    host: &HostRuntime,
    bare: &Loggers,
    desk: &mut Desk<Item>,
    long: &str,
) -> Result<(), Fail>
    requires { 0 < length bare.now }
{
    let before = most_memory(host)?;
    below_on_a_desk(rt, bare, host.alloc(), desk, long);
    assert!(rt; had_little_more(host, before)?);
    Ok(())
}

#[test]
fn a_filtered_text_is_not_copied_at_once(rt: HostRuntime) -> Result<(), Fail> {
    let long = "0123456789abcdef".repeat(rt.alloc(), TIMES)?;
    let bare = one(&rt, rt.alloc(), Policy::Block, 0);
    let mut desk = desk_of(&rt, rt.alloc(), 2);
    takes_little(&rt, &rt, &bare, &mut desk, long.as_str())
}

/// A long text takes little with waiting.
fn takes_little_with_waiting<R: Wait + Clock + Abort>(
    rt: &R,
    host: &HostRuntime,
    bare: &Loggers,
    long: &str,
) -> Result<(), Fail>
    requires { 0 < length bare.now }
{
    let before = most_memory(host)?;
    below_on_a_lane(rt, bare, host.alloc(), long);
    assert!(rt; had_little_more(host, before)?);
    Ok(())
}

#[test]
fn a_filtered_text_is_not_copied_with_waiting(rt: HostRuntime) -> Result<(), Fail> {
    let long = "0123456789abcdef".repeat(rt.alloc(), TIMES)?;
    let bare = one(&rt, rt.alloc(), Policy::Block, 0);
    takes_little_with_waiting(&rt, &rt, &bare, long.as_str())
}
