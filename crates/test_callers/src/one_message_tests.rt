//! One message, which is posted, or is below its logger's level.
use crate::setups::{has_line, setup};
use alog_hosted::Host;
use alog_msg::Level;
use alog_policy::Policy;
use alog_pool::{OpenGate, Pool, Report};
use alog_sink::MemStore;
use std::alloc::Global;
use std::process::Abort;
use std::sync::Wait;
use std::thread::Threads;
use std::time::Clock;
use test_laws::{log_alone, log_hosted};

/// What `log_hosted` answers in a pool of this policy.
fn hosted(
    rt: &impl Abort,
    alloc: Global,
    policy: Policy,
    level: Level,
) -> Option<Report<MemStore>> {
    let Ok(setup) = setup(alloc, policy) else {
        panic!(rt; "no memory")
    };
    let Ok((hosted, host)) = Host::open(alloc, setup) else {
        panic!(rt; "refused")
    };
    if hosted.loggers().len() != 1 {
        panic!(rt; "no logger")
    }
    log_hosted(alloc, host, hosted, 0, level, 7, "a line")
}

/// A caller of a hosted pool gets its report where the message was posted, and none where the level hides it.
#[test]
fn one_message_of_a_hosted_pool(rt: HostRuntime) {
    for policy in [Policy::Block, Policy::DiscardNew, Policy::OverrunOldest] {
        let report = hosted(&rt, rt.alloc(), policy, Level::Info);
        assert!(rt; has_line(&report, b"a line\n"), "{policy:?}");
    }
    assert!(rt; hosted(&rt, rt.alloc(), Policy::Block, Level::Debug).is_none());
}

/// What `log_alone` answers in a pool of one worker whose logger waits for room.
fn alone<R: Threads + Wait + Clock + Clone + Drop + Send + Abort + 'static>(
    rt: &R,
    alloc: Global,
    level: Level,
) -> Option<Report<MemStore>> {
    let Ok(setup) = setup(alloc, Policy::Block) else {
        panic!(rt; "no memory")
    };
    let Ok(pool) = Pool::start(rt, alloc, setup, OpenGate) else {
        panic!(rt; "refused")
    };
    if pool.loggers().len() != 1 {
        panic!(rt; "no logger")
    }
    log_alone(rt, alloc, pool, 0, level, 7, "a line")
}

/// A caller of a pool with threads gets its report where the message was posted, and none where the level hides it.
#[test]
fn one_message_of_a_pool(rt: HostRuntime) {
    let report = alone(&rt, rt.alloc(), Level::Info);
    assert!(rt; has_line(&report, b"a line\n"));
    assert!(rt; alone(&rt, rt.alloc(), Level::Debug).is_none());
}
