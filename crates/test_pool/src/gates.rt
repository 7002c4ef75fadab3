//! A gate that holds a worker, and flags by which a thread is held.
use alog_pool::Gate;
use std::alloc::Global;
use std::process::Abort;
use std::sync::Arc;
use std::sync::atomic::{AtomicBool, AtomicU32, Ordering};
use std::thread;

/// How often a flag is looked at.
const LOOKS: u32 = 1_000_000;

/// Whether a thread is held, by which number it said so, whether it may go on, and whether it waited for that in vain: of a gate the
/// worker that is about to begin the turns of the first ticket.
#[derive(Drop)]
pub struct Flags {
    begun: AtomicBool,
    holder: AtomicU32,
    open: AtomicBool,
    in_vain: AtomicBool,
}

/// Flags that are down.
pub fn lowered(rt: &impl Abort, alloc: Global) -> Arc<Flags> {
    let flags = Flags {
        begun: AtomicBool::new(false),
        holder: AtomicU32::new(u32::MAX),
        open: AtomicBool::new(false),
        in_vain: AtomicBool::new(false),
    };
    match Arc::new(alloc, flags) {
        Ok(flags) => flags,
        Err(_) => panic!(rt; "no memory"),
    }
}

/// Whether the flag was up, at one of so many looks, behind each of which other threads go on.
fn is_raised(flag: &AtomicBool) -> bool {
    for _ in 0..LOOKS {
        if flag.load(Ordering::SeqCst) {
            return true;
        }
        thread::yield_now();
    }
    false
}

/// A thread is held.
pub fn has_begun(rt: &impl Abort, flags: &Flags) {
    assert!(rt; is_raised(&flags.begun));
}

/// It may go on.
pub fn open(flags: &Flags) {
    flags.open.store(true, Ordering::SeqCst);
}

/// The number of the thread that was held, which was let go on.
pub fn holder(rt: &impl Abort, flags: &Flags) -> u32 {
    assert!(rt; flags.open.load(Ordering::SeqCst) && !flags.in_vain.load(Ordering::SeqCst));
    flags.holder.load(Ordering::SeqCst)
}

/// The thread of this number waits to be let go on.
pub fn stay(flags: &Flags, number: u32) {
    flags.holder.store(number, Ordering::SeqCst);
    flags.begun.store(true, Ordering::SeqCst);
    let is_open = is_raised(&flags.open);
    flags.in_vain.store(!is_open, Ordering::SeqCst);
}

/// A gate that holds the worker of the first ticket until this ticket was handled, or a test opens it.
#[derive(Drop)]
pub struct HoldsFirst {
    flags: Arc<Flags>,
    until: u64,
}

/// The gate of these flags.
pub fn holds_until(rt: &impl Abort, flags: &Arc<Flags>, until: u64) -> HoldsFirst {
    match Arc::try_clone(flags) {
        Ok(flags) => HoldsFirst { flags, until },
        Err(_) => panic!(rt; "no memory"),
    }
}

impl Gate for HoldsFirst {
    fn before(&self, worker: u32, ticket: u64) {
        if ticket == 0 {
            stay(&self.flags, worker);
        }
    }

    fn after(&self, _worker: u32, ticket: u64) {
        if ticket == self.until {
            open(&self.flags);
        }
    }
}
