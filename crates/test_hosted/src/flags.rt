//! Flags by which a thread is held.
use std::alloc::Global;
use std::process::Abort;
use std::sync::Arc;
use std::sync::atomic::{AtomicBool, Ordering};
use std::thread;

/// How often a flag is looked at.
const LOOKS: u32 = 10_000_000;

/// Whether a thread is held, whether it may go on, and whether it waited for that in vain.
#[derive(Drop)]
pub struct Flags {
    begun: AtomicBool,
    open: AtomicBool,
    in_vain: AtomicBool,
}

/// Flags that are down.
pub fn lowered(rt: &impl Abort, alloc: Global) -> Arc<Flags> {
    let flags = Flags {
        begun: AtomicBool::new(false),
        open: AtomicBool::new(false),
        in_vain: AtomicBool::new(false),
    };
    match Arc::new(alloc, flags) {
        Ok(flags) => flags,
        Err(_) => panic!(rt; "no memory"),
    }
}

/// Whether the flag was up, at one of so many looks, behind each of which other threads go on.
fn is_raised(flag: &AtomicBool) -> bool {
    for _ in 0..LOOKS {
        if flag.load(Ordering::SeqCst) {
            return true;
        }
        thread::yield_now();
    }
    false
}

/// A thread is held.
pub fn has_begun(rt: &impl Abort, flags: &Flags) {
    assert!(rt; is_raised(&flags.begun));
}

/// It may go on.
pub fn open(flags: &Flags) {
    flags.open.store(true, Ordering::SeqCst);
}

/// A thread was held, and was let go on.
pub fn was_held(rt: &impl Abort, flags: &Flags) {
    assert!(rt; flags.begun.load(Ordering::SeqCst) && flags.open.load(Ordering::SeqCst));
    assert!(rt; !flags.in_vain.load(Ordering::SeqCst));
}

/// This thread waits to be let go on.
pub fn stay(flags: &Flags) {
    flags.begun.store(true, Ordering::SeqCst);
    let is_open = is_raised(&flags.open);
    flags.in_vain.store(!is_open, Ordering::SeqCst);
}
