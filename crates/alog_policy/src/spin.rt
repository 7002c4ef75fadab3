//! A rest that is no call of the system.
use std::hint;
use std::time::{Clock, Duration};

/// A look at a clock, and the pause of the processor before it, take at least so many nanoseconds.
const LOOK_LEAST: u64 = 4;

/// Spins until so many nanoseconds have passed by this clock.
///
/// What a pause of the processor takes is its own, 5 ns on some and 60 on others, so it is the clock that ends this. By one that stands
/// still it looks once for every four of the nanoseconds, and by one that fails no more. No contract says how long it takes. The test
/// `a_spin_takes_its_time` shows it.
pub fn spin_for(clock: &impl Clock, nanos: u64) {
    let Ok(start) = clock.monotonic() else {
        return;
    };
    let rest = Duration::from_nanos(nanos);
    for _ in 0..nanos / LOOK_LEAST {
        hint::spin_loop();
        match clock.monotonic() {
            Ok(now) if now.saturating_sub(start) < rest => {}
            _ => return,
        }
    }
}
