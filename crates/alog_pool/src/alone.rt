//! The end of what threads shared.
ghost use Rattle.std.specs.Prelude.{◌≡◌};
ghost use Rattle.std.specs.Arc.{arc_value};

use std::sync::{Arc, Wait};
use std::thread;

/// What was shared, as soon as all others have given up their share.
pub(crate) fn alone<T: Drop>(rt: &impl Wait, shared: Arc<T>) -> T
    ensures { result ≡ arc_value shared }
{
    let mut shared = shared;
    for _ in rt.forever() {
        match Arc::try_unwrap(shared) {
            Ok(value) => return value,
            Err(again) => shared = again,
        }
        thread::yield_now();
    }
    unreachable!()
}
