//! Producers that a pool makes.
ghost use Rattle.std.specs.Prelude.{◌≡◌, ◌≤◌, [], length, vec_capacity, IsTrue};
ghost use Rattle.alog_server.specs.Making.{MakesAll};

use alog_pool::{Pool, Producer};
use alog_sink::Store;

/// Has a pool make so many producers, into a list with room for them, and answers whether it did.
pub fn make<S: Store + Drop + Send + 'static>(
    pool: &mut Pool<S>,
    count: u64,
    producers: &mut Vec<Producer>,
) -> bool
    requires room { (producers.old.items ≡ []) × (count ≤ vec_capacity producers.old) }
    ensures makes { MakesAll pool.old producers.new.items pool.new }
    ensures many { IsTrue result → length producers.new.items ≡ count }
{
    for _number in 0..count {
        match pool.producer() {
            Ok(producer) => producers.push_reserved(producer),
            Err(_) => return false,
        }
    }
    true
}
