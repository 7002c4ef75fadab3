//! The law over whole runs of a stepped system, at a store of its own.
use alog_sink::MemStore;
use alog_system::laws::runs_of_a_system;

#[test]
fn the_law_at_a_store(_rt: HostRuntime) {
    runs_of_a_system::<MemStore>();
}
