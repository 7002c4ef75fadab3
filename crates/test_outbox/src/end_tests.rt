//! What a drain is told when its store has been let go.
ghost use Rattle.std.specs.Prelude.{◌≡◌};

use crate::host::{Host, Taken, opened};
use alog_outbox::{Drain, Outbox, TakeError};
use alog_sink::{Store, StoreError};
use std::alloc::Global;
use std::process::Abort;
use std::test::Fail;

/// Whether nothing comes while the store is there, though it was told something.
fn waits(store: &mut Outbox, drain: &mut Drain, host: &mut Host) -> bool {
    let told = [store.append("a", b"x"), store.append("a", b"y")];
    let taken = host.take(drain) == Ok(Taken::Nothing);
    told == [Ok(()); 2] && taken && !drain.has_ended()
}

/// Whether what was in hand comes, and then the end, twice.
fn ends(drain: &mut Drain, host: &mut Host) -> bool {
    let records = host.take(drain) == Ok(Taken::Records(2));
    let is_open = !drain.has_ended();
    let last = [host.take(drain), host.take(drain)];
    let is_short = drain.take_into(&mut []) == Err(TakeError::TooShort);
    let is_over = last == [Ok(Taken::Ended); 2] && is_short && drain.has_ended();
    records && is_open && is_over && host.has_file("a", b"xy")
}

/// A store that is let go with something in hand.
fn let_go(alloc: Global) -> Result<bool, Fail> {
    let mut host = Host::new(alloc)?;
    let (mut store, mut drain) = opened(alloc, "a", 0, 2)?;
    let is_waiting = waits(&mut store, &mut drain, &mut host);
    drop(store);
    Ok(is_waiting && ends(&mut drain, &mut host))
}

#[test]
fn what_is_in_hand_comes_before_the_end(rt: HostRuntime) -> Result<(), Fail> {
    assert!(rt; let_go(rt.alloc())?);
    Ok(())
}

/// A store that was told nothing.
fn untold(alloc: Global) -> Result<bool, Fail> {
    let mut host = Host::new(alloc)?;
    let (store, mut drain) = opened(alloc, "a", 0, 1)?;
    let is_open = host.take(&mut drain) == Ok(Taken::Nothing);
    drop(store);
    let is_over = host.take(&mut drain) == Ok(Taken::Ended);
    Ok(is_open && is_over && host.files.files().is_empty())
}

#[test]
fn a_store_that_was_told_nothing_ends(rt: HostRuntime) -> Result<(), Fail> {
    assert!(rt; untold(rt.alloc())?);
    Ok(())
}

/// Whether a store sends its only area, and has no other one.
fn sends_its_area(store: &mut Outbox) -> bool {
    store.flush("a") == Ok(()) && store.append("a", b"x") == Err(StoreError)
}

/// A store whose areas all lie there when it is let go.
fn without_areas(alloc: Global) -> Result<bool, Fail> {
    let mut host = Host::new(alloc)?;
    let (mut store, mut drain) = opened(alloc, "a", 0, 1)?;
    let is_out = sends_its_area(&mut store);
    drop(store);
    let taken = [host.take(&mut drain), host.take(&mut drain)];
    Ok(is_out && taken == [Ok(Taken::Records(1)), Ok(Taken::Ended)])
}

#[test]
fn a_store_without_areas_ends(rt: HostRuntime) -> Result<(), Fail> {
    assert!(rt; without_areas(rt.alloc())?);
    Ok(())
}

/// A drain that is let go before its store.
fn without_a_drain(alloc: Global) -> Result<bool, Fail> {
    let (mut store, drain) = opened(alloc, "a", 0, 2)?;
    drop(drain);
    Ok(store.append("a", b"x") == Ok(()))
}

#[test]
fn a_drain_may_go_first(rt: HostRuntime) -> Result<(), Fail> {
    assert!(rt; without_a_drain(rt.alloc())?);
    Ok(())
}
