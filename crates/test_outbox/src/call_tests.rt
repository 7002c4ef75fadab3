//! Single calls, areas that run out, and when all was taken.
ghost use Rattle.std.specs.Prelude.{◌≡◌};

use crate::host::{Host, opened};
use alog_outbox::{AREA, Drain, Outbox, TakeError, is_drained};
use alog_sink::{Store, StoreError};
use std::alloc::Global;
use std::process::Abort;
use std::test::Fail;

/// The sizes of files, before anything is told.
fn has_sizes(store: &mut Outbox) -> bool
    ensures { store.new.line ≡ store.old.line }
{
    let found = store.size("a") == Ok(Some(3));
    let absent = store.size("b") == Ok(None);
    found && absent
}

/// Whether it is told each call but a flush, and afterwards no size.
fn tells_each(store: &mut Outbox) -> bool
    ensures { store.new.line ≡ store.old.line }
{
    let appended = [
        store.append("b", b"one"),
        store.append("c", b""),
        store.append("b", b"two"),
    ];
    let moved = [store.rename("b", "d"), store.remove("c")];
    let is_late = store.size("a") == Err(StoreError);
    appended == [Ok(()); 3] && moved == [Ok(()); 2] && is_late
}

/// Whether six calls are sent by a flush, and all was taken only when they were.
fn sends_all(store: &mut Outbox, drain: &mut Drain, host: &mut Host) -> bool
    requires { drain.old.line ≡ store.old.line }
{
    let is_early = is_drained(store, drain);
    let is_flushed = store.flush("d") == Ok(());
    let is_sent = is_drained(store, drain);
    let taken = host.take_all(drain, 3);
    let is_over = is_drained(store, drain);
    !is_early && is_flushed && !is_sent && taken == Ok(Some(6)) && is_over
}

/// Whether each call is told once, sent and carried out.
fn carries_out(store: &mut Outbox, drain: &mut Drain, host: &mut Host) -> bool
    requires { drain.old.line ≡ store.old.line }
{
    let is_told = has_sizes(store) && tells_each(store);
    let is_sent = sends_all(store, drain, host);
    let is_carried_out = host.has_file("d", b"onetwo") && host.files.files().len() == 1;
    is_told && is_sent && is_carried_out
}

/// Each call once, carried out.
fn each_call(alloc: Global) -> Result<bool, Fail> {
    let mut host = Host::new(alloc)?;
    let (mut store, mut drain) = opened(alloc, "a", 3, 2)?;
    Ok(carries_out(&mut store, &mut drain, &mut host))
}

#[test]
fn calls_are_carried_out(rt: HostRuntime) -> Result<(), Fail> {
    assert!(rt; each_call(rt.alloc())?);
    Ok(())
}

/// How many times a flush is done before no area is left.
fn flushes(store: &mut Outbox, most: usize) -> usize
    ensures { store.new.line ≡ store.old.line }
{
    for done in 0..most {
        if store.flush("a").is_err() {
            return done;
        }
    }
    most
}

/// Whether two areas are sent, and then nothing can be told.
fn runs_out(store: &mut Outbox) -> bool
    ensures { store.new.line ≡ store.old.line }
{
    let sent = flushes(store, 5);
    let appended = store.append("a", b"x");
    sent == 2 && appended == Err(StoreError)
}

/// Whether one of the two comes back when it was taken, is sent again, and then both are taken.
fn comes_back(store: &mut Outbox, drain: &mut Drain, host: &mut Host) -> bool
    ensures store { store.new.line ≡ store.old.line }
    ensures drain { drain.new.line ≡ drain.old.line }
{
    let first = host.take_all(drain, 1);
    let sent = flushes(store, 5);
    let rest = host.take_all(drain, 5);
    first == Ok(Some(1)) && sent == 1 && rest == Ok(Some(2))
}

/// Whether it goes on as ever.
fn goes_on(store: &mut Outbox, drain: &mut Drain, host: &mut Host) -> bool
    requires { drain.old.line ≡ store.old.line }
{
    let told = [store.append("a", b"y"), store.flush("a")];
    let taken = host.take_all(drain, 5);
    let is_over = is_drained(store, drain);
    told == [Ok(()); 2] && taken == Ok(Some(2)) && host.has_file("a", b"y") && is_over
}

/// Whether both areas are sent, come back, and all goes on.
fn goes_round(store: &mut Outbox, drain: &mut Drain, host: &mut Host) -> bool
    requires { drain.old.line ≡ store.old.line }
{
    let is_out = runs_out(store);
    let is_back = comes_back(store, drain, host);
    let is_well = goes_on(store, drain, host);
    is_out && is_back && is_well
}

/// Two areas, both sent, until one comes back.
fn run_out(alloc: Global) -> Result<bool, Fail> {
    let mut host = Host::new(alloc)?;
    let (mut store, mut drain) = opened(alloc, "a", 0, 2)?;
    Ok(goes_round(&mut store, &mut drain, &mut host))
}

#[test]
fn areas_run_out_and_come_back(rt: HostRuntime) -> Result<(), Fail> {
    assert!(rt; run_out(rt.alloc())?);
    Ok(())
}

/// Whether a record of all these bytes is refused, and one of all but the first is told.
fn tells_most(store: &mut Outbox, bytes: &[u8]) -> bool {
    let is_refused = store.append("a", bytes) == Err(StoreError);
    let Some(most) = bytes.get(1..) else {
        return false;
    };
    is_refused && store.append("a", most) == Ok(())
}

/// Whether too little room is refused.
fn is_too_short(drain: &mut Drain, room: &mut [u8]) -> bool {
    let Some(short) = room.get_mut(1..) else {
        return false;
    };
    drain.take_into(short) == Err(TakeError::TooShort)
}

/// Whether an area that is just full is kept until the next record, and taken whole then, into room for an area.
fn sends_full(store: &mut Outbox, drain: &mut Drain, room: &mut [u8]) -> bool {
    let is_kept = drain.take_into(room) == Err(TakeError::Nothing);
    let is_told = store.append("a", b"z") == Ok(());
    let is_whole = drain.take_into(room) == Ok(AREA);
    is_kept && is_told && is_whole && is_too_short(drain, room)
}

/// A record that just fits an area, and one that does not.
fn is_bounded(alloc: Global, store: &mut Outbox, drain: &mut Drain) -> Result<bool, Fail> {
    let mut room = Vec::from_elem(alloc, 0, AREA)?;
    let bytes = Vec::from_elem(alloc, 7, AREA - 16)?;
    let is_told = tells_most(store, bytes.as_slice());
    Ok(is_told && sends_full(store, drain, room.as_mut_slice()))
}

/// Such records, over two areas.
fn longest(alloc: Global) -> Result<bool, Fail> {
    let (mut store, mut drain) = opened(alloc, "a", 0, 2)?;
    is_bounded(alloc, &mut store, &mut drain)
}

#[test]
fn the_longest_record(rt: HostRuntime) -> Result<(), Fail> {
    assert!(rt; longest(rt.alloc())?);
    Ok(())
}
