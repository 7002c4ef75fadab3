//! Want of memory, for runs in which one allocation fails, as `rt try --test --fail-alloc` makes it: `outbox` answers that memory is wanting, and the
//! next one opens. No call of the store takes memory.
ghost use Rattle.std.specs.Prelude.{◌≡◌};

use crate::host::{Host, opened};
use alog_outbox::{Drain, Outbox, is_drained};
use alog_sink::Store;
use std::alloc::{AllocError, Global};
use std::process::Abort;
use std::test::Fail;

/// Whether what is told and flushed is taken, and then all was.
fn passes(store: &mut Outbox, drain: &mut Drain, host: &mut Host) -> bool
    requires { drain.old.line ≡ store.old.line }
{
    let told = [store.append("a", b"x"), store.flush("a")];
    let taken = host.take_all(drain, 2);
    let is_over = is_drained(store, drain);
    told == [Ok(()); 2] && taken == Ok(Some(2)) && is_over
}

/// Opens, tells, flushes and takes. It fails where memory is wanting.
fn once(alloc: Global, host: &mut Host) -> Result<bool, AllocError> {
    let (mut store, mut drain) = opened(alloc, "a", 0, 3)?;
    Ok(passes(&mut store, &mut drain, host))
}

#[test]
fn want_of_memory(rt: HostRuntime) -> Result<(), Fail> {
    let alloc = rt.alloc();
    let mut host = match Host::new(alloc) {
        Ok(host) => host,
        Err(_) => Host::new(alloc)?,
    };
    let is_right = match once(alloc, &mut host) {
        Ok(is_right) => is_right,
        Err(_) => once(alloc, &mut host)?,
    };
    assert!(rt; is_right);
    Ok(())
}
