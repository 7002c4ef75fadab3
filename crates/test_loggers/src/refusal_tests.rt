//! Messages that a logger refuses, and what it leaves then.
ghost use Rattle.std.specs.Prelude.{◌≤◌, ◌<◌, length};
ghost use Rattle.alog_registry.specs.Limit.{AdmitsShort};
ghost use Rattle.test_loggers.specs.declared.trial.TheConstants.{TEXT_LIMIT};

use crate::trial::{TEXT_LIMIT, Words, at_level, backtrace_of, desk_of, filtered, one, tells};
use alog_msg::{Item, Level, MessageError, SourceRef};
use alog_policy::{Desk, Policy};
use alog_registry::{Backtrace, ItemOutlet, Loggers};
use std::alloc::Global;
use std::process::Abort;
use std::test::Fail;

// So many letters.
fn letters(alloc: Global, count: usize) -> Result<String, Fail> {
    let mut text = String::new(alloc);
    for _ in 0..count {
        text.push('a')?;
    }
    Ok(text)
}

// A text of 65 bytes is refused before a file of 257, which is refused too; nothing is kept of either.
fn refuses<O: ItemOutlet>(
    rt: &impl Abort,
    loggers: &Loggers,
    alloc: Global,
    outlet: &mut O,
    kept: &mut Backtrace,
    long: Words<'_>,
)
    requires known { 0 < length loggers.now }
    requires outlet { O.is_ready outlet.old × AdmitsShort O.admits TEXT_LIMIT outlet.old }
    requires kept { TEXT_LIMIT ≤ kept.old.limit }
    ensures { O.is_ready outlet.new × AdmitsShort O.admits TEXT_LIMIT outlet.new }
{
    let text = Err(MessageError::TextTooLong);
    tells(rt, loggers, alloc, outlet, kept, long, text);
    let file = Words {
        level: Level::Info,
        text: "",
        ..long
    };
    let field = Err(MessageError::FieldTooLong);
    tells(rt, loggers, alloc, outlet, kept, file, field);
    assert!(rt; kept.is_empty());
}

// A logger that keeps nothing does not look at a message below its level.
pub(crate) fn looks_at_none_below<O: ItemOutlet>(
    rt: &impl Abort,
    bare: &Loggers,
    alloc: Global,
    outlet: &mut O,
    none: &mut Backtrace,
    long: Words<'_>,
)
    requires known { 0 < length bare.now }
    requires outlet { O.is_ready outlet.old × AdmitsShort O.admits TEXT_LIMIT outlet.old }
    requires none { TEXT_LIMIT ≤ none.old.limit }
{
    tells(rt, bare, alloc, outlet, none, long, filtered(false));
    let info = Words {
        level: Level::Info,
        ..long
    };
    let text = Err(MessageError::TextTooLong);
    tells(rt, bare, alloc, outlet, none, info, text);
}

// Actor 1 logs what is refused: by a logger that keeps one message, and by one that keeps none.
fn log_refused(
    rt: &impl Abort,
    loggers: &Loggers,
    bare: &Loggers,
    alloc: Global,
    desk: &mut Desk<Item>,
    long: Words<'_>,
)
    requires { (0 < length loggers.now) × (0 < length bare.now) }
{
    let mut kept = backtrace_of(rt, alloc, 1);
    let mut none = backtrace_of(rt, alloc, 0);
    let Ok(mut outlet) = desk.outlet(1) else {
        panic!(rt; "the actor is in no call")
    };
    refuses(rt, loggers, alloc, &mut outlet, &mut kept, long);
    looks_at_none_below(rt, bare, alloc, &mut outlet, &mut none, long);
}

// The same with two such loggers, and on a new desk.
fn refuse_on_a_desk(rt: &impl Abort, alloc: Global, long: Words<'_>) {
    let loggers = one(rt, alloc, Policy::Block, 1);
    let bare = one(rt, alloc, Policy::Block, 0);
    let mut desk = desk_of(rt, alloc, 2);
    log_refused(rt, &loggers, &bare, alloc, &mut desk, long);
}

#[test]
fn refused_messages(rt: HostRuntime) -> Result<(), Fail> {
    let alloc = rt.alloc();
    let (text, file) = (letters(alloc, 65)?, letters(alloc, 257)?);
    let long = Words {
        source: Some(SourceRef {
            file: file.as_str(),
            line: 1,
            function: "",
        }),
        ..at_level(Level::Debug, text.as_str())
    };
    refuse_on_a_desk(&rt, alloc, long);
    Ok(())
}
