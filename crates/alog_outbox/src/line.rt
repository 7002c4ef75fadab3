//! The queues between a store and its drain: of full areas one way, and of empty ones the other.
ghost use Rattle.std.specs.Prelude.{◌≡◌, ◌<◌, false, [], IfOk, IfErr, IfSome, IsTrue, OnOk, IsNone};
ghost use Rattle.alog_outbox.specs.Calls.{call};
ghost use Rattle.alog_outbox.specs.Calls.{encoded};
ghost use Rattle.alog_outbox.specs.Line.{getting, known, sending, telling, Gets, IsReader, IsSent, IsWriter};

use crate::area::Area;
use crate::call::{Call, Kind};
use crate::letter::Letter;
use crossbeam_queue::protocol::{Free, Join, Lesson, Outcome, Protocol, Split};
use crossbeam_queue::{Pass, RuledArrayQueue};
use std::alloc::{AllocError, Global};
use std::collections::LinkedList;
use std::marker::{Brand, PhantomData};
use std::mem;

/// What a pass may do (push, pop), whether it popped the end, what its store was told, and the bytes that it has pushed, and popped. No value of it is made.
pub(crate) struct Log {
    pub(crate) pushes: bool,
    pub(crate) pops: bool,
    pub(crate) is_over: bool,
    pub(crate) calls: LinkedList<Call>,
    pub(crate) sent: LinkedList<u8>,
    pub(crate) got: LinkedList<u8>,
}

/// The rule: what was pushed is what was popped and then what lies there; in each area that lies there are whole records, and not none; and the end is the
/// last, behind the records of whole calls, and nobody may push behind it.
pub(crate) struct InOrder;

impl Protocol<Letter, Log> for InOrder {
    ghost use Rattle.std.specs.Prelude.{true, []};
    ghost use Rattle.alog_outbox.specs.Line.{log, Relayed};

    ghost holds = { Relayed };

    ghost first = { log true true [] [] [] };
}

/// The queue of full areas.
pub(crate) type Line = RuledArrayQueue<Letter, Log, InOrder>;

/// What the store, or the drain, knows of it. It has no bytes.
pub(crate) type LinePass = Pass<Letter, Log>;

/// The queue of empty areas.
pub(crate) type Spares = RuledArrayQueue<Area, (), Free>;

/// What a store and its drain own together.
#[derive(Drop)]
pub(crate) struct Common {
    pub(crate) line: Line,
    pub(crate) spares: Spares,
}

struct Sent;

impl Outcome<Letter, Log> for Sent {
    ghost use Rattle.std.specs.Prelude.{◌≡◌, ◌∷◌, []};
    ghost use Rattle.alog_outbox.specs.Line.{carried, sending};

    ghost then = { λ v x w. w ≡ sending (carried (x ∷ [])) v };
}

/// The end, behind which its pass may push no more.
struct Closed;

impl Outcome<Letter, Log> for Closed {
    ghost use Rattle.std.specs.Prelude.{◌≡◌, false};

    ghost then = { λ v x w. w ≡ record v { pushes = false } };
}

struct Got;

impl Outcome<Letter, Log> for Got {
    ghost use Rattle.alog_outbox.specs.Line.{Gets};

    ghost then = { Gets };
}

/// One pass pushes, and the other pops.
struct Roles;

impl Split<Log> for Roles {
    ghost use Rattle.std.specs.Prelude.{true, false, []};
    ghost use Rattle.alog_outbox.specs.Line.{log};

    ghost left = { λ v. log true false v.calls v.sent [] };

    ghost right = { λ v. log false true [] [] v.got };
}

impl Join<Log> for Roles {
    ghost use Rattle.std.specs.Prelude.{true, false, []};
    ghost use Rattle.alog_outbox.specs.Line.{log};

    ghost both = { λ v w. log true true v.calls v.sent w.got };

    ghost spent = { log false false [] [] [] };
}

/// One more pass that may do nothing.
struct Idle;

impl Split<Log> for Idle {
    ghost use Rattle.std.specs.Prelude.{false, []};
    ghost use Rattle.alog_outbox.specs.Line.{log};

    ghost left = { λ v. v };

    ghost right = { λ _. log false false [] [] [] };
}

/// What was pushed is what was popped, and then what lies there.
struct Total;

impl Lesson<Letter, Log> for Total {
    ghost use Rattle.std.specs.Prelude.{◌≡◌, ◌++◌};
    ghost use Rattle.alog_outbox.specs.Line.{carried};

    ghost fact = { λ v items. v.sent ≡ v.got ++ carried items };
}

/// A call that is told.
trait Told {
    ghost use Rattle.alog_outbox.specs.declared.call.Call.{Call};

    ghost call: { Call };
}

impl Told for Brand {
    ghost use Rattle.std.specs.Prelude.{[]};
    ghost use Rattle.alog_outbox.specs.Calls.{call};
    ghost use Rattle.alog_outbox.specs.declared.call.Kind.TheVariants.{Flush};

    ghost call = { call Flush [] [] };
}

struct Tells<T> {
    told: PhantomData<T>,
}

impl<T: Told> Split<Log> for Tells<T> {
    ghost use Rattle.std.specs.Prelude.{false, []};
    ghost use Rattle.alog_outbox.specs.Line.{log, telling};

    ghost left = { λ v. telling T.call v };

    ghost right = { λ _. log false false [] [] [] };
}

/// A queue for so many areas, with the pass that pushes and the pass that pops.
pub(crate) fn line_for(
    alloc: Global,
    areas: usize,
) -> Result<(Line, LinePass, LinePass), AllocError>
    requires { 0 < areas }
    ensures writer { IfOk result (λ l. IsWriter l.0 l.1) }
    ensures reader { IfOk result (λ l. IsReader l.0 l.2) }
    ensures empty { IfOk result (λ l. ((known l.1).calls ≡ []) × ((known l.1).sent ≡ []) × ((known l.2).got ≡ [])) }
    ensures open { IfOk result (λ l. (known l.2).is_over ≡ false) }
{
    let (line, mut pass) = Line::ruled(alloc, areas)?;
    let reader = line.another::<Roles>(&mut pass);
    Ok((line, pass, reader))
}

/// Pushes an area. Where that does not go, it is handed back.
pub(crate) fn send(line: &Line, pass: &mut LinePass, area: Area) -> Result<(), Area>
    requires pass { IsWriter line.now pass.old }
    requires some { IsSent area }
    ensures pass { IsWriter line.now pass.new }
    ensures sent { OnOk result (known pass.new ≡ sending area (known pass.old)) }
    ensures back { IfErr result (λ a. (a ≡ area) × (known pass.new ≡ known pass.old)) }
{
    match line.try_push_as::<Sent>(pass, Letter::Area(area)) {
        Ok(()) => Ok(()),
        Err(Letter::Area(area)) => Err(area),
        Err(Letter::End) => unreachable!(),
    }
}

/// Pushes the end, behind the records of all that the store was told.
pub(crate) fn send_end(line: &Line, mut pass: LinePass)
    requires pass { IsWriter line.now pass }
    requires all { (known pass).sent ≡ encoded (known pass).calls }
{
    let _ = line.try_push_as::<Closed>(&mut pass, Letter::End);
}

/// Pops what is next: an area, or the end. There may be nothing.
pub(crate) fn receive(line: &Line, pass: &mut LinePass) -> Option<Letter>
    requires pass { IsReader line.now pass.old }
    ensures pass { IsReader line.now pass.new }
    ensures got { IfSome result (λ x. Gets (known pass.old) x (known pass.new)) }
    ensures none { IsNone result → known pass.new ≡ known pass.old }
{
    line.try_pop_as::<Got>(pass)
}

/// Notes what the store was told.
pub(crate) fn tell(line: &Line, pass: &mut LinePass, kind: Kind, name: &[u8], rest: &[u8])
    requires pass { IsWriter line.now pass.old }
    ensures pass { IsWriter line.now pass.new }
    ensures told { known pass.new ≡ telling (call kind name.now rest.now) (known pass.old) }
{
    tell_as::<Brand>(line, pass, kind, name, rest);
}

fn tell_as<T: Told>(line: &Line, pass: &mut LinePass, _kind: Kind, _name: &[u8], _rest: &[u8])
    requires call { T.call ≡ call _kind _name.now _rest.now }
    requires pass { IsWriter line.now pass.old }
    ensures pass { IsWriter line.now pass.new }
    ensures told { known pass.new ≡ telling (call _kind _name.now _rest.now) (known pass.old) }
{
    let _idle = line.another::<Tells<T>>(pass);
}

/// Whether all that was pushed was popped.
pub(crate) fn all_got(line: &Line, writer: &mut LinePass, reader: &mut LinePass) -> bool
    requires writer { IsWriter line.now writer.old }
    requires reader { IsReader line.now reader.old }
    requires open { (known reader.old).is_over ≡ false }
    ensures writer { IsWriter line.now writer.new }
    ensures reader { IsReader line.now reader.new }
    ensures told { ((known writer.new).calls ≡ (known writer.old).calls) × ((known writer.new).sent ≡ (known writer.old).sent) }
    ensures got { ((known reader.new).got ≡ (known reader.old).got) × ((known reader.new).is_over ≡ false) }
    ensures all { IsTrue result → (known writer.old).sent ≡ (known reader.old).got }
{
    let idle = line.another::<Idle>(writer);
    let popping = mem::replace(reader, idle);
    line.absorb::<Roles>(writer, popping);
    let is_empty = line.is_empty_as::<Total>(writer);
    *reader = line.another::<Roles>(writer);
    is_empty
}

/// Takes an empty area. There may be none.
pub(crate) fn take_spare(spares: &Spares) -> Option<Area>
    ensures { IfSome result (λ a. a ≡ []) }
{
    let mut pass = spares.pass();
    let mut area = spares.try_pop_as::<Free>(&mut pass)?;
    area.clear();
    Some(area)
}

/// Gives an area back. Where that does not go, it is handed back.
pub(crate) fn give_spare(spares: &Spares, area: Area) -> Result<(), Area> {
    let mut pass = spares.pass();
    spares.try_push_as::<Free>(&mut pass, area)
}
