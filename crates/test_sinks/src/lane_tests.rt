//! A sink under a lock, to which two threads give lines.
ghost use Rattle.std.specs.Prelude.{◌≡◌, IsTrue};
ghost use Rattle.alog_lane.specs.Calls.{IsSeatOf};
ghost use Rattle.alog_lane.specs.Seats.{first_known};
ghost use Rattle.alog_sink.specs.Sinks.{MayTurn};

use crate::sinks::{Plan, leaves, message};
use crate::stores::Yielding;
use alog_format::LineBuf;
use alog_lane::laws::alone_saw_its_own;
use alog_lane::{Held, Lane, LaneSeat};
use alog_msg::{Item, Level};
use alog_sink::laws::lanes_write_their_texts;
use alog_sink::{MemStore, Served, Sink, SinkError, Store, Taken};
use std::alloc::Global;
use std::process::Abort;
use std::test::Fail;
use std::thread::{self, Threads};

/// The turns of each thread.
const TURNS: u64 = 2_000;

/// How often a thread looks for the lock before it gives a turn up.
const LOOKS: u32 = 1_000_000;

/// What a thread works with: its seat, the text that it gives, a buffer, and the indexes of its turns, in order.
#[derive(Drop)]
struct Writer {
    seat: LaneSeat<Sink<Yielding>>,
    text: Item,
    line: LineBuf,
    indexes: Vec<u64>,
}

impl Writer {
    /// Gives the text once, as soon as the lock is free at one of so many looks.
    fn write(&mut self, lane: &Lane<Sink<Yielding>>)
        requires seat { IsSeatOf lane.now self.old.seat }
        requires turn { MayTurn lane.now.first self.old.text self.old.line }
        ensures seat { IsSeatOf lane.now self.new.seat }
        ensures turn { MayTurn lane.now.first self.new.text self.new.line }
    {
        for _ in 0..LOOKS {
            match lane.turn_once(&mut self.seat, 0, &self.text, &mut self.line) {
                Ok((index, reply)) => {
                    self.note(index, reply);
                    return;
                }
                Err(Held) => thread::yield_now(),
            }
        }
    }

    /// Notes the index of a turn that wrote a line.
    fn note(&mut self, index: u64, reply: Result<Served, SinkError>)
        ensures { (self.new.seat ≡ self.old.seat) × (self.new.text ≡ self.old.text) × (self.new.line ≡ self.old.line) }
    {
        if reply == Ok(Served::Taken(Taken::Written)) {
            drop(self.indexes.push(index));
        }
    }

    /// Gives the text so many times.
    fn write_all(self, lane: &Lane<Sink<Yielding>>) -> Writer
        requires seat { IsSeatOf lane.now self.seat }
        requires turn { MayTurn lane.now.first self.text self.line }
        ensures { IsSeatOf lane.now result.seat }
    {
        let mut writer = self;
        for _ in 0..TURNS {
            writer.write(lane);
        }
        writer
    }
}

// Both write at once.
fn write_both(
    rt: &impl Threads,
    lane: &Lane<Sink<Yielding>>,
    one: Writer,
    two: Writer,
) -> (Writer, Writer)
    requires seats { IsSeatOf lane.now one.seat × IsSeatOf lane.now two.seat }
    requires turns { MayTurn lane.now.first one.text one.line × MayTurn lane.now.first two.text two.line }
    ensures { IsSeatOf lane.now result.0.seat × IsSeatOf lane.now result.1.seat }
{
    thread::join(
        rt,
        || -> Writer
            requires { IsSeatOf lane.now one.seat × MayTurn lane.now.first one.text one.line }
            ensures { IsSeatOf lane.entry.now result.seat }
        { one.write_all(lane) },
        || -> Writer
            requires { IsSeatOf lane.now two.seat × MayTurn lane.now.first two.text two.line }
            ensures { IsSeatOf lane.entry.now result.seat }
        { two.write_all(lane) },
    )
}

// The lines at these indexes, of two bytes each, have this letter.
fn has_letter(rt: &impl Abort, bytes: &[u8], indexes: &[u64], letter: u8) {
    assert_eq!(rt; indexes.len() as u64, TURNS);
    for index in indexes {
        let line = bytes
            .get((*index as usize).saturating_mul(2)..)
            .and_then(|rest| rest.get(..2));
        assert!(rt; line == Some(&[letter, b'\n']), "{index}");
    }
}

// The indexes of the turns of each of two threads, and the sink to which they wrote.
type Written = (Vec<u64>, Vec<u64>, Sink<Yielding>);

// The file has the lines of both, each at the index of its turn.
fn has_lines(rt: &impl Abort, written: &Written) {
    let (one, two, sink) = written;
    let file = sink.store().and_then(|store| store.0.files().get("log"));
    let Some(bytes) = file else {
        panic!(rt; "no file")
    };
    assert_eq!(rt; bytes.len() as u64, 4 * TURNS);
    has_letter(rt, bytes, one, b'a');
    has_letter(rt, bytes, two, b'b');
}

// What a thread gives, and room for its line.
#[derive(Drop)]
struct Draft {
    text: Item,
    line: LineBuf,
}

// A text of level info.
fn draft_of(alloc: Global, text: &str) -> Result<Draft, Fail> {
    let text = Item::Text(message(alloc, Level::Info, text)?);
    let line = LineBuf::new(alloc, 128)?;
    Ok(Draft { text, line })
}

// Two of them.
fn drafts(alloc: Global) -> Result<(Draft, Draft), Fail> {
    Ok((draft_of(alloc, "a")?, draft_of(alloc, "b")?))
}

// Whether a sink may be given this.
fn may_turn<S: Store>(sink: &Sink<S>, given: &Draft) -> bool
    ensures { IsTrue result → MayTurn sink.now given.now.text given.now.line }
{
    match &given.text {
        Item::Text(message) => sink.may_take(message, &given.line),
        Item::Flush(_) => true,
        Item::Stop => false,
    }
}

// A sink under a lock, which may be given both.
fn lane_over<S: Store + Drop>(
    rt: &impl Abort,
    alloc: Global,
    sink: Sink<S>,
    one: &Draft,
    two: &Draft,
) -> (Lane<Sink<S>>, LaneSeat<Sink<S>>)
    ensures seat { IsSeatOf result.0 result.1 }
    ensures known { result.1.known ≡ first_known }
    ensures one { MayTurn result.0.first one.now.text one.now.line }
    ensures two { MayTurn result.0.first two.now.text two.now.line }
{
    assert!(rt; may_turn(&sink, one) && may_turn(&sink, two));
    match Lane::new(alloc, sink) {
        Ok(made) => made,
        Err(_) => panic!(rt; "out of memory"),
    }
}

// Both write, each with a seat of its own.
fn write(
    rt: &(impl Abort + Threads),
    alloc: Global,
    lane: Lane<Sink<Yielding>>,
    seat: LaneSeat<Sink<Yielding>>,
    one: Draft,
    two: Draft,
) -> Written
    requires seat { IsSeatOf lane seat }
    requires known { seat.known ≡ first_known }
    requires turns { MayTurn lane.first one.text one.line × MayTurn lane.first two.text two.line }
{
    let mut seat = seat;
    let one = Writer {
        seat: lane.split(&mut seat, 1),
        text: one.text,
        line: one.line,
        indexes: Vec::new(alloc),
    };
    let two = Writer {
        seat: lane.split(&mut seat, 1),
        text: two.text,
        line: two.line,
        indexes: Vec::new(alloc),
    };
    let (one, two) = write_both(rt, &lane, one, two);
    lane.join(&mut seat, one.seat);
    lane.join(&mut seat, two.seat);
    match lane.close(seat) {
        Ok(sink) => (one.indexes, two.indexes, sink),
        Err(_) => panic!(rt; "a seat is out"),
    }
}

// The same with a lane over this sink.
fn write_over(
    rt: &(impl Abort + Threads),
    alloc: Global,
    sink: Sink<Yielding>,
    one: Draft,
    two: Draft,
) -> Written {
    let (lane, seat) = lane_over(rt, alloc, sink, &one, &two);
    write(rt, alloc, lane, seat, one, two)
}

// The same with a sink of its own.
fn write_to_a_sink(
    rt: &(impl Abort + Threads),
    alloc: Global,
    one: Draft,
    two: Draft,
) -> Result<Written, Fail> {
    let sink = Plan::MEMORY.opened(alloc, Yielding(MemStore::new(alloc)))?;
    Ok(write_over(rt, alloc, sink, one, two))
}

// Both write, and the file has the lines of both.
fn write_lines(
    rt: &(impl Abort + Threads),
    alloc: Global,
    one: Draft,
    two: Draft,
) -> Result<(), Fail> {
    let written = write_to_a_sink(rt, alloc, one, two)?;
    has_lines(rt, &written);
    Ok(())
}

#[test]
fn two_threads_write_lines(rt: HostRuntime) -> Result<(), Fail> {
    let (one, two) = drafts(rt.alloc())?;
    write_lines(&rt, rt.alloc(), one, two)
}

// A text is written by a turn, and flushed by the next. The sink then.
fn write_and_flush(
    rt: &impl Abort,
    lane: Lane<Sink<MemStore>>,
    seat: LaneSeat<Sink<MemStore>>,
    given: Draft,
) -> Sink<MemStore>
    requires seat { IsSeatOf lane seat }
    requires turn { MayTurn lane.first given.text given.line }
{
    let (mut seat, Draft { text, mut line }) = (seat, given);
    let taken = lane.turn_once(&mut seat, 5, &text, &mut line);
    answers(rt, taken, 0, Served::Taken(Taken::Written));
    let flushed = lane.turn_once(&mut seat, 6, &Item::Flush(0), &mut line);
    answers(rt, flushed, 1, Served::Flushed);
    match lane.close(seat) {
        Ok(sink) => sink,
        Err(_) => panic!(rt; "a seat is out"),
    }
}

// The turn of this index answered so.
fn answers(
    rt: &impl Abort,
    turn: Result<(u64, Result<Served, SinkError>), Held>,
    index: u64,
    wanted: Served,
) {
    assert!(rt;
        turn != Ok((index, Err(SinkError::Store))),
        "the store failed"
    );
    assert!(rt; turn == Ok((index, Ok(wanted))));
}

// The same with a lane over this sink.
fn write_on_a_lane(
    rt: &impl Abort,
    alloc: Global,
    sink: Sink<MemStore>,
    given: Draft,
) -> Sink<MemStore> {
    let (lane, seat) = lane_over(rt, alloc, sink, &given, &given);
    write_and_flush(rt, lane, seat, given)
}

// Whether the sink, which goes then, leaves one line.
fn leaves_a_line(sink: Sink<MemStore>) -> Result<bool, SinkError> {
    leaves(&sink, &[("log", b"a\n")])
}

#[test]
fn a_lane_over_a_sink(rt: HostRuntime) -> Result<(), Fail> {
    let alloc = rt.alloc();
    let draft = draft_of(alloc, "a")?;
    let sink = Plan::MEMORY.opened(alloc, MemStore::new(alloc))?;
    let is_left = leaves_a_line(write_on_a_lane(&rt, alloc, sink, draft))?;
    assert!(rt; is_left);
    Ok(())
}

#[test]
fn laws_of_lanes(_rt: HostRuntime) {
    lanes_write_their_texts::<MemStore>();
    alone_saw_its_own::<u64>();
}
