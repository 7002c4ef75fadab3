//! A reader that another thread reads while its caller has something else to do.
ghost use Rattle.std.specs.Prelude.{◌≡◌, true, false, IfOk, IsNone, IsOk, IsSome, IsTrue, OnErr, OnOk, Some, None};
ghost use Rattle.std.specs.Io.{ReadsAtMost};
ghost use Rattle.std.specs.Io.KnownBytes.{ReadConsumes};
ghost use Rattle.alog_pipe.specs.Aside.{GaveAll, brought, left_here, left_of};

use crate::timed_read::TimedRead;
use crossbeam_channel::{Receiver, RecvTimeoutError, Sender, bounded};
use std::alloc::{AllocError, Global};
use std::io::{self, Error, ErrorKind, Read};
use std::marker::Model;
use std::mem;
use std::sync::Wait;
use std::thread::{self, JoinHandle, Threads};
use std::time::{Clock, Duration};

/// How many bytes a read of the thread brings at most: as many as a pipe of Linux holds.
const READ_BYTES: usize = 65_536;

/// How many milliseconds pass where the reader itself does not wait, and has nothing.
const MOMENT_MILLIS: u64 = 1;

/// One read by the thread: the reader, which is its own until it gives it back, room for bytes, and how many came.
#[derive(Drop)]
struct Turn<I> {
    input: I,
    bytes: Vec<u8>,
    read: io::Result<usize>,
}

/// The thread that reads: the ends of the channels to it, which has one turn at most, and what its last turn brought.
#[derive(Drop)]
struct Aside<I> {
    asks: Sender<Turn<I>>,
    answers: Receiver<Turn<I>>,
    /// What its start gave, and nothing else gives.
    _thread: JoinHandle<()>,
    /// The room of the thread's reads. What the last of them brought, and no read gave yet, lies from `start` to `end`.
    bytes: Vec<u8>,
    start: usize,
    end: usize,
}

/// A reader over another one, whose reads wait no longer than they may: one that may not wait for ever is made by a thread, which keeps the
/// reader until its read is done, and later reads get what it brought. The bytes are those of the reader, in their order, whoever read
/// them; contracts say so as long as no thread was started.
///
/// A read that may wait for ever is made by the caller, unless the thread has the reader. Where no thread was started all reads wait.
#[derive(Drop)]
pub struct ReadAside<R, I> {
    rt: R,
    /// The reader, unless the thread has it.
    input: Option<I>,
    aside: Option<Aside<I>>,
    timeout: Option<Duration>,
}

impl<R, I> Model for ReadAside<R, I> {
    ghost use Rattle.std.specs.Prelude.{is_some};
    ghost use Rattle.alog_pipe.specs.Aside.{AsideView};

    ghost Value = { AsideView I };

    ghost view = { λ r. record { reader = r.input; has_thread = is_some r.aside; timeout = r.timeout } };
}

impl<R: AllocGlobal, I: Read> ReadAside<R, I> {
    /// Reads of this reader, which wait.
    pub fn new(rt: R, input: I) -> ReadAside<R, I>
        ensures reader { result ≡ record { reader = Some input; has_thread = false; timeout = None } }
        ensures bytes { left_of I.remaining result ≡ I.remaining input }
    {
        ReadAside {
            rt,
            input: Some(input),
            aside: None,
            timeout: None,
        }
    }

    /// Starts the thread, which waits until there is something to do for it; where it was started nothing is done. Where there is no memory
    /// for it, or the system gives none, nothing changes.
    pub fn start<T>(&mut self, rt: &T) -> Result<(), AllocError>
    where
        T: Threads + Wait + Clone + Drop + Send + 'static,
        I: Drop + Send + 'static,
        ensures started { OnOk result (self.new ≡ record self.old { has_thread = true }) }
        ensures again { self.old.has_thread ≡ true → IsOk result × (self.new ≡ self.old) }
        ensures refused { OnErr result (self.new ≡ self.old) }
    {
        if self.aside.is_none() {
            self.aside = Some(start_aside(rt, self.rt.alloc())?);
        }
        Ok(())
    }
}

impl<R: AllocGlobal + Wait + Clock, I: Read + Drop> TimedRead for ReadAside<R, I> {
    fn set_read_timeout(&mut self, timeout: Option<Duration>)
        ensures given { left_of I.remaining self.new ≡ left_of I.remaining self.old }
        ensures told { self.new ≡ record self.old { timeout = timeout } }
    {
        self.timeout = timeout;
    }
}

impl<R: AllocGlobal + Wait + Clock, I: Read + Drop> Read for ReadAside<R, I> {
    ghost remaining = { left_of I.remaining };

    fn read(&mut self, buf: &mut [u8]) -> io::Result<usize> {
        let read = match &mut self.aside {
            None => read_here(&mut self.input, buf),
            Some(aside) => aside.read(&self.rt, &mut self.input, self.timeout, buf),
        };
        if self.input.is_some() && is_nothing(&read) {
            thread::sleep(&self.rt, Duration::from_millis(MOMENT_MILLIS));
        }
        read
    }
}

/// Reads where the thread has not the reader.
fn read_here<I: Read>(input: &mut Option<I>, buf: &mut [u8]) -> io::Result<usize>
    ensures bound { ReadsAtMost result buf.new }
    ensures bytes { ReadConsumes (left_here I.remaining input.old) (left_here I.remaining input.new) result buf.new }
{
    match input {
        Some(input) => input.read(buf),
        None => Err(lost()),
    }
}

impl<I: Read + Drop> Aside<I> {
    /// Gives what the thread brought; or reads, or has the thread read.
    fn read<R: AllocGlobal + Wait + Clock>(
        &mut self,
        rt: &R,
        input: &mut Option<I>,
        timeout: Option<Duration>,
        buf: &mut [u8],
    ) -> io::Result<usize>
        ensures bound { ReadsAtMost result buf.new }
        ensures given { ¬ GaveAll self.old → ReadConsumes (Some (brought self.old)) (Some (brought self.new)) result buf.new }
        ensures here { GaveAll self.old → IsSome input.old → IsNone timeout
            → ReadConsumes (left_here I.remaining input.old) (left_here I.remaining input.new) result buf.new }
    {
        if self.start == self.end {
            if self.reads_here(rt, input, timeout) {
                return read_here(input, buf);
            }
            self.fetch(rt, input, timeout)?;
        }
        self.give(buf)
    }

    /// Whether the next read is made here. Where it may not wait for ever, the thread gets the reader.
    fn reads_here<R: AllocGlobal + Wait>(
        &mut self,
        rt: &R,
        input: &mut Option<I>,
        timeout: Option<Duration>,
    ) -> bool
        ensures { IsSome input.old → IsNone timeout → IsTrue result × (input.new ≡ input.old) }
    {
        input.is_some() && (timeout.is_none() || !self.hand_over(rt, input))
    }

    /// Hands the reader to the thread, which reads once, and answers whether it has it.
    fn hand_over<R: AllocGlobal + Wait>(&mut self, rt: &R, input: &mut Option<I>) -> bool {
        let Some(reader) = input.take() else {
            return true;
        };
        let turn = Turn {
            input: reader,
            bytes: mem::replace(&mut self.bytes, Vec::new(rt.alloc())),
            read: Ok(0),
        };
        match self.asks.send(rt, turn) {
            Ok(()) => true,
            Err(error) => {
                let _ = self.take_back(error.into_inner(), input);
                false
            }
        }
    }

    /// Takes the reader and the room back.
    fn take_back(&mut self, turn: Turn<I>, reader: &mut Option<I>) -> io::Result<usize> {
        let Turn { input, bytes, read } = turn;
        *reader = Some(input);
        self.bytes = bytes;
        read
    }

    /// Waits for what the thread reads, as long as a read may.
    fn fetch<R: Wait + Clock>(
        &mut self,
        rt: &R,
        input: &mut Option<I>,
        timeout: Option<Duration>,
    ) -> io::Result<()> {
        let turn = self.answer(rt, timeout)?;
        self.start = 0;
        self.end = 0;
        self.end = self.take_back(turn, input)?;
        Ok(())
    }

    /// What the thread read, or that it did not so long.
    fn answer<R: Wait + Clock>(&self, rt: &R, timeout: Option<Duration>) -> io::Result<Turn<I>> {
        let Some(timeout) = timeout else {
            return self.answers.recv(rt).map_err(|_| lost());
        };
        match self.answers.recv_timeout(rt, timeout) {
            Ok(turn) => Ok(turn),
            Err(RecvTimeoutError::Timeout) => Err(Error::from(ErrorKind::WouldBlock)),
            Err(RecvTimeoutError::Disconnected) => Err(lost()),
        }
    }

    /// Gives what the thread brought, as much as there is room for.
    fn give(&mut self, buf: &mut [u8]) -> io::Result<usize>
        ensures bound { ReadsAtMost result buf.new }
        ensures given { ReadConsumes (Some (brought self.old)) (Some (brought self.new)) result buf.new }
    {
        let Some(brought) = self.bytes.as_slice().get(self.start..self.end) else {
            return Err(lost());
        };
        let mut left = brought;
        let count = left.read(buf)?;
        self.start = self.start.saturating_add(count);
        Ok(count)
    }
}

/// Whether a read had nothing to give.
fn is_nothing(read: &io::Result<usize>) -> bool {
    match read {
        Ok(_) => false,
        Err(error) => error.kind() == ErrorKind::WouldBlock,
    }
}

/// The thread is gone, and the reader with it. No thread goes while it has the reader.
fn lost() -> Error {
    Error::from(ErrorKind::BrokenPipe)
}

/// Starts a thread that reads once each time that it is asked, until nobody can ask it any more.
fn start_aside<T, I>(rt: &T, alloc: Global) -> Result<Aside<I>, AllocError>
where
    T: Threads + Wait + Clone + Drop + Send + 'static,
    I: Read + Drop + Send + 'static,
    ensures { IfOk result GaveAll }
{
    let bytes = vec![in alloc; 0; READ_BYTES]?;
    let (asks, asked) = bounded(alloc, 1)?;
    let (answered, answers) = bounded(alloc, 1)?;
    let own = rt.clone()?;
    let _thread = thread::spawn(rt, move || read_turns(&own, asked, answered))?;
    Ok(Aside {
        asks,
        answers,
        _thread,
        bytes,
        start: 0,
        end: 0,
    })
}

/// Reads once for each turn.
fn read_turns<R: Wait, I: Read + Drop>(
    rt: &R,
    asked: Receiver<Turn<I>>,
    answered: Sender<Turn<I>>,
) {
    for _ in rt.forever() {
        let Ok(mut turn) = asked.recv(rt) else {
            return;
        };
        turn.read = turn.input.read(turn.bytes.as_mut_slice());
        if answered.send(rt, turn).is_err() {
            return;
        }
    }
}
