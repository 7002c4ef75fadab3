//! Reads that a thread makes while its caller has something else to do.
use alog_program::{ReadAside, TimedRead};
use std::alloc::{AllocError, Global};
use std::io::{self, Error, ErrorKind, Read};
use std::sync::atomic::{AtomicUsize, Ordering};
use std::sync::{Arc, Wait};
use std::thread::{self, Threads};
use std::time::{Clock, Duration};

/// A reader of some bytes.
#[derive(Drop)]
struct Slow<R> {
    rt: R,
    bytes: Vec<u8>,
    /// How many of them are there. A read waits for one more, or for the last.
    there: Arc<AtomicUsize>,
    given: usize,
    /// Where a read fails once.
    fails_at: Option<usize>,
}

impl<R: Wait + Clock> Slow<R> {
    /// How many bytes there are when a read has something to give.
    fn ready(&self) -> usize {
        for _ in self.rt.forever() {
            let there = self.there.load(Ordering::SeqCst);
            if there > self.given || there >= self.bytes.len() {
                return there.min(self.bytes.len());
            }
            thread::sleep(&self.rt, Duration::from_millis(1));
        }
        unreachable!()
    }
}

impl<R: Wait + Clock> Read for Slow<R> {
    fn read(&mut self, buf: &mut [u8]) -> io::Result<usize> {
        if self.fails_at == Some(self.given) {
            self.fails_at = None;
            return Err(Error::from(ErrorKind::TimedOut));
        }
        let end = self.fails_at.unwrap_or(usize::MAX).min(self.ready());
        let bytes = self.bytes.as_slice();
        let mut left = bytes.get(self.given..end).unwrap_or(&[]);
        let count = left.read(buf)?;
        self.given = self.given.saturating_add(count);
        Ok(count)
    }
}

/// So many bytes: 0, 1 and so on up to 250, and again.
fn counted_up(alloc: Global, count: u64) -> Result<Vec<u8>, AllocError> {
    let mut bytes = Vec::new(alloc);
    for place in 0..count {
        bytes.push(byte_at(place))?;
    }
    Ok(bytes)
}

/// The byte of this place.
fn byte_at(place: u64) -> u8 {
    (place % 251) as u8
}

/// What a caller read so far.
#[derive(Clone, Copy, Debug, PartialEq, Eq)]
struct Seen {
    bytes: u64,
    /// Whether all are those of their places.
    in_order: bool,
    /// How many reads failed since they may not wait, and how many otherwise.
    refused: u64,
    failed: u64,
}

impl Seen {
    fn nothing() -> Seen {
        Seen {
            bytes: 0,
            in_order: true,
            refused: 0,
            failed: 0,
        }
    }

    /// Reads once, and answers whether the reader is at its end.
    fn read(&mut self, reader: &mut impl Read) -> bool {
        let mut buf = [0; 1000];
        match reader.read(&mut buf) {
            Ok(0) => return true,
            Ok(count) => {
                for byte in &buf[..count] {
                    self.in_order = self.in_order && *byte == byte_at(self.bytes);
                    self.bytes = self.bytes.saturating_add(1);
                }
            }
            Err(error) if error.kind() == ErrorKind::WouldBlock => {
                self.refused = self.refused.saturating_add(1);
            }
            Err(_) => self.failed = self.failed.saturating_add(1),
        }
        false
    }

    /// Reads until so many bytes were seen, or the reader is at its end: at most so often as fits into half a minute.
    fn read_up_to(&mut self, reader: &mut impl Read, bytes: u64) {
        for _ in 0..30_000 {
            if self.bytes >= bytes || self.read(reader) {
                return;
            }
        }
    }
}

/// How long a read waits that may not wait for ever.
fn moment() -> Option<Duration> {
    Some(Duration::from_millis(1))
}

fn timeout_of(waits: bool) -> Option<Duration> {
    if waits { None } else { moment() }
}

/// Reads of so many bytes, of which some are there, by a thread where they may not wait for ever.
fn reads_of<R>(
    rt: R,
    there: Arc<AtomicUsize>,
    all: u64,
    fails_at: Option<usize>,
) -> Result<ReadAside<R, Slow<R>>, AllocError>
where
    R: AllocGlobal + Threads + Wait + Clock + Clone + Copy + Drop + Send + 'static,
{
    let bytes = counted_up(rt.alloc(), all)?;
    let input = Slow {
        rt,
        bytes,
        there,
        given: 0,
        fails_at,
    };
    let mut reader = ReadAside::new(rt, input);
    reader.start(&rt)?;
    Ok(reader)
}

/// What was seen of ten bytes when the first three were read, behind one read more, and when all were there.
fn halted<R>(rt: R, there: Arc<AtomicUsize>) -> Result<(Seen, Seen, Seen), AllocError>
where
    R: AllocGlobal + Threads + Wait + Clock + Clone + Copy + Drop + Send + 'static,
{
    let mut reader = reads_of(rt, Arc::try_clone(&there)?, 10, None)?;
    Ok(halt(&mut reader, &there))
}

fn halt(reader: &mut impl TimedRead, there: &AtomicUsize) -> (Seen, Seen, Seen) {
    let mut seen = Seen::nothing();
    reader.set_read_timeout(moment());
    seen.read_up_to(reader, 3);
    let three = seen;
    seen.read(reader);
    let none = seen;
    there.store(10, Ordering::SeqCst);
    reader.set_read_timeout(None);
    seen.read_up_to(reader, 11);
    (three, none, seen)
}

#[test]
fn a_read_that_may_not_wait_fails_where_nothing_comes(rt: HostRuntime) -> io::Result<()> {
    let there = Arc::new(rt.alloc(), AtomicUsize::new(3))?;
    let (three, none, all) = halted(rt, there)?;
    assert!(rt; three.bytes == 3 && three.in_order && three.failed == 0);
    assert!(rt; none.bytes == 3 && none.refused == three.refused.saturating_add(1));
    assert!(rt; all.bytes == 10 && all.in_order && all.failed == 0 && all.refused == none.refused);
    Ok(())
}

/// What was seen of ten bytes, of which three were there when the thread was started again, while it had the reader.
fn started_twice<R>(rt: R, there: Arc<AtomicUsize>) -> Result<Seen, AllocError>
where
    R: AllocGlobal + Threads + Wait + Clock + Clone + Copy + Drop + Send + 'static,
{
    let mut reader = reads_of(rt, Arc::try_clone(&there)?, 10, None)?;
    start_again(&rt, &mut reader, &there)
}

fn start_again<R>(
    rt: &R,
    reader: &mut ReadAside<R, Slow<R>>,
    there: &AtomicUsize,
) -> Result<Seen, AllocError>
where
    R: AllocGlobal + Threads + Wait + Clock + Clone + Copy + Drop + Send + 'static,
{
    let mut seen = Seen::nothing();
    reader.set_read_timeout(moment());
    seen.read_up_to(reader, 3);
    seen.read(reader);
    reader.start(rt)?;
    there.store(10, Ordering::SeqCst);
    seen.read_up_to(reader, 11);
    Ok(seen)
}

#[test]
fn a_second_start_leaves_the_reader_with_the_thread(rt: HostRuntime) -> io::Result<()> {
    let there = Arc::new(rt.alloc(), AtomicUsize::new(3))?;
    let seen = started_twice(rt, there)?;
    assert!(rt; seen.bytes == 10 && seen.in_order && seen.failed == 0);
    Ok(())
}

/// Reads all of 200,000 bytes, and an error among them, where each so many-th read may wait for ever.
fn read_all<R>(rt: R, there: Arc<AtomicUsize>, waits: u32) -> Result<Seen, AllocError>
where
    R: AllocGlobal + Threads + Wait + Clock + Clone + Copy + Drop + Send + 'static,
{
    let mut reader = reads_of(rt, there, 200_000, Some(100_001))?;
    let mut seen = Seen::nothing();
    for turn in 0..30_000u32 {
        reader.set_read_timeout(timeout_of(turn.checked_rem(waits) == Some(0)));
        if seen.read(&mut reader) {
            break;
        }
    }
    Ok(seen)
}

#[test]
fn all_bytes_are_given_in_their_order_whoever_reads(rt: HostRuntime) -> io::Result<()> {
    for waits in [1, 2, 3, u32::MAX] {
        let there = Arc::new(rt.alloc(), AtomicUsize::new(200_000))?;
        let seen = read_all(rt, there, waits)?;
        assert!(rt;
            seen.bytes == 200_000 && seen.in_order && seen.failed == 1,
            "{waits}"
        );
    }
    Ok(())
}

/// A reader that has nothing and does not wait, so many times.
#[derive(Drop)]
struct Impatient {
    reads: u64,
}

impl Read for Impatient {
    fn read(&mut self, _buf: &mut [u8]) -> io::Result<usize> {
        if self.reads == 0 {
            return Ok(0);
        }
        self.reads = self.reads.saturating_sub(1);
        Err(Error::from(ErrorKind::WouldBlock))
    }
}

/// What was seen of a reader that has nothing fifty times.
fn hasty<R>(rt: R, timeout: Option<Duration>) -> Result<Seen, AllocError>
where
    R: AllocGlobal + Threads + Wait + Clock + Clone + Copy + Drop + Send + 'static,
{
    let mut reader = ReadAside::new(rt, Impatient { reads: 50 });
    reader.start(&rt)?;
    reader.set_read_timeout(timeout);
    let mut seen = Seen::nothing();
    seen.read_up_to(&mut reader, 1);
    Ok(seen)
}

#[test]
fn a_reader_that_does_not_wait_is_read_once_a_millisecond(rt: HostRuntime) -> io::Result<()> {
    for timeout in [None, moment()] {
        let before = rt.monotonic()?;
        let seen = hasty(rt, timeout)?;
        let past = rt.monotonic()?.saturating_sub(before);
        assert!(rt; seen.refused >= 50 && past >= Duration::from_millis(50));
    }
    Ok(())
}
