//! Handles that are tried, and each call on them, with what it tells beside its answer.
use crate::records::{Record, has_records};
use alog_ffi::{
    AlogHandle, AlogReport, Answer, Asked, Said, Source, close, dump, faults, file_names, find,
    flush, found, give, is_on, log, open, producer, queue_places, set_level, shutdown, take, work,
    worker,
};
use std::alloc::{AllocError, Global};
use std::mem::{self, ManuallyDrop};

/// A handle, of which no clause says what is let go with it.
type Handle = ManuallyDrop<AlogHandle>;

/// The handle of a pool.
pub const POOL: usize = 0;

/// That of its files.
pub const FILES: usize = 1;

/// That of a producer.
pub const TALKER: usize = 2;

/// That of a worker.
pub const WRITER: usize = 3;

/// Further handles: of a producer or a worker, or of another pool and its files.
pub const SECOND: usize = 4;

pub const THIRD: usize = 5;

pub const OTHER: usize = 6;

pub const OTHER_FILES: usize = 7;

/// A handle that holds nothing.
pub const NONE: usize = 8;

/// How many handles there are.
const HANDLES: usize = 9;

/// How many bytes an area has.
pub const AREA: usize = 131_072;

/// What stands where a call is to tell a number, before it does.
pub const UNTOLD: u64 = 99;

/// The first answer that is a refusal.
const REFUSED: u32 = 16;

/// What is asked of an open, how many bytes there are for its words, and what they are to be.
#[derive(Clone, Copy)]
pub struct Opening<'a> {
    pub document: &'a [u8],
    pub producers: usize,
    pub areas: usize,
    pub room: usize,
    pub words: &'a [u8],
}

/// A report of these numbers.
fn report(numbers: [u64; 6]) -> AlogReport {
    AlogReport {
        asked: numbers[0],
        posted: numbers[1],
        discarded: numbers[2],
        overrun: numbers[3],
        handled: numbers[4],
        faults: numbers[5],
    }
}

/// What is done. A handle is told by its number.
#[derive(Clone, Copy)]
pub enum Deed<'a> {
    /// The files of a document's sinks are told, into so many bytes: their names.
    Names(&'a [u8], usize, &'a [u8]),
    /// The places of a document's queue are told: how many.
    Places(&'a [u8], usize),
    /// A file of this name and size is told.
    Founds(usize, &'a [u8], u64),
    /// A pool is opened, with these files.
    Opens(usize, usize, Opening<'a>),
    /// A pool makes a producer.
    Makes(usize, usize),
    /// A pool makes a worker.
    Hires(usize, usize),
    /// A logger of this name is found: its number.
    Finds(usize, &'a [u8], u64),
    /// The level of a logger is set.
    Sets(usize, u32, u32),
    /// Whether a logger reads a message of this level is asked.
    Asks(usize, u32, u32),
    /// A text of this level is logged to a logger: its ticket.
    Logs(usize, u32, u32, &'a [u8], u64),
    /// A text of level info is logged to the first logger: its ticket.
    Says(usize, &'a [u8], u64),
    /// A text of level info is logged to a logger, with the file and the function of its source: its ticket.
    Tells(usize, u32, &'a [u8], &'a [u8], &'a [u8], u64),
    /// A flush of a logger is posted: its ticket.
    Flushes(usize, u32, u64),
    /// The backtrace of a logger is dumped: how many posts that made.
    Dumps(usize, u32, u64),
    /// A worker ends items, at most so many: how many it ended.
    Works(usize, usize, u64),
    /// The faults of a worker so far are told: how many.
    Fails(usize, u64),
    /// What is next to be done to files is taken, into so many bytes: its records.
    Takes(usize, usize, &'a [Record<'a>]),
    /// A part is given back.
    Gives(usize),
    /// A pool is ended: what it reports.
    Ends(usize, [u64; 6]),
    /// Files are let go.
    Closes(usize),
}

/// What a call answered, and whether what it told beside is as it is to be.
pub type Seen = (Answer, bool);

/// Handles, and memory for what is taken.
#[derive(Drop)]
pub struct Trial {
    alloc: Global,
    handles: Vec<Handle>,
    room: Vec<u8>,
}

/// A handle that holds nothing.
fn empty() -> Handle {
    unsafe { ManuallyDrop::new_unchecked(AlogHandle::empty()) }
}

/// Whether an answer is a refusal.
pub fn is_refused(answer: Answer) -> bool {
    answer.number() >= REFUSED
}

/// Whether a call told the number that is wanted, or, where it was refused, left the one that stood there.
fn is_told(answer: Answer, found: u64, wanted: u64) -> bool {
    found == if is_refused(answer) { UNTOLD } else { wanted }
}

/// Whether a call told the number that is wanted, or, where it was refused, none.
fn is_counted(answer: Answer, found: usize, wanted: u64) -> bool {
    found as u64 == if is_refused(answer) { 0 } else { wanted }
}

impl Trial {
    /// Handles that hold nothing.
    pub fn new(alloc: Global) -> Result<Trial, AllocError> {
        let mut handles = Vec::new(alloc);
        for _ in 0..HANDLES {
            handles.push(empty())?;
        }
        Ok(Trial {
            alloc,
            handles,
            room: Vec::from_elem(alloc, 0, AREA)?,
        })
    }

    /// Which handles hold something, each as a bit.
    pub fn held(&self) -> u64 {
        let mut held: u64 = 0;
        for handle in &self.handles {
            let one = if handle.is_empty() { 0 } else { 1 };
            held = held.wrapping_mul(2).wrapping_add(one);
        }
        held
    }

    /// Takes out a handle.
    fn out(&mut self, at: usize) -> Handle {
        match self.handles.get_mut(at) {
            Some(handle) => mem::replace(handle, empty()),
            None => empty(),
        }
    }

    /// Puts it back.
    fn back(&mut self, at: usize, handle: Handle) {
        if let Some(place) = self.handles.get_mut(at) {
            *place = handle;
        }
    }

    fn names(&self, document: &[u8], room: usize, wanted: &[u8]) -> Seen {
        let mut bytes = [b'-'; 64];
        let mut length = 99;
        let Some(to) = bytes.get_mut(..room) else {
            return (Answer::InUse, false);
        };
        let answer = file_names(self.alloc, document, to, &mut length);
        let names = match answer {
            Answer::Done => wanted,
            _ => b"",
        };
        (answer, has_front(&bytes, length, names))
    }

    fn places(&self, document: &[u8], wanted: usize) -> Seen {
        let mut places = 99;
        let answer = queue_places(self.alloc, document, &mut places);
        (answer, places == wanted)
    }

    fn founds(&mut self, at: usize, name: &[u8], size: u64) -> Seen {
        let mut files = self.out(at);
        let answer = found(self.alloc, &mut files, name, size);
        self.back(at, files);
        (answer, true)
    }

    fn opens(&mut self, at: usize, over: usize, opening: Opening<'_>) -> Seen {
        let mut room = [b'-'; 256];
        let mut length = 99;
        let Some(told) = room.get_mut(..opening.room) else {
            return (Answer::TooShort, false);
        };
        let asked = Asked {
            document: opening.document,
            producers: opening.producers,
            areas: opening.areas,
        };
        let (mut pool, mut files) = (self.out(at), self.out(over));
        let answer = open(self.alloc, &mut pool, &mut files, asked, told, &mut length);
        self.back(at, pool);
        self.back(over, files);
        (answer, is_said(answer, &room, length, opening.words))
    }

    fn makes(&mut self, at: usize, to: usize) -> Seen {
        let (mut pool, mut own) = (self.out(at), self.out(to));
        let answer = producer(self.alloc, &mut pool, &mut own);
        self.back(at, pool);
        self.back(to, own);
        (answer, true)
    }

    fn hires(&mut self, at: usize, to: usize) -> Seen {
        let (mut pool, mut own) = (self.out(at), self.out(to));
        let answer = worker(self.alloc, &mut pool, &mut own);
        self.back(at, pool);
        self.back(to, own);
        (answer, true)
    }

    fn finds(&mut self, at: usize, name: &[u8], wanted: u64) -> Seen {
        let mut number: u32 = 99;
        let mut handle = self.out(at);
        let answer = find(self.alloc, &mut handle, name, &mut number);
        self.back(at, handle);
        (answer, is_told(answer, u64::from(number), wanted))
    }

    fn sets(&mut self, at: usize, logger: u32, level: u32) -> Seen {
        let mut handle = self.out(at);
        let answer = set_level(self.alloc, &mut handle, logger, level);
        self.back(at, handle);
        (answer, true)
    }

    fn asks(&mut self, at: usize, logger: u32, level: u32) -> Seen {
        let mut handle = self.out(at);
        let answer = is_on(self.alloc, &mut handle, logger, level);
        self.back(at, handle);
        (answer, true)
    }

    fn logs(&mut self, at: usize, said: Said<'_>, wanted: u64) -> Seen {
        let mut ticket = UNTOLD;
        let mut own = self.out(at);
        let answer = log(self.alloc, &mut own, said, &mut ticket);
        self.back(at, own);
        (answer, is_told(answer, ticket, wanted))
    }

    fn flushes(&mut self, at: usize, logger: u32, wanted: u64) -> Seen {
        let mut ticket = UNTOLD;
        let mut own = self.out(at);
        let answer = flush(self.alloc, &mut own, logger, &mut ticket);
        self.back(at, own);
        (answer, is_told(answer, ticket, wanted))
    }

    fn dumps(&mut self, at: usize, logger: u32, wanted: u64) -> Seen {
        let mut posts = 99;
        let mut own = self.out(at);
        let answer = dump(self.alloc, &mut own, logger, 5, &mut posts);
        self.back(at, own);
        (answer, is_counted(answer, posts, wanted))
    }

    fn works(&mut self, at: usize, most: usize, wanted: u64) -> Seen {
        let mut items = 99;
        let mut own = self.out(at);
        let answer = work(self.alloc, &mut own, most, &mut items);
        self.back(at, own);
        (answer, is_counted(answer, items, wanted))
    }

    fn fails(&mut self, at: usize, wanted: u64) -> Seen {
        let mut count = UNTOLD;
        let mut own = self.out(at);
        let answer = faults(self.alloc, &mut own, &mut count);
        self.back(at, own);
        (answer, is_told(answer, count, wanted))
    }

    /// Takes what is next into the memory for it, and answers how many bytes that are.
    pub fn take(&mut self, at: usize, room: usize) -> (Answer, usize) {
        let mut length = 99;
        let mut files = self.out(at);
        let answer = match self.room.as_mut_slice().get_mut(..room) {
            Some(to) => take(self.alloc, &mut files, to, &mut length),
            None => Answer::TooShort,
        };
        self.back(at, files);
        (answer, length)
    }

    /// The bytes that were taken, if they are so many.
    pub fn bytes(&self, length: usize) -> &[u8] {
        self.room.as_slice().get(..length).unwrap_or(&[])
    }

    fn takes(&mut self, at: usize, room: usize, records: &[Record<'_>]) -> Seen {
        let (answer, length) = self.take(at, room);
        let is_right = length <= AREA && has_records(self.bytes(length), records);
        (answer, is_right)
    }

    fn gives(&mut self, at: usize) -> Seen {
        let mut own = self.out(at);
        let answer = give(self.alloc, &mut own);
        self.back(at, own);
        (answer, true)
    }

    fn ends(&mut self, at: usize, wanted: [u64; 6]) -> Seen {
        let mut told = report([UNTOLD; 6]);
        let mut pool = self.out(at);
        let answer = shutdown(self.alloc, &mut pool, &mut told);
        self.back(at, pool);
        let wanted = if is_refused(answer) {
            [UNTOLD; 6]
        } else {
            wanted
        };
        (answer, told == report(wanted))
    }

    fn closes(&mut self, at: usize) -> Seen {
        let mut files = self.out(at);
        let answer = close(self.alloc, &mut files);
        self.back(at, files);
        (answer, true)
    }

    /// Logs a text without a source.
    fn says(&mut self, at: usize, logger: u32, level: u32, text: &[u8], ticket: u64) -> Seen {
        self.logs(at, said(logger, level, text, None), ticket)
    }

    /// Logs a text with its source.
    fn tells(
        &mut self,
        at: usize,
        logger: u32,
        text: &[u8],
        file: &[u8],
        function: &[u8],
        ticket: u64,
    ) -> Seen {
        self.logs(at, with_source(logger, text, file, function), ticket)
    }

    /// What is done on a logger, without a message.
    fn looks(&mut self, deed: Deed<'_>) -> Seen {
        match deed {
            Deed::Finds(at, name, number) => self.finds(at, name, number),
            Deed::Sets(at, logger, level) => self.sets(at, logger, level),
            Deed::Asks(at, logger, level) => self.asks(at, logger, level),
            _ => (Answer::InUse, false),
        }
    }

    /// It is done once.
    pub fn does(&mut self, deed: Deed<'_>) -> Seen {
        match deed {
            Deed::Names(document, room, names) => self.names(document, room, names),
            Deed::Places(document, places) => self.places(document, places),
            Deed::Founds(at, name, size) => self.founds(at, name, size),
            Deed::Opens(at, over, opening) => self.opens(at, over, opening),
            Deed::Makes(at, to) => self.makes(at, to),
            Deed::Hires(at, to) => self.hires(at, to),
            Deed::Finds(..) | Deed::Sets(..) | Deed::Asks(..) => self.looks(deed),
            Deed::Logs(at, logger, level, text, ticket) => {
                self.says(at, logger, level, text, ticket)
            }
            Deed::Says(at, text, ticket) => self.says(at, 0, 2, text, ticket),
            Deed::Tells(at, logger, text, file, function, ticket) => {
                self.tells(at, logger, text, file, function, ticket)
            }
            Deed::Flushes(at, logger, ticket) => self.flushes(at, logger, ticket),
            Deed::Dumps(at, logger, posts) => self.dumps(at, logger, posts),
            Deed::Works(at, most, items) => self.works(at, most, items),
            Deed::Fails(at, count) => self.fails(at, count),
            Deed::Takes(at, room, records) => self.takes(at, room, records),
            Deed::Gives(at) => self.gives(at),
            Deed::Ends(at, totals) => self.ends(at, totals),
            Deed::Closes(at) => self.closes(at),
        }
    }
}

/// What is said at time 0.
fn said<'a>(logger: u32, level: u32, text: &'a [u8], source: Option<Source<'a>>) -> Said<'a> {
    Said {
        logger,
        level,
        time: 0,
        text,
        source,
    }
}

/// The line of each source.
const LINE: u32 = 4_294_967_295;

/// What is said at time 0 with a source.
fn with_source<'a>(logger: u32, text: &'a [u8], file: &'a [u8], function: &'a [u8]) -> Said<'a> {
    let source = Source {
        file,
        line: LINE,
        function,
    };
    said(logger, 2, text, Some(source))
}

/// Whether an open said these words and left the bytes behind them: words are said of a configuration alone.
fn is_said(answer: Answer, room: &[u8], length: usize, words: &[u8]) -> bool {
    let words = match answer {
        Answer::BadConfig | Answer::NoStore => words,
        _ => b"",
    };
    has_front(room, length, words)
}

/// Whether these bytes were told, so many, and those behind them left.
fn has_front(room: &[u8], length: usize, told: &[u8]) -> bool {
    room.get(..length) == Some(told) && room.get(length) == Some(&b'-')
}
