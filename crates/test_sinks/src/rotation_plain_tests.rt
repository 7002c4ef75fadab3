//! The definition of a rotation as a plain program, beside what a rotating sink does, on all small lists of pieces.
//!
//! The pieces of a list are the bytes of the base that a sink opens, and the lines that it then writes. The plain program tells
//! by places in the list what each file has, and takes no memory.
use crate::sinks::{Plan, gives};
use alog_msg::Level;
use alog_sink::{MemStore, Sink, Taken};
use std::alloc::Global;
use std::test::Fail;

/// The base and the further files, and the bit that says whether a file is there when the sink is opened.
const FILES: [(&str, usize); 5] = [
    ("log", 0),
    ("log.1", 1),
    ("log.2", 2),
    ("log.3", 4),
    ("log.4", 8),
];

/// The most pieces of a list.
const MOST: usize = 6;

/// The texts of pieces, by place and size.
const TEXTS: [[&str; 5]; MOST] = [
    ["", "a", "aa", "aaa", "aaaa"],
    ["", "b", "bb", "bbb", "bbbb"],
    ["", "c", "cc", "ccc", "cccc"],
    ["", "d", "dd", "ddd", "dddd"],
    ["", "e", "ee", "eee", "eeee"],
    ["", "f", "ff", "fff", "ffff"],
];

/// What a sink opens and writes: of its pieces the first is the opening base, and each other one the text of a line. Beside the
/// base lie further files by the bits of `numbers`, which have their names as bytes.
#[derive(Clone, Copy)]
struct Case<'a> {
    pieces: &'a [&'static str],
    numbers: usize,
    max_size: usize,
    max_files: usize,
}

/// What a file has that is there.
#[derive(Clone, Copy)]
enum Place {
    /// The pieces from one place of the list to before another.
    Run(usize, usize),
    /// What the file of this number had when the sink was opened.
    Opened(usize),
}

/// What stands in a file behind a piece, if it begins with the piece.
fn behind<'a>(file: &'a [u8], text: &str, is_line: bool) -> Option<&'a [u8]> {
    let rest = file.strip_prefix(text.as_bytes())?;
    if is_line {
        rest.strip_prefix(b"\n")
    } else {
        Some(rest)
    }
}

impl Case<'_> {
    /// The bytes of a piece: a line has one more than its text.
    fn size(&self, i: usize) -> usize {
        let text = self.pieces.get(i).map_or(0, |text| text.len());
        if i == 0 { text } else { text.saturating_add(1) }
    }

    /// The place of the first piece that is not empty, as a base may be.
    fn first(&self) -> usize {
        usize::from(self.size(0) == 0)
    }

    /// Whether there is a piece that is not empty.
    fn has_some(&self) -> bool {
        self.first() < self.pieces.len()
    }

    /// Whether pieces are rightly cut: `cuts` has a bit for each piece behind the first, 1 where it opens a run.
    fn is_cut(&self, cuts: usize) -> bool {
        let mut cuts = cuts;
        let mut run = self.size(self.first());
        for i in self.first().saturating_add(1)..self.pieces.len() {
            let sum = run.saturating_add(self.size(i));
            let opens = cuts % 2 == 1;
            if opens == (sum <= self.max_size) {
                return false;
            }
            run = if opens { self.size(i) } else { sum };
            cuts /= 2;
        }
        true
    }

    /// How many cuts there are.
    fn cuts(&self) -> usize {
        let mut all = 1usize;
        for _ in self.first().saturating_add(1)..self.pieces.len() {
            all = all.saturating_mul(2);
        }
        all
    }

    /// The only cut that is right, of all cuts.
    fn the_cut(&self) -> Option<usize> {
        let mut right = None;
        for cuts in 0..self.cuts() {
            if self.is_cut(cuts) {
                if right.is_some() {
                    return None;
                }
                right = Some(cuts);
            }
        }
        right
    }

    /// How many runs a cut makes.
    fn runs(&self, cuts: usize) -> usize {
        let ones = cuts.count_ones() as usize;
        if self.has_some() {
            ones.saturating_add(1)
        } else {
            0
        }
    }

    /// The run of this number, in the order of the lines.
    fn run(&self, cuts: usize, number: usize) -> Place {
        let (mut cuts, mut from, mut left) = (cuts, self.first(), number);
        for i in self.first().saturating_add(1)..self.pieces.len() {
            if cuts % 2 == 1 {
                if left == 0 {
                    return Place::Run(from, i);
                }
                left = left.saturating_sub(1);
                from = i;
            }
            cuts /= 2;
        }
        Place::Run(from, self.pieces.len())
    }

    /// What the file of this number had when the sink was opened, if it was there.
    fn opened(&self, number: usize) -> Option<&'static str> {
        if number == 0 {
            return self.pieces.first().copied();
        }
        match FILES.get(number).copied() {
            Some((name, bit)) if self.numbers & bit > 0 => Some(name),
            _ => None,
        }
    }

    /// What is in this place of the runs, the last first, and the opening further files behind them.
    fn place(&self, cuts: usize, i: usize) -> Option<Place> {
        let runs = self.runs(cuts);
        if i < runs {
            return Some(self.run(cuts, runs.saturating_sub(i.saturating_add(1))));
        }
        let number = i.saturating_sub(runs).saturating_add(1);
        if number <= self.max_files && self.opened(number).is_some() {
            Some(Place::Opened(number))
        } else {
            None
        }
    }

    /// What the file of this number has: the last one has what no other has a place for, and one behind it what it had.
    fn file(&self, cuts: usize, number: usize) -> Option<Place> {
        if !self.has_some() || number > self.max_files {
            return self.opened(number).map(|_| Place::Opened(number));
        }
        if number < self.max_files {
            return self.place(cuts, number);
        }
        for i in number..self.runs(cuts).saturating_add(self.max_files) {
            if let Some(place) = self.place(cuts, i) {
                return Some(place);
            }
        }
        None
    }

    /// Whether a file has just these pieces.
    fn has_run(&self, file: &[u8], from: usize, to: usize) -> bool {
        let mut rest = file;
        for (i, text) in self.pieces.iter().enumerate().take(to).skip(from) {
            match behind(rest, text, i > 0) {
                Some(left) => rest = left,
                None => return false,
            }
        }
        rest.is_empty()
    }

    /// Whether a file is what it is to be.
    fn is_right(&self, file: Option<&[u8]>, wanted: Option<Place>) -> bool {
        match wanted {
            None => file.is_none(),
            Some(Place::Opened(number)) => file == self.opened(number).map(|text| text.as_bytes()),
            Some(Place::Run(from, to)) => file.is_some_and(|file| self.has_run(file, from, to)),
        }
    }

    /// Whether each file of a store is what it is to be.
    fn are_right(&self, store: &MemStore, cuts: usize) -> bool {
        for (number, (name, _)) in FILES.iter().enumerate() {
            let file = store.files().get(*name).map(|file| file.as_slice());
            if !self.is_right(file, self.file(cuts, number)) {
                return false;
            }
        }
        true
    }

    /// A store of the opening files.
    fn opening(&self, alloc: Global) -> Result<MemStore, Fail> {
        let mut store = MemStore::new(alloc);
        for (number, (name, _)) in FILES.iter().enumerate() {
            if let Some(text) = self.opened(number) {
                store = store.with(name, text.as_bytes())?;
            }
        }
        Ok(store)
    }

    /// Whether a rotating sink leaves what the definition says.
    fn holds(&self, alloc: Global) -> Result<bool, Fail> {
        let plan = Plan::rotating("log", self.max_size as u64, self.max_files);
        let sink = plan.opened(alloc, self.opening(alloc)?)?;
        self.is_rotated(alloc, sink)
    }

    /// Whether a sink that writes the lines leaves what the definition says.
    fn rotates(&self, alloc: Global, sink: &mut Sink<MemStore>) -> Result<bool, Fail> {
        let is_written = writes(alloc, sink, self.pieces)?;
        Ok(is_written && self.is_left(sink.store()))
    }

    /// The same of a sink that goes then.
    fn is_rotated(&self, alloc: Global, mut sink: Sink<MemStore>) -> Result<bool, Fail> {
        self.rotates(alloc, &mut sink)
    }

    /// Whether a store is there, and has what the definition says.
    fn is_left(&self, store: Option<&MemStore>) -> bool {
        match (store, self.the_cut()) {
            (Some(store), Some(cuts)) => self.are_right(store, cuts),
            _ => false,
        }
    }
}

/// Gives a sink the lines of a list, all pieces but the first. Whether it wrote each.
fn writes(alloc: Global, sink: &mut Sink<MemStore>, pieces: &[&str]) -> Result<bool, Fail> {
    for text in pieces.iter().skip(1) {
        if !gives(alloc, sink, Level::Info, text, Ok(Taken::Written))? {
            return Ok(false);
        }
    }
    Ok(true)
}

/// Pieces of these sizes, by the digits of `code`.
fn pieces_of(sizes: &[usize], code: usize) -> [&'static str; MOST] {
    let mut pieces = [""; MOST];
    let mut code = code;
    for (piece, texts) in pieces.iter_mut().zip(&TEXTS) {
        let digit = code.checked_rem(sizes.len()).unwrap_or(0);
        let size = sizes.get(digit).copied().unwrap_or(0);
        *piece = texts.get(size).copied().unwrap_or("");
        code = code.checked_div(sizes.len()).unwrap_or(0);
    }
    pieces
}

/// Whether these pieces are rightly rotated within each limit.
fn each_limit(alloc: Global, pieces: &[&'static str]) -> Result<bool, Fail> {
    for numbers in 0..8usize {
        for max_files in 0..4 {
            let case = Case {
                pieces,
                numbers,
                max_size: numbers.saturating_add(1),
                max_files,
            };
            if !case.holds(alloc)? {
                return Ok(false);
            }
        }
    }
    Ok(true)
}

/// The first list of so many pieces of these sizes that is not rightly rotated, of as many lists as are said.
fn wrong(
    alloc: Global,
    count: usize,
    sizes: &[usize],
    lists: usize,
) -> Result<Option<usize>, Fail> {
    for code in 0..lists {
        let pieces = pieces_of(sizes, code);
        if !each_limit(alloc, pieces.get(..count).unwrap_or(&[]))? {
            return Ok(Some(code));
        }
    }
    Ok(None)
}

#[test]
fn all_lists_of_up_to_three_pieces(rt: HostRuntime) -> Result<(), Fail> {
    for (count, lists) in [1, 5, 25, 125].iter().enumerate() {
        let wrong = wrong(rt.alloc(), count, &[0, 1, 2, 3, 4], *lists)?;
        assert!(rt; wrong.is_none(), "{count} pieces, {wrong:?}");
    }
    Ok(())
}

#[test]
fn all_lists_of_six_pieces(rt: HostRuntime) -> Result<(), Fail> {
    let wrong = wrong(rt.alloc(), MOST, &[0, 3], 64)?;
    assert!(rt; wrong.is_none(), "{wrong:?}");
    Ok(())
}
