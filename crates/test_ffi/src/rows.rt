//! Rows of deeds, each with its answer.
use crate::trial::{AREA, Deed, FILES, Opening, POOL, TALKER, Trial, WRITER, is_refused};
use alog_ffi::Answer;
use std::alloc::Global;

/// What is done, and what is answered.
pub type Row<'a> = (Deed<'a>, Answer);

/// A queue of four places, two workers, texts of up to a hundred bytes, and one logger with one sink.
pub const PLAIN: Opening<'static> = Opening {
    document: b"queue = 4\nworkers = 2\ntext = 100\n[[sink]]\nname = \"main\"\nkind = \"memory\"\n\
file = \"a.log\"\npattern = \"%v\"\n[[logger]]\nname = \"app\"\nsinks = [\"main\"]\n",
    producers: 3,
    areas: 4,
    room: 100,
    words: b"",
};

/// A pool is opened, and makes a producer and a worker.
pub static START: &[Row<'static>] = &[
    (Deed::Opens(POOL, FILES, PLAIN), Answer::Done),
    (Deed::Makes(POOL, TALKER), Answer::Done),
    (Deed::Hires(POOL, WRITER), Answer::Done),
];

/// They go on as ever, where nothing was posted before, and end.
pub static END: &[Row<'static>] = &[
    (Deed::Says(TALKER, b"end", 0), Answer::Done),
    (Deed::Works(WRITER, 9, 1), Answer::Idle),
    (Deed::Gives(TALKER), Answer::Done),
    (Deed::Gives(WRITER), Answer::Done),
    (Deed::Ends(POOL, [1, 1, 0, 0, 1, 0]), Answer::Done),
    (
        Deed::Takes(FILES, AREA, &[(1, b"a.log", b"end\n"), (4, b"a.log", b"")]),
        Answer::Done,
    ),
    (
        Deed::Takes(FILES, AREA, &[(4, b"a.log", b"")]),
        Answer::Done,
    ),
    (Deed::Takes(FILES, AREA, &[]), Answer::Ended),
    (Deed::Takes(FILES, AREA - 1, &[]), Answer::TooShort),
    (Deed::Takes(FILES, AREA, &[]), Answer::Ended),
    (Deed::Closes(FILES), Answer::Done),
];

/// Nothing is done.
pub static NOTHING: &[Row<'static>] = &[];

/// A deed that was answered otherwise, or told something else: its place, and the number of its answer.
pub type Wrong = Option<(usize, u32)>;

/// Whether an answer may come where memory is wanting, in place of this one. A pool that wants memory to take its parts back does not end.
fn is_wanting(answer: Answer, wanted: Answer) -> bool {
    match answer {
        Answer::NoMemory => wanted != Answer::NoMemory,
        Answer::PartsOut => wanted == Answer::Done,
        _ => false,
    }
}

/// Does it, and where memory is wanting once more. It answers how often memory was wanting, or what was answered in place of what is wanted.
fn tries(trial: &mut Trial, row: Row<'_>) -> Result<usize, Answer> {
    let (deed, wanted) = row;
    let before = trial.held();
    let (answer, is_right) = trial.does(deed);
    if is_refused(answer) && trial.held() != before || !is_right {
        return Err(answer);
    }
    if answer == wanted {
        return Ok(0);
    }
    if !is_wanting(answer, wanted) {
        return Err(answer);
    }
    match trial.does(deed) {
        (answer, true) if answer == wanted => Ok(1),
        (answer, _) => Err(answer),
    }
}

/// Does these rows, and answers which was wrong, and how often memory was wanting.
fn tries_all(trial: &mut Trial, rows: &[Row<'_>], lacks: &mut usize) -> Wrong {
    for (place, row) in rows.iter().enumerate() {
        match tries(trial, *row) {
            Ok(more) => *lacks = lacks.saturating_add(more),
            Err(answer) => return Some((place, answer.number())),
        }
    }
    None
}

/// The handles of a trial, where memory was wanting made again.
pub fn trial_of(alloc: Global) -> Option<Trial> {
    match Trial::new(alloc) {
        Ok(trial) => Some(trial),
        Err(_) => Trial::new(alloc).ok(),
    }
}

/// Does these rows, and answers which was wrong, by a number that begins with this one.
fn tries_from(trial: &mut Trial, rows: &[Row<'_>], base: usize, lacks: &mut usize) -> Wrong {
    let (place, answer) = tries_all(trial, rows, lacks)?;
    Some((base.saturating_add(place), answer))
}

/// Does all of these rows, and answers which was wrong: the first one of the second list has the number 100, and that of the third 200.
fn tries_three(
    trial: &mut Trial,
    first: &[Row<'_>],
    second: &[Row<'_>],
    third: &[Row<'_>],
    lacks: &mut usize,
) -> Wrong {
    if let Some(wrong) = tries_from(trial, first, 0, lacks) {
        return Some(wrong);
    }
    if let Some(wrong) = tries_from(trial, second, 100, lacks) {
        return Some(wrong);
    }
    tries_from(trial, third, 200, lacks)
}

/// Does all of these rows, which leave all handles empty, and answers which was wrong. Memory may be wanting so often.
fn wrong_among(
    alloc: Global,
    first: &[Row<'_>],
    second: &[Row<'_>],
    third: &[Row<'_>],
    most: usize,
) -> Wrong {
    let Some(mut trial) = trial_of(alloc) else {
        return Some((0, 0));
    };
    let mut lacks: usize = 0;
    let wrong = tries_three(&mut trial, first, second, third, &mut lacks);
    if wrong.is_none() && (trial.held() != 0 || lacks > most) {
        return Some((300, 0));
    }
    wrong
}

/// The same of these lists.
pub fn wrong_of(alloc: Global, lists: [&[Row<'_>]; 3], most: usize) -> Wrong {
    wrong_among(alloc, lists[0], lists[1], lists[2], most)
}

/// The same of one list that begins with no pool.
pub fn wrong_in(alloc: Global, rows: &[Row<'_>]) -> Wrong {
    wrong_among(alloc, rows, NOTHING, NOTHING, 0)
}

/// The same of a list between start and end.
pub fn wrong_between(alloc: Global, rows: &[Row<'_>]) -> Wrong {
    wrong_among(alloc, START, rows, END, 0)
}
