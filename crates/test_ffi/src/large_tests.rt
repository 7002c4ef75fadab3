//! A run of many messages by one producer and one worker, of which each line is taken.
use crate::records::{Record, first_of};
use crate::rows::trial_of;
use crate::trial::{AREA, Deed, FILES, Opening, POOL, TALKER, Trial, UNTOLD, WRITER};
use alog_ffi::Answer;
use std::alloc::{AllocError, Global};
use std::process::Abort;

/// How many messages are logged.
const MESSAGES: u64 = 20_000;

/// How many are in the queue at most.
const QUEUE: usize = 1_024;

/// How often a call is made again at most.
const TRIES: usize = 10;

/// A queue of 1,024 places, and files of at most 100,000 bytes.
const MANY: Opening<'static> = Opening {
    document: b"queue = 1_024\n[[sink]]\nname = \"main\"\nkind = \"rotating\"\nfile = \"a.log\"\nmax_size = 100_000\n\
max_files = 1\npattern = \"%l %v\"\n[[logger]]\nname = \"app\"\nsinks = [\"main\"]\n",
    producers: 1,
    areas: 4,
    room: 0,
    words: b"",
};

/// The file, and what it is renamed to.
const FILE: &[u8] = b"a.log";

const OLD_FILE: &[u8] = b"a.1.log";

/// What was taken so far: the number of the next line, how long the file is, and how often it was renamed.
#[derive(Clone, Copy, Drop)]
struct Taken {
    next: u64,
    size: usize,
    renames: u64,
}

/// Whether this is the line of the next message, and the file has room for it.
fn is_next_line(alloc: Global, taken: &mut Taken, rest: &[u8]) -> Result<bool, AllocError> {
    let line = format!(in alloc; "info message {}\n", taken.next)?;
    taken.next = taken.next.saturating_add(1);
    taken.size = taken.size.saturating_add(rest.len());
    Ok(rest == line.as_bytes() && taken.size <= 100_000)
}

/// Whether a record is the next that is to come: the line of the next message, as long as the file has room for it, a rename where it has none, or a
/// flush.
fn is_next(alloc: Global, taken: &mut Taken, record: Record<'_>) -> Result<bool, AllocError> {
    let (kind, name, rest) = record;
    if name != FILE {
        return Ok(false);
    }
    match kind {
        1 => is_next_line(alloc, taken, rest),
        2 => {
            let is_due = taken.size > 99_981;
            taken.size = 0;
            taken.renames = taken.renames.saturating_add(1);
            Ok(rest == OLD_FILE && is_due)
        }
        4 => Ok(rest.is_empty()),
        _ => Ok(false),
    }
}

/// Whether all records of these bytes are the next ones.
fn are_next(alloc: Global, taken: &mut Taken, bytes: &[u8]) -> Result<bool, AllocError> {
    let mut bytes = bytes;
    for _ in 0..AREA {
        if bytes.is_empty() {
            return Ok(true);
        }
        let Some((record, behind)) = first_of(bytes) else {
            return Ok(false);
        };
        if !is_next(alloc, taken, record)? {
            return Ok(false);
        }
        bytes = behind;
    }
    Ok(false)
}

/// Takes all that is there, and answers whether it is what is next, and this is said behind it.
fn takes_all(
    alloc: Global,
    trial: &mut Trial,
    taken: &mut Taken,
    behind: Answer,
) -> Result<bool, AllocError> {
    for _ in 0..TRIES {
        let (answer, length) = trial.take(FILES, AREA);
        if answer != Answer::Done {
            return Ok(answer == behind && length == 0);
        }
        if !are_next(alloc, taken, trial.bytes(length))? {
            return Ok(false);
        }
    }
    Ok(false)
}

/// Logs a message, and where the queue is full has it emptied before. It answers whether it has the next ticket.
fn logs(
    alloc: Global,
    trial: &mut Trial,
    taken: &mut Taken,
    number: u64,
) -> Result<bool, AllocError> {
    let text = format!(in alloc; "message {number}")?;
    let seen = trial.does(Deed::Says(TALKER, text.as_bytes(), number));
    if seen == (Answer::Done, true) {
        return Ok(true);
    }
    let is_full = trial.does(Deed::Says(TALKER, text.as_bytes(), UNTOLD))
        == (Answer::WouldBlock, true);
    let is_emptied = trial.does(Deed::Works(WRITER, QUEUE, QUEUE as u64)) == (Answer::Done, true);
    let is_idle = trial.does(Deed::Works(WRITER, 1, 0)) == (Answer::Idle, true);
    let is_next = takes_all(alloc, trial, taken, Answer::Idle)?;
    let is_logged = trial.does(Deed::Says(TALKER, text.as_bytes(), number)) == (Answer::Done, true);
    Ok(is_full && is_emptied && is_idle && is_next && is_logged)
}

/// Logs all messages.
fn logs_all(alloc: Global, trial: &mut Trial, taken: &mut Taken) -> Result<bool, AllocError> {
    for number in 0..MESSAGES {
        if !logs(alloc, trial, taken, number)? {
            return Ok(false);
        }
    }
    Ok(true)
}

/// Opens, and makes a producer and a worker.
fn starts(trial: &mut Trial) -> bool {
    let opened = trial.does(Deed::Opens(POOL, FILES, MANY));
    let made = trial.does(Deed::Makes(POOL, TALKER));
    let hired = trial.does(Deed::Hires(POOL, WRITER));
    opened == (Answer::Done, true) && made == (Answer::Done, true) && hired == (Answer::Done, true)
}

/// Gives all back, and ends with a report of all messages.
fn ends(trial: &mut Trial) -> bool {
    let report = [MESSAGES, MESSAGES, 0, 0, MESSAGES, 0];
    let given = trial.does(Deed::Gives(TALKER));
    let back = trial.does(Deed::Gives(WRITER));
    let ended = trial.does(Deed::Ends(POOL, report));
    given == (Answer::Done, true) && back == (Answer::Done, true) && ended == (Answer::Done, true)
}

/// What was taken in all of a run, if all went well.
fn run(alloc: Global, trial: &mut Trial) -> Result<Option<Taken>, AllocError> {
    let mut taken = Taken {
        next: 0,
        size: 0,
        renames: 0,
    };
    let is_well = starts(trial) && logs_all(alloc, trial, &mut taken)? && ends(trial);
    let is_taken = takes_all(alloc, trial, &mut taken, Answer::Ended)?;
    if is_well && is_taken {
        return Ok(Some(taken));
    }
    Ok(None)
}

/// How many lines were taken, and how many renames: of 20,000 lines, which have 368,890 bytes, three files are full.
fn counts(alloc: Global) -> Result<(u64, u64), AllocError> {
    let Some(mut trial) = trial_of(alloc) else {
        return Err(AllocError);
    };
    let taken = run(alloc, &mut trial)?;
    let is_closed = trial.does(Deed::Closes(FILES)) == (Answer::Done, true);
    match taken {
        Some(taken) if is_closed => Ok((taken.next, taken.renames)),
        _ => Ok((0, 0)),
    }
}

/// Many messages come out one by one, in order, and all are counted.
#[test]
fn twenty_thousand_messages(rt: HostRuntime) {
    let counts = counts(rt.alloc());
    assert!(rt; counts == Ok((MESSAGES, 3)), "{counts:?}");
}
