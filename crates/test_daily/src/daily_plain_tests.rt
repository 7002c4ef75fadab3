//! The definition of files by days as a plain program, beside what a daily sink does, on all short lists of times.
use crate::sinks::{HOUR, PLAIN, Plan, START, face, opened_as, writes};
use crate::{Moment, period_of};
use alog_sink::{MemStore, Sink};
use std::alloc::{AllocError, Global};
use std::process::Abort;
use std::test::Fail;

const NAMES: [&str; 3] = ["d_2024-02-28", "d_2024-02-29", "d_2024-03-01"];

// Days are counted from 2024-02-28.
fn hours(moment: Moment) -> i64 {
    i64::from(moment.day)
        .saturating_mul(24)
        .saturating_add(i64::from(moment.hour))
}

const MOMENTS: [Moment; 5] = [
    Moment { day: 0, hour: 5 },
    Moment { day: 1, hour: 5 },
    Moment { day: 1, hour: 6 },
    Moment { day: 2, hour: 0 },
    Moment { day: 2, hour: 23 },
];

// Whether the moment's period is greater than all before.
fn opens(moments: &[Moment], i: usize, change: u8) -> bool {
    moments.iter().take(i).all(|earlier| match moments.get(i) {
        Some(moment) => period_of(*earlier, change) < period_of(*moment, change),
        None => false,
    })
}

// The day whose file has the line of a moment: that of the last one up to it that opens.
fn day_of(moments: &[Moment], i: usize, change: u8) -> Option<u8> {
    let last = (0..i.saturating_add(1))
        .rev()
        .find(|j| opens(moments, *j, change))?;
    moments.get(last).map(|moment| moment.day)
}

// The days that were opened, each once.
fn days(alloc: Global, moments: &[Moment], change: u8) -> Result<Vec<u8>, AllocError> {
    let mut days = Vec::new(alloc);
    for (i, moment) in moments.iter().enumerate() {
        if opens(moments, i, change) && days.last() != Some(&moment.day) {
            days.push(moment.day)?;
        }
    }
    Ok(days)
}

// Which of the days that were opened this one is, if it is one, and how many they are.
fn place_of(
    alloc: Global,
    moments: &[Moment],
    change: u8,
    day: u8,
) -> Result<(Option<usize>, usize), AllocError> {
    let days = days(alloc, moments, change)?;
    let place = days.iter().position(|opened| *opened == day);
    Ok((place, days.len()))
}

// What the file of a day has that was opened, behind what was there before.
fn lines_of(
    alloc: Global,
    moments: &[Moment],
    change: u8,
    day: u8,
    before: &[u8],
) -> Result<Vec<u8>, AllocError> {
    let mut file = Vec::from_slice(alloc, before)?;
    for (i, letter) in b"abcd".iter().take(moments.len()).enumerate() {
        if day_of(moments, i, change) == Some(day) {
            file.extend_from_slice(&[*letter, b'\n'])?;
        }
    }
    Ok(file)
}

// What the file of a day has, where `before` was there.
fn file_of(
    alloc: Global,
    moments: &[Moment],
    change: u8,
    max_files: usize,
    day: u8,
    before: Option<&[u8]>,
) -> Result<Option<Vec<u8>>, AllocError> {
    let (place, count) = place_of(alloc, moments, change, day)?;
    let Some(place) = place else {
        return match before {
            Some(bytes) => Ok(Some(Vec::from_slice(alloc, bytes)?)),
            None => Ok(None),
        };
    };
    if max_files > 0 && place < count.saturating_sub(max_files) {
        return Ok(None);
    }
    let before = before.unwrap_or(b"");
    Ok(Some(lines_of(alloc, moments, change, day, before)?))
}

// A sink with a file of the second day.
fn opening(alloc: Global, change: u8, max_files: usize) -> Result<Sink<MemStore>, Fail> {
    let store = MemStore::new(alloc).with(NAMES[1], b"old\n")?;
    let plan = Plan {
        hour: u32::from(change),
        max_files,
        ..PLAIN
    };
    opened_as(alloc, face(alloc, 0)?, store, "d", plan)
}

// A sink is given these moments.
fn writes_all(rt: &(impl Abort + AllocGlobal), sink: &mut Sink<MemStore>, moments: &[Moment]) {
    for (moment, text) in moments.iter().zip(["a", "b", "c", "d"]) {
        let time = START.saturating_add(hours(*moment).saturating_mul(HOUR));
        writes(rt, sink, time, text);
    }
}

// Whether a file has just that, or is not there where none is to be.
fn is_file(found: Option<&Vec<u8>>, right: Option<&Vec<u8>>) -> bool {
    match (found, right) {
        (Some(found), Some(right)) => found.as_slice() == right.as_slice(),
        (found, right) => found.is_none() && right.is_none(),
    }
}

// Whether the file of a day is right in a store after these moments. The test ends here where there is no memory.
fn is_right(
    rt: &(impl Abort + AllocGlobal),
    store: &MemStore,
    moments: &[Moment],
    change: u8,
    max_files: usize,
    day: u8,
    name: &str,
) -> bool {
    let before = if day == 1 { Some(&b"old\n"[..]) } else { None };
    match file_of(rt.alloc(), moments, change, max_files, day, before) {
        Ok(right) => is_file(store.files().get(name), right.as_ref()),
        Err(_) => panic!(rt; "out of memory"),
    }
}

// Each file of the store after these moments is right.
fn are_right(
    rt: &(impl Abort + AllocGlobal),
    store: Option<&MemStore>,
    moments: &[Moment],
    change: u8,
    max_files: usize,
) {
    let Some(store) = store else {
        panic!(rt; "no store")
    };
    for (day, name) in (0u8..3).zip(&NAMES) {
        let is = is_right(rt, store, moments, change, max_files, day, name);
        assert!(rt; is, "{name} at {change}, {max_files}");
    }
}

// A sink is given these moments, and each of its files is right then.
fn writes_right(
    rt: &(impl Abort + AllocGlobal),
    mut sink: Sink<MemStore>,
    moments: &[Moment],
    change: u8,
    max_files: usize,
) {
    writes_all(rt, &mut sink, moments);
    are_right(rt, sink.store(), moments, change, max_files);
}

// Gives these moments to a sink, and looks at its files.
fn looks_right(
    rt: &(impl Abort + AllocGlobal),
    moments: &[Moment],
    change: u8,
    max_files: usize,
) -> Result<(), Fail> {
    let sink = opening(rt.alloc(), change, max_files)?;
    writes_right(rt, sink, moments, change, max_files);
    Ok(())
}

// The list of so many moments that has this number.
fn moments_of(alloc: Global, count: usize, number: usize) -> Result<Vec<Moment>, AllocError> {
    let mut moments = Vec::new(alloc);
    let mut rest = number;
    for _ in 0..count {
        moments.push(MOMENTS[rest % 5])?;
        rest /= 5;
    }
    Ok(moments)
}

// At which hour days change, and how many files are kept.
const CHANGES: [(u8, usize); 5] = [(0, 0), (0, 1), (6, 0), (6, 1), (6, 2)];

// All sinks look right after these moments.
fn all_look_right(rt: &(impl Abort + AllocGlobal), moments: &[Moment]) -> Result<(), Fail> {
    for (change, max_files) in &CHANGES {
        looks_right(rt, moments, *change, *max_files)?;
    }
    Ok(())
}

#[test]
fn all_short_lists_of_times(rt: HostRuntime) -> Result<(), Fail> {
    for (count, lists) in [1, 5, 25, 125].iter().enumerate() {
        for number in 0..*lists {
            let moments = moments_of(rt.alloc(), count, number)?;
            all_look_right(&rt, moments.as_slice())?;
        }
    }
    Ok(())
}
