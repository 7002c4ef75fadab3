//! What is done in a folder, step by step: on stores of their own, and what is there in the end.
use crate::calls::{Call, answers};
use crate::folder::{Folder, Left, clear, count, has, has_all, open, scratch};
use std::fs;
use std::os::unix::fs::symlink;
use std::path::PathBuf;
use std::test::Fail;

/// Where the system lists what files this process has open.
const DESCRIPTORS: &str = "/proc/self/fd";

/// What is there before a store is opened.
#[derive(Clone, Copy)]
pub enum Before<'a> {
    /// A file with this text.
    File(&'a str, &'a str),
    Folder(&'a str),
    /// A file to which nothing can be written: a link to the system's device that is always full.
    Full(&'a str),
}

fn prepare_one(rt: &HostRuntime, path: &PathBuf, before: Before<'_>) -> Result<(), Fail> {
    match before {
        Before::File(name, text) => fs::write(rt, path.join(rt.alloc(), name)?, text)?,
        Before::Folder(name) => fs::create_dir(rt, path.join(rt.alloc(), name)?)?,
        Before::Full(name) => symlink(rt, "/dev/full", path.join(rt.alloc(), name)?)?,
    }
    Ok(())
}

/// A folder for one test, with this in it.
pub fn prepared(rt: &HostRuntime, name: &str, before: &[Before<'_>]) -> Result<PathBuf, Fail> {
    let path = scratch(rt, name)?;
    for it in before {
        prepare_one(rt, &path, *it)?;
    }
    Ok(path)
}

/// What is done while a store is open.
#[derive(Clone, Copy)]
pub enum Step<'a> {
    Calls(Call<'a>),
    /// The system has just these bytes of a file, or no such file.
    Has(&'a str, Option<&'a [u8]>),
    /// There are so many files in the folder.
    Counts(usize),
    /// So many files are open.
    HasOpen(usize),
    /// The folder goes, which is empty.
    Leaves,
    /// The folder is made again.
    Comes,
}

/// Does a step, where so many files were open before. Whether all is as it says.
fn goes(
    rt: &HostRuntime,
    path: &PathBuf,
    store: &mut Folder,
    before: usize,
    step: Step<'_>,
) -> Result<bool, Fail> {
    match step {
        Step::Calls(call) => return Ok(answers(store, call)?),
        Step::Has(name, wanted) => return has(rt, path, name, wanted),
        Step::Counts(wanted) => return Ok(count(rt, path.as_str())? == wanted),
        Step::HasOpen(more) => {
            return Ok(count(rt, DESCRIPTORS)? == before.saturating_add(more));
        }
        Step::Leaves => fs::remove_dir(rt, path.as_str())?,
        Step::Comes => fs::create_dir(rt, path.as_str())?,
    }
    Ok(true)
}

/// The first of these steps at which not all is as it says.
fn first_wrong(
    rt: &HostRuntime,
    path: &PathBuf,
    store: &mut Folder,
    steps: &[Step<'_>],
) -> Result<Option<usize>, Fail> {
    let before = count(rt, DESCRIPTORS)?;
    for (i, step) in steps.iter().enumerate() {
        if !goes(rt, path, store, before, *step)? {
            return Ok(Some(i));
        }
    }
    Ok(None)
}

/// The same on a store of its own, behind which no more files are open than before.
fn of_store(rt: &HostRuntime, path: &PathBuf, steps: &[Step<'_>]) -> Result<Option<usize>, Fail> {
    let mut store = open(rt, path)?;
    first_wrong(rt, path, &mut store, steps)
}

/// What is done in a folder, and what is there in the end.
pub struct Row<'a> {
    pub name: &'a str,
    pub before: &'a [Before<'a>],
    /// Each on a store of its own.
    pub sessions: &'a [&'a [Step<'a>]],
    pub after: &'a [Left<'a>],
    /// How many files there are in the end.
    pub count: usize,
}

/// The first step of a session at which not all is as it says, where all that follows is not looked at.
fn of_sessions(rt: &HostRuntime, path: &PathBuf, row: &Row<'_>) -> Result<Option<usize>, Fail> {
    for steps in row.sessions {
        let open = count(rt, DESCRIPTORS)?;
        if let Some(step) = of_store(rt, path, steps)? {
            return Ok(Some(step));
        }
        if count(rt, DESCRIPTORS)? != open {
            return Ok(Some(steps.len()));
        }
    }
    Ok(None)
}

/// Whether a row holds.
pub fn holds(rt: &HostRuntime, row: &Row<'_>) -> Result<bool, Fail> {
    let path = prepared(rt, row.name, row.before)?;
    let is_right = of_sessions(rt, &path, row)?.is_none()
        && has_all(rt, &path, row.after)?
        && count(rt, path.as_str())? == row.count;
    clear(rt, &path)?;
    Ok(is_right)
}
