//! What is asked of sinks, and the folders that they write to.
ghost use Rattle.std.specs.Prelude.{◌≡◌, IfOk};
ghost use Rattle.bench.specs.declared.lines.TheConstants.{TEXT_LIMIT};

use crate::lines::{NAME, TEXT_LIMIT, UTC};
use alog_msg::Level;
use alog_pattern::Pattern;
use alog_sink::{Face, FolderStore, Names, Store};
use anyhow::Result;
use std::alloc::Global;
use std::rt::Files;

/// The file of each sink.
pub const FILE: &str = "log.txt";

/// What each sink that has files is asked to write: the messages of one logger, by this pattern.
pub fn face(alloc: Global, pattern: &[u8]) -> Result<Face>
    ensures { IfOk result (λ f. f.pattern.text_limit ≡ TEXT_LIMIT) }
{
    let mut names = Names::new(alloc);
    names.push(alloc, NAME)?;
    Ok(Face {
        level: Level::Trace,
        pattern: Pattern::compile(alloc, pattern, TEXT_LIMIT)?,
        context: UTC,
        names,
    })
}

/// Removes the files with these names.
pub fn remove_all<S: Store>(store: &mut S, names: &[&str]) -> Result<()> {
    for name in names {
        store.remove(name)?;
    }
    Ok(())
}

/// A store over the folder with this path, from which the files with these names are removed.
pub fn emptied<R>(rt: &R, alloc: Global, path: &str, names: &[&str]) -> Result<FolderStore<R>>
where
    R: Files + Clone + Drop,
{
    let own: R = rt.clone()?;
    let mut store = FolderStore::new(alloc, own, path)?;
    remove_all(&mut store, names)?;
    Ok(store)
}
