//! Calls of any store, and what they answer.
//!
//! What a test knows of a store is what it answers: no helper has a contract, and each answers plain data. So a test is a loop over
//! rows, and its proof has nothing to carry.
use alog_sink::{MemStore, Store, StoreError};

/// A call of a store, and what it answers: of a call that answers nothing, whether it is done.
#[derive(Clone, Copy)]
pub enum Call<'a> {
    Appends(&'a str, &'a [u8], bool),
    Renames(&'a str, &'a str, bool),
    Removes(&'a str, bool),
    Flushes(&'a str, bool),
    Sizes(&'a str, Result<Option<u64>, StoreError>),
}

/// Whether that was done which is to be. A failure of what is to be done is an error of the test: so it may end where there is no
/// memory.
fn is_done(answer: Result<(), StoreError>, is_to_be: bool) -> Result<bool, StoreError> {
    match answer {
        Ok(()) => Ok(is_to_be),
        Err(error) if is_to_be => Err(error),
        Err(_) => Ok(true),
    }
}

/// Whether a store answers a call so.
pub fn answers<S: Store>(store: &mut S, call: Call<'_>) -> Result<bool, StoreError> {
    match call {
        Call::Appends(name, bytes, is_to_be) => is_done(store.append(name, bytes), is_to_be),
        Call::Renames(from, to, is_to_be) => is_done(store.rename(from, to), is_to_be),
        Call::Removes(name, is_to_be) => is_done(store.remove(name), is_to_be),
        Call::Flushes(name, is_to_be) => is_done(store.flush(name), is_to_be),
        Call::Sizes(name, wanted) => {
            let found = store.size(name);
            is_done(found.map(|_| ()), wanted.is_ok()).map(|is_right| is_right && found == wanted)
        }
    }
}

/// Whether a store answers each of these calls as it says.
pub fn answers_all<S: Store>(store: &mut S, calls: &[Call<'_>]) -> Result<bool, StoreError> {
    for call in calls {
        if !answers(store, *call)? {
            return Ok(false);
        }
    }
    Ok(true)
}

/// Each call once, on a store with the file `a` of three bytes, and no other.
pub const EACH: [Call<'_>; 17] = [
    Call::Sizes("a", Ok(Some(3))),
    Call::Sizes("b", Ok(None)),
    Call::Appends("a", b"de", true),
    Call::Appends("c", b"xy", true),
    Call::Appends("d", b"", true),
    Call::Sizes("a", Ok(Some(5))),
    Call::Sizes("d", Ok(Some(0))),
    Call::Renames("a", "b", true),
    Call::Renames("none", "c", true),
    Call::Renames("b", "b", true),
    Call::Renames("c", "d", true),
    Call::Sizes("a", Ok(None)),
    Call::Removes("none", true),
    Call::Flushes("none", true),
    Call::Flushes("b", true),
    Call::Appends("e", b"z", true),
    Call::Removes("e", true),
];

/// Whether a store has these files, and no others.
pub fn has_just(store: &MemStore, files: &[(&str, &[u8])]) -> bool {
    for (name, bytes) in files {
        let found = store.files().get(*name).map(|file| file.as_slice());
        if found != Some(*bytes) {
            return false;
        }
    }
    store.files().len() == files.len()
}
