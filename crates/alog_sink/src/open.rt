//! How sinks are opened.
ghost use Rattle.std.specs.Prelude.{All, ◌≡◌, ℕ, ◌≢◌, ◌↔◌, ◌⊎◌, Some, true, IfOk, IfErr, IfSome, IsErrAnd, IsTrue, [], ◌≤◌, length, vec_capacity, vec_len, ◌<◌, ◌++◌, ◌∷◌};
ghost use Rattle.alog_pattern.specs.declared.patterns.TheConstants.{LINE_MAX};
ghost use Rattle.alog_sink.specs.Names.{IsFileName};
ghost use Rattle.alog_sink.specs.Files.{AreSame};
ghost use Rattle.alog_sink.specs.Refused.{AreBadDays, AreBadLimits, FailsAs, IsNewDaily, IsRotating};
ghost use Rattle.alog_sink.specs.DailyFiles.{change_at};
ghost use Rattle.alog_sink.specs.Opened.{AreNoMembers, Opened, leaves_of, store_of};
ghost use Rattle.alog_sink.specs.Sinks.{Suits};

use crate::FAN_MAX;
use crate::daily_files::{DailyFiles, HOUR_MAX, MINUTE_MAX};
use crate::face::Face;
use crate::fan::Fan;
use crate::leaf::Leaf;
use crate::names::is_file_name;
use crate::one_file::OneFile;
use crate::rotation::{self, FILES_MAX, Rotation, SIZE_MAX};
use crate::sink::Sink;
use crate::store::Store;
use crate::target::Target;
use alog_msg::{Level, Text};
use std::alloc::Global;
use std::fmt::Debug;
use thiserror::Error;

/// Why a sink was not opened, in the order in which this is tested. The test `refused_sinks` of `test_sinks` shows each.
#[derive(Clone, Copy, Debug, PartialEq, Eq, Drop, Error)]
pub enum OpenError {
    /// A limit is not within its bounds.
    #[error("a limit of the sink is out of its bounds")]
    BadLimit,
    /// The name is empty, has more than 64 bytes, a `/` or a zero byte, or is `.` or `..`.
    #[error("no file can have this name: allowed are 1 to 64 bytes, not . or .., without a slash or a zero byte")]
    BadName,
    /// A growth was refused.
    #[error("out of memory")]
    OutOfMemory,
    /// The store failed.
    #[error("the store failed")]
    Store,
}

impl From<rotation::OpenError> for OpenError {
    ghost use Rattle.std.specs.Prelude.{◌≡◌};
    ghost use Rattle.alog_sink.specs.Refused.{as_open_error};

    ghost from_gives = { λ e r. r ≡ as_open_error e };

    fn from(error: rotation::OpenError) -> OpenError {
        match error {
            rotation::OpenError::OutOfMemory => OpenError::OutOfMemory,
            rotation::OpenError::Store => OpenError::Store,
        }
    }
}

/// A sink that was not opened: why, and what was handed in.
#[derive(Debug, Drop, Error)]
#[error_bound(S: Debug)]
#[error("the sink was not opened: {error}")]
pub struct Unopened<S> {
    /// Why.
    pub error: OpenError,
    /// The face that was handed in.
    pub face: Face,
    /// The store that was handed in; where the error is `Store`, after its failed call.
    pub store: S,
}

/// A fan that was not made: why, and what was handed in.
#[derive(Debug, Drop, Error)]
#[error_bound(S: Debug)]
#[error("the fan was not made: {error}")]
pub struct NoFan<S> {
    /// `BadLimit` or `OutOfMemory`.
    pub error: OpenError,
    /// The members that were handed in.
    pub members: Vec<Sink<S>>,
}

impl<S: Store + Drop> Sink<S> {
    /// A sink that appends its lines to one file.
    ///
    /// The refusals are `BadName`, and then `OutOfMemory`.
    pub fn memory(alloc: Global, face: Face, store: S, file: &str) -> Result<Sink<S>, Unopened<S>>
        ensures opened { IfOk result (λ s. Opened S.tells S.files face
            (λ t. t ≡ Target.Memory (record { file = file.now })) (S.files store) s) }
        ensures suits { IfOk result (λ s. Suits face.pattern.text_limit LINE_MAX s) }
        ensures store { IfOk result (λ s. store_of s ≡ Some store) }
        ensures bad_name { IsErrAnd result (λ e. e.error ≡ OpenError.BadName) ↔ (¬ IsFileName file.now) }
        ensures refusals { IfErr result (λ e. (e.error ≡ OpenError.BadName) ⊎ (e.error ≡ OpenError.OutOfMemory)) }
        ensures back { IfErr result (λ e. (e.face ≡ face) × (e.store ≡ store)) }
    {
        if !is_file_name(file) {
            return Err(Unopened {
                error: OpenError::BadName,
                face,
                store,
            });
        }
        match Text::copy_of(alloc, file) {
            Ok(file) => Ok(Sink::Leaf(Leaf::open(face, Target::Memory(OneFile { file }), store))),
            Err(_) => Err(Unopened {
                error: OpenError::OutOfMemory,
                face,
                store,
            }),
        }
    }

    /// A sink that appends its lines to a base, as long as that has at most `max_size` bytes with them, and keeps what the
    /// base had before in up to `max_files` further files: `log.1.txt` and on of `log.txt`. A line that is longer than `max_size`
    /// has a base of its own.
    ///
    /// `max_size` is 1 to 2^40 bytes and `max_files` 0 to 1,000. The refusals are `BadLimit`, `BadName`, `OutOfMemory`, and
    /// `Store` where the store fails to tell the base's size. The rule is spdlog's, of its rotating file sink.
    pub fn rotating(
        alloc: Global,
        face: Face,
        store: S,
        file: &str,
        max_size: u64,
        max_files: usize,
    ) -> Result<Sink<S>, Unopened<S>>
        ensures opened { IfOk result (λ s. Opened S.tells S.files face
            (IsRotating (record { file = file.now; max_size = max_size; max_files = max_files })) (S.files store) s) }
        ensures suits { IfOk result (λ s. Suits face.pattern.text_limit LINE_MAX s) }
        ensures bad_limit { IsErrAnd result (λ e. e.error ≡ OpenError.BadLimit) ↔ AreBadLimits max_size max_files }
        ensures bad_name { IsErrAnd result (λ e. e.error ≡ OpenError.BadName)
            ↔ ((¬ AreBadLimits max_size max_files) × (¬ IsFileName file.now)) }
        ensures counted { IfErr result (λ e. FailsAs (S.failures store) (S.failures e.store) e.error) }
        ensures quiet { IfOk result (λ s. IfSome (store_of s) (λ t. S.failures t ≡ S.failures store)) }
        ensures face { IfErr result (λ e. e.face ≡ face) }
        ensures back { IfErr result (λ e. (e.error ≢ OpenError.Store) → (e.store ≡ store)) }
        ensures files { S.tells ≡ true → IfErr result (λ e. AreSame (S.files store) (S.files e.store)) }
    {
        if max_size == 0 || max_size > SIZE_MAX || max_files > FILES_MAX {
            return Err(Unopened {
                error: OpenError::BadLimit,
                face,
                store,
            });
        }
        if !is_file_name(file) {
            return Err(Unopened {
                error: OpenError::BadName,
                face,
                store,
            });
        }
        let mut store = store;
        match Rotation::open(alloc, &mut store, file, max_size, max_files) {
            Ok(rotation) => Ok(Sink::Leaf(Leaf::open(face, Target::Rotating(rotation), store))),
            Err(error) => Err(Unopened {
                error: error.into(),
                face,
                store,
            }),
        }
    }

    /// A sink that appends its lines to files with dates: `log_2024-02-29.txt` of `log.txt`.
    ///
    /// A message's period is its day in the face's zone, or the day before where it is earlier in the day than `hour` (0 to
    /// 23) and `minute` (0 to 59). The first message, and each of a period later than all before, opens the file of its own
    /// date; the lines of others go to the last opened file. With `max_files` 0 all files stay; else, of the files that the
    /// sink opened, the last `max_files`, at most 1,000. The refusals are `BadLimit`, `BadName` and `OutOfMemory`.
    pub fn daily(
        alloc: Global,
        face: Face,
        store: S,
        file: &str,
        hour: u32,
        minute: u32,
        max_files: usize,
    ) -> Result<Sink<S>, Unopened<S>>
        ensures opened { IfOk result (λ s. Opened S.tells S.files face
            (IsNewDaily (record { file = file.now; change = change_at hour minute; max_files = max_files })) (S.files store) s) }
        ensures suits { IfOk result (λ s. Suits face.pattern.text_limit LINE_MAX s) }
        ensures store { IfOk result (λ s. store_of s ≡ Some store) }
        ensures bad_limit { IsErrAnd result (λ e. e.error ≡ OpenError.BadLimit) ↔ AreBadDays hour minute max_files }
        ensures bad_name { IsErrAnd result (λ e. e.error ≡ OpenError.BadName)
            ↔ ((¬ AreBadDays hour minute max_files) × (¬ IsFileName file.now)) }
        ensures refusals { IfErr result (λ e.
            (e.error ≡ OpenError.BadLimit) ⊎ (e.error ≡ OpenError.BadName) ⊎ (e.error ≡ OpenError.OutOfMemory)) }
        ensures back { IfErr result (λ e. (e.face ≡ face) × (e.store ≡ store)) }
    {
        if hour > HOUR_MAX || minute > MINUTE_MAX || max_files > FILES_MAX {
            return Err(Unopened {
                error: OpenError::BadLimit,
                face,
                store,
            });
        }
        if !is_file_name(file) {
            return Err(Unopened {
                error: OpenError::BadName,
                face,
                store,
            });
        }
        match DailyFiles::open(alloc, file, hour, minute, max_files) {
            Ok(daily_files) => Ok(Sink::Leaf(Leaf::open(face, Target::Daily(daily_files), store))),
            Err(_) => Err(Unopened {
                error: OpenError::OutOfMemory,
                face,
                store,
            }),
        }
    }

    /// A fan: sinks behind a level. It has 1 to 16 members, and no member is a fan.
    ///
    /// The refusals are `BadLimit`, and then `OutOfMemory`.
    pub fn fan(alloc: Global, level: Level, members: Vec<Sink<S>>) -> Result<Sink<S>, NoFan<S>>
        ensures made { IfOk result (λ s. s ≡ Sink.Fan (record { level = level; members = leaves_of members.items })) }
        ensures suits { IfOk result (λ s. (limit capacity : ℕ) → All (λ m. Suits limit capacity m) members.items → Suits limit capacity s) }
        ensures bad_limit { IsErrAnd result (λ e. e.error ≡ OpenError.BadLimit) ↔ AreNoMembers members.items }
        ensures refusals { IfErr result (λ e. (e.error ≡ OpenError.BadLimit) ⊎ (e.error ≡ OpenError.OutOfMemory)) }
        ensures back { IfErr result (λ e. e.members ≡ members) }
    {
        if are_no_members(members.as_slice()) {
            return Err(NoFan {
                error: OpenError::BadLimit,
                members,
            });
        }
        let Ok(leaves) = Vec::with_capacity(alloc, members.len()) else {
            return Err(NoFan {
                error: OpenError::OutOfMemory,
                members,
            });
        };
        Ok(Sink::Fan(Fan::of(level, into_leaves(members, leaves))))
    }
}

/// Whether no fan can have these members.
fn are_no_members<S: Store>(sinks: &[Sink<S>]) -> bool
    ensures { IsTrue result ↔ AreNoMembers sinks.now }
{
    sinks.is_empty() || sinks.len() > FAN_MAX || sinks.iter().any(|sink| sink.is_fan())
}

/// Brings those sinks that are no fans into a list with room for all.
fn into_leaves<S: Store + Drop>(sinks: Vec<Sink<S>>, room: Vec<Leaf<S>>) -> Vec<Leaf<S>>
    requires empty { room.items ≡ [] }
    requires room { length sinks.items ≤ vec_capacity room }
    ensures { result.items ≡ leaves_of sinks.items }
{
    let mut leaves = room;
    for sink in sinks {
        keep_leaf(&mut leaves, sink);
    }
    leaves
}

/// Appends a sink that is no fan.
fn keep_leaf<S: Store + Drop>(leaves: &mut Vec<Leaf<S>>, sink: Sink<S>)
    requires { vec_len leaves.old < vec_capacity leaves.old }
    ensures items { leaves.new.items ≡ leaves.old.items ++ leaves_of (sink ∷ []) }
    ensures capacity { vec_capacity leaves.new ≡ vec_capacity leaves.old }
{
    match sink {
        Sink::Leaf(leaf) => leaves.push_reserved(leaf),
        Sink::Fan(_) => {}
    }
}
