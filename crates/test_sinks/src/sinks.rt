//! What the tests of sinks share: faces, messages, sinks, what is done with one, and what its files have then.
//!
//! What a test knows of a sink is what it looks at: no helper has a contract, and each answers plain data. So a test is a loop
//! over rows, and its proof has nothing to carry.
use crate::stores::Noting;
use alog_format::{Context, LineBuf, Zone};
use alog_msg::{Level, Message};
use alog_pattern::Pattern;
use alog_sink::{Face, FuseStore, MemStore, Names, Sink, SinkError, Store, Taken, Unopened};
use std::alloc::Global;
use std::test::Fail;

pub const TEXT_LIMIT: usize = 64;

/// Files by name.
pub type Named<'a> = &'a [(&'a str, &'a [u8])];

/// A store that notes which names are flushed.
pub fn notes(alloc: Global) -> Noting {
    Noting::new(alloc, MemStore::new(alloc))
}

/// What a call of a sink answers.
pub type Answer = Result<Taken, SinkError>;

/// A store that fails one call.
pub type Fused = FuseStore<Noting>;

/// A store whose files a test can look at.
pub trait Kept: Store + Drop {
    /// Its files.
    fn kept(&self) -> &MemStore;

    /// Whether there was no memory for them, as far as no answer tells it.
    fn has_failed(&self) -> bool;
}

impl Kept for MemStore {
    fn kept(&self) -> &MemStore {
        self
    }

    fn has_failed(&self) -> bool {
        false
    }
}

impl Kept for Fused {
    fn kept(&self) -> &MemStore {
        &self.store().files
    }

    fn has_failed(&self) -> bool {
        self.store().has_failed
    }
}

impl Kept for Noting {
    fn kept(&self) -> &MemStore {
        &self.files
    }

    fn has_failed(&self) -> bool {
        self.has_failed
    }
}

fn face(alloc: Global, level: Level, pattern: &[u8]) -> Result<Face, Fail> {
    let mut names = Names::new(alloc);
    names.push(alloc, "net")?;
    Ok(Face {
        level,
        pattern: Pattern::compile(alloc, pattern, TEXT_LIMIT)?,
        context: Context {
            zone: Zone::Fixed(0),
            process: 7,
        },
        names,
    })
}

pub fn message(alloc: Global, level: Level, text: &str) -> Result<Message, Fail> {
    Ok(Message::new(alloc, TEXT_LIMIT, 0, level, 0, 1, text, None)?)
}

/// An empty text of this time.
fn message_at(alloc: Global, level: Level, time: i64) -> Result<Message, Fail> {
    Ok(Message::new(alloc, TEXT_LIMIT, 0, level, time, 1, "", None)?)
}

/// A sink over one store: the least level of its messages, its pattern, its file, and the limits of one that rotates.
#[derive(Clone, Copy)]
pub struct Plan {
    pub level: Level,
    pub pattern: &'static [u8],
    pub file: &'static str,
    /// The most bytes of a file, and the most further files.
    pub limits: Option<(u64, usize)>,
}

impl Plan {
    /// A sink of texts alone that writes one file.
    pub const MEMORY: Plan = Plan {
        level: Level::Info,
        pattern: b"%v",
        file: "log",
        limits: None,
    };

    /// A sink of texts alone whose file has at most so many bytes, beside so many further files.
    pub fn rotating(file: &'static str, max_size: u64, max_files: usize) -> Plan {
        Plan {
            level: Level::Info,
            pattern: b"%v",
            file,
            limits: Some((max_size, max_files)),
        }
    }

    /// Opens the sink over this store.
    pub fn open<S: Store + Drop>(
        &self,
        alloc: Global,
        store: S,
    ) -> Result<Result<Sink<S>, Unopened<S>>, Fail> {
        let face = face(alloc, self.level, self.pattern)?;
        Ok(match self.limits {
            None => Sink::memory(alloc, face, store, self.file),
            Some((max_size, max_files)) => {
                Sink::rotating(alloc, face, store, self.file, max_size, max_files)
            }
        })
    }

    /// The sink over this store, or its refusal as an error of the test.
    pub fn opened<S: Store + Drop>(&self, alloc: Global, store: S) -> Result<Sink<S>, Fail> {
        match self.open(alloc, store)? {
            Ok(sink) => Ok(sink),
            Err(unopened) => Err(unopened.error.into()),
        }
    }
}

/// A fan of one sink for level info, and one for level error.
pub fn fan_of_two<S: Store + Drop>(alloc: Global, one: S, two: S) -> Result<Sink<S>, Fail> {
    fan_of_plan(alloc, Plan::MEMORY, one, two)
}

/// Opens a sink of this plan over this store as one more member.
fn add_member<S: Store + Drop>(
    alloc: Global,
    members: &mut Vec<Sink<S>>,
    plan: Plan,
    store: S,
) -> Result<(), Fail> {
    let sink = plan.opened(alloc, store)?;
    members.push(sink)?;
    Ok(())
}

/// A fan of these members, or its refusal as an error of the test.
fn fan_of<S: Store + Drop>(alloc: Global, members: Vec<Sink<S>>) -> Result<Sink<S>, Fail> {
    match Sink::fan(alloc, Level::Trace, members) {
        Ok(fan) => Ok(fan),
        Err(refused) => Err(refused.error.into()),
    }
}

/// A fan of a sink of this plan, and of one of the same for level error.
pub fn fan_of_plan<S: Store + Drop>(
    alloc: Global,
    plan: Plan,
    one: S,
    two: S,
) -> Result<Sink<S>, Fail> {
    let errors = Plan {
        level: Level::Error,
        ..plan
    };
    let mut members = Vec::new(alloc);
    add_member(alloc, &mut members, plan, one)?;
    add_member(alloc, &mut members, errors, two)?;
    fan_of(alloc, members)
}

/// What is done with a sink, and what it answers. Texts are of level info where no other is named.
#[derive(Clone, Copy)]
pub enum Deed<'a> {
    /// It writes a text.
    Writes(&'a str),
    /// Its store fails as it writes a text.
    Fails(&'a str),
    /// It is given a text, and is broken.
    IsBroken(&'a str),
    /// It is given a text of this level.
    Gives(Level, &'a str, Answer),
    /// It is given an empty text of this level and time.
    At(Level, i64, Answer),
    /// It is flushed.
    Flushes(Result<(), SinkError>),
}

/// Gives a message to a sink. The answer is none where the sink may not be given it.
fn take<S: Store>(sink: &mut Sink<S>, message: &Message, line: &mut LineBuf) -> Option<Answer> {
    if sink.may_take(message, line) {
        Some(sink.take(message, line))
    } else {
        None
    }
}

/// Gives one text of this level to a sink.
fn given<S: Store>(
    alloc: Global,
    sink: &mut Sink<S>,
    level: Level,
    text: &str,
) -> Result<Option<Answer>, Fail> {
    let message = message(alloc, level, text)?;
    let mut line = LineBuf::new(alloc, 256)?;
    Ok(take(sink, &message, &mut line))
}

/// Gives an empty text of this level and time to a sink.
fn given_at<S: Store>(
    alloc: Global,
    sink: &mut Sink<S>,
    level: Level,
    time: i64,
) -> Result<Option<Answer>, Fail> {
    let message = message_at(alloc, level, time)?;
    let mut line = LineBuf::new(alloc, 256)?;
    Ok(take(sink, &message, &mut line))
}

/// Whether an answer is the wanted one. A fault of a store that is not wanted is an error of the test: so it may end where there is no
/// memory for a file.
fn is_wanted(found: Option<Answer>, wanted: Answer) -> Result<bool, Fail> {
    match found {
        Some(Err(SinkError::Store)) if wanted != Err(SinkError::Store) => {
            Err(SinkError::Store.into())
        }
        found => Ok(found == Some(wanted)),
    }
}

/// Whether a sink that is given one text of this level answers so.
pub fn gives<S: Store>(
    alloc: Global,
    sink: &mut Sink<S>,
    level: Level,
    text: &str,
    wanted: Answer,
) -> Result<bool, Fail> {
    is_wanted(given(alloc, sink, level, text)?, wanted)
}

/// Whether a sink answers a deed so.
fn answers<S: Store>(alloc: Global, sink: &mut Sink<S>, deed: Deed<'_>) -> Result<bool, Fail> {
    let (level, text, wanted) = match deed {
        Deed::Writes(text) => (Level::Info, text, Ok(Taken::Written)),
        Deed::Fails(text) => (Level::Info, text, Err(SinkError::Store)),
        Deed::IsBroken(text) => (Level::Info, text, Err(SinkError::Broken)),
        Deed::Gives(level, text, wanted) => (level, text, wanted),
        Deed::At(level, time, wanted) => {
            return is_wanted(given_at(alloc, sink, level, time)?, wanted);
        }
        Deed::Flushes(wanted) => return Ok(sink.flush() == wanted),
    };
    gives(alloc, sink, level, text, wanted)
}

/// How many of these deeds a sink answers as they say, up to the first that it does not.
pub fn answered<S: Store>(
    alloc: Global,
    sink: &mut Sink<S>,
    deeds: &[Deed<'_>],
) -> Result<usize, Fail> {
    for (i, deed) in deeds.iter().enumerate() {
        if !answers(alloc, sink, *deed)? {
            return Ok(i);
        }
    }
    Ok(deeds.len())
}

/// Whether a store has this file.
fn has_file(store: &MemStore, name: &str, bytes: &[u8]) -> bool {
    let found = store.files().get(name).map(|file| file.as_slice());
    found == Some(bytes)
}

/// Whether a store has these files, and no others.
pub fn has_just(store: &MemStore, files: Named<'_>) -> bool {
    for (name, bytes) in files {
        if !has_file(store, name, bytes) {
            return false;
        }
    }
    store.files().len() == files.len()
}

/// Whether a store has these files, and no others. It is an error of the test where there was no memory for them.
fn keeps<S: Kept>(store: &S, files: Named<'_>) -> Result<bool, SinkError> {
    if store.has_failed() {
        return Err(SinkError::Store);
    }
    Ok(has_just(store.kept(), files))
}

/// Whether the store of a sink has these files, and no others.
pub fn leaves<S: Kept>(sink: &Sink<S>, files: Named<'_>) -> Result<bool, SinkError> {
    match sink.store() {
        Some(store) => keeps(store, files),
        None => Ok(false),
    }
}

/// Whether the stores of a fan's members have these files, and no others.
pub fn members_leave<S: Kept>(fan: &Sink<S>, files: &[Named<'_>]) -> Result<bool, SinkError> {
    let members = fan.members();
    for (member, files) in members.iter().zip(files) {
        if !keeps(member.store(), files)? {
            return Ok(false);
        }
    }
    Ok(members.len() == files.len())
}

/// Whether a fan answers these deeds as they say, and its members leave these files.
pub fn fan_does<S: Kept>(
    alloc: Global,
    fan: &mut Sink<S>,
    deeds: &[Deed<'_>],
    files: &[Named<'_>],
) -> Result<bool, Fail> {
    let count = answered(alloc, fan, deeds)?;
    Ok(count == deeds.len() && members_leave(fan, files)?)
}

/// A store of these files.
pub fn store_of(alloc: Global, files: Named<'_>) -> Result<MemStore, Fail> {
    let mut store = MemStore::new(alloc);
    for (name, bytes) in files {
        store = store.with(name, bytes)?;
    }
    Ok(store)
}

/// A sink, what is done with it, and which files it leaves.
#[derive(Clone, Copy)]
pub struct Row<'a> {
    pub plan: Plan,
    pub deeds: &'a [Deed<'a>],
    pub files: Named<'a>,
}

impl Row<'_> {
    /// Whether a sink answers and leaves what the row says.
    fn is_done<S: Kept>(&self, alloc: Global, sink: &mut Sink<S>) -> Result<bool, Fail> {
        let count = answered(alloc, sink, self.deeds)?;
        Ok(count == self.deeds.len() && leaves(sink, self.files)?)
    }

    /// The same of a sink that goes then: it is dropped here, where nothing else is alive.
    fn is_ended<S: Kept>(&self, alloc: Global, mut sink: Sink<S>) -> Result<bool, Fail> {
        self.is_done(alloc, &mut sink)
    }

    /// Whether the sink of the row, over this store, does so.
    pub fn holds<S: Kept>(&self, alloc: Global, store: S) -> Result<bool, Fail> {
        self.is_ended(alloc, self.plan.opened(alloc, store)?)
    }
}
