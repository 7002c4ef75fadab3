//! What is wrong with a line of a script that is refused, in words.
use alog_config::Config;
use alog_core::{ACTORS, TICKET_END};
use alog_msg::{DEFAULT_TEXT_LIMIT, Level};
use alog_replay::{SCRIPT_LINE_MAX, STEPS_MAX};
use std::alloc::{AllocError, Global};

/// A word of a command.
#[derive(Clone, Copy, PartialEq, Eq, Drop)]
enum Word {
    Size,
    Ticket,
    Actor,
    /// It may be absent.
    Count,
    Time,
    Policy,
    Logger,
    Level,
    /// The rest of the line. It may be absent.
    Text,
}

const RING: &[Word] = &[Word::Size, Word::Ticket];

const ACTOR: &[Word] = &[Word::Actor];

const ACTOR_AND_TEXT: &[Word] = &[Word::Actor, Word::Text];

const POST: &[Word] = &[Word::Actor, Word::Policy, Word::Text];

const LOG: &[Word] = &[
    Word::Actor,
    Word::Time,
    Word::Logger,
    Word::Level,
    Word::Text,
];

const FLUSH: &[Word] = &[Word::Actor, Word::Logger];

const DUMP: &[Word] = &[Word::Actor, Word::Time, Word::Logger];

const LEVEL: &[Word] = &[Word::Logger, Word::Level];

const STEP: &[Word] = &[Word::Actor, Word::Count];

const NOTHING: &[Word] = &[];

/// The words behind the name of a command, if a script without a configuration or one with it has that command.
fn form_of(name: &str, is_configured: bool) -> Option<&'static [Word]> {
    let (form, is_of_both, is_of_configured) = match name {
        "ring" => (RING, false, false),
        "push" => (ACTOR_AND_TEXT, false, false),
        "pop" => (ACTOR, false, false),
        "post" => (POST, false, false),
        "log" => (LOG, false, true),
        "flush" => (FLUSH, false, true),
        "dump" => (DUMP, false, true),
        "level" => (LEVEL, false, true),
        "work" | "run" => (ACTOR, true, true),
        "step" => (STEP, true, true),
        "cells" | "counts" => (NOTHING, true, true),
        _ => return None,
    };
    if is_of_both || is_of_configured == is_configured {
        Some(form)
    } else {
        None
    }
}

/// The commands of a script without a configuration, or with one.
fn commands(is_configured: bool) -> &'static str {
    if is_configured {
        "log, flush, dump, level, work, step, run, cells or counts"
    } else {
        "ring, push, pop, post, work, step, run, cells or counts"
    }
}

/// Whether this spells a number from `least` to `most`.
fn is_number(word: &str, least: u64, most: u64) -> bool {
    match word.parse::<u64>() {
        Ok(n) => !word.starts_with('+') && least <= n && n <= most,
        Err(_) => false,
    }
}

/// Whether this spells a time.
fn is_time(word: &str) -> bool {
    match word.split_once('-') {
        Some(("", digits)) => is_number(digits, 0, 1 << 63),
        Some(_) => false,
        None => is_number(word, 0, i64::MAX as u64),
    }
}

/// Whether this spells a number of places.
fn is_size(word: &str) -> bool {
    match word.parse::<usize>() {
        Ok(n) => is_number(word, 2, 65_536) && n.is_power_of_two(),
        Err(_) => false,
    }
}

/// Whether a configuration has a logger of this name.
fn is_logger(config: Option<&Config>, name: &str) -> bool {
    match config {
        Some(config) => config
            .loggers
            .iter()
            .any(|logger| logger.name.as_str() == name),
        None => false,
    }
}

impl Word {
    /// Whether this may stand for it.
    fn may_be(self, text: &str, config: Option<&Config>) -> bool {
        match self {
            Word::Size => is_size(text),
            Word::Ticket => is_number(text, 0, TICKET_END - 1),
            Word::Actor => is_number(text, 0, ACTORS as u64 - 1),
            Word::Count => is_number(text, 1, u64::from(STEPS_MAX)),
            Word::Time => is_time(text),
            Word::Policy => matches!(text, "block" | "overrun_oldest" | "discard_new"),
            Word::Logger => is_logger(config, text),
            Word::Level => Level::read(text).is_some(),
            Word::Text => true,
        }
    }

    /// What may stand for it.
    fn allowed(self) -> &'static str {
        match self {
            Word::Size => "a power of two, 2 to 65536",
            Word::Ticket => "a ticket, 0 to 4611686018427387903",
            Word::Actor => "an actor, 0 to 63",
            Word::Count => "a number of steps, 1 to 512",
            Word::Time => "nanoseconds, -9223372036854775808 to 9223372036854775807",
            Word::Policy => "block, overrun_oldest or discard_new",
            Word::Logger => "the name of a logger of the configuration",
            Word::Level => "trace, debug, info, warning, error, critical or off",
            Word::Text => "a text",
        }
    }
}

/// Says in one line why a line of a script is refused, which it is: which word, and what may stand there. A line whose words may all
/// stand there is refused for what came before it.
pub(crate) fn why_refused(
    alloc: Global,
    line: &[u8],
    config: Option<&Config>,
) -> Result<String, AllocError> {
    if line.len() > SCRIPT_LINE_MAX {
        return String::from_str(alloc, "the line has more than 16384 bytes");
    }
    let Ok(line) = str::from_utf8(line) else {
        return String::from_str(alloc, "the line is no text in UTF-8");
    };
    let (name, rest) = cut(line);
    match form_of(name, config.is_some()) {
        Some(form) => first_wrong(alloc, (name, rest), form, config),
        None => wrong_word(alloc, 1, name, commands(config.is_some())),
    }
}

/// The first word of a text, and what follows the space behind it.
fn cut(text: &str) -> (&str, Option<&str>) {
    match text.split_once(' ') {
        Some((word, rest)) => (word, Some(rest)),
        None => (text, None),
    }
}

/// Which word of a command is the first that may not stand there.
fn first_wrong(
    alloc: Global,
    (name, rest): (&str, Option<&str>),
    form: &[Word],
    config: Option<&Config>,
) -> Result<String, AllocError> {
    let mut rest = rest;
    for (i, word) in form.iter().enumerate() {
        let number = i.saturating_add(2);
        let Some(text) = rest else {
            if matches!(word, Word::Text | Word::Count) {
                return wrong_state(alloc, name, config.is_some());
            }
            let allowed = word.allowed();
            return format!(in alloc; "word {number} is missing: there may stand {allowed}");
        };
        if *word == Word::Text {
            return wrong_text(alloc, name, text, config);
        }
        let (found, more) = cut_for(*word, text);
        if !word.may_be(found, config) {
            return wrong_word(alloc, number, found, word.allowed());
        }
        rest = more;
    }
    match rest {
        Some(more) => wrong_word(alloc, form.len().saturating_add(2), more, "nothing"),
        None => wrong_state(alloc, name, config.is_some()),
    }
}

/// The next word. The number of steps is all that is left of its line.
fn cut_for(word: Word, text: &str) -> (&str, Option<&str>) {
    if word == Word::Count {
        (text, None)
    } else {
        cut(text)
    }
}

/// That this word may not stand there.
fn wrong_word(
    alloc: Global,
    number: usize,
    found: &str,
    allowed: &str,
) -> Result<String, AllocError> {
    let shown = shown(alloc, found)?;
    format!(in alloc; "word {number}, {shown}: there may stand {allowed}")
}

/// A word as it is shown: at most 64 bytes of it.
fn shown(alloc: Global, word: &str) -> Result<String, AllocError> {
    let mut front = String::new(alloc);
    for c in word.chars() {
        if front.len() > 60 {
            return format!(in alloc; "{front:?}..");
        }
        front.push(c)?;
    }
    format!(in alloc; "{front:?}")
}

/// That a text is too long, or else that the command comes at a wrong time.
fn wrong_text(
    alloc: Global,
    name: &str,
    text: &str,
    config: Option<&Config>,
) -> Result<String, AllocError> {
    let limit = match config {
        Some(config) => config.text,
        None => DEFAULT_TEXT_LIMIT,
    };
    if text.len() > limit {
        let len = text.len();
        return format!(in alloc; "the text has {len} bytes: it may have at most {limit}");
    }
    wrong_state(alloc, name, config.is_some())
}

/// That a command whose words may stand there comes at a wrong time.
fn wrong_state(alloc: Global, name: &str, is_configured: bool) -> Result<String, AllocError> {
    let why = match name {
        "step" | "run" => "the actor is in no call, or its call ends before all these steps",
        _ if is_configured => "the actor is in a call",
        "ring" => "the queue is open: ring may stand before all other commands alone",
        "cells" | "counts" => "no queue is open: ring has to stand before",
        _ => "the actor is in a call, or no queue is open",
    };
    String::from_str(alloc, why)
}
