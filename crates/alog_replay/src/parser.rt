//! How a line is read as a command.
ghost use Rattle.std.specs.Prelude.{◌≡◌, ◌≤◌, ◌↔◌, ℕ, ℤ, List, IfSome, [], unwrap_or};
ghost use Rattle.std.specs.Option.{option_copied};
ghost use Rattle.alog_replay.specs.Command.{SpellsNumber, SpellsActor, SpellsTime, SpellsCount, SpellsForm, Spells, policy_name};
ghost use Rattle.alog_replay.specs.Command.{Given, Number, AnActor, Time, APolicy, ALevel, AName, NoArgument, AText, ACount, Only, Then, log_form};
ghost use Rattle.alog_replay.specs.Cut.{IsCut};
ghost use Rattle.alog_replay.specs.declared.command.Command.{Command};
ghost use Rattle.alog_replay.specs.declared.command.Command.TheVariants.{Acts, Run, Step};
ghost use Rattle.alog_replay.specs.declared.command.Act.TheVariants as act;
ghost use Rattle.alog_policy.specs.declared.policy.Policy.{Policy};

use crate::command::{Act, Actor, Command, TextRef};
use crate::limits::STEPS_MAX;
use alog_core::ACTORS;
use alog_msg::Level;
use alog_policy::Policy;

const ACTOR_MAX: u64 = ACTORS as u64 - 1;

const COUNT_MAX: u64 = STEPS_MAX as u64;

const TIME_MAX: u64 = i64::MAX as u64;

/// The command that a line spells, without its newline.
pub fn parse(line: &str) -> Option<Command<'_>>
    ensures { (command : Command) → (result ≡ Some command) ↔ Spells line.now command }
{
    let (name, rest) = cut(line);
    match name {
        "ring" => ring(rest),
        "push" => push(rest),
        "pop" => pop(rest),
        "work" => work(rest),
        "post" => post(rest),
        "log" => log(rest),
        "flush" => flush(rest),
        "dump" => dump(rest),
        "level" => level(rest),
        "cells" => alone(rest, Act::Cells),
        "counts" => alone(rest, Act::Counts),
        "step" => step(rest),
        "run" => run(rest),
        _ => None,
    }
}

// The first word of a text, and what follows the space behind it.
fn cut(text: &str) -> (&str, Option<&str>)
    ensures { IsCut text.now result.0.now (option_copied result.1) }
{
    match text.split_once(' ') {
        Some((word, rest)) => (word, Some(rest)),
        None => (text, None),
    }
}

fn number(word: &str, least: u64, most: u64) -> Option<u64>
    ensures spelled { (n : ℕ) → (result ≡ Some n) ↔ SpellsNumber least most word.now n }
    ensures within { IfSome result (λ n. n ≤ most) }
{
    if word.starts_with('+') {
        return None;
    }
    match word.parse::<u64>() {
        Ok(n) if least <= n && n <= most => Some(n),
        _ => None,
    }
}

fn actor(word: &str) -> Option<Actor>
    ensures { (n : ℕ) → (result ≡ Some n) ↔ SpellsActor word.now n }
{
    let n = number(word, 0, ACTOR_MAX)?;
    Some(Actor::new(n as u8))
}

fn count(word: Option<&str>) -> Option<u32>
    ensures { (n : ℕ) → (result ≡ Some n) ↔ SpellsCount (option_copied word.entry) n }
{
    match word {
        Some(word) => {
            let n = number(word, 1, COUNT_MAX)?;
            Some(n as u32)
        }
        None => Some(1),
    }
}

fn time(word: &str) -> Option<i64>
    ensures { (t : ℤ) → (result ≡ Some t) ↔ SpellsTime word.now t }
{
    let Some((before, digits)) = word.split_once('-') else {
        let n = number(word, 0, TIME_MAX)?;
        return Some(n as i64);
    };
    if !before.is_empty() {
        return None;
    }
    let n = number(digits, 0, TIME_MAX + 1)?;
    Some((-i128::from(n)) as i64)
}

fn number_alone(rest: Option<&str>) -> Option<u64>
    ensures { (given : ℕ) → (result ≡ Some given) ↔ SpellsForm (Only Number) (option_copied rest.entry) given }
{
    match rest {
        Some(word) => number(word, 0, u64::MAX),
        None => None,
    }
}

fn two_numbers(rest: Option<&str>) -> Option<(u64, u64)>
    ensures { (given : ℕ × ℕ) → (result ≡ Some given) ↔ SpellsForm (Then Number (Only Number)) (option_copied rest.entry) given }
{
    let (first, second) = cut(rest?);
    let first = number(first, 0, u64::MAX)?;
    let second = number_alone(second)?;
    Some((first, second))
}

fn actor_alone(rest: Option<&str>) -> Option<Actor>
    ensures { (given : ℕ) → (result ≡ Some given) ↔ SpellsForm (Only AnActor) (option_copied rest.entry) given }
{
    match rest {
        Some(word) => actor(word),
        None => None,
    }
}

fn actor_and_text(rest: Option<&str>) -> Option<(Actor, TextRef<'_>)>
    ensures { (given : Given (Then AnActor AText)) → (result ≡ Some given)
        ↔ SpellsForm (Then AnActor AText) (option_copied rest.entry) given }
{
    let (word, text) = cut(rest?);
    let actor = actor(word)?;
    let text = text_or_empty(text);
    Some((actor, text))
}

fn policy(word: &str) -> Option<Policy>
    ensures { (policy : Policy) → (result ≡ Some policy) ↔ (word.now ≡ policy_name policy) }
{
    match word {
        "block" => Some(Policy::Block),
        "overrun_oldest" => Some(Policy::OverrunOldest),
        "discard_new" => Some(Policy::DiscardNew),
        _ => None,
    }
}

fn policy_and_text(rest: Option<&str>) -> Option<(Policy, TextRef<'_>)>
    ensures { (given : Given (Then APolicy AText)) → (result ≡ Some given)
        ↔ SpellsForm (Then APolicy AText) (option_copied rest.entry) given }
{
    let (word, text) = cut(rest?);
    let policy = policy(word)?;
    let text = text_or_empty(text);
    Some((policy, text))
}

fn text_or_empty(rest: Option<&str>) -> TextRef<'_>
    ensures { result ≡ unwrap_or (option_copied rest.entry) [] }
{
    match rest {
        Some(text) => TextRef::new(text),
        None => TextRef::new(""),
    }
}

fn actor_and_count(rest: Option<&str>) -> Option<(Actor, u32)>
    ensures { (given : Given (Then AnActor ACount)) → (result ≡ Some given)
        ↔ SpellsForm (Then AnActor ACount) (option_copied rest.entry) given }
{
    let (word, rest) = cut(rest?);
    let actor = actor(word)?;
    let count = count(rest)?;
    Some((actor, count))
}

fn name_alone(rest: Option<&str>) -> Option<TextRef<'_>>
    ensures { (given : List ℕ) → (result ≡ Some given) ↔ SpellsForm (Only AName) (option_copied rest.entry) given }
{
    let (word, more) = cut(rest?);
    match more {
        Some(_) => None,
        None => Some(TextRef::new(word)),
    }
}

fn level_alone(rest: Option<&str>) -> Option<Level>
    ensures { (given : Given (Only ALevel)) → (result ≡ Some given) ↔ SpellsForm (Only ALevel) (option_copied rest.entry) given }
{
    match rest {
        Some(word) => Level::read(word),
        None => None,
    }
}

fn level_and_text(rest: Option<&str>) -> Option<(Level, TextRef<'_>)>
    ensures { (given : Given (Then ALevel AText)) → (result ≡ Some given)
        ↔ SpellsForm (Then ALevel AText) (option_copied rest.entry) given }
{
    let (word, text) = cut(rest?);
    let level = Level::read(word)?;
    let text = text_or_empty(text);
    Some((level, text))
}

fn name_level_and_text(rest: Option<&str>) -> Option<(TextRef<'_>, (Level, TextRef<'_>))>
    ensures { (given : Given (Then AName (Then ALevel AText))) → (result ≡ Some given)
        ↔ SpellsForm (Then AName (Then ALevel AText)) (option_copied rest.entry) given }
{
    let (word, more) = cut(rest?);
    let more = level_and_text(more)?;
    Some((TextRef::new(word), more))
}

fn time_name_level_and_text(
    rest: Option<&str>,
) -> Option<(i64, (TextRef<'_>, (Level, TextRef<'_>)))>
    ensures { (given : Given (Then Time (Then AName (Then ALevel AText)))) → (result ≡ Some given)
        ↔ SpellsForm (Then Time (Then AName (Then ALevel AText))) (option_copied rest.entry) given }
{
    let (word, more) = cut(rest?);
    let time = time(word)?;
    let more = name_level_and_text(more)?;
    Some((time, more))
}

fn time_and_name(rest: Option<&str>) -> Option<(i64, TextRef<'_>)>
    ensures { (given : Given (Then Time (Only AName))) → (result ≡ Some given)
        ↔ SpellsForm (Then Time (Only AName)) (option_copied rest.entry) given }
{
    let (word, more) = cut(rest?);
    let time = time(word)?;
    let name = name_alone(more)?;
    Some((time, name))
}

fn ring(rest: Option<&str>) -> Option<Command<'_>>
    ensures { (command : Command) → (result ≡ Some command) ↔ ((g : Given (Then Number (Only Number))) × SpellsForm (Then Number (Only Number)) (option_copied rest.entry) g × (Acts (act.Ring g.0 g.1) ≡ command)) }
{
    let (size, first) = two_numbers(rest)?;
    Some(Command::Acts(Act::Ring { size, first }))
}

fn push(rest: Option<&str>) -> Option<Command<'_>>
    ensures { (command : Command) → (result ≡ Some command) ↔ ((g : Given (Then AnActor AText)) × SpellsForm (Then AnActor AText) (option_copied rest.entry) g × (Acts (act.Push g.0 g.1) ≡ command)) }
{
    let (actor, text) = actor_and_text(rest)?;
    Some(Command::Acts(Act::Push { actor, text }))
}

fn pop(rest: Option<&str>) -> Option<Command<'_>>
    ensures { (command : Command) → (result ≡ Some command) ↔ ((g : Given (Only AnActor)) × SpellsForm (Only AnActor) (option_copied rest.entry) g × (Acts (act.Pop g) ≡ command)) }
{
    let actor = actor_alone(rest)?;
    Some(Command::Acts(Act::Pop { actor }))
}

fn work(rest: Option<&str>) -> Option<Command<'_>>
    ensures { (command : Command) → (result ≡ Some command) ↔ ((g : Given (Only AnActor)) × SpellsForm (Only AnActor) (option_copied rest.entry) g × (Acts (act.Work g) ≡ command)) }
{
    let actor = actor_alone(rest)?;
    Some(Command::Acts(Act::Work { actor }))
}

fn step(rest: Option<&str>) -> Option<Command<'_>>
    ensures { (command : Command) → (result ≡ Some command) ↔ ((g : Given (Then AnActor ACount)) × SpellsForm (Then AnActor ACount) (option_copied rest.entry) g × (Step g.0 g.1 ≡ command)) }
{
    let (actor, count) = actor_and_count(rest)?;
    Some(Command::Step { actor, count })
}

fn run(rest: Option<&str>) -> Option<Command<'_>>
    ensures { (command : Command) → (result ≡ Some command) ↔ ((g : Given (Only AnActor)) × SpellsForm (Only AnActor) (option_copied rest.entry) g × (Run g ≡ command)) }
{
    let actor = actor_alone(rest)?;
    Some(Command::Run { actor })
}

fn post(rest: Option<&str>) -> Option<Command<'_>>
    ensures { (command : Command) → (result ≡ Some command) ↔ ((g : Given (Then AnActor (Then APolicy AText)))
        × SpellsForm (Then AnActor (Then APolicy AText)) (option_copied rest.entry) g × (Acts (act.Post g.0 g.1.0 g.1.1) ≡ command)) }
{
    let (word, more) = cut(rest?);
    let actor = actor(word)?;
    let (policy, text) = policy_and_text(more)?;
    Some(Command::Acts(Act::Post {
        actor,
        policy,
        text,
    }))
}

fn log(rest: Option<&str>) -> Option<Command<'_>>
    ensures { (command : Command) → (result ≡ Some command) ↔ ((g : Given log_form) × SpellsForm log_form (option_copied rest.entry) g
        × (Acts (act.Log g.0 g.1.0 g.1.1.0 g.1.1.1.0 g.1.1.1.1) ≡ command)) }
{
    let (word, more) = cut(rest?);
    let actor = actor(word)?;
    let (time, (logger, (level, text))) = time_name_level_and_text(more)?;
    Some(Command::Acts(Act::Log {
        actor,
        time,
        logger,
        level,
        text,
    }))
}

fn flush(rest: Option<&str>) -> Option<Command<'_>>
    ensures { (command : Command) → (result ≡ Some command) ↔ ((g : Given (Then AnActor (Only AName)))
        × SpellsForm (Then AnActor (Only AName)) (option_copied rest.entry) g × (Acts (act.Flush g.0 g.1) ≡ command)) }
{
    let (word, more) = cut(rest?);
    let actor = actor(word)?;
    let logger = name_alone(more)?;
    Some(Command::Acts(Act::Flush { actor, logger }))
}

fn dump(rest: Option<&str>) -> Option<Command<'_>>
    ensures { (command : Command) → (result ≡ Some command) ↔ ((g : Given (Then AnActor (Then Time (Only AName))))
        × SpellsForm (Then AnActor (Then Time (Only AName))) (option_copied rest.entry) g
        × (Acts (act.Dump g.0 g.1.0 g.1.1) ≡ command)) }
{
    let (word, more) = cut(rest?);
    let actor = actor(word)?;
    let (time, logger) = time_and_name(more)?;
    Some(Command::Acts(Act::Dump {
        actor,
        time,
        logger,
    }))
}

fn level(rest: Option<&str>) -> Option<Command<'_>>
    ensures { (command : Command) → (result ≡ Some command) ↔ ((g : Given (Then AName (Only ALevel)))
        × SpellsForm (Then AName (Only ALevel)) (option_copied rest.entry) g × (Acts (act.Level g.0 g.1) ≡ command)) }
{
    let (word, more) = cut(rest?);
    let level = level_alone(more)?;
    let logger = TextRef::new(word);
    Some(Command::Acts(Act::Level { logger, level }))
}

// A command without an argument.
fn alone<'a>(rest: Option<&str>, act: Act<'a>) -> Option<Command<'a>>
    ensures { (command : Command) → (result ≡ Some command)
        ↔ ((given : Given NoArgument) × SpellsForm NoArgument (option_copied rest.entry) given × (Acts act.entry ≡ command)) }
{
    match rest {
        Some(_) => None,
        None => Some(Command::Acts(act)),
    }
}
