//! What a caller outside gets of the law over whole runs: a few calls, and what a run of them is.
ghost use Rattle.std.specs.Prelude.{IfSome, IsTrue, ◌≡◌, ◌<◌, [], ◌∷◌, length, pos};
ghost use Rattle.std.specs.List.{All};
ghost use Rattle.alog_core.specs.declared.TheConstants.{ACTORS};
ghost use Rattle.alog_msg.specs.declared.level.Level.TheVariants.{Info};
ghost use Rattle.alog_system.specs.Acts.{Did, BeginsDeed, MakesStep};
ghost use Rattle.alog_system.specs.Begin.{IsKnown, MayBegin, begun};
ghost use Rattle.alog_system.specs.Outputs.{AreSuited};
ghost use Rattle.alog_system.specs.Runs.{IsSystemRun};
ghost use Rattle.alog_system.specs.Step.{SystemSteps};
ghost use Rattle.alog_system.specs.Within.{LoggerFits};
ghost use Rattle.alog_system.specs.declared.deed.Deed.TheVariants as deed;
ghost use Rattle.alog_system.specs.declared.stepped.Stepped.{Stepped};

use alog_msg::Level;
use alog_registry::Loggers;
use alog_sink::{Sink, Store};
use alog_system::laws::runs_of_a_system;
use alog_system::{Deed, System};
use std::alloc::Global;

/// Whether an actor began this deed, 0 to 63.
fn begins<S: Store + Drop>(
    alloc: Global,
    system: &mut System<S>,
    actor: u32,
    deed: Deed<'_>,
) -> bool
    requires { IsKnown system.old.roster deed }
    ensures { IsTrue result → MayBegin system.old actor deed.entry × (system.new ≡ begun system.old actor deed.entry) }
{
    system.begin(alloc, actor, deed).is_ok()
}

/// Whether an actor, 0 to 63, made a step.
fn steps<S: Store + Drop>(system: &mut System<S>, actor: u32) -> bool
    ensures { IsTrue result
        → (told : Stepped) × (actor < ACTORS) × SystemSteps S.tells S.files S.failures system.old actor told system.new }
{
    system.step(actor).is_ok()
}

/// Whether an actor, 0 to 63, began this deed, and then made a step of it.
fn begins_and_steps<S: Store + Drop>(
    alloc: Global,
    system: &mut System<S>,
    actor: u32,
    deed: Deed<'_>,
) -> bool
    requires { IsKnown system.old.roster deed }
    ensures { IsTrue result → MayBegin system.old actor deed.entry × (told : Stepped) × (actor < ACTORS)
        × SystemSteps S.tells S.files S.failures (begun system.old actor deed.entry) actor told system.new }
{
    begins(alloc, system, actor, deed) && steps(system, actor)
}

/// A system of these loggers and sinks, after actor 1 began a log and made a step of it, and then actor 2 began a work and made
/// a step of that; `None` where memory is out, or the text is longer than 64 bytes. It is a run of exactly these calls.
pub fn a_log_and_a_work<S: Store + Drop>(
    alloc: Global,
    loggers: Loggers,
    sinks: Vec<Sink<S>>,
    text: &str,
) -> Option<System<S>>
    requires fit { All (LoggerFits (length sinks.items)) loggers }
    requires suited { AreSuited 64 sinks.items }
    requires known { 0 < length loggers }
    ensures { IfSome result (λ v. (d e : Did) × (t u : Stepped) × IsSystemRun S.tells S.files 8 loggers sinks.items
        (BeginsDeed 1 (deed.Log (pos 0) 0 Info text.entry) ∷ MakesStep (record { actor = 1; did = d; told = t })
        ∷ BeginsDeed 2 deed.Work ∷ MakesStep (record { actor = 2; did = e; told = u }) ∷ []) v) }
{
    let Ok(mut system) = System::of(alloc, 8, 64, loggers, sinks) else {
        return None;
    };
    let log = Deed::Log {
        time: 0,
        logger: 0,
        level: Level::Info,
        text,
    };
    if !begins_and_steps(alloc, &mut system, 1, log)
        || !begins_and_steps(alloc, &mut system, 2, Deed::Work)
    {
        return None;
    }
    runs_of_a_system::<S>();
    Some(system)
}
