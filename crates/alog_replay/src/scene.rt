//! What a script is played on.

use crate::command::{Act, Actor};
use crate::error::LineError;
use std::alloc::{AllocError, Global};

/// What a script is played on. Its meaning is `scene`, a `Scene` of `specs/Scene.antt`.
///
/// A refused call prints nothing. After want of memory nothing is said of the stage, nor of what was printed of the
/// call: the script is over.
pub trait Playable {
    ghost use Rattle.std.specs.Prelude.{◌≡◌, ◌++◌, ◌↔◌, List, ℕ, true, false, OnOk, IsErrOf, string_bytes};
    ghost use Rattle.alog_replay.specs.Scene.{Scene, GoesOn, Prints};

    ghost scene: { Scene Self };

    /// Whether an actor is in no call.
    fn is_free(&self, actor: Actor) -> bool
        ensures { result ≡ scene.is_free self.now actor };

    /// Carries out an act, and prints what it prints behind `out`.
    fn act(&mut self, alloc: Global, act: Act<'_>, out: &mut String) -> Result<(), LineError>
        ensures done { OnOk result (Prints (string_bytes out.old) (string_bytes out.new)
            (λ text. scene.Does self.old act.entry text self.new)) }
        ensures refused { IsErrOf result LineError.Refused ↔ (scene.may_do self.old act.entry ≡ false) }
        ensures same { IsErrOf result LineError.Refused → string_bytes out.new ≡ string_bytes out.old };

    /// An actor makes the next step of its call, and what it prints is printed behind `out`.
    fn step(&mut self, actor: Actor, out: &mut String) -> Result<(), LineError>
        ensures done { OnOk result (Prints (string_bytes out.old) (string_bytes out.new)
            (λ text. scene.Steps self.old actor text self.new)) }
        ensures refused { IsErrOf result LineError.Refused ↔ (scene.is_free self.old actor ≡ true) }
        ensures same { IsErrOf result LineError.Refused → string_bytes out.new ≡ string_bytes out.old };

    /// Prints the files as they are at the end of a script.
    fn print_files(&self, alloc: Global, out: &mut Vec<u8>) -> Result<(), AllocError>
        ensures { OnOk result (out.new.items ≡ out.old.items ++ scene.files self.now) };

    // Something comes of each act that is not refused, and of each step of an actor in a call.
    ghost goes_on: { GoesOn scene };
}
