//! A post of an actor of a desk, and what a step of a desk answers.
use crate::policy::Outcome;
use crate::progress::Progress;
use alog_core::Said;

/// A post that is under way.
#[derive(Debug, Drop)]
pub struct Post<T> {
    /// How far it has come.
    pub progress: Progress,
    /// The value, while the post pops. While it pushes, its push has the value.
    pub hand: Option<T>,
}

/// What a step answers.
#[derive(Debug, PartialEq, Eq, Drop)]
pub struct Stepped<T> {
    /// What it was. The value of a post is not in it: it stays in the post, or goes to its outcome.
    pub said: Said<T>,
    /// How the actor's post ended, if it ended with this step.
    pub outcome: Option<Outcome<T>>,
}
