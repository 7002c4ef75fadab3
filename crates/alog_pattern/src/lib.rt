//! Patterns: how a line of the log is spelled, after spdlog's custom formatting.
//!
//! A pattern is a byte string such as `[%H:%M:%S] %-8l %v`. `Pattern::compile` reads it once into a list of
//! items, which the formatter then writes out for each message. The model is a grammar that joins spellings
//! (`specs/Grammar.antt`); the code is a small automaton over the bytes.
//!
//! Read `flags.rt` (what a flag byte stands for), `items.rt` (padding and the items), `scan.rt` (the automaton),
//! then `patterns.rt` (a compiled pattern), each beside its file of `specs/`; `laws.rt` states that each string
//! has exactly one item list.
#![tactic(auto)]

mod flags;
mod items;
pub mod laws;
mod patterns;
mod scan;

pub use flags::Flag;
pub use items::{Item, Padding, Side, WIDTH_MAX};
pub use patterns::{LINE_MAX, PATTERN_MAX, Pattern, PatternError};
