//! Lines of bytes as texts: what a reader gives, cut at its newlines.
//!
//! A `LineCutter` is read into by `fill`, one read a call, and `next` finds one piece after the other in what was read. A piece is a line,
//! or a part of one that is longer than a text may be, cut before a character that does not fit; what is not UTF-8 has become U+FFFD,
//! as `String::from_utf8_lossy` has it. A short line in UTF-8 is lent from where it was read. Memory is taken by `LineCutter::new` alone.
//!
//! `specs/Lines.antt` says what lines are, `specs/Pieces.antt` what their pieces are, and `specs/Cutting.antt` what each call does: pieces
//! that were found and those of the bytes that are pending or still to come are always the pieces of all bytes, however they came.
//!
//! Read `cutter.rt`; then `window.rt` (the bytes that were read), `front.rt` (where the first line ends), `build.rt` (a piece that is no
//! short line in UTF-8), and `laws.rt`.
#![tactic(auto)]

mod build;
mod cutter;
mod front;
pub mod laws;
mod window;

pub use cutter::{CHUNK, Cut, Fill, LineCutter, TEXT_MAX, TEXT_MIN};
