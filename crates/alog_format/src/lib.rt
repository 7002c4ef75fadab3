//! Lines: how a message is written out by a pattern, after spdlog's custom formatting.
//!
//! `format` appends the line of a message to a `LineBuf`, a block of bytes of fixed capacity, and so does a `Formatter`,
//! which works the date out once in a second, and remembers, for 16 pairs of a name and a level, the text of the first items
//! in a row that hang on these two alone, where it has at most 128 bytes. The model of a buffer is a list with a capacity;
//! the line is the joined texts of the pattern's items and a newline (`specs/Line.antt`), each flag's text by a table
//! (`specs/Text.antt`). Every writer goes up to an end, so a text that is cut is never longer in the buffer than its width,
//! and a buffer with room for the pattern's longest line is never too short.
//!
//! Read `line_buf.rt` with `specs/Buffer.antt`, and `block.rt`, the raw block under it, with `specs/Block.antt`,
//! `specs/Ownership.antt` and `specs/Lends.antt`; `context.rt` and `civil.rt` with `specs/Civil.antt`, `clip.rt` with
//! `specs/Clip.antt`, `names.rt`, `times.rt`, `elapsed.rt` and `flag_texts.rt` with `specs/Text.antt`, `pads.rt`, and
//! `lines.rt` and `formatter.rt` with `specs/Line.antt`, `lasting.rt` with `specs/Lasting.antt`, `naming.rt` with
//! `specs/Naming.antt`; `laws.rt` states that
//! a message has no two lines.
#![tactic(auto)]

mod block;
mod civil;
mod clip;
mod context;
mod elapsed;
mod flag_texts;
mod formatter;
mod lasting;
pub mod laws;
mod line_buf;
mod lines;
mod names;
mod naming;
mod pads;
mod times;

pub use civil::{Civil, ClockTime, civil_at, clock_time};
pub use context::{Context, OFFSET_MAX, RULE_MAX, Zone};
pub use formatter::{Formatter, format};
pub use line_buf::{LineBuf, NoRoomError};
