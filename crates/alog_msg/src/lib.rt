//! What a logger logs: levels, texts, sources, messages, and the items that its queue carries.
//!
//! A `Level` is one of spdlog's seven. A `Message` is plain data with public fields; contracts see its `Text` as the
//! list of its bytes and its `Source` as a record of file, line and function. `Message::new` makes a message of
//! copies, by the limits on its text, file and function, and that it has exactly the given fields is proved. A `Block` is
//! an item that is written again and again, and takes memory only when it is made.
//!
//! `limits.rt` has how long texts, fields and names may be. Read `specs/Level.antt` (the table of levels) and
//! `level.rt`, then `text.rt` (over `short_text.rt`) with `specs/Room.antt`, then `source.rt` with `specs/Source.antt`,
//! then `message.rt` with `specs/Message.antt`, `item.rt`, and `block.rt` with `spare.rt` and `specs/Block.antt`. `same.rt`
//! compares names.
#![tactic(auto)]

mod block;
mod item;
mod level;
mod limits;
mod message;
mod same;
mod short_text;
mod source;
mod spare;
mod text;

pub use block::{Block, WriteError};
pub use item::Item;
pub use level::Level;
pub use limits::{
    DEFAULT_TEXT_LIMIT, FILE_MAX, FUNCTION_MAX, LOGGER_NAME_MAX, SHORT_TEXT_MAX, TEXT_LIMIT_MAX,
    TEXT_LIMIT_MIN,
};
pub use message::{Message, MessageError};
pub use same::are_same;
pub use source::{Source, SourceRef, has_long_field};
pub use text::Text;
