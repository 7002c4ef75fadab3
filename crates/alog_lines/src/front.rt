//! Where the first line of bytes ends.
ghost use Rattle.std.specs.Prelude.{◌≤◌, ◌<◌, ◌^◌};
ghost use Rattle.alog_lines.specs.Front.{Begins};

use memchr::memchr;

/// How bytes begin.
#[derive(Clone, Copy, Debug, PartialEq, Eq)]
pub(crate) enum Front {
    /// With a line that is no longer than a text may be.
    Line {
        len: usize,
        /// How many bytes behind it are its newline: 1, or 0 where the last line has none.
        newline: usize,
    },
    /// With more bytes of one line than a text has.
    Long,
    /// With a part of a line, or nothing.
    Part,
}

/// How these bytes begin, behind which none comes where their reader is at its end. It looks at one byte more than a text has.
pub(crate) fn front_of(bytes: &[u8], limit: usize, ended: bool) -> Front
    requires { limit < 2 ^ 32 }
    ensures { Begins bytes.now limit ended result }
{
    let first = &bytes[..bytes.len().min(limit + 1)];
    match memchr(b'\n', first) {
        Some(len) => Front::Line { len, newline: 1 },
        None if bytes.len() > limit => Front::Long,
        None if ended && !bytes.is_empty() => Front::Line {
            len: bytes.len(),
            newline: 0,
        },
        None => Front::Part,
    }
}
