//! What is written of pieces, so that they can be looked at.
ghost use Rattle.std.specs.Prelude.{◌≤◌};
ghost use Rattle.alog_lines.specs.declared.cutter.TheConstants.{TEXT_MIN, TEXT_MAX};

use alog_lines::{Fill, LineCutter};
use std::alloc::{AllocError, Global};
use std::io::{self, Read};
use std::process::Abort;

/// The least text limit of a configuration, of which most tests are.
pub(crate) const LIMIT: usize = 64;

/// Writes all pieces that are pending: of each its text, the digit of how many mends it has, and `.` where its line ends with it, or
/// else `~`.
pub(crate) fn write_pending(lines: &mut LineCutter, out: &mut Vec<u8>) -> Result<(), AllocError> {
    for _ in 0..u64::MAX {
        let Some(cut) = lines.next() else {
            break;
        };
        out.extend_from_slice(lines.text().as_bytes())?;
        out.push(b'0' + cut.mended.min(9) as u8)?;
        out.push(if cut.ends { b'.' } else { b'~' })?;
    }
    Ok(())
}

/// Writes so of all that a reader gives.
pub(crate) fn written<R: Read>(alloc: Global, limit: usize, reader: &mut R) -> io::Result<Vec<u8>>
    requires { (TEXT_MIN ≤ limit) × (limit ≤ TEXT_MAX) }
{
    let mut lines = LineCutter::new(alloc, limit)?;
    let mut out = Vec::new(alloc);
    for _ in 0..u64::MAX {
        let fill = lines.fill(reader)?;
        write_pending(&mut lines, &mut out)?;
        if fill == Fill::End {
            break;
        }
    }
    Ok(out)
}

/// Whether this is written of a reader's pieces, of which each has at most 64 bytes.
pub(crate) fn is_written<R: Read>(alloc: Global, reader: &mut R, expected: &[u8]) -> bool {
    match written(alloc, LIMIT, reader) {
        Ok(out) => out.as_slice() == expected,
        Err(_) => false,
    }
}

/// This is written of the pieces of bytes.
pub(crate) fn cuts<R: AllocGlobal + Abort>(rt: &R, bytes: &[u8], expected: &str) {
    let mut reader = bytes;
    assert!(rt;
        is_written(rt.alloc(), &mut reader, expected.as_bytes()),
        "{expected}"
    );
}

/// So many times a byte, and these bytes behind it.
pub(crate) fn filled(
    alloc: Global,
    byte: u8,
    len: usize,
    behind: &[u8],
) -> Result<Vec<u8>, AllocError> {
    let mut bytes = vec![in alloc; byte; len]?;
    bytes.extend_from_slice(behind)?;
    Ok(bytes)
}
