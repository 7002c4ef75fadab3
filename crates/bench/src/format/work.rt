//! The loop that is timed.
use crate::lines::{START, Way};
use alog_format::LineBuf;
use alog_msg::Message;
use anyhow::Result;

/// How often a run goes through the messages.
pub const ROUNDS: u32 = 1_000;

/// Makes the line of each message, over and over, with times that are `step` nanoseconds apart, and answers the bytes
/// of all lines. This is what is timed.
pub fn write_lines(
    way: &mut Way,
    messages: &mut [Message],
    line: &mut LineBuf,
    step: i64,
) -> Result<u64> {
    let mut bytes = 0u64;
    let mut time = START;
    for _ in 0..ROUNDS {
        for message in messages.iter_mut() {
            message.time = time;
            time = time.wrapping_add(step);
            way.write(message, line)?;
            bytes = bytes.wrapping_add(line.len() as u64);
        }
    }
    Ok(bytes)
}

/// A number of all bytes of the lines of one round, to compare with that of `format.cpp`.
pub fn checksum(
    way: &mut Way,
    messages: &mut [Message],
    line: &mut LineBuf,
    step: i64,
) -> Result<u64> {
    let mut sum = 0u64;
    let mut time = START;
    for message in messages.iter_mut() {
        message.time = time;
        time = time.wrapping_add(step);
        way.write(message, line)?;
        for byte in line.as_slice() {
            sum = sum.wrapping_mul(31).wrapping_add(u64::from(*byte));
        }
    }
    Ok(sum)
}
