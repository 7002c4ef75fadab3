//! Names of files.
ghost use Rattle.std.specs.Prelude.{◌≡◌, ◌↔◌, ◌+◌, ◌%◌, ◌≤◌, IfOk, IsTrue, length, take, drop, string_bytes};
ghost use Rattle.std.specs.String.{string_capacity};
ghost use Rattle.std.specs.Str.{IsCharBoundary};
ghost use Rattle.alog_sink.specs.Names.{IsFileName, date_text, dated, extension, numbered, stem};

use std::alloc::{AllocError, Global};

/// A date of the civil calendar; the years that a message can have are 1677 to 2262.
#[derive(Clone, Copy, Debug, PartialEq, Eq, Drop)]
pub(crate) struct Date {
    pub year: u32,
    /// 1 to 12.
    pub month: u32,
    /// 1 to 31.
    pub day: u32,
}

/// How many bytes a date adds to a name.
pub(crate) const DATE_BYTES: usize = 11;

/// Whether a file may have this name: 1 to 64 bytes, without `/` or a zero byte, and not `.` or `..`.
pub fn is_file_name(name: &str) -> bool
    ensures { IsTrue result ↔ IsFileName name.now }
{
    let bytes = name.as_bytes();
    !bytes.is_empty()
        && bytes.len() <= 64
        && !bytes.contains(&b'/')
        && !bytes.contains(&0)
        && name != "."
        && name != ".."
}

// Where a name's extension begins: at its last dot, unless that is its first or last character, or else at its end.
fn extension_at(name: &str) -> usize
    ensures before { take result name.now ≡ stem name.now }
    ensures after { drop result name.now ≡ extension name.now }
    ensures boundary { IsCharBoundary name.now result }
{
    match name.rfind('.') {
        Some(at) if 0 < at && at + 1 < name.len() => at,
        _ => name.len(),
    }
}

/// The name with the number `i` before its extension, as `log.1.txt` of `log.txt`; with 0, the name itself.
pub(crate) fn numbered(alloc: Global, name: &str, i: usize) -> Result<String, AllocError>
    ensures { IfOk result (λ s. string_bytes s ≡ numbered name.now i) }
{
    if i == 0 {
        return String::from_str(alloc, name);
    }
    let (stem, extension) = name.split_at(extension_at(name));
    format!(in alloc; "{stem}.{i}{extension}")
}

// The last digit of a number.
fn digit(n: u32) -> u8
    ensures { result ≡ 48 + n % 10 }
{
    b'0' + (n % 10) as u8
}

// A date as it stands in a name, as `_2024-02-29`.
fn date_text(date: Date) -> [u8; 11]
    ensures { result ≡ date_text date }
{
    let Date { year, month, day } = date;
    [
        b'_',
        digit(year / 1_000),
        digit(year / 100),
        digit(year / 10),
        digit(year),
        b'-',
        digit(month / 10),
        digit(month),
        b'-',
        digit(day / 10),
        digit(day),
    ]
}

/// Writes the name with a date before its extension, as `log_2024-02-29.txt` of `log.txt`, into a text with room for it.
pub(crate) fn write_dated(into: &mut String, name: &str, date: Date)
    requires { length name.now + DATE_BYTES ≤ string_capacity into.old }
    ensures name { string_bytes into.new ≡ dated name.now date }
    ensures room { string_capacity into.old ≤ string_capacity into.new }
{
    let (stem, extension) = name.split_at(extension_at(name));
    let text = date_text(date);
    into.clear();
    let _ = into.push_str(stem);
    if let Ok(text) = str::from_utf8(&text) {
        let _ = into.push_str(text);
    }
    let _ = into.push_str(extension);
}
