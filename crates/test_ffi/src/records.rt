//! The records that are handed out of what is to be done to files.

/// A record: what is done (1 appends, 2 renames, 3 removes, 4 flushes), the name of the file, and the bytes, the new name, or nothing.
pub type Record<'a> = (u32, &'a [u8], &'a [u8]);

/// The number of four bytes, the lowest first, at this place.
fn number_at(bytes: &[u8], at: usize) -> Option<u32> {
    let bytes = bytes.get(at..)?;
    let number = [
        *bytes.get(0)?,
        *bytes.get(1)?,
        *bytes.get(2)?,
        *bytes.get(3)?,
    ];
    Some(u32::from_le_bytes(number))
}

/// The kind of the first record, and how many bytes its name and its rest have.
fn header_of(bytes: &[u8]) -> Option<(u32, usize, usize)> {
    let kind = number_at(bytes, 0)?;
    let name_len = number_at(bytes, 4)? as usize;
    let rest_len = number_at(bytes, 8)? as usize;
    if number_at(bytes, 12)? != 0 {
        return None;
    }
    Some((kind, name_len, rest_len))
}

/// The first record, and what is behind it.
pub fn first_of(bytes: &[u8]) -> Option<(Record<'_>, &[u8])> {
    let (kind, name_len, rest_len) = header_of(bytes)?;
    let (name, behind) = bytes.get(16..)?.split_at_checked(name_len)?;
    let (rest, behind) = behind.split_at_checked(rest_len)?;
    Some(((kind, name, rest), behind))
}

/// Whether bytes are just these records.
pub fn has_records(bytes: &[u8], records: &[Record<'_>]) -> bool {
    let mut bytes = bytes;
    for wanted in records {
        let Some((record, behind)) = first_of(bytes) else {
            return false;
        };
        if record != *wanted {
            return false;
        }
        bytes = behind;
    }
    bytes.is_empty()
}
