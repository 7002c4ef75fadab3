//! The files that were there before.
ghost use Rattle.std.specs.Prelude.{◌≡◌, length};
ghost use Rattle.std.specs.Option.{option_map};
ghost use Rattle.alog_outbox.specs.Calls.{found_in};

/// A file that the host found in its folder before anything was done there.
#[derive(Debug, Drop)]
pub struct FoundFile {
    /// Its name.
    pub name: String,
    /// How many bytes it has.
    pub size: u64,
}

/// The size of the first file of this name, where one was found.
pub(crate) fn size_of(found: &[FoundFile], name: &str) -> Option<u64>
    ensures { result ≡ option_map length (found_in found.now name.now) }
{
    for file in found {
        if file.name.as_str() == name {
            return Some(file.size);
        }
    }
    None
}
