//! The hours of lines of which each second one opens a file, where files go by days.
ghost use Rattle.std.specs.Prelude.{◌≡◌, ◌*◌};

/// The hour of a line, counted from the begin of a first day: two lines a day, twelve hours apart. The test
/// `sinks_over_a_folder` has six.
pub fn hour_of_line(line: u8) -> u16
    ensures { result ≡ 12 * line }
{
    12 * u16::from(line)
}
