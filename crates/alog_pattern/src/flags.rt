use alog_msg::{FILE_MAX, FUNCTION_MAX, LOGGER_NAME_MAX, TEXT_LIMIT_MAX};

/// What a flag of a pattern stands for, as `%v` for the text of the message. The test `skips_a_side_without_a_width` shows
/// some.
#[derive(Clone, Copy, Debug, PartialEq, Eq)]
pub enum Flag {
    /// `%v`: the text of the message.
    Text,
    /// `%t`: the number of the thread, decimal.
    Thread,
    /// `%P`: the number of the process, decimal.
    Process,
    /// `%n`: the name of the logger.
    Name,
    /// `%l`: the name of the level.
    Level,
    /// `%L`: the level by one letter.
    ShortLevel,
    /// `%a`: the day of the week by three letters.
    ShortWeekday,
    /// `%A`: the day of the week.
    Weekday,
    /// `%b`: the month by three letters.
    ShortMonth,
    /// `%B`: the month by its name.
    Month,
    /// `%c`: date and time, as `Sat Feb 3 15:35:46 2024`.
    DateTime,
    /// `%C`: the year modulo 100, two digits.
    ShortYear,
    /// `%Y`: the year, four digits.
    Year,
    /// `%D` and `%x`: the date as `MM/DD/YY`.
    ShortDate,
    /// `%m`: the month, 01 to 12.
    MonthNumber,
    /// `%d`: the day of the month, 01 to 31.
    Day,
    /// `%H`: the hour, 00 to 23.
    Hour,
    /// `%I`: the hour, 01 to 12.
    HalfDayHour,
    /// `%M`: the minute, two digits.
    Minute,
    /// `%S`: the second, two digits.
    Second,
    /// `%e`: the milliseconds of the second, three digits.
    Milliseconds,
    /// `%f`: the microseconds of the second, six digits.
    Microseconds,
    /// `%F`: the nanoseconds of the second, nine digits.
    Nanoseconds,
    /// `%p`: `AM` or `PM`.
    HalfDay,
    /// `%r`: the time as `03:35:46 PM`.
    HalfDayTime,
    /// `%R`: the time as `HH:MM`.
    ShortTime,
    /// `%T` and `%X`: the time as `HH:MM:SS`.
    Time,
    /// `%z`: the offset from UTC, as `+02:00`.
    Offset,
    /// `%E`: whole seconds since the epoch, rounded down.
    Epoch,
    /// `%u`: the nanoseconds since the message before in the same sink, decimal.
    ElapsedNanoseconds,
    /// `%i`: the microseconds since then, rounded down.
    ElapsedMicroseconds,
    /// `%o`: the milliseconds since then, rounded down.
    ElapsedMilliseconds,
    /// `%O`: the seconds since then, rounded down.
    ElapsedSeconds,
    /// `%%`: a percent sign.
    Percent,
    /// `%+`: the default format.
    Default,
    /// `%^`: where a colour would begin. It has no text.
    ColourStart,
    /// `%$`: where a colour would end. It has no text.
    ColourEnd,
    /// `%@`: the file, `:` and the line of the source.
    Location,
    /// `%s`: the file of the source after its last `/`.
    FileBase,
    /// `%g`: the file of the source as it was given.
    File,
    /// `%#`: the line of the source, decimal.
    Line,
    /// `%!`: the function of the source.
    Function,
}

impl Flag {
    ghost use Rattle.std.specs.Prelude.{◌≡◌, ◌≤◌};
    ghost use Rattle.alog_pattern.specs.Flag.{flag_in, flag_of, greatest_len, ignores_padding, time_flags};

    /// The flag that a byte stands for after `%`, if it stands for one.
    #[tactic(auto, unfolding(crate::specs::Flag::flag_of))]
    pub(crate) fn of(byte: u8) -> Option<Flag>
        ensures { result ≡ flag_of byte }
    {
        match byte {
            b'v' => Some(Flag::Text),
            b't' => Some(Flag::Thread),
            b'P' => Some(Flag::Process),
            b'n' => Some(Flag::Name),
            b'l' => Some(Flag::Level),
            b'L' => Some(Flag::ShortLevel),
            b'u' => Some(Flag::ElapsedNanoseconds),
            b'i' => Some(Flag::ElapsedMicroseconds),
            b'o' => Some(Flag::ElapsedMilliseconds),
            b'O' => Some(Flag::ElapsedSeconds),
            b'%' => Some(Flag::Percent),
            b'+' => Some(Flag::Default),
            b'^' => Some(Flag::ColourStart),
            b'$' => Some(Flag::ColourEnd),
            b'@' => Some(Flag::Location),
            b's' => Some(Flag::FileBase),
            b'g' => Some(Flag::File),
            b'#' => Some(Flag::Line),
            b'!' => Some(Flag::Function),
            _ => Flag::of_time(byte),
        }
    }

    /// The flag of the time that a byte stands for, if it stands for one.
    fn of_time(byte: u8) -> Option<Flag>
        ensures { result ≡ flag_in time_flags byte }
    {
        match byte {
            b'a' => Some(Flag::ShortWeekday),
            b'A' => Some(Flag::Weekday),
            b'b' => Some(Flag::ShortMonth),
            b'B' => Some(Flag::Month),
            b'c' => Some(Flag::DateTime),
            b'C' => Some(Flag::ShortYear),
            b'Y' => Some(Flag::Year),
            b'D' | b'x' => Some(Flag::ShortDate),
            b'm' => Some(Flag::MonthNumber),
            b'd' => Some(Flag::Day),
            b'H' => Some(Flag::Hour),
            b'I' => Some(Flag::HalfDayHour),
            b'M' => Some(Flag::Minute),
            b'S' => Some(Flag::Second),
            b'e' => Some(Flag::Milliseconds),
            b'f' => Some(Flag::Microseconds),
            b'F' => Some(Flag::Nanoseconds),
            b'p' => Some(Flag::HalfDay),
            b'r' => Some(Flag::HalfDayTime),
            b'R' => Some(Flag::ShortTime),
            b'T' | b'X' => Some(Flag::Time),
            b'z' => Some(Flag::Offset),
            b'E' => Some(Flag::Epoch),
            _ => None,
        }
    }

    /// The greatest length of the flag's text in bytes, where the text of a message has at most `text_limit`.
    pub(crate) fn greatest_len(self, text_limit: usize) -> usize
        requires { text_limit ≤ TEXT_LIMIT_MAX }
        ensures { result ≡ greatest_len text_limit self }
    {
        match self {
            Flag::Text => text_limit,
            Flag::Thread | Flag::ElapsedNanoseconds => 20,
            Flag::Process | Flag::Line => 10,
            Flag::Name => LOGGER_NAME_MAX,
            Flag::Level | Flag::ShortDate | Flag::Time => 8,
            Flag::ShortLevel | Flag::Percent => 1,
            Flag::ShortWeekday | Flag::ShortMonth | Flag::Milliseconds => 3,
            Flag::Weekday | Flag::Month | Flag::Nanoseconds => 9,
            Flag::DateTime => 24,
            Flag::ShortYear
            | Flag::MonthNumber
            | Flag::Day
            | Flag::Hour
            | Flag::HalfDayHour
            | Flag::Minute
            | Flag::Second
            | Flag::HalfDay => 2,
            Flag::Year => 4,
            Flag::Microseconds | Flag::Offset => 6,
            Flag::HalfDayTime | Flag::Epoch | Flag::ElapsedSeconds => 11,
            Flag::ElapsedMicroseconds => 17,
            Flag::ElapsedMilliseconds => 14,
            Flag::ShortTime => 5,
            Flag::Default => text_limit + DEFAULT_BESIDE_TEXT,
            Flag::ColourStart | Flag::ColourEnd => 0,
            Flag::Location => 267,
            Flag::FileBase | Flag::File => FILE_MAX,
            Flag::Function => FUNCTION_MAX,
        }
    }

    /// Whether a padding and a cut leave the flag's text as it is.
    pub fn ignores_padding(self) -> bool
        ensures { result ≡ ignores_padding self }
    {
        matches!(
            self,
            Flag::Percent | Flag::Default | Flag::ColourStart | Flag::ColourEnd
        )
    }
}

/// The greatest length of what the default format has beside the text.
const DEFAULT_BESIDE_TEXT: usize = 374;
