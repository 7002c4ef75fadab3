ghost use Rattle.std.specs.Prelude.{◌≡◌};
ghost use Rattle.jiff_core.specs.Timestamp.{IsOffsetSeconds};
ghost use Rattle.jiff_tz.specs.PosixRule.{offset_at};
ghost use Rattle.alog_format.specs.Civil.{IsZone};

use jiff::Timestamp;
use jiff_tz::posix::TimeZone;

/// The most minutes that a fixed offset is from UTC, either way: one less than a day.
pub const OFFSET_MAX: i16 = 1_439;

/// The most bytes of the text of a rule.
pub const RULE_MAX: usize = 64;

/// Where a clock stands that lines show the time of. The test `tells_the_time` shows three zones, and
/// `clocks_change_by_rules` zones with rules.
#[derive(Clone, Copy, Debug, PartialEq, Eq)]
pub enum Zone {
    /// A fixed offset in minutes east of UTC, at most `OFFSET_MAX` either way.
    Fixed(i16),
    /// A rule of standard time and, where it has it, daylight saving time. `Zone::rule` reads one.
    Rule(TimeZone),
}

impl Zone {
    ghost use Rattle.std.specs.Prelude.{◌↔◌, IsSome, IfSome};
    ghost use Rattle.alog_format.specs.Civil.{offset_seconds, IsRuleOf, IsRuleText};

    /// The zone of a POSIX rule, as `CET-1CEST,M3.5.0,M10.5.0/3`: the name of standard time and its hours west of UTC, then
    /// the name of daylight saving time and the days on which it begins and ends. The rule has at most `RULE_MAX` bytes, and
    /// `jiff` decides what it may be otherwise: hours of an offset up to 24, of a change from -167 to 167.
    ///
    /// The answer is `None` for a text that is no such rule. The test `clocks_change_by_rules` shows calls.
    pub fn rule(text: &str) -> Option<Zone>
        ensures some { IsSome result ↔ IsRuleText text.now }
        ensures value { IfSome result (IsRuleOf text.now) }
        ensures near { IfSome result IsZone }
    {
        if text.len() > RULE_MAX {
            return None;
        }
        match TimeZone::parse(text.as_bytes()) {
            Ok(rule) => Some(Zone::Rule(rule)),
            Err(_) => None,
        }
    }

    /// Seconds east of UTC at a time in nanoseconds since the epoch. It is asked for at each line, so a fixed offset is told in
    /// place and a rule is asked behind a call.
    #[inline(always)]
    pub(crate) fn offset_seconds(&self, time: i64) -> i32
        requires { IsZone self.now }
        ensures value { result ≡ offset_seconds self.now time }
        ensures near { IsOffsetSeconds result }
    {
        match self {
            Zone::Fixed(minutes) => i32::from(*minutes) * 60,
            Zone::Rule(rule) => rule_offset(rule, time),
        }
    }
}

/// Seconds east of UTC by a rule.
#[inline(never)]
fn rule_offset(rule: &TimeZone, time: i64) -> i32
    ensures value { result ≡ (offset_at rule.now time).seconds }
    ensures near { IsOffsetSeconds result }
{
    let timestamp = Timestamp::from_nanosecond(i128::from(time)).unwrap();
    rule.to_offset(timestamp.to_plain()).seconds
}

/// What the lines of a sink show beside their messages, as the constants `UTC`, `WEST` and `EAST` of the tests.
#[derive(Clone, Copy, Debug)]
pub struct Context {
    /// A fixed offset is less than a day from UTC: -1,439 to 1,439 minutes.
    pub zone: Zone,
    /// The number of the process.
    pub process: u32,
    ghost near: { IsZone zone },
}

impl Context {
    ghost use Rattle.std.specs.Prelude.{◌≡◌};

    /// The number of the process.
    pub(crate) fn process(&self) -> u32
        ensures { result ≡ self.now.process }
    {
        self.process
    }
}
