//! The period of a moment, by the rule that daily sinks keep.
ghost use Rattle.std.specs.Prelude.{◌≡◌, ◌+◌, ◌<◌, ◌≤◌};

/// An hour of a day, which is counted from a first one. The test `all_short_lists_of_times` has five.
#[derive(Clone, Copy)]
pub struct Moment {
    /// the day, from 0
    pub day: u8,
    /// the hour of the day, from 0
    pub hour: u8,
}

/// The period of a moment where periods change at this hour: its day, or the day before where it is earlier than that
/// hour. It is one more, so that it is never below zero.
pub fn period_of(moment: Moment, change: u8) -> u16
    ensures early { moment.hour < change → result ≡ moment.day }
    ensures due { change ≤ moment.hour → result ≡ moment.day + 1 }
{
    let day = u16::from(moment.day);
    if moment.hour < change { day } else { day + 1 }
}
