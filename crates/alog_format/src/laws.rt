ghost use Rattle.std.specs.Prelude.{ℕ, ℤ, List, Option};
ghost use Rattle.alog_msg.specs.declared.message.Message.{Message};
ghost use Rattle.alog_pattern.specs.declared.items.Item.{Item};
ghost use Rattle.alog_format.specs.declared.context.Context.{Context};
ghost use Rattle.alog_format.specs.Civil.{DaysAreOfDates};
ghost use Rattle.alog_format.specs.Line.{HasOneLine};

/// Two lines of a message behind the same message before, by one pattern, are the same.
pub fn one_line()
    ensures { (context : Context) (items : List Item) (name : List ℕ) (message : Message) (previous : Option ℤ)
        → HasOneLine context items name message previous }
{}

/// The day that `clock_time` tells is that of the date which the clock shows.
pub fn days_are_of_dates()
    ensures { DaysAreOfDates }
{}
