//! What a seat at the book's table knows, and the rule that every step keeps.
ghost use Rattle.std.specs.Prelude.{Some};
ghost use Rattle.alog_lane.specs.Roster.{first_sight};
ghost use Rattle.alog_policy.specs.BookRule.{Ruled};

use atomic_table::TableRule;
use std::marker::Model;

/// What a seat knows. No value of it is made.
pub struct View;

impl Model for View {
    ghost use Rattle.std.specs.Prelude.{None};
    ghost use Rattle.alog_lane.specs.Roster.{first_sight};
    ghost use Rattle.alog_policy.specs.BookRule.{BookSight};

    ghost Value = { BookSight };

    ghost view = { λ _. first_sight None };
}

/// The rule of the book.
pub struct Law;

impl TableRule<(), View, ()> for Law {
    ghost holds = { λ key s. Ruled s };

    ghost first = { λ key. first_sight (Some tt) };
}
