//! What a table has at a key.
ghost use Rattle.std.specs.Prelude.{◌≡◌, ◌↔◌, IsTrue};
ghost use Rattle.alog_config.specs.Fields.{given};
ghost use Rattle.alog_config.specs.Values.{given_or};

/// What a table has at a key that is read in some way.
#[derive(Drop)]
pub(crate) enum Field<T> {
    /// The table has no such key.
    Absent,
    /// Its value can not be read so.
    Bad,
    /// What its value was read as.
    Given(T),
}

impl<T> Field<T> {
    /// Whether the table has no such key.
    pub(crate) fn is_absent(&self) -> bool
        ensures { IsTrue result ↔ (self.now ≡ Field.Absent) }
    {
        matches!(self, Field::Absent)
    }

    /// Whether the value can not be read so.
    pub(crate) fn is_bad(&self) -> bool
        ensures { IsTrue result ↔ (self.now ≡ Field.Bad) }
    {
        matches!(self, Field::Bad)
    }
}

impl<T> Field<T> {
    /// What is given, if something is.
    pub(crate) fn given(self) -> Option<T>
        ensures { result ≡ given self }
    {
        match self {
            Field::Given(value) => Some(value),
            Field::Absent | Field::Bad => None,
        }
    }
}

impl<T: Drop> Field<T> {
    /// What is given, or else this.
    pub(crate) fn or(self, default: T) -> T
        ensures { result ≡ given_or default self }
    {
        match self {
            Field::Given(value) => value,
            Field::Absent | Field::Bad => default,
        }
    }
}
