//! What is found of a list of readings.

ghost use Rattle.std.specs.Prelude.{◌≡◌};
ghost use Rattle.vd_readings.specs.Found.{both};

/// How many readings there are, up to several.
#[derive(Clone, Copy, Debug)]
pub enum Found {
    Nothing,
    /// One, which stands under this number in a store.
    Only(u32),
    Several,
}

impl Found {
    /// What is found of two lists together.
    pub fn and(self, other: Found) -> Found
        ensures { result ≡ both self other }
    {
        match self {
            Found::Nothing => other,
            Found::Only(number) => match other {
                Found::Nothing => Found::Only(number),
                Found::Only(_) | Found::Several => Found::Several,
            },
            Found::Several => Found::Several,
        }
    }
}
