//! How static something is. (IEEE 1076, static expressions.)

ghost use Rattle.std.specs.Prelude.{◌≡◌};
ghost use Rattle.vd_environments.specs.Environments.{always, both as both_of, is_static as is_static_at_all, never, only_global as only_in_elaboration};
ghost use Rattle.vd_value_rules.specs.Knowledge.{later as known_later};

/// Whether something is known when the text is analysed, and whether it is known in elaboration.
#[derive(Clone, Copy, PartialEq, Eq, Debug)]
pub struct StaticSort {
    pub is_local: bool,
    pub is_global: bool,
}

impl StaticSort {
    ghost use Rattle.vd_value_rules.specs.Indicated.{static_of};

    /// What is known from the text alone.
    pub fn always() -> Self
        ensures { static_of result ≡ always }
    {
        StaticSort {
            is_local: true,
            is_global: true,
        }
    }

    /// What is known in simulation at the earliest.
    pub fn never() -> Self
        ensures { static_of result ≡ never }
    {
        StaticSort {
            is_local: false,
            is_global: false,
        }
    }

    /// What is known where both are known.
    pub fn both(self, other: StaticSort) -> Self
        ensures { static_of result ≡ both_of (static_of self) (static_of other) }
    {
        StaticSort {
            is_local: self.is_local && other.is_local,
            is_global: self.is_global && other.is_global,
        }
    }

    /// What isn't known when the text is analysed, whatever is written.
    pub fn only_global(self) -> Self
        ensures { static_of result ≡ only_in_elaboration (static_of self) }
    {
        StaticSort {
            is_local: false,
            ..self
        }
    }

    /// What is known later than when the text is analysed.
    pub fn later(self) -> Self
        ensures { static_of result ≡ known_later (static_of self) }
    {
        self.only_global()
    }

    /// Whether it is known before simulation.
    pub fn is_static(self) -> bool
        ensures { result ≡ is_static_at_all (static_of self) }
    {
        self.is_local || self.is_global
    }
}
