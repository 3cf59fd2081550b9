//! Numbers of declarations, types and regions.

ghost use Rattle.std.specs.Prelude.{◌≡◌};

use std::marker::Model;

/// A declaration, by its place in the list of all declarations of a design, from 0.
#[derive(Clone, Copy, PartialEq, Eq, Hash, Debug)]
pub struct DeclId {
    declaration: u32,
}

impl Model for DeclId {
    ghost use Rattle.std.specs.Prelude.{ℕ};
    ghost use Rattle.std.specs.Coded.{coded_ℕ};

    ghost Value = { ℕ };

    ghost coded = { coded_ℕ };

    ghost view = { λ a. a.declaration };

    ghost inverse = { λ n. record { declaration = n } };
}

impl DeclId {
    /// The declaration of this number.
    pub fn of(number: u32) -> DeclId
        ensures { result ≡ number }
    {
        DeclId {
            declaration: number,
        }
    }

    /// Its number.
    pub fn number(&self) -> u32
        ensures { result ≡ self.now }
    {
        self.declaration
    }
}

/// A type, by the number of its declaration. A subtype is no type: it has that of which it is one.
#[derive(Clone, Copy, PartialEq, Eq, Hash, Debug)]
pub struct TypeId {
    declaration: u32,
}

impl Model for TypeId {
    ghost use Rattle.std.specs.Prelude.{ℕ};
    ghost use Rattle.std.specs.Coded.{coded_ℕ};

    ghost Value = { ℕ };

    ghost coded = { coded_ℕ };

    ghost view = { λ a. a.declaration };

    ghost inverse = { λ n. record { declaration = n } };
}

impl TypeId {
    /// The type that this declaration declares.
    pub fn of(number: u32) -> TypeId
        ensures { result ≡ number }
    {
        TypeId {
            declaration: number,
        }
    }

    /// The number of its declaration.
    pub fn number(&self) -> u32
        ensures { result ≡ self.now }
    {
        self.declaration
    }
}

/// A declarative region, by its place in the list of all regions, from 0.
#[derive(Clone, Copy, PartialEq, Eq, Hash, Debug)]
pub struct RegionId {
    region: u32,
}

impl Model for RegionId {
    ghost use Rattle.std.specs.Prelude.{ℕ};
    ghost use Rattle.std.specs.Coded.{coded_ℕ};

    ghost Value = { ℕ };

    ghost coded = { coded_ℕ };

    ghost view = { λ a. a.region };

    ghost inverse = { λ n. record { region = n } };
}

impl RegionId {
    /// The region of this number.
    pub fn of(number: u32) -> RegionId
        ensures { result ≡ number }
    {
        RegionId { region: number }
    }

    /// Its number.
    pub fn number(&self) -> u32
        ensures { result ≡ self.now }
    {
        self.region
    }
}
