//! Declarations.

ghost use Rattle.std.specs.Prelude.{◌≡◌};

use crate::classes::{Class, Made};
use crate::ids::{DeclId, RegionId, TypeId};
use std::marker::Model;
use vd_bytes::{Place, Text};

/// Some declarations in their order, which contracts see as the list of their numbers.
#[derive(Debug, Drop)]
pub struct Declarations {
    numbers: Vec<DeclId>,
}

impl Model for Declarations {
    ghost use Rattle.std.specs.Prelude.{ℕ, List};
    ghost use Rattle.std.specs.Coded.{coded_list, coded_ℕ};

    ghost Value = { List ℕ };

    ghost coded = { coded_list coded_ℕ };

    ghost view = { λ a. a.numbers.items };
}

impl Declarations {
    /// These declarations, as they are.
    pub fn of(numbers: Vec<DeclId>) -> Declarations
        ensures { result ≡ numbers.items }
    {
        Declarations { numbers }
    }

    /// The declarations.
    pub fn as_slice(&self) -> &[DeclId]
        ensures { result.now ≡ self.now }
    {
        self.numbers.as_slice()
    }
}

/// A declaration.
#[derive(Debug, Drop)]
pub struct Declaration {
    pub class: Class,
    /// The name that it declares: an identifier in lower case, a character literal with its
    /// apostrophes, an operator symbol with its quotation marks in lower case.
    pub name: Text,
    /// The type of an object, a parameter or a record element, that of which a subtype is one, or
    /// the result of a function or an enumeration literal. A type has none.
    pub mark: Option<TypeId>,
    /// The parameters of a function, the elements of a record type, the ports of an entity, or what a package with generics
    /// and an instance of it declare besides their generics, in their order.
    pub parameters: Declarations,
    /// The generics of an entity, of a package or function with generics, or of an instance of one, in their order.
    pub generics: Declarations,
    /// The region of a library, a unit, a function or a record type.
    pub inside: Option<RegionId>,
    /// Where it stands. What is given stands nowhere in a file, and has the first place.
    pub place: Place,
    pub made: Made,
    /// The name that it wants in the text that is written.
    pub wanted: Text,
}
