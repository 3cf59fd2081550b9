//! The two vector types of IEEE 1164.

ghost use Rattle.std.specs.Prelude.{◌≡◌};
ghost use Rattle.vd_vector_conversions.specs.Flavours.{differing, is_vector, or_else, or_flavour, retyped, same_flavour, same_number, type_name, type_number};

use vd_predefined::numbers::{STD_LOGIC_VECTOR, STD_ULOGIC_VECTOR};

/// Of which of the two vector types of IEEE 1164 something is.
#[derive(Clone, Copy, PartialEq, Eq, Debug)]
pub enum Flavour {
    /// STD_LOGIC_VECTOR.
    Logic,
    /// STD_ULOGIC_VECTOR.
    Ulogic,
}

/// The number of the type of a flavour.
pub fn type_number(flavour: Flavour) -> u32
    ensures { result ≡ type_number flavour }
{
    match flavour {
        Flavour::Logic => STD_LOGIC_VECTOR,
        Flavour::Ulogic => STD_ULOGIC_VECTOR,
    }
}

/// The name of the type of a flavour.
pub fn type_name(flavour: Flavour) -> &'static str
    ensures { result.now ≡ type_name flavour }
{
    match flavour {
        Flavour::Logic => "std_logic_vector",
        Flavour::Ulogic => "std_ulogic_vector",
    }
}

/// Whether two flavours are one.
pub fn same_flavour(one: Flavour, other: Flavour) -> bool
    ensures { result ≡ same_flavour one other }
{
    match one {
        Flavour::Logic => matches!(other, Flavour::Logic),
        Flavour::Ulogic => matches!(other, Flavour::Ulogic),
    }
}

/// The first of two flavours that there is.
pub fn or_else(first: Option<Flavour>, other: Option<Flavour>) -> Option<Flavour>
    ensures { result ≡ or_else first other }
{
    match first {
        Some(flavour) => Some(flavour),
        None => other,
    }
}

/// A flavour, or another where there is none.
pub fn or_flavour(first: Option<Flavour>, other: Flavour) -> Flavour
    ensures { result ≡ or_flavour first other }
{
    match first {
        Some(flavour) => flavour,
        None => other,
    }
}

/// The flavour that is wanted, where that is another than there is.
pub fn differing(there: Option<Flavour>, wanted: Option<Flavour>) -> Option<Flavour>
    ensures { result ≡ differing there wanted }
{
    match (there, wanted) {
        (Some(one), Some(other)) => {
            if same_flavour(one, other) {
                None
            } else {
                Some(other)
            }
        }
        _ => None,
    }
}

/// Whether there are two numbers, and they are one.
pub fn same_number(one: Option<u32>, other: Option<u32>) -> bool
    ensures { result ≡ same_number one other }
{
    match (one, other) {
        (Some(one), Some(other)) => one == other,
        _ => false,
    }
}

/// Whether a type is the one that both flavours have in revision 2019.
pub fn is_vector(mark: Option<u32>) -> bool
    ensures { result ≡ is_vector mark }
{
    match mark {
        Some(of) => of == STD_ULOGIC_VECTOR,
        None => false,
    }
}

/// The type of what is of a flavour, where it is a vector, and its own type else.
pub fn retyped(mark: Option<u32>, flavour: Flavour) -> Option<u32>
    ensures { result ≡ retyped mark flavour }
{
    if is_vector(mark) {
        Some(type_number(flavour))
    } else {
        mark
    }
}
