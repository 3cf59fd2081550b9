//! The subtypes of expressions with their known lengths.

ghost use Rattle.std.specs.Prelude.{◌≡◌, ◌≤◌, length};
ghost use Rattle.vd_known_lengths.specs.Extents.{IsExtent};
ghost use Rattle.vd_static_values.specs.Names.{indicated_by, number_in};
ghost use Rattle.vd_value_rules.specs.Lengths.{nothing_shaped, shaped_by};

use crate::subtypes::static_length;
use vd_forest::Store;
use vd_static_values::NameSubtype;
use vd_value_rules::IndicatedForm;

/// The subtype of an expression where its form gives one, or else its type, with its known length.
#[derive(Clone, Copy, Debug)]
pub(crate) struct Extent {
    pub(crate) subtype: NameSubtype,
    pub(crate) length: Option<u128>,
    /// Whether it is an attribute of a type that has an argument.
    pub(crate) is_callee: bool,
}

/// That of what is no expression.
pub(crate) fn nothing(subtypes: &Store<IndicatedForm>) -> Extent
    ensures { IsExtent subtypes.now result nothing_shaped }
{
    Extent {
        subtype: NameSubtype::Stored(0),
        length: None,
        is_callee: false,
    }
}

/// That of an expression whose form gives its subtype.
pub(crate) fn of_subtype(subtypes: &Store<IndicatedForm>, subtype: NameSubtype) -> Extent
    requires { number_in subtype ≤ length subtypes.now }
    ensures { IsExtent subtypes.now result (shaped_by (indicated_by subtypes.now subtype)) }
{
    Extent {
        subtype,
        length: static_length(subtypes, subtype),
        is_callee: false,
    }
}
