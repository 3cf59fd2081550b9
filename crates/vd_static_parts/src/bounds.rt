//! How static the bounds of names are, and what attributes of them hang on.

ghost use Rattle.std.specs.Prelude.{◌≡◌};
ghost use Rattle.vd_environments.specs.Environments.{Env};
ghost use Rattle.vd_value_rules.specs.Indicated.{static_of};
ghost use Rattle.vd_meaning.specs.Names.{Named, bounds_known as known_of_bounds, scalar_type as type_of_mark};
ghost use Rattle.vd_static_values.specs.Entries.{IsFound, IsGround};
ghost use Rattle.vd_static_values.specs.Names.{IsName};
ghost use Rattle.vd_static_names.specs.Known.{HasSubtypes, IsWithin};

use vd_composites::ScalarType;
use vd_declarations::TypeId;
use vd_forest::Store;
use vd_static_names::grounds::subtype_of;
use vd_static_names::subtypes::own_bounds;
use vd_static_values::{Ground, KnownName};
use vd_value_rules::subtypes::scalar;
use vd_value_rules::{IndicatedForm, StaticSort};

/// How static the bounds of a name are.
pub fn bounds_known(subtypes: &Store<IndicatedForm>, name: &KnownName) -> StaticSort
    requires { IsWithin subtypes.now name.now }
    ensures { (e : Env) (p : Named) → IsName subtypes.now e name.now p → static_of result ≡ known_of_bounds p e }
{
    if name.is_object {
        let own = own_bounds(subtypes, name.subtype);
        StaticSort {
            is_local: own.is_local && name.local_slices,
            is_global: own.is_global,
        }
    } else {
        StaticSort {
            is_local: name.known.is_local,
            is_global: name.known.is_local && name.known.is_global,
        }
    }
}

/// The scalar type that a mark names.
pub fn scalar_type(ground: &Ground<'_>, mark: Option<TypeId>) -> Option<ScalarType>
    requires { HasSubtypes ground.now }
    ensures { (e : Env) → IsGround ground.now e → IsFound result (type_of_mark mark e) }
{
    let mark = mark?;
    let number = subtype_of(ground, mark.number());
    let subtype = scalar(&ground.subtypes.cursor(number))?;
    Some(subtype.of_type)
}
