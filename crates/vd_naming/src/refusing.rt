//! Rules that are broken, and where.

ghost use Rattle.std.specs.Prelude.{◌≡◌};
ghost use Rattle.vd_name_rows.specs.Refusals.{broken_if as refused_where};

use vd_bytes::{Place, Refused};

/// A rule that is broken at a place, where it is.
pub fn broken_if(broken: bool, rule: u16, place: Place) -> Option<Refused>
    ensures { result ≡ refused_where broken rule place }
{
    if broken {
        Some(Refused { place, rule })
    } else {
        None
    }
}
