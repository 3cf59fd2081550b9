//! Refusals.

ghost use Rattle.std.specs.Prelude.{◌≡◌};
ghost use Rattle.vd_walks.specs.Least.{least_of};
ghost use Rattle.vd_value_rules.specs.Judging.{refused_if as is_refused_if};

use vd_bytes::{Place, Refused};

/// A refusal, where something holds.
pub fn refused_if(holds: bool, place: Place, rule: u16) -> Option<Refused>
    ensures { result ≡ least_of (is_refused_if holds place rule) }
{
    if holds {
        Some(Refused { place, rule })
    } else {
        None
    }
}
