//! Refusals of both phases, by their rules.

ghost use Rattle.std.specs.Prelude.{◌≡◌};
ghost use Rattle.vd_value_rules.specs.Groups.{firsts_of};
ghost use Rattle.vd_value_rules.specs.Judging.{refused_if as is_refused_if};

use vd_bytes::Place;
use vd_value_rules::{Firsts, refused_if};

/// A refusal, where something holds. Rules below 400 are of names.
pub(crate) fn firsts_if(holds: bool, place: Place, rule: u16) -> Firsts
    ensures { result ≡ firsts_of (is_refused_if holds place rule) }
{
    let found = refused_if(holds, place, rule);
    if rule < 400 {
        Firsts {
            of_names: found,
            of_rules: None,
        }
    } else {
        Firsts {
            of_names: None,
            of_rules: found,
        }
    }
}
