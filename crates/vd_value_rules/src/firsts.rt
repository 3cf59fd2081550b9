//! The first refusals of both phases.

ghost use Rattle.std.specs.Prelude.{◌≡◌};
ghost use Rattle.vd_value_rules.specs.Groups.{firsts_of, joined_firsts};
ghost use Rattle.std.specs.Prelude.{[]};

use vd_bytes::Refused;
use vd_walks::lesser;

/// What some rules refuse first: of those below 400, which belong to the names of a design, and of the others.
#[derive(Clone, Copy, Drop)]
pub struct Firsts {
    pub of_names: Option<Refused>,
    pub of_rules: Option<Refused>,
}

/// Nothing is refused.
pub fn nothing_refused() -> Firsts
    ensures { result ≡ firsts_of [] }
{
    Firsts {
        of_names: None,
        of_rules: None,
    }
}

/// The first refusals of two groups of rules.
pub fn together(a: Firsts, b: Firsts) -> Firsts
    ensures { result ≡ joined_firsts a b }
{
    Firsts {
        of_names: lesser(a.of_names, b.of_names),
        of_rules: lesser(a.of_rules, b.of_rules),
    }
}
