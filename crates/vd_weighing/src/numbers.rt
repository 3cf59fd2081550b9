//! Numbers that stop at the greatest one of 64 bits.

ghost use Rattle.std.specs.Prelude.{◌≡◌, ◌+◌, ◌*◌};
ghost use Rattle.vd_weighing.specs.Limits.{at_most};

/// The sum.
#[tactic(auto, using(crate::proofs::LimitLemmas::at_most_is_min))]
pub(crate) fn plus(a: u64, b: u64) -> u64
    ensures { result ≡ at_most (a + b) }
{
    a.saturating_add(b)
}

/// The product.
#[tactic(auto, using(crate::proofs::LimitLemmas::at_most_is_min))]
pub(crate) fn product(a: u64, b: u64) -> u64
    ensures { result ≡ at_most (a * b) }
{
    a.saturating_mul(b)
}
