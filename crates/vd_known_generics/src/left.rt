//! The actuals that are left for further generics.

ghost use Rattle.std.specs.Prelude.{◌≡◌, ◌∷◌, [], MatchOption};

use crate::Actual;

/// The next actual, and those behind it.
#[derive(Clone, Copy, Drop)]
pub(crate) struct Left<'s> {
    pub(crate) first: &'s Actual,
    pub(crate) rest: &'s [Actual],
}

/// The next actual, if one is left.
pub(crate) fn next_actual<'s>(actuals: &'s [Actual]) -> Option<Left<'s>>
    ensures { MatchOption result (actuals.now ≡ []) (λ next. actuals.now ≡ next.first.now ∷ next.rest.now) }
{
    match actuals {
        [first, rest @ ..] => Some(Left { first, rest }),
        [] => None,
    }
}
