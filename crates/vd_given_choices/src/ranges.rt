//! The ranges that choices stand for.

ghost use Rattle.std.specs.List.{list_all};
ghost use Rattle.std.specs.Prelude.{◌≡◌, ◌++◌, IfOk, OnOk, is_some};
ghost use Rattle.vd_given_choices.specs.Refusals.{bounds_in, listed, repeats_known, those_known};
ghost use Rattle.vd_value_rules.specs.Choices.{share as have_common};

use crate::any_shares;
use crate::choices::Choice;
use std::alloc::{AllocError, Global};
use vd_composites::Bounds;

/// Whether one of some ranges has a value in common with another one, where that is known.
pub(crate) fn repeats(before: &[Bounds], bounds: Option<Bounds>) -> bool
    ensures { result ≡ repeats_known have_common before.now bounds }
{
    match bounds {
        Some(bounds) => any_shares(before, bounds),
        None => false,
    }
}

/// One more range, where it is known.
pub(crate) fn add_known(known: &mut Vec<Bounds>, bounds: Option<Bounds>) -> Result<(), AllocError>
    ensures { OnOk result (known.new.items ≡ known.old.items ++ listed bounds) }
{
    if let Some(bounds) = bounds {
        known.push(bounds)?;
    }
    Ok(())
}

impl Choice {
    /// The range of values that it stands for, where it is locally static.
    pub fn bounds(&self) -> Option<Bounds>
        ensures { result ≡ bounds_in self.now }
    {
        if self.is_static { self.range } else { None }
    }
}

/// Whether the ranges of all choices are known.
pub fn are_all_known(choices: &[Choice]) -> bool
    ensures { result ≡ list_all (λ x. is_some (bounds_in x)) choices.now }
{
    choices.iter().all(|choice| choice.bounds().is_some())
}

/// The ranges of the choices whose ranges are known.
pub fn known_bounds(alloc: Global, choices: &[Choice]) -> Result<Vec<Bounds>, AllocError>
    ensures { IfOk result (λ known. known.items ≡ those_known bounds_in choices.now) }
{
    let mut known = Vec::new(alloc);
    for choice in choices {
        add_known(&mut known, choice.bounds())?;
    }
    Ok(known)
}
