//! What a signal breaks as an actual.

ghost use Rattle.std.specs.Prelude.{◌≡◌, IfOk, [], length, suc, true, ℕ};
ghost use Rattle.vd_walks.specs.Least.{least_of};
ghost use Rattle.vd_port_associations.specs.Agreement.{all_rules, first_rule, pair_rules};
ghost use Rattle.vd_port_modes.specs.Readings.{read_oriented, read_oriented_some, read_reached};
ghost use Rattle.vd_port_modes.specs.Source.{design_in};
ghost use Rattle.vd_value_rules.specs.Actuals.{all_disagree, disagree_inside, signal_broken};
ghost use Rattle.vd_value_rules.specs.Designs.{Design};

use crate::elements::refused_pairs;
use crate::pairs::{Pair, side_of};
use indexmap::IndexSet;
use std::alloc::{AllocError, Global};
use vd_bytes::{Place, Refused};
use vd_port_modes::{Interfaces, Oriented, Reached, oriented};
use vd_walks::lesser;

/// A pair, told apart.
fn pair_of(formal: Oriented, actual: Oriented) -> Pair
    ensures { (n : ℕ) (d : Design) → pair_rules n d result ≡ disagree_inside n d (read_oriented formal) (read_oriented actual) }
{
    Pair {
        formal: side_of(formal),
        actual: side_of(actual),
    }
}

/// Whether there is no pair.
fn are_no_pairs(pairs: &IndexSet<Pair>) -> bool
    ensures { result ≡ true → pairs.now.keys ≡ [] }
{
    pairs.is_empty()
}

/// What a pair breaks, level by level of the views inside one another.
fn refused_inside(
    alloc: Global,
    interfaces: &Interfaces<'_>,
    place: Place,
    pair: Pair,
) -> Result<Option<Refused>, AllocError>
    ensures { IfOk result (λ found. found
        ≡ first_rule place (pair_rules (suc (suc (length (design_in interfaces.now).units.views))) (design_in interfaces.now) pair)) }
{
    let mut left = interfaces.view_count() as u128 + 2;
    let mut pairs = IndexSet::new(alloc);
    pairs.insert(pair)?;
    let mut found = None;
    while left > 0 && !are_no_pairs(&pairs) {
        let mut coming = IndexSet::new(alloc);
        let refused = refused_pairs(interfaces, place, pairs.as_slice(), &mut coming)?;
        found = lesser(found, refused);
        pairs = coming;
        left -= 1;
    }
    Ok(found)
}

/// What an actual breaks by its mode or view, where it has one.
fn refused_with(
    alloc: Global,
    interfaces: &Interfaces<'_>,
    formal: Oriented,
    place: Place,
    actual: Option<Oriented>,
) -> Result<Option<Refused>, AllocError>
    ensures { IfOk result (λ found. found ≡ first_rule place (all_disagree (design_in interfaces.now) (read_oriented formal) (read_oriented_some actual))) }
{
    match actual {
        Some(actual) => refused_inside(alloc, interfaces, place, pair_of(formal, actual)),
        None => Ok(None),
    }
}

/// What a signal as an actual breaks by its mode or view, against the formal's.
pub fn refused_signal(
    alloc: Global,
    interfaces: &Interfaces<'_>,
    formal: Oriented,
    place: Place,
    name: &Reached<'_>,
) -> Result<Option<Refused>, AllocError>
    ensures { IfOk result (λ found. found ≡ least_of (signal_broken (design_in interfaces.now) (read_oriented formal) place (read_reached name.now))) }
{
    let actual = oriented(interfaces, name);
    refused_with(alloc, interfaces, formal, place, actual)
}
