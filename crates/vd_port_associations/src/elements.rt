//! Pairs of all elements of some pairs. Each stands there once, so that a view that stands in many others is looked at once for each way in which it is
//! turned.

ghost use Rattle.std.specs.Prelude.{◌≡◌, IfOk, None, OnOk, [], ℕ, suc};
ghost use Rattle.vd_bytes.specs.declared.places.Place.{Place as AnyPlace};
ghost use Rattle.vd_walks.specs.Least.{lesser as lesser_of_two};
ghost use Rattle.vd_port_associations.specs.Agreement.{all_rules, first_rule, pair_rules, read_side};
ghost use Rattle.vd_port_modes.specs.Source.{design_in};
ghost use Rattle.vd_value_rules.specs.Actuals.{disagree_inside, each_element_disagrees, flat};
ghost use Rattle.vd_value_rules.specs.Designs.{Design, at_element as is_at_element, elements_of_view};

use crate::pairs::{Pair, Way, oriented_as, refused_modes, side_of, way_of};
use indexmap::IndexSet;
use std::alloc::{AllocError, Global};
use vd_bytes::{Place, Refused};
use vd_declarations::DeclId;
use vd_port_modes::Interfaces;
use vd_walks::lesser;

/// One pair more, where it isn't there.
fn add_pair(pairs: &mut IndexSet<Pair>, pair: Pair) -> Result<(), AllocError>
    ensures { OnOk result ((n : ℕ) (d : Design) (place : AnyPlace) → first_rule place (all_rules n d pairs.new.keys)
        ≡ lesser_of_two (first_rule place (all_rules n d pairs.old.keys)) (first_rule place (pair_rules n d pair))) }
{
    pairs.insert(pair)?;
    Ok(())
}

/// A pair at an element of both.
fn at_element(interfaces: &Interfaces<'_>, pair: Pair, name: &[u8]) -> Pair
    ensures formal { read_side result.formal ≡ is_at_element (design_in interfaces.now) (read_side pair.formal) name.now }
    ensures actual { read_side result.actual ≡ is_at_element (design_in interfaces.now) (read_side pair.actual) name.now }
{
    Pair {
        formal: side_of(interfaces.at_element(oriented_as(pair.formal), name)),
        actual: side_of(interfaces.at_element(oriented_as(pair.actual), name)),
    }
}

/// The pairs at the elements of a view.
fn add_elements(
    interfaces: &Interfaces<'_>,
    pair: Pair,
    view: Option<DeclId>,
    pairs: &mut IndexSet<Pair>,
) -> Result<(), AllocError>
    ensures { OnOk result ((n : ℕ) (place : AnyPlace) → first_rule place (all_rules n (design_in interfaces.now) pairs.new.keys)
        ≡ lesser_of_two (first_rule place (all_rules n (design_in interfaces.now) pairs.old.keys))
        (first_rule place (flat (each_element_disagrees (disagree_inside n (design_in interfaces.now)) (design_in interfaces.now)
        (read_side pair.formal) (read_side pair.actual) (elements_of_view (design_in interfaces.now) view))))) }
{
    for element in interfaces.view_elements(view) {
        add_pair(pairs, at_element(interfaces, pair, element.name.as_slice()))?;
    }
    Ok(())
}

/// What a pair breaks by its modes. Where it has a view, the pairs at its elements are put to those that are to come.
fn refused_pair(
    interfaces: &Interfaces<'_>,
    place: Place,
    pair: Pair,
    coming: &mut IndexSet<Pair>,
) -> Result<Option<Refused>, AllocError>
    ensures { IfOk result (λ found. (n : ℕ) → lesser_of_two (first_rule place (all_rules n (design_in interfaces.now) coming.new.keys)) found
        ≡ lesser_of_two (first_rule place (all_rules n (design_in interfaces.now) coming.old.keys)) (first_rule place (pair_rules (suc n) (design_in interfaces.now) pair))) }
{
    match way_of(pair) {
        Way::Modes { formal, actual } => Ok(refused_modes(place, formal, actual)),
        Way::Elements { view } => {
            add_elements(interfaces, pair, view, coming)?;
            Ok(None)
        }
    }
}

/// What some pairs break by their modes, with the pairs at their elements.
pub(crate) fn refused_pairs(
    interfaces: &Interfaces<'_>,
    place: Place,
    pairs: &[Pair],
    coming: &mut IndexSet<Pair>,
) -> Result<Option<Refused>, AllocError>
    ensures { IfOk result (λ found. (n : ℕ) → lesser_of_two (first_rule place (all_rules n (design_in interfaces.now) coming.new.keys)) found
        ≡ lesser_of_two (first_rule place (all_rules n (design_in interfaces.now) coming.old.keys)) (first_rule place (all_rules (suc n) (design_in interfaces.now) pairs.now))) }
{
    let mut found = None;
    for pair in pairs {
        let refused = refused_pair(interfaces, place, *pair, coming)?;
        found = lesser(found, refused);
    }
    Ok(found)
}
