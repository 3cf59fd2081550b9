//! Subtype indications that need bounds.

ghost use Rattle.std.specs.Prelude.{◌≡◌, ◌∷◌, IfOk, List, OnOk};
ghost use Rattle.vd_bound_rules.specs.Sorts.{place_in, unconstrained_at};
ghost use Rattle.vd_forest.specs.Forest.{no_place, place_of};
ghost use Rattle.vd_known_designs.specs.Designs.{IsReady, Knows};
ghost use Rattle.vd_walks.specs.Least.{least_of};
ghost use Rattle.vd_value_rules.specs.Bounds.{has_no_bounds as needs_bounds, unconstrained as unconstrained_in};
ghost use Rattle.vd_value_rules.specs.Choices.{place_or as place_or_else};
ghost use Rattle.vd_value_rules.specs.Designs.{Design};
ghost use Rattle.vd_value_rules.specs.Knowledge.{Known};
ghost use Rattle.vd_value_rules.specs.Standings.{State};

use crate::sorts::{Indication, indication_of, number_of};
use std::alloc::{AllocError, Global};
use vd_bytes::{Place, Refused};
use vd_forest::{Cursor, Opened};
use vd_known_designs::KnownDesign;
use vd_known_indications::indicated_twice;
use vd_resolved::Resolved;
use vd_value_rules::refused_if;
use vd_value_rules::subtypes::has_bounds;

/// Whether the subtype indication with a number is of arrays of any bounds.
fn has_no_bounds(
    design: &mut KnownDesign<'_, '_>,
    alloc: Global,
    number: u32,
    parts: &Cursor<'_, Resolved>,
) -> Result<bool, AllocError>
    requires ready { IsReady design.old }
    ensures is { (d : Design) (s : State) (ks : List Known) → Knows d design.old (s.known ∷ ks)
        → IfOk result (λ found. found ≡ needs_bounds d s number parts.now) }
    ensures knows { (d : Design) (ks : List Known) → Knows d design.old ks → OnOk result (Knows d design.new ks) }
{
    let indicated = indicated_twice(design, alloc, &parts.skip(number).parts())?;
    Ok(!has_bounds(&design.table.subtypes.store().cursor(indicated.own)))
}

/// Where the first tree stands.
fn place_or(trees: &Cursor<'_, Resolved>) -> Place
    ensures { result ≡ place_or_else (place_of trees.now) no_place }
{
    match trees.place() {
        Some(place) => place,
        None => Place {
            file: 0,
            line: 0,
            column: 0,
        },
    }
}

/// Where a subtype indication with no bounds is refused.
fn place_of_refusal(indication: Indication, node: &Opened<'_, Resolved>) -> Place
    ensures { result ≡ place_in indication node.now.place node.now.parts }
{
    match indication {
        Indication::Port => place_or(&node.parts.skip(1).parts()),
        Indication::Element => place_or(&node.parts.parts()),
        Indication::Array => place_or(&node.parts.skip(1)),
        Indication::Object | Indication::Other => node.place,
    }
}

/// 410 of declarations: an array of any bounds.
pub(crate) fn unconstrained(
    design: &mut KnownDesign<'_, '_>,
    alloc: Global,
    node: &Opened<'_, Resolved>,
) -> Result<Option<Refused>, AllocError>
    requires ready { IsReady design.old }
    ensures is { (d : Design) (s : State) (ks : List Known) → Knows d design.old (s.known ∷ ks)
        → IfOk result (λ found. found ≡ least_of (unconstrained_in node.now.form.form d s node.now.place node.now.parts)) }
    ensures knows { (d : Design) (ks : List Known) → Knows d design.old ks → OnOk result (Knows d design.new ks) }
{
    let indication = indication_of(node.form.form);
    let Some(number) = number_of(indication) else {
        return Ok(None);
    };
    let refused = has_no_bounds(design, alloc, number, &node.parts)?;
    let place = place_of_refusal(indication, node);
    Ok(refused_if(refused, place, 410))
}
