//! Subtype indications. (IEEE 1076, subtype declarations)

ghost use Rattle.std.specs.Prelude.{◌≡◌, ◌∷◌, IfOk, List, OnOk};
ghost use Rattle.vd_environments.specs.Environments.{Env};
ghost use Rattle.vd_forest.specs.Forest.{Forest};
ghost use Rattle.vd_forest.specs.Store.{Extends};
ghost use Rattle.vd_value_rules.specs.declared.forms.IndicatedForm.{IndicatedForm};
ghost use Rattle.vd_value_rules.specs.Found.{found};
ghost use Rattle.vd_known_designs.specs.Designs.{AreIndicated, IsReady, Knows};
ghost use Rattle.vd_known_indications.specs.Constraints.{IsConstraintIn};
ghost use Rattle.vd_meaning.specs.Facets.{Meaning, nth};
ghost use Rattle.vd_static_values.specs.Nodes.{AreNodes};
ghost use Rattle.vd_static_values.specs.Senses.{IsSense};
ghost use Rattle.vd_value_rules.specs.Designs.{Design};
ghost use Rattle.vd_value_rules.specs.Knowledge.{Known, early_range as range_early, indicated_twice as indicated_both_ways};

use crate::evaluating::nodes;
use std::alloc::{AllocError, Global};
use vd_composites::Bounds;
use vd_declarations::DeclId;
use vd_forest::Cursor;
use vd_known_designs::{KnownDesign, TwoSubtypes};
use vd_resolved::Resolved;
use vd_static_values::{Node, Ranging, Sense};
use vd_value_rules::StaticSort;

/// A constraint: its range, where that is locally static and doesn't stop, and how static it is.
#[derive(Clone, Copy, Debug)]
pub struct Constraint {
    pub range: Option<Bounds>,
    pub known: StaticSort,
}

/// The range that a node stands for, where it is locally static and doesn't stop.
pub fn early_range(sense: &Sense<'_>) -> Option<Bounds>
    ensures { (subtypes : List (Forest IndicatedForm)) (e : Env) (m : Meaning) → IsSense subtypes e sense.now m → result ≡ found (range_early m e) }
{
    match sense.range {
        Ranging::Range(range) => { if sense.known.is_local { range } else { None } }
        Ranging::NoRange => None,
    }
}

/// The declaration that the first of some nodes names.
fn mark_of(nodes: &[Node<'_>]) -> Option<DeclId>
    ensures { (subtypes : List (Forest IndicatedForm)) (e : Env) (ms : List Meaning) → AreNodes subtypes e nodes.now ms → result ≡ (nth 0 ms).declaration }
{
    match nodes.get(0) {
        Some(mark) => mark.sense.declaration,
        None => None,
    }
}

/// The constraint that a node is, where there is one.
fn constraint_at(sense: &Sense<'_>) -> Option<Constraint>
    ensures { (subtypes : List (Forest IndicatedForm)) (e : Env) (m : Meaning) → IsSense subtypes e sense.now m → IsConstraintIn e result m }
{
    if sense.is_present {
        Some(Constraint {
            range: early_range(sense),
            known: sense.known,
        })
    } else {
        None
    }
}

/// The constraint that the second of some nodes is, where there is one.
fn constraint_of(nodes: &[Node<'_>]) -> Option<Constraint>
    ensures { (subtypes : List (Forest IndicatedForm)) (e : Env) (ms : List Meaning) → AreNodes subtypes e nodes.now ms → IsConstraintIn e result (nth 1 ms) }
{
    match nodes.get(1) {
        Some(node) => constraint_at(&node.sense),
        None => None,
    }
}

/// What a subtype indication with these parts indicates.
pub fn indicated_twice(
    design: &mut KnownDesign<'_, '_>,
    alloc: Global,
    parts: &Cursor<'_, Resolved>,
) -> Result<TwoSubtypes, AllocError>
    requires ready { IsReady design.old }
    ensures indicated { (d : Design) (k : Known) (ks : List Known) → Knows d design.old (k ∷ ks)
        → IfOk result (λ x. AreIndicated design.new.table.subtypes x (indicated_both_ways d k parts.now)) }
    ensures knows { (d : Design) (ks : List Known) → Knows d design.old ks → OnOk result (Knows d design.new ks) }
    ensures extends { OnOk result (Extends design.old.table.subtypes design.new.table.subtypes) }
{
    let nodes = nodes(design, alloc, parts)?;
    let of = design.marked(mark_of(&nodes));
    match constraint_of(&nodes) {
        Some(constraint) => design.narrowed(of, constraint.range, constraint.known),
        None => Ok(of),
    }
}
