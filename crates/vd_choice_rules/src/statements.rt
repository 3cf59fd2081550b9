//! Statements with choices.

ghost use Rattle.std.specs.Prelude.{◌≡◌, ◌∷◌, IfOk, List, OnOk};
ghost use Rattle.vd_choice_rules.specs.Statements.{broken_by_selector};
ghost use Rattle.vd_choice_rules.specs.SelectingStatements.{IsSelecting};
ghost use Rattle.vd_known_designs.specs.Designs.{IsReady, Knows};
ghost use Rattle.vd_known_indications.specs.Places.{Finds};
ghost use Rattle.vd_walks.specs.Least.{least_of};
ghost use Rattle.vd_port_modes.specs.Source.{design_in};
ghost use Rattle.vd_value_rules.specs.Groups.{choices as all_choices};
ghost use Rattle.vd_value_rules.specs.Choices.{Selecting as selectings, broken_choices, choices_broken};
ghost use Rattle.vd_value_rules.specs.Designs.{Design};
ghost use Rattle.vd_value_rules.specs.Knowledge.{Known};
ghost use Rattle.vd_value_rules.specs.Standings.{State};

use crate::arrays::refused_of_arrays;
use crate::scalars::refused_of_scalars;
use crate::{Selecting, selecting_of};
use std::alloc::{AllocError, Global};
use vd_bytes::Refused;
use vd_forest::Opened;
use vd_given_choices::first_not_static;
use vd_known_designs::KnownDesign;
use vd_known_indications::Surroundings;
use vd_port_modes::Interfaces;
use vd_resolved::Resolved;
use vd_trees::Revision;
use vd_value_rules::Firsts;
use vd_walks::lesser;

/// The first refusal of choices, but that they are locally static.
fn refused_by_selector(
    design: &KnownDesign<'_, '_>,
    alloc: Global,
    selecting: &Selecting,
) -> Result<Option<Refused>, AllocError>
    requires ready { IsReady design.now }
    ensures { (d : Design) (k : Known) (ks : List Known) (s : selectings) → Knows d design.now (k ∷ ks) → IsSelecting selecting.now s
        → IfOk result (λ found. found ≡ least_of (broken_by_selector k.env s)) }
{
    if selecting.shape.is_array {
        refused_of_arrays(design, alloc, selecting)
    } else {
        refused_of_scalars(design, alloc, selecting)
    }
}

/// The first refusal of choices.
fn refused_choices(
    design: &KnownDesign<'_, '_>,
    alloc: Global,
    selecting: &Selecting,
) -> Result<Option<Refused>, AllocError>
    requires ready { IsReady design.now }
    ensures { (d : Design) (k : Known) (ks : List Known) (s : selectings) → Knows d design.now (k ∷ ks) → IsSelecting selecting.now s
        → IfOk result (λ found. found ≡ least_of (choices_broken k.env s)) }
{
    let later = first_not_static(selecting.choices.as_slice());
    let broken = refused_by_selector(design, alloc, selecting)?;
    Ok(lesser(later, broken))
}

/// The first refusal of a node.
fn refused_statement(
    design: &mut KnownDesign<'_, '_>,
    revision: Revision,
    alloc: Global,
    around: &Surroundings,
    node: &Opened<'_, Resolved>,
) -> Result<Option<Refused>, AllocError>
    requires ready { IsReady design.old }
    ensures refused { (d : Design) (s : State) (ks : List Known) → Knows d design.old (s.known ∷ ks) → d.revision ≡ revision → s.label ≡ around.now.label
        → IfOk result (λ found. found ≡ least_of (broken_choices d s node.now.form node.now.place node.now.parts)) }
    ensures knows { (d : Design) (ks : List Known) → Knows d design.old ks → OnOk result (Knows d design.new ks) }
{
    let found = selecting_of(design, revision, alloc, around, node)?;
    match found {
        None => Ok(None),
        Some(selecting) => refused_choices(design, alloc, &selecting),
    }
}

/// What a statement with choices breaks of the rules of its choices.
pub fn choice_refusals(
    design: &mut KnownDesign<'_, '_>,
    interfaces: &Interfaces<'_>,
    alloc: Global,
    around: &Surroundings,
    node: &Opened<'_, Resolved>,
) -> Result<Firsts, AllocError>
    requires ready { IsReady design.old }
    ensures finds { Finds all_choices (design_in interfaces.now) design.old around.now node.now result }
    ensures knows { (d : Design) (ks : List Known) → Knows d design.old ks → OnOk result (Knows d design.new ks) }
{
    let of_rules = refused_statement(design, interfaces.revision(), alloc, around, node)?;
    Ok(Firsts {
        of_names: None,
        of_rules,
    })
}
