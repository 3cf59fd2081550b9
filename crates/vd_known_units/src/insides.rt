//! What is known inside of a node.

ghost use Rattle.std.specs.Prelude.{◌≡◌, ◌∷◌, IfOk, List, OnOk};
ghost use Rattle.vd_known_designs.specs.Designs.{IsReady, Knows};
ghost use Rattle.vd_meaning.specs.Facets.{nth};
ghost use Rattle.vd_meaning.specs.Meanings.{meanings};
ghost use Rattle.vd_value_rules.specs.Designs.{Design};
ghost use Rattle.vd_value_rules.specs.Knowledge.{Known};
ghost use Rattle.vd_value_rules.specs.Standings.{known_down, known_inside, returning, with_parameter};
ghost use Rattle.vd_value_rules.specs.Indicated.{static_of};

use std::alloc::{AllocError, Global};
use vd_declarations::DeclId;
use vd_forest::Cursor;
use vd_forms::Form;
use vd_known_designs::KnownDesign;
use vd_known_forms::objects::later_objects;
use vd_known_indications::node;
use vd_operations::{declaration_of, number_made};
use vd_resolved::Resolved;
use vd_static_values::Sense;
use vd_value_rules::StaticSort;

/// The declaration of the type of an expression.
fn type_of(sense: &Sense<'_>) -> Option<DeclId>
    ensures { result ≡ sense.now.mark }
{
    match sense.mark {
        Some(mark) => Some(DeclId::of(mark.number())),
        None => None,
    }
}

/// The type of the first tree of a forest.
fn type_of_first(
    design: &mut KnownDesign<'_, '_>,
    alloc: Global,
    tree: &Cursor<'_, Resolved>,
) -> Result<Option<DeclId>, AllocError>
    requires ready { IsReady design.old }
    ensures mark { (d : Design) (k : Known) (ks : List Known) → Knows d design.old (k ∷ ks)
        → IfOk result (λ m. m ≡ (nth 0 (meanings d.table tree.now)).mark) }
    ensures knows { (d : Design) (ks : List Known) → Knows d design.old ks → Knows d design.new ks }
{
    let first = node(design, alloc, tree)?;
    Ok(type_of(&first.sense))
}

/// The parameter of a loop or a generate, which is so static and has the type of its range.
fn parameter_known(
    design: &mut KnownDesign<'_, '_>,
    alloc: Global,
    form: &Resolved,
    parts: &Cursor<'_, Resolved>,
    known: StaticSort,
) -> Result<(), AllocError>
    requires ready { IsReady design.old }
    requires later { known.is_local ≡ Rattle.std.specs.Prelude.false }
    ensures knows { (d : Design) (k : Known) (ks : List Known) → Knows d design.old (k ∷ ks)
        → OnOk result (Knows d design.new (with_parameter d form.now parts.now (static_of known) k ∷ ks)) }
{
    let number = number_made(form, parts);
    let mark = type_of_first(design, alloc, &parts.skip(1))?;
    let of = design.marked(mark);
    later_objects(design, &[number], of, known)
}

/// Inside of a function whose result has the subtype of this mark.
fn returning_known(design: &mut KnownDesign<'_, '_>, mark: Option<DeclId>) -> Result<(), AllocError>
    requires ready { IsReady design.old }
    ensures knows { (d : Design) (k : Known) (ks : List Known) → Knows d design.old (k ∷ ks)
        → OnOk result (Knows d design.new (returning mark (known_inside k) ∷ ks)) }
{
    design.table.enter_inside()?;
    let of = design.marked(mark);
    design.table.set_result(of.own)
}

/// What is known inside of a node with these parts.
pub fn known_in_parts(
    design: &mut KnownDesign<'_, '_>,
    alloc: Global,
    form: &Resolved,
    parts: &Cursor<'_, Resolved>,
) -> Result<(), AllocError>
    requires ready { IsReady design.old }
    ensures knows { (d : Design) (k : Known) (ks : List Known) → Knows d design.old (k ∷ ks)
        → OnOk result (Knows d design.new (known_down form.now.form d form.now parts.now k ∷ ks)) }
{
    let in_elaboration = StaticSort {
        is_local: false,
        is_global: true,
    };
    match form.form {
        Form::ProcessStatement => design.table.enter_inside(),
        Form::FunctionBody => returning_known(design, declaration_of(&parts.skip(5))),
        Form::ForLoop => parameter_known(design, alloc, form, parts, StaticSort::never()),
        Form::ForGenerate => parameter_known(design, alloc, form, parts, in_elaboration),
        _ => Ok(()),
    }
}
