//! Functions: the subtypes of their results, how static their calls are, and their texts.

ghost use Rattle.std.specs.Prelude.{◌∷◌, List, OnOk};
ghost use Rattle.vd_forest.specs.Store.{Extends};
ghost use Rattle.vd_known_designs.specs.Designs.{IsReady, Knows};
ghost use Rattle.vd_value_rules.specs.Declaring.{function_known as known_of_function, result_known as known_of_result};
ghost use Rattle.vd_value_rules.specs.Designs.{Design};
ghost use Rattle.vd_value_rules.specs.Knowledge.{Known};

use std::alloc::{AllocError, Global};
use vd_composites::Value;
use vd_declarations::DeclId;
use vd_forest::Cursor;
use vd_known_designs::KnownDesign;
use vd_operations::{declaration_of, number_made};
use vd_resolved::Resolved;
use vd_static_values::Entry;
use vd_value_rules::StaticSort;
use vd_values::Scalar;

/// A function with a result of the subtype that a mark names. What its calls give isn't known when the text is analysed.
pub fn result_known(
    design: &mut KnownDesign<'_, '_>,
    alloc: Global,
    number: DeclId,
    mark: Option<DeclId>,
) -> Result<(), AllocError>
    requires ready { IsReady design.old }
    ensures knows { (d : Design) (k : Known) (ks : List Known) → Knows d design.old (k ∷ ks) → OnOk result (Knows d design.new (known_of_result number mark k ∷ ks)) }
    ensures extends { OnOk result (Extends design.old.table.subtypes design.new.table.subtypes) }
{
    let of = design.marked(mark);
    let bounds = design.table.subtypes.all_bounds(of.own)?;
    let value = Value::scalar(alloc, Scalar::Literal(0))?;
    let known = StaticSort {
        is_local: false,
        is_global: !design.table.is_inside(),
    };
    let entry = Entry {
        value,
        known,
        subtype: of.own,
        bounds,
        shape: None,
        is_signal: false,
        operator: None,
    };
    design.table.set(number.number(), entry, of.choosing)
}

/// The declaration or the body of a function with these parts: its result, and its text.
pub fn function_known<'a>(
    design: &mut KnownDesign<'a, '_>,
    alloc: Global,
    node: &Resolved,
    parts: &Cursor<'a, Resolved>,
) -> Result<(), AllocError>
    requires ready { IsReady design.old }
    ensures knows { (d : Design) (k : Known) (ks : List Known) → Knows d design.old (k ∷ ks)
        → OnOk result (Knows d design.new (known_of_function d node.now parts.now k ∷ ks)) }
    ensures extends { OnOk result (Extends design.old.table.subtypes design.new.table.subtypes) }
{
    let number = number_made(node, &parts.skip(1));
    result_known(design, alloc, number, declaration_of(&parts.skip(5)))?;
    design
        .table
        .set_function_text(number.number(), parts.fork())
}
