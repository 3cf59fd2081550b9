//! Expressions, ranges and marks.

ghost use Rattle.std.specs.Prelude.{◌≡◌, false, IfOk};
ghost use Rattle.vd_forest.specs.Forest.{Forest, nothing, more};
ghost use Rattle.vd_forest.specs.Store.{Extends};
ghost use Rattle.vd_forms.specs.declared.form.Form.{Form as AnyForm};
ghost use Rattle.vd_naming.specs.Naming.{done};
ghost use Rattle.vd_naming.specs.Expressions.{expression as expression_step};
ghost use Rattle.vd_name_resolution.specs.Done.{IsStepped};
ghost use Rattle.vd_name_resolution.specs.Done.{IsDone};
ghost use Rattle.vd_name_resolution.specs.Kinds.{kind_of as step_kind, goes_inside as walks_parts};
ghost use Rattle.vd_name_resolution.specs.declared.kinds.Kind.TheVariants as kind;

use std::alloc::{AllocError, Global};
use vd_forest::{Opened, Store};
use vd_forms::Form;
use vd_name_entering::{Made, one_tree};
use vd_name_expressions::{
    array_index, expression, index_mark, parameter, selector, surplus, target,
};
use vd_name_functions::result_mark;
use vd_name_rows::{At, Names, Step, Want};
use vd_resolved::Resolved;

/// One tree that is an expression of which this is wanted.
fn wanted(
    alloc: Global,
    names: &Names,
    at: &At<'_>,
    want: Want,
    node: &Opened<'_, Form>,
    out: &mut Store<Resolved>,
) -> Result<Made, AllocError>
    ensures is { IfOk result (λ made. IsStepped out.new names.now at.now made
        (expression_step want at.now names.now (more node.now.form node.now.text.now node.now.place node.now.parts nothing))) }
    ensures extends { Extends out.old out.new }
{
    let mut single = Store::new(alloc);
    let number = one_tree(node, &mut single)?;
    let made = expression(alloc, names, at, want, &single.cursor(number), out)?;
    Ok(made)
}

/// A tree that is an expression, a range or a mark.
pub fn read_expression<'a>(
    alloc: Global,
    names: &mut Names,
    at: &mut At<'a>,
    step: Step,
    node: &Opened<'a, Form>,
    out: &mut Store<Resolved>,
) -> Result<Made, AllocError>
    ensures is { (whole : Forest AnyForm) → step_kind step ≡ kind.Expression → walks_parts step node.now.form ≡ false → IfOk result (λ made.
        IsDone out.new names.new at.new made
        (done whole step node.now.form node.now.text.now node.now.place node.now.parts at.old names.old)) }
    ensures extends { Extends out.old out.new }
{
    match step {
        Step::Expression(want) => Ok(wanted(alloc, names, at, want, node, out)?),
        Step::Chosen => Ok(wanted(alloc, names, at, Want::AtHand, node, out)?),
        Step::Target => Ok(target(alloc, names, at, node, out)?),
        Step::Selector => Ok(selector(alloc, names, at, node, out)?),
        Step::Parameter(object) => { Ok(parameter(alloc, names, at, object.class(), node, out)?) }
        Step::IndexMark => Ok(index_mark(alloc, names, at, node, out)?),
        Step::ArrayIndex => Ok(array_index(alloc, names, at, node, out)?),
        Step::Result => Ok(result_mark(alloc, names, at, node, out)?),
        _ => Ok(surplus(alloc, names, at, node, out)?),
    }
}
