//! Words, labels, and names of types and views.

ghost use Rattle.std.specs.Prelude.{◌≡◌, false, IfOk};
ghost use Rattle.vd_forest.specs.Forest.{Forest};
ghost use Rattle.vd_forest.specs.Store.{Extends};
ghost use Rattle.vd_forms.specs.declared.form.Form.{Form as AnyForm};
ghost use Rattle.vd_naming.specs.Naming.{done};
ghost use Rattle.vd_name_resolution.specs.Done.{IsDone};
ghost use Rattle.vd_name_resolution.specs.Kinds.{kind_of as step_kind, goes_inside as walks_parts};
ghost use Rattle.vd_name_resolution.specs.declared.kinds.Kind.TheVariants as kind;

use std::alloc::{AllocError, Global};
use vd_forest::{Opened, Store};
use vd_forms::Form;
use vd_name_entering::{
    Made, converse, label, label_name, mark, names as list, simple_name, skipped, view_name, word,
};
use vd_name_rows::{At, Names, Step};
use vd_resolved::Resolved;

/// A tree that is a word, a label, or the name of a type or view.
pub fn read_word<'a>(
    alloc: Global,
    names: &mut Names,
    at: &mut At<'a>,
    step: Step,
    node: &Opened<'a, Form>,
    out: &mut Store<Resolved>,
) -> Result<Made, AllocError>
    ensures is { (whole : Forest AnyForm) → step_kind step ≡ kind.Word → walks_parts step node.now.form ≡ false → IfOk result (λ made.
        IsDone out.new names.new at.new made
        (done whole step node.now.form node.now.text.now node.now.place node.now.parts at.old names.old)) }
    ensures extends { Extends out.old out.new }
{
    match step {
        Step::Word => Ok(word(alloc, names, at, node, out)?),
        Step::SimpleName => Ok(simple_name(alloc, names, at, node, out)?),
        Step::Names => Ok(list(alloc, names, at, node, out)?),
        Step::Label => Ok(label(alloc, names, at, node, out)?),
        Step::LabelName => Ok(label_name(alloc, names, at, node, out)?),
        Step::Mark => Ok(mark(alloc, names, at, node, out)?),
        Step::ViewName => Ok(view_name(alloc, names, at, node, out)?),
        Step::Converse => Ok(converse(names, at, node, out)?),
        _ => Ok(skipped(alloc, names, at, node, out)?),
    }
}
