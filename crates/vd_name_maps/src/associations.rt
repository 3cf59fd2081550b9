//! Elements of association lists: their nodes, and the names of those that are for nothing.

ghost use Rattle.std.specs.Prelude.{◌≡◌, ◌≤◌, [], Some, None, IfOk, length};
ghost use Rattle.vd_forest.specs.Forest.{nothing, more, joined};
ghost use Rattle.vd_forest.specs.Store.{at, Holds, Extends};
ghost use Rattle.vd_forms.specs.declared.form.Form.TheVariants as form;
ghost use Rattle.vd_naming.specs.Expressions.{resolved};
ghost use Rattle.vd_naming.specs.Ports.{names_of_expression as refused_expression, named_front as front_with, choices_node as choices_with};

use std::alloc::{AllocError, Global};
use vd_bytes::{Place, Refused};
use vd_declarations::DeclId;
use vd_forest::{Cursor, Opened, Store};
use vd_forms::{Form, is_expression};
use vd_name_entering::{add_node, join, one_tree};
use vd_name_expressions::refused_names;
use vd_name_rows::{At, Names};
use vd_naming::unresolved;
use vd_resolved::Resolved;

/// The first name that is refused in an element that is for nothing, where it is an expression.
pub fn names_of_expression(
    alloc: Global,
    names: &Names,
    at: &At<'_>,
    node: &Opened<'_, Form>,
) -> Result<Option<Refused>, AllocError>
    ensures { IfOk result (λ first. first
        ≡ refused_expression at.now names.now (more node.now.form node.now.text.now node.now.place node.now.parts nothing)) }
{
    if !is_expression(node.form) {
        return Ok(None);
    }
    let mut single = Store::new(alloc);
    let number = one_tree(node, &mut single)?;
    refused_names(alloc, names, at, &single.cursor(number))
}

/// The first tree in front of `=>`, with the declaration that it names. Nothing behind it is kept.
#[tactic(auto, using(vd_forest::proofs::StoreLemmas::growing))]
pub fn named_front(
    alloc: Global,
    formal: DeclId,
    front: &Cursor<'_, Form>,
    out: &mut Store<Resolved>,
) -> Result<u32, AllocError>
    ensures holds { IfOk result (λ number. Holds out.new number (front_with formal front.now)) }
    ensures extends { Extends out.old out.new }
{
    let Some(first) = front.open() else {
        return Ok(0);
    };
    let parts = unresolved(alloc, &first.parts, out)?;
    let made = add_node(&first, Some(formal), None, parts, out)?;
    Ok(made)
}

/// The node of what stands in front of `=>`, with these trees inside.
pub fn choices_node(
    choices: &Cursor<'_, Form>,
    inside: u32,
    out: &mut Store<Resolved>,
) -> Result<u32, AllocError>
    requires { inside ≤ length out.old }
    ensures holds { IfOk result (λ number. Holds out.new number (choices_with choices.now (at out.old inside))) }
    ensures extends { Extends out.old out.new }
{
    match choices.open() {
        None => Ok(0),
        Some(first) => add_node(&first, None, None, inside, out),
    }
}

/// The node of an association: its choices, with these trees inside, and the trees of its actual.
#[tactic(auto, using(vd_forest::proofs::StoreLemmas::growing))]
pub fn association_node(
    place: Place,
    choices: &Cursor<'_, Form>,
    inside: u32,
    actual: u32,
    out: &mut Store<Resolved>,
) -> Result<u32, AllocError>
    requires inside_in { inside ≤ length out.old }
    requires actual_in { actual ≤ length out.old }
    ensures holds { IfOk result (λ number. Holds out.new number
        (more (resolved form.Association None None) [] place (joined (choices_with choices.now (at out.old inside)) (at out.old actual)) nothing)) }
    ensures extends { Extends out.old out.new }
{
    let front = choices_node(choices, inside, out)?;
    let parts = join(front, actual, out)?;
    let node = Resolved {
        form: Form::Association,
        declaration: None,
        mark: None,
        position: 0,
    };
    let made = out.add(node, &[], place, parts, 0)?;
    Ok(made)
}
