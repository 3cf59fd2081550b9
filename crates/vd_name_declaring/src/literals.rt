//! Numbers on the literals of an enumeration type. (IEEE 1076, enumeration types)

ghost use Rattle.std.specs.Prelude.{◌≤◌, ◌<◌, IfOk, length};
ghost use Rattle.vd_forest.specs.Forest.{with_next};
ghost use Rattle.vd_forest.specs.Store.{at, Holds, Extends};
ghost use Rattle.vd_name_rows.specs.Entering.{numbered as with_numbers};
ghost use Rattle.vd_naming.specs.Endings.{literals_numbered as numbered_literals, with_literals as numbered_in_definition};

use crate::numbers::number_behind;
use std::alloc::{AllocError, Global};
use vd_bytes::Text;
use vd_declarations::DeclId;
use vd_forest::Store;
use vd_forms::Form;
use vd_resolved::Resolved;

/// The first tree of some, which have one, with a number, before other trees.
fn add_numbered(
    alloc: Global,
    number: u32,
    tree: u32,
    next: u32,
    out: &mut Store<Resolved>,
) -> Result<u32, AllocError>
    requires some { 0 < tree }
    requires tree_in { tree ≤ length out.old }
    requires next_in { next ≤ length out.old }
    ensures holds { IfOk result (λ made. Holds out.new made (with_next (with_numbers number (at out.old tree)) (at out.old next))) }
    ensures extends { Extends out.old out.new }
{
    let node = out.node(tree);
    // A store can't be read while a node is added to it.
    let text = Text::from_slice(alloc, node.text)?;
    let form = Resolved {
        declaration: Some(DeclId::of(number)),
        ..node.form
    };
    let place = node.place;
    let parts = node.parts;
    let made = out.add(form, text.as_slice(), place, parts, next)?;
    Ok(made)
}

/// Some trees with numbers, the first with this one.
#[tactic(auto, using(vd_forest::proofs::StoreLemmas::growing, crate::proofs::NumberLemmas::numbered_step))]
pub fn numbered(
    alloc: Global,
    first: u32,
    list: u32,
    out: &mut Store<Resolved>,
) -> Result<u32, AllocError>
    requires { list ≤ length out.old }
    ensures holds { IfOk result (λ made. Holds out.new made (with_numbers first (at out.old list))) }
    ensures extends { Extends out.old out.new }
{
    let mut number = first;
    let mut left = list;
    let mut made = 0;
    while left > 0 {
        let next = out.after(left);
        made = add_numbered(alloc, number, left, made, out)?;
        number = number_behind(number)?;
        left = next;
    }
    let trees = out.turn(made, 0)?;
    Ok(trees)
}

/// A tree whose parts have the numbers behind this one, before the trees behind it.
fn with_numbered_parts(
    alloc: Global,
    number: u32,
    tree: u32,
    out: &mut Store<Resolved>,
) -> Result<u32, AllocError>
    requires { tree ≤ length out.old }
    ensures holds { IfOk result (λ made. Holds out.new made (numbered_literals Form.EnumerationType number (at out.old tree))) }
    ensures extends { Extends out.old out.new }
{
    let Some(node) = out.head(tree) else {
        return Ok(0);
    };
    let text = Text::from_slice(alloc, node.text)?;
    let form = node.form;
    let place = node.place;
    let literals = node.parts;
    let next = node.next;
    let first = number_behind(number)?;
    let parts = numbered(alloc, first, literals, out)?;
    let made = out.add(form, text.as_slice(), place, parts, next)?;
    Ok(made)
}

/// The literals of the definition of an enumeration type have the numbers behind that of the type.
fn literals_numbered(
    alloc: Global,
    form: Form,
    number: u32,
    definition: u32,
    out: &mut Store<Resolved>,
) -> Result<u32, AllocError>
    requires { definition ≤ length out.old }
    ensures holds { IfOk result (λ made. Holds out.new made (numbered_literals form number (at out.old definition))) }
    ensures extends { Extends out.old out.new }
{
    match form {
        Form::EnumerationType => {
            let made = with_numbered_parts(alloc, number, definition, out)?;
            Ok(made)
        }
        _ => Ok(definition),
    }
}

/// The parts of a type declaration, in which the literals of an enumeration type have numbers.
#[tactic(auto, using(crate::proofs::NumberLemmas::relinked, vd_forest::proofs::StoreLemmas::growing))]
pub(crate) fn with_literals(
    alloc: Global,
    form: Form,
    number: u32,
    parts: u32,
    out: &mut Store<Resolved>,
) -> Result<u32, AllocError>
    requires { parts ≤ length out.old }
    ensures holds { IfOk result (λ made. Holds out.new made (numbered_in_definition form number (at out.old parts))) }
    ensures extends { Extends out.old out.new }
{
    let Some(word) = out.head(parts) else {
        return Ok(0);
    };
    let definition = word.next;
    let numbered = literals_numbered(alloc, form, number, definition, out)?;
    let made = out.relink(parts, numbered)?;
    Ok(made)
}
