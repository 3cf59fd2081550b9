//! Nodes of resolved trees.

ghost use Rattle.std.specs.Prelude.{◌≤◌, IfOk, length};
ghost use Rattle.vd_forest.specs.Forest.{nothing, more, joined};
ghost use Rattle.vd_forest.specs.Store.{at, Holds, Extends};
ghost use Rattle.vd_naming.specs.Expressions.{resolved, unresolved as with_nothing_named};

use std::alloc::{AllocError, Global};
use vd_declarations::{DeclId, TypeId};
use vd_forest::{Opened, Store};
use vd_forms::Form;
use vd_naming::unresolved;
use vd_resolved::Resolved;

/// A node once more, with a declaration, a type and other parts, and nothing behind it.
pub fn add_node(
    node: &Opened<'_, Form>,
    declaration: Option<DeclId>,
    mark: Option<TypeId>,
    parts: u32,
    out: &mut Store<Resolved>,
) -> Result<u32, AllocError>
    requires { parts ≤ length out.old }
    ensures holds { IfOk result (λ number. Holds out.new number
        (more (resolved node.now.form declaration mark) node.now.text.now node.now.place (at out.old parts) nothing)) }
    ensures extends { Extends out.old out.new }
{
    let resolved = Resolved {
        form: node.form,
        declaration,
        mark,
        position: 0,
    };
    out.add(resolved, node.text, node.place, parts, 0)
}

/// A tree in which nothing is named, and nothing behind it.
#[tactic(auto, using(vd_forest::proofs::StoreLemmas::growing))]
pub fn unresolved_node(
    alloc: Global,
    node: &Opened<'_, Form>,
    out: &mut Store<Resolved>,
) -> Result<u32, AllocError>
    ensures holds { IfOk result (λ number. Holds out.new number
        (with_nothing_named (more node.now.form node.now.text.now node.now.place node.now.parts nothing))) }
    ensures extends { Extends out.old out.new }
{
    let parts = unresolved(alloc, &node.parts, out)?;
    let made = add_node(node, None, None, parts, out)?;
    Ok(made)
}

/// The trees of one forest, and then those of another.
#[tactic(auto, using(crate::proofs::JoiningLemmas::holds_joined))]
pub fn join(first: u32, rest: u32, out: &mut Store<Resolved>) -> Result<u32, AllocError>
    requires first_in { first ≤ length out.old }
    requires rest_in { rest ≤ length out.old }
    ensures holds { IfOk result (λ number. Holds out.new number (joined (at out.old first) (at out.old rest))) }
    ensures extends { Extends out.old out.new }
{
    let turned = out.turn(first, 0)?;
    let made = out.turn(turned, rest)?;
    Ok(made)
}
