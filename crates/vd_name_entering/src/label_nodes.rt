//! Names that name one declaration, or nothing, and in which nothing else is named.

ghost use Rattle.std.specs.Prelude.{◌≤◌, None, IfOk, length};
ghost use Rattle.vd_forest.specs.Forest.{more};
ghost use Rattle.vd_forest.specs.Store.{at, Holds, Extends};
ghost use Rattle.vd_naming.specs.Expressions.{resolved, unresolved as with_nothing_named};

use std::alloc::{AllocError, Global};
use vd_declarations::DeclId;
use vd_forest::{Opened, Store};
use vd_forms::Form;
use vd_naming::unresolved;
use vd_resolved::Resolved;

/// A name with what it names, in front of other trees.
#[tactic(auto, using(vd_forest::proofs::StoreLemmas::growing))]
pub fn add_named(
    alloc: Global,
    named: Option<DeclId>,
    node: &Opened<'_, Form>,
    others: u32,
    out: &mut Store<Resolved>,
) -> Result<u32, AllocError>
    requires { others ≤ length out.old }
    ensures holds { IfOk result (λ made. Holds out.new made
        (more (resolved node.now.form named None) node.now.text.now node.now.place (with_nothing_named node.now.parts) (at out.old others))) }
    ensures extends { Extends out.old out.new }
{
    let parts = unresolved(alloc, &node.parts, out)?;
    let resolved = Resolved {
        form: node.form,
        declaration: named,
        mark: None,
        position: 0,
    };
    let made = out.add(resolved, node.text, node.place, parts, others)?;
    Ok(made)
}
