//! Trees in which nothing is named, or the whole of a name alone.

ghost use Rattle.std.specs.Prelude.{IfOk};
ghost use Rattle.vd_forest.specs.Store.{Holds, Extends};
ghost use Rattle.vd_naming.specs.Expressions.{unresolved as with_nothing_named};
ghost use Rattle.vd_naming.specs.Paths.{named_path as with_name};
ghost use Rattle.vd_naming.specs.Nodes.{unresolved_rules};

use std::alloc::{AllocError, Global};
use vd_declarations::DeclId;
use vd_forest::{Cursor, Opened, Store};
use vd_forms::Form;
use vd_resolved::Resolved;
use vd_rewriting::{Inheriting, rewrite_under};

/// Leaves each node as it is, with nothing that it names.
#[derive(Clone, Copy, Drop)]
struct NamesNothing;

impl Inheriting<Form, Resolved, ()> for NamesNothing {
    ghost rules = { λ _. unresolved_rules };

    fn down(&mut self, _state: (), _node: &Opened<'_, Form>) -> Result<(), AllocError> {
        Ok(())
    }

    fn along(&mut self, _state: (), _node: &Opened<'_, Form>) -> Result<(), AllocError> {
        Ok(())
    }

    fn make(
        &mut self,
        out: &mut Store<Resolved>,
        _state: (),
        node: &Opened<'_, Form>,
        parts: u32,
        next: u32,
    ) -> Result<u32, AllocError> {
        let resolved = Resolved {
            form: node.form,
            declaration: None,
            mark: None,
            position: 0,
        };
        out.add(resolved, node.text, node.place, parts, next)
    }
}

/// Some trees in another store, with nothing named in them.
#[tactic(auto, using(crate::proofs::UnresolvedLemmas::holds_unresolved))]
pub fn unresolved(
    alloc: Global,
    trees: &Cursor<'_, Form>,
    out: &mut Store<Resolved>,
) -> Result<u32, AllocError>
    ensures holds { IfOk result (λ made. Holds out.new made (with_nothing_named trees.now)) }
    ensures extends { Extends out.old out.new }
{
    let made = rewrite_under(alloc, trees, (), out, &mut NamesNothing)?;
    Ok(made)
}

/// A name in another store, with what the whole of it names.
#[tactic(auto, using(vd_forest::proofs::StoreLemmas::growing))]
pub fn named_path(
    alloc: Global,
    named: Option<DeclId>,
    tree: &Cursor<'_, Form>,
    out: &mut Store<Resolved>,
) -> Result<u32, AllocError>
    ensures holds { IfOk result (λ made. Holds out.new made (with_name named tree.now)) }
    ensures extends { Extends out.old out.new }
{
    let Some(first) = tree.open() else {
        return Ok(0);
    };
    let parts = unresolved(alloc, &first.parts, out)?;
    let node = Resolved {
        form: first.form,
        declaration: named,
        mark: None,
        position: 0,
    };
    let made = out.add(node, first.text, first.place, parts, 0)?;
    Ok(made)
}
