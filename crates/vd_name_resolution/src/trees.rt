//! Trees whose nodes have what their numbers stand for.

ghost use Rattle.std.specs.Prelude.{◌≡◌, IfOk};
ghost use Rattle.vd_forest.specs.Store.{Holds, Extends};
ghost use Rattle.vd_rewriting.specs.Forms.{with_forms};
ghost use Rattle.vd_naming.specs.Settled.{settled_node};
ghost use Rattle.vd_name_resolution.specs.Passes.{settling_rules};

use crate::table::Settling;
use std::alloc::{AllocError, Global};
use vd_forest::{Cursor, Opened, Store};
use vd_resolved::Resolved;
use vd_rewriting::{Inheriting, rewrite_under};

/// A node with what its numbers stand for.
fn settle_node(settling: &Settling, node: &Resolved) -> Resolved
    ensures { result ≡ settled_node settling.now node.now }
{
    Resolved {
        form: node.form,
        declaration: settling.declaration(&node.declaration),
        mark: settling.mark(&node.mark),
        position: node.position,
    }
}

/// Gives each node what its numbers stand for.
#[derive(Clone, Copy, Drop)]
struct Settles<'s> {
    settling: &'s Settling,
}

impl<'s> Inheriting<Resolved, Resolved, ()> for Settles<'s> {
    ghost rules = { λ by. settling_rules by.settling.now };

    fn down(&mut self, _state: (), _node: &Opened<'_, Resolved>) -> Result<(), AllocError> {
        Ok(())
    }

    fn along(&mut self, _state: (), _node: &Opened<'_, Resolved>) -> Result<(), AllocError> {
        Ok(())
    }

    fn make(
        &mut self,
        out: &mut Store<Resolved>,
        _state: (),
        node: &Opened<'_, Resolved>,
        parts: u32,
        next: u32,
    ) -> Result<u32, AllocError> {
        let settled = settle_node(self.settling, &node.form);
        out.add(settled, node.text, node.place, parts, next)
    }
}

/// Some trees in another store, with what their numbers stand for.
pub fn settle_tree(
    alloc: Global,
    settling: &Settling,
    tree: &Cursor<'_, Resolved>,
    out: &mut Store<Resolved>,
) -> Result<u32, AllocError>
    ensures holds { IfOk result (λ made. Holds out.new made (with_forms (settled_node settling.now) tree.now)) }
    ensures extends { Extends out.old out.new }
{
    let made = rewrite_under(alloc, tree, (), out, &mut Settles { settling })?;
    Ok(made)
}
