//! What expressions come to at a place.

ghost use Rattle.std.specs.Prelude.{◌≡◌, ◌∷◌, IfOk, List};
ghost use Rattle.std.specs.List.{All};
ghost use Rattle.vd_known_designs.specs.Designs.{IsReady, Knows};
ghost use Rattle.vd_meaning.specs.Facets.{nth};
ghost use Rattle.vd_meaning.specs.Meanings.{meanings};
ghost use Rattle.vd_static_values.specs.Nodes.{AreNodes, IsNode};
ghost use Rattle.vd_static_parts.specs.Made.{IsSound};
ghost use Rattle.vd_value_rules.specs.Designs.{Design};
ghost use Rattle.vd_value_rules.specs.Knowledge.{Known};

use crate::reading::{known_node, known_nodes};
use std::alloc::{AllocError, Global};
use vd_forest::Cursor;
use vd_known_designs::KnownDesign;
use vd_resolved::Resolved;
use vd_static_values::Node;

/// What the trees of a forest come to.
pub fn nodes<'b>(
    design: &mut KnownDesign<'_, '_>,
    alloc: Global,
    trees: &Cursor<'b, Resolved>,
) -> Result<Vec<Node<'b>>, AllocError>
    requires ready { IsReady design.old }
    ensures nodes { (d : Design) (k : Known) (ks : List Known) → Knows d design.old (k ∷ ks)
        → IfOk result (λ xs. AreNodes design.old.table.subtypes k.env xs.items (meanings d.table trees.now)) }
    ensures sound { IfOk result (λ xs. All (IsSound design.old.table.subtypes) xs.items) }
    ensures knows { (d : Design) (ks : List Known) → Knows d design.old ks → Knows d design.new ks }
    ensures subtypes { design.new.table.subtypes ≡ design.old.table.subtypes }
{
    let ground = design.table.ground(design.revision, design.declarations);
    known_nodes(alloc, &ground, &mut design.fields, trees)
}

/// What the first tree of a forest comes to.
pub fn node<'b>(
    design: &mut KnownDesign<'_, '_>,
    alloc: Global,
    tree: &Cursor<'b, Resolved>,
) -> Result<Node<'b>, AllocError>
    requires ready { IsReady design.old }
    ensures node { (d : Design) (k : Known) (ks : List Known) → Knows d design.old (k ∷ ks)
        → IfOk result (λ x. IsNode design.old.table.subtypes k.env x (nth 0 (meanings d.table tree.now))) }
    ensures sound { IfOk result (IsSound design.old.table.subtypes) }
    ensures knows { (d : Design) (ks : List Known) → Knows d design.old ks → Knows d design.new ks }
    ensures subtypes { design.new.table.subtypes ≡ design.old.table.subtypes }
{
    let ground = design.table.ground(design.revision, design.declarations);
    known_node(alloc, &ground, &mut design.fields, tree)
}
