//! Trees, from the leaves on.

ghost use Rattle.std.specs.Prelude.{IfOk};
ghost use Rattle.std.specs.List.{All};
ghost use Rattle.vd_static_names.specs.Jumps.{AreJumps};
ghost use Rattle.vd_known_indications.specs.Found.{AreKnownNodes, IsKnownNode};
ghost use Rattle.vd_static_names.specs.Known.{HasSubtypes};
ghost use Rattle.vd_static_parts.specs.Made.{IsSound};

use crate::making::node_of;
use std::alloc::{AllocError, Global};
use std::mem;
use vd_forest::{Cursor, Opened};
use vd_resolved::Resolved;
use vd_static_names::FieldTable;
use vd_static_parts::nodes::absent;
use vd_static_values::{Ground, Node};
use vd_walks::{FromLeaves, from_leaves};

/// What trees are read over.
#[derive(Drop)]
struct Reading<'d> {
    ground: Ground<'d>,
    fields: FieldTable,
}

impl<'a, 'd> FromLeaves<'a, Resolved, Node<'a>> for Reading<'d> {
    ghost use Rattle.vd_static_names.specs.Jumps.{AreJumps};
    ghost use Rattle.vd_static_values.specs.declared.entries.Ground.{Ground};
    ghost use Rattle.vd_known_indications.specs.Found.{IsKnownNode};
    ghost use Rattle.vd_static_names.specs.Known.{HasSubtypes};
    ghost use Rattle.vd_static_parts.specs.Made.{IsSound};

    ghost is_ready = { λ by. HasSubtypes by.ground × AreJumps by.fields.jumps.items by.ground.subtypes.now };

    ghost is_sound = { λ by. IsSound by.ground.subtypes.now };

    ghost Frame = { Ground };

    ghost frame = { λ by. by.ground };

    ghost comes_to = { λ by. IsKnownNode by.ground };

    fn tree(
        &mut self,
        alloc: Global,
        tree: &Opened<'a, Resolved>,
        parts: &[Node<'a>],
    ) -> Result<Node<'a>, AllocError> {
        node_of(
            alloc,
            &self.ground,
            &mut self.fields,
            tree.form,
            tree.text,
            parts,
        )
    }
}

/// What is known of each tree of a forest. What was found of the fields of records is kept for later calls.
pub fn known_nodes<'a>(
    alloc: Global,
    ground: &Ground<'_>,
    fields: &mut FieldTable,
    trees: &Cursor<'a, Resolved>,
) -> Result<Vec<Node<'a>>, AllocError>
    requires subtypes { HasSubtypes ground.now }
    requires fields { AreJumps fields.old.jumps.items ground.now.subtypes.now }
    ensures nodes { IfOk result (λ made. AreKnownNodes ground.now trees.now made.items) }
    ensures sound { IfOk result (λ made. All (IsSound ground.now.subtypes.now) made.items) }
    ensures fields { AreJumps fields.new.jumps.items ground.now.subtypes.now }
{
    let mut reading = Reading {
        ground: *ground,
        fields: mem::replace(fields, FieldTable::new(alloc)),
    };
    let made = from_leaves(alloc, trees, &mut reading);
    *fields = reading.fields;
    made
}

/// What is known of the first tree of a forest.
pub fn known_node<'a>(
    alloc: Global,
    ground: &Ground<'_>,
    fields: &mut FieldTable,
    tree: &Cursor<'a, Resolved>,
) -> Result<Node<'a>, AllocError>
    requires subtypes { HasSubtypes ground.now }
    requires fields { AreJumps fields.old.jumps.items ground.now.subtypes.now }
    ensures node { IfOk result (IsKnownNode ground.now tree.now) }
    ensures sound { IfOk result (IsSound ground.now.subtypes.now) }
    ensures fields { AreJumps fields.new.jumps.items ground.now.subtypes.now }
{
    let Some(first) = tree.open() else {
        return Ok(absent(alloc));
    };
    let parts = known_nodes(alloc, ground, fields, &first.parts)?;
    node_of(alloc, ground, fields, first.form, first.text, &parts)
}
