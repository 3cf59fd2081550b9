//! Words: nothing is named in them, and the last one is kept.

ghost use Rattle.std.specs.Prelude.{◌≡◌, IfOk, OnOk};
ghost use Rattle.vd_forest.specs.Forest.{nothing, more};
ghost use Rattle.vd_forest.specs.Store.{Extends};
ghost use Rattle.vd_naming.specs.Statements.{skipped as skipped_step, word as word_step, simple_name as simple_name_step};
ghost use Rattle.vd_name_entering.specs.Made.{IsMade};

use crate::{Made, is_single, unresolved_node};
use std::alloc::{AllocError, Global};
use vd_forest::{Cursor, Opened, Store};
use vd_forms::Form;
use vd_name_rows::{At, Names, Word};
use vd_naming::broken_if;
use vd_resolved::Resolved;

/// A tree in which nothing is named.
pub fn skipped(
    alloc: Global,
    names: &Names,
    at: &At<'_>,
    node: &Opened<'_, Form>,
    out: &mut Store<Resolved>,
) -> Result<Made, AllocError>
    ensures is { IfOk result (λ made. IsMade out.new names.now made
        (skipped_step at.now names.now (more node.now.form node.now.text.now node.now.place node.now.parts nothing))) }
    ensures at { OnOk result ((skipped_step at.now names.now (more node.now.form node.now.text.now node.now.place node.now.parts nothing)).at ≡ at.now) }
    ensures extends { Extends out.old out.new }
{
    let tree = unresolved_node(alloc, node, out)?;
    Ok(Made { tree, first: None })
}

/// The name of what is declared at the end.
pub fn word<'a>(
    alloc: Global,
    names: &Names,
    at: &mut At<'a>,
    node: &Opened<'a, Form>,
    out: &mut Store<Resolved>,
) -> Result<Made, AllocError>
    ensures is { IfOk result (λ made. IsMade out.new names.now made
        (word_step at.old names.now node.now.form node.now.text.now node.now.place node.now.parts)) }
    ensures at { OnOk result (at.new ≡ (word_step at.old names.now node.now.form node.now.text.now node.now.place node.now.parts).at) }
    ensures extends { Extends out.old out.new }
{
    at.word = Word {
        form: node.form,
        text: node.text,
    };
    at.word_place = node.place;
    let tree = unresolved_node(alloc, node, out)?;
    Ok(Made { tree, first: None })
}

/// The same as a word where the grammar has a selected name, which has to be one identifier.
pub fn simple_name<'a>(
    alloc: Global,
    names: &Names,
    at: &mut At<'a>,
    node: &Opened<'a, Form>,
    out: &mut Store<Resolved>,
) -> Result<Made, AllocError>
    ensures is { IfOk result (λ made. IsMade out.new names.now made
        (simple_name_step at.old names.now node.now.place (more node.now.form node.now.text.now node.now.place node.now.parts nothing))) }
    ensures at { OnOk result (at.new
        ≡ (simple_name_step at.old names.now node.now.place (more node.now.form node.now.text.now node.now.place node.now.parts nothing)).at) }
    ensures extends { Extends out.old out.new }
{
    at.word = Word {
        form: Form::Name,
        text: node.parts.text(),
    };
    at.word_place = node.place;
    let tree = unresolved_node(alloc, node, out)?;
    Ok(Made {
        tree,
        first: broken_if(!is_single(&node.parts), 307, node.place),
    })
}
