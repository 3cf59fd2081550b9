//! The first of some trees, read by itself.

ghost use Rattle.std.specs.Prelude.{◌≡◌, IfOk};
ghost use Rattle.vd_forest.specs.Forest.{nothing, more, with_next};
ghost use Rattle.vd_forest.specs.Store.{Extends};
ghost use Rattle.vd_name_rows.specs.Designs.{sight};
ghost use Rattle.vd_naming.specs.Expressions.{read_as as outcome_of, read_as_mark as outcome_of_mark, type_declared as type_of_declared};
ghost use Rattle.vd_name_expressions.specs.Reads.{IsRead};
ghost use Rattle.vd_name_entering.specs.Made.{IsMade};

use crate::{Read, read_as, read_as_mark};
use std::alloc::{AllocError, Global};
use vd_declarations::{DeclId, TypeId};
use vd_forest::{Cursor, Opened, Store};
use vd_forms::Form;
use vd_name_entering::{Made, alone, one_tree};
use vd_name_rows::{At, Names};
use vd_overloads::Wanted;
use vd_resolved::Resolved;

/// The first tree, of which something is wanted.
pub fn read_first(
    alloc: Global,
    names: &Names,
    at: &At<'_>,
    wanted: &Wanted,
    trees: &Cursor<'_, Form>,
    out: &mut Store<Resolved>,
) -> Result<Read, AllocError>
    ensures is { IfOk result (λ read. IsRead out.new read (outcome_of at.now names.now wanted.now (with_next trees.now nothing))) }
    ensures extends { Extends out.old out.new }
{
    let mut single = Store::new(alloc);
    let number = alone(trees, &mut single)?;
    read_as(alloc, names, at, wanted, &single.cursor(number), out)
}

/// The first tree, which has to be a mark.
pub fn read_first_mark(
    alloc: Global,
    names: &Names,
    at: &At<'_>,
    trees: &Cursor<'_, Form>,
    out: &mut Store<Resolved>,
) -> Result<Read, AllocError>
    ensures is { IfOk result (λ read. IsRead out.new read (outcome_of_mark at.now names.now (with_next trees.now nothing))) }
    ensures extends { Extends out.old out.new }
{
    let mut single = Store::new(alloc);
    let number = alone(trees, &mut single)?;
    read_as_mark(alloc, names, at, &single.cursor(number), out)
}

/// One tree, of which something is wanted.
pub fn read_node(
    alloc: Global,
    names: &Names,
    at: &At<'_>,
    wanted: &Wanted,
    node: &Opened<'_, Form>,
    out: &mut Store<Resolved>,
) -> Result<Made, AllocError>
    ensures is { IfOk result (λ made. IsMade out.new names.now made
        (outcome_of at.now names.now wanted.now (more node.now.form node.now.text.now node.now.place node.now.parts nothing))) }
    ensures extends { Extends out.old out.new }
{
    let mut single = Store::new(alloc);
    let number = one_tree(node, &mut single)?;
    let read = read_as(alloc, names, at, wanted, &single.cursor(number), out)?;
    Ok(Made {
        tree: read.tree,
        first: read.first,
    })
}

/// One tree, which has to be a mark.
pub fn read_mark_node(
    alloc: Global,
    names: &Names,
    at: &At<'_>,
    node: &Opened<'_, Form>,
    out: &mut Store<Resolved>,
) -> Result<Made, AllocError>
    ensures is { IfOk result (λ made. IsMade out.new names.now made
        (outcome_of_mark at.now names.now (more node.now.form node.now.text.now node.now.place node.now.parts nothing))) }
    ensures extends { Extends out.old out.new }
{
    let mut single = Store::new(alloc);
    let number = one_tree(node, &mut single)?;
    let read = read_as_mark(alloc, names, at, &single.cursor(number), out)?;
    Ok(Made {
        tree: read.tree,
        first: read.first,
    })
}

/// The type that a declaration means, where there is one and it is a mark.
pub fn type_declared(
    names: &Names,
    at: &At<'_>,
    declared: Option<DeclId>,
) -> Result<Option<TypeId>, AllocError>
    ensures { IfOk result (λ mark. mark ≡ type_of_declared (sight at.now names.now) declared) }
{
    let Some(id) = declared else {
        return Ok(None);
    };
    let place = names.surroundings(at)?;
    Ok(place.type_meant(id))
}
