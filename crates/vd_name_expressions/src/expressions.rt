//! Expressions as their places want them, with all that is refused of their names.

ghost use Rattle.std.specs.Prelude.{◌≡◌, IfOk};
ghost use Rattle.vd_forest.specs.Forest.{nothing, with_next};
ghost use Rattle.vd_forest.specs.Store.{Extends};
ghost use Rattle.vd_naming.specs.Expressions.{read_as as outcome_of, read_as_mark as outcome_of_mark, refused_names as refusal_of_names, mark_of as type_of};
ghost use Rattle.vd_name_expressions.specs.Reads.{IsRead};

use crate::marks::mark_read_beside;
use crate::reading::{Read, read_beside};
use std::alloc::{AllocError, Global};
use vd_bytes::Refused;
use vd_declarations::TypeId;
use vd_forest::{Cursor, Store};
use vd_forms::Form;
use vd_name_rows::{At, Names};
use vd_naming::refused_pieces;
use vd_overloads::Wanted;
use vd_predefined::numbers::BOOLEAN;
use vd_refusals::first_refusal;
use vd_resolved::Resolved;
use vd_states::Want;
use vd_walks::lesser;

/// One expression of which something is wanted: its only interpretation, or what is refused of it.
pub fn read_as(
    alloc: Global,
    names: &Names,
    at: &At<'_>,
    wanted: &Wanted,
    tree: &Cursor<'_, Form>,
    out: &mut Store<Resolved>,
) -> Result<Read, AllocError>
    requires alone { with_next tree.now nothing ≡ tree.now }
    ensures is { IfOk result (λ read. IsRead out.new read (outcome_of at.now names.now wanted.now tree.now)) }
    ensures extends { Extends out.old out.new }
{
    let place = names.surroundings(at)?;
    let pieces = refused_pieces(alloc, names, &place, at.region, tree)?;
    let read = read_beside(alloc, names, at, wanted, tree, pieces, out)?;
    Ok(read)
}

/// One expression that has to be a mark.
pub fn read_as_mark(
    alloc: Global,
    names: &Names,
    at: &At<'_>,
    tree: &Cursor<'_, Form>,
    out: &mut Store<Resolved>,
) -> Result<Read, AllocError>
    requires alone { with_next tree.now nothing ≡ tree.now }
    ensures is { IfOk result (λ read. IsRead out.new read (outcome_of_mark at.now names.now tree.now)) }
    ensures extends { Extends out.old out.new }
{
    let place = names.surroundings(at)?;
    let pieces = refused_pieces(alloc, names, &place, at.region, tree)?;
    let read = mark_read_beside(alloc, names, at, tree, pieces, out)?;
    Ok(read)
}

/// The first name of some trees that is refused whatever is wanted of them.
pub fn refused_names(
    alloc: Global,
    names: &Names,
    at: &At<'_>,
    trees: &Cursor<'_, Form>,
) -> Result<Option<Refused>, AllocError>
    ensures { IfOk result (λ found. found ≡ refusal_of_names at.now names.now trees.now) }
{
    let place = names.surroundings(at)?;
    let pieces = refused_pieces(alloc, names, &place, at.region, trees)?;
    let value = Want::Value(TypeId::of(BOOLEAN));
    let name = first_refusal(&place, alloc, &value, trees)?;
    Ok(lesser(pieces, name))
}

/// The type of the first tree.
pub fn mark_of(tree: &Cursor<'_, Resolved>) -> Option<TypeId>
    ensures { result ≡ type_of tree.now }
{
    match tree.form() {
        None => None,
        Some(node) => node.mark,
    }
}
