//! Marks with a range: the mark, and then each bound, by itself.

ghost use Rattle.std.specs.Prelude.{◌≤◌, [], IfOk, length};
ghost use Rattle.vd_forest.specs.Forest.{nothing, more, joined};
ghost use Rattle.vd_forest.specs.Store.{at, Holds, Extends};
ghost use Rattle.vd_naming.specs.Expressions.{resolved, bounds_as as bounds_of, bounds_if as bounds_where, bounds_of_type as bounds_with_type, narrowed as narrowed_mark};
ghost use Rattle.vd_name_entering.specs.Made.{IsMade};

use crate::expression_reading::{read_first, read_first_mark, type_declared};
use crate::{fits_wanted, mark_declared};
use std::alloc::{AllocError, Global};
use vd_bytes::{Place, Refused};
use vd_declarations::TypeId;
use vd_forest::{Cursor, Store};
use vd_forms::Form;
use vd_name_entering::{Made, join};
use vd_name_rows::{At, Names};
use vd_naming::unresolved;
use vd_overloads::Wanted;
use vd_resolved::Resolved;
use vd_walks::lesser;

/// A node without text over two lists of trees.
#[tactic(auto, using(vd_forest::proofs::StoreLemmas::growing))]
fn with_node(
    form: Form,
    mark: Option<TypeId>,
    place: Place,
    first: u32,
    rest: u32,
    out: &mut Store<Resolved>,
) -> Result<u32, AllocError>
    requires first_in { first ≤ length out.old }
    requires rest_in { rest ≤ length out.old }
    ensures holds { IfOk result (λ number. Holds out.new number
        (more (resolved form None mark) [] place (joined (at out.old first) (at out.old rest)) nothing)) }
    ensures extends { Extends out.old out.new }
{
    let parts = join(first, rest, out)?;
    let node = Resolved {
        form,
        declaration: None,
        mark,
        position: 0,
    };
    let made = out.add(node, &[], place, parts, 0)?;
    Ok(made)
}

/// Bounds of a type.
fn bounds_as(
    alloc: Global,
    names: &Names,
    at: &At<'_>,
    mark: TypeId,
    bounds: &Cursor<'_, Form>,
    out: &mut Store<Resolved>,
) -> Result<Made, AllocError>
    ensures is { IfOk result (λ made. IsMade out.new names.now made (bounds_of at.now names.now mark bounds.now)) }
    ensures extends { Extends out.old out.new }
{
    let Some(range) = bounds.open() else {
        return Ok(Made {
            tree: 0,
            first: None,
        });
    };
    let wanted = Wanted::OfType(mark);
    let left = read_first(alloc, names, at, &wanted, &range.parts, out)?;
    let right = read_first(alloc, names, at, &wanted, &range.parts.next(), out)?;
    let tree = with_node(
        range.form,
        Some(mark),
        range.place,
        left.tree,
        right.tree,
        out,
    )?;
    Ok(Made {
        tree,
        first: lesser(left.first, right.first),
    })
}

/// Bounds of a type, where the type is what is wanted.
fn bounds_if(
    alloc: Global,
    names: &Names,
    at: &At<'_>,
    fits: bool,
    mark: TypeId,
    place: Place,
    bounds: &Cursor<'_, Form>,
    out: &mut Store<Resolved>,
) -> Result<Made, AllocError>
    ensures is { IfOk result (λ made. IsMade out.new names.now made (bounds_where fits at.now names.now mark place bounds.now)) }
    ensures extends { Extends out.old out.new }
{
    if fits {
        return bounds_as(alloc, names, at, mark, bounds, out);
    }
    let tree = unresolved(alloc, bounds, out)?;
    Ok(Made {
        tree,
        first: Some(Refused { place, rule: 305 }),
    })
}

/// Bounds behind a mark, where the type of the mark is known.
fn bounds_of_type(
    alloc: Global,
    names: &Names,
    at: &At<'_>,
    mark: &Option<TypeId>,
    wanted: &Wanted,
    place: Place,
    bounds: &Cursor<'_, Form>,
    out: &mut Store<Resolved>,
) -> Result<Made, AllocError>
    ensures is { IfOk result (λ made. IsMade out.new names.now made (bounds_with_type mark.now wanted.now at.now names.now place bounds.now)) }
    ensures extends { Extends out.old out.new }
{
    let Some(mark) = mark else {
        let tree = unresolved(alloc, bounds, out)?;
        return Ok(Made { tree, first: None });
    };
    let fits = fits_wanted(names, at, wanted, *mark);
    bounds_if(alloc, names, at, fits, *mark, place, bounds, out)
}

/// A mark with a range, given its parts.
pub fn narrowed(
    alloc: Global,
    names: &Names,
    at: &At<'_>,
    wanted: &Wanted,
    place: Place,
    parts: &Cursor<'_, Form>,
    out: &mut Store<Resolved>,
) -> Result<Made, AllocError>
    ensures is { IfOk result (λ made. IsMade out.new names.now made (narrowed_mark wanted.now at.now names.now place parts.now)) }
    ensures extends { Extends out.old out.new }
{
    let read = read_first_mark(alloc, names, at, parts, out)?;
    let declared = mark_declared(&out.cursor(read.tree));
    let mark = type_declared(names, at, declared)?;
    let bounds = bounds_of_type(alloc, names, at, &mark, wanted, place, &parts.next(), out)?;
    let tree = with_node(
        Form::DiscreteSubtype,
        mark,
        place,
        read.tree,
        bounds.tree,
        out,
    )?;
    Ok(Made {
        tree,
        first: lesser(read.first, bounds.first),
    })
}
