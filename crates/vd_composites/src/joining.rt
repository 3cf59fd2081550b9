//! Concatenations, over the nodes of values.

ghost use Rattle.std.specs.Prelude.{◌≡◌, ◌∷◌, ◌++◌, Some, IfOk, OnOk, OnErr, if◌then◌else◌};
ghost use Rattle.vd_composites.specs.Answers.{Found, MadeNodes};
ghost use Rattle.vd_composites.specs.Composites.{joined};
ghost use Rattle.vd_composites.specs.Composites.{Fields as FieldsOf};
ghost use Rattle.vd_composites.specs.Parts.{array_of};
ghost use Rattle.vd_composites.specs.Concatenations.{array_on};
ghost use Rattle.vd_composites.specs.Nodes.{after, read};
ghost use Rattle.vd_values.specs.declared.scalar.StopKind.TheVariants.{Index};
ghost use Rattle.vd_composites.specs.declared.nodes.Node.TheVariants.{Array, Right};
ghost use Rattle.vd_composites.specs.Ranges.{from_left, lies_within, one_before, steps_on};

use crate::ends::ValueEnd;
use crate::nodes::Node;
use crate::ranges::Bounds;
use crate::scalars::ScalarSubtype;
use std::alloc::{AllocError, Global};
use vd_values::StopKind;

/// The right bound of so many values from a left bound on.
fn right_of(left: i64, down: bool, count: usize) -> i128
    ensures { result ≡ one_before down (steps_on down left count) }
{
    if down {
        i128::from(left) - count as i128 + 1
    } else {
        i128::from(left) + count as i128 - 1
    }
}

/// The bounds of so many elements, where they lie within the range of an index subtype. Bounds that no `i64` holds are taken for want of
/// memory.
fn bounds_on(range: Bounds, count: usize) -> Result<Bounds, ValueEnd>
    ensures { Found result (if lies_within range (from_left range.left range.down count) then Ok (from_left range.left range.down count) else Err Index) }
{
    if count > 0 && count as u128 > range.length() {
        return Err(ValueEnd::Stop(StopKind::Index));
    }
    let Ok(right) = i64::try_from(right_of(range.left, range.down, count)) else {
        return Err(ValueEnd::Memory);
    };
    Ok(Bounds {
        left: range.left,
        right,
        down: range.down,
    })
}

/// An array of the elements in a list of nodes.
fn array_behind(alloc: Global, bounds: Bounds, nodes: &[Node]) -> Result<Vec<Node>, AllocError>
    ensures { IfOk result (λ made. made.items ≡ Array bounds.left bounds.down ∷ Right bounds.right ∷ nodes.now) }
{
    let head = [
        Node::Array {
            left: bounds.left,
            down: bounds.down,
        },
        Node::Right(bounds.right),
    ];
    let mut made = Vec::from_slice(alloc, &head)?;
    made.extend_from_slice(nodes)?;
    Ok(made)
}

/// The items of some nodes, and behind them those of others.
pub(crate) fn add_items(
    nodes: &mut Vec<Node>,
    count: usize,
    more: &[Node],
    items: usize,
) -> Result<usize, AllocError>
    requires first { after count nodes.old.items ≡ Some 0 }
    requires second { after items more.now ≡ Some 0 }
    ensures whole { IfOk result (λ n. after n nodes.new.items ≡ Some 0) }
    ensures joined { OnOk result (read nodes.new.items ≡ joined (read nodes.old.items) (read more.now)) }
    ensures err { OnErr result (nodes.new.items ≡ nodes.old.items) }
{
    let Some(number) = count.checked_add(items) else {
        return Err(AllocError);
    };
    nodes.extend_from_slice(more)?;
    Ok(number)
}

/// An array with these bounds.
pub(crate) fn array_nodes(
    alloc: Global,
    bounds: Bounds,
    nodes: &[Node],
    count: usize,
) -> Result<Vec<Node>, ValueEnd>
    requires { after count nodes.now ≡ Some 0 }
    ensures { MadeNodes result (array_of bounds (read nodes.now)) }
{
    if bounds.length() != count as u128 {
        return Err(ValueEnd::Stop(StopKind::Range));
    }
    match array_behind(alloc, bounds, nodes) {
        Ok(made) => Ok(made),
        Err(_) => Err(ValueEnd::Memory),
    }
}

/// An array from the left bound of an index subtype on.
pub(crate) fn array_on_nodes(
    alloc: Global,
    index: ScalarSubtype,
    nodes: &[Node],
    count: usize,
) -> Result<Vec<Node>, ValueEnd>
    requires { after count nodes.now ≡ Some 0 }
    ensures { MadeNodes result (array_on index (read nodes.now)) }
{
    match bounds_on(index.range, count) {
        Err(end) => Err(end),
        Ok(bounds) => array_nodes(alloc, bounds, nodes, count),
    }
}

/// A record of these fields.
pub(crate) fn record_nodes(
    alloc: Global,
    nodes: &[Node],
    count: usize,
) -> Result<Vec<Node>, ValueEnd>
    requires { after count nodes.now ≡ Some 0 }
    ensures { MadeNodes result (Ok (FieldsOf (read nodes.now))) }
{
    let Ok(fields) = u32::try_from(count) else {
        return Err(ValueEnd::Memory);
    };
    match behind(alloc, &[Node::Fields(fields)], nodes) {
        Ok(made) => Ok(made),
        Err(_) => Err(ValueEnd::Memory),
    }
}

/// Some nodes behind others.
fn behind(alloc: Global, head: &[Node], nodes: &[Node]) -> Result<Vec<Node>, AllocError>
    ensures { IfOk result (λ made. made.items ≡ head.now ++ nodes.now) }
{
    let mut made = Vec::from_slice(alloc, head)?;
    made.extend_from_slice(nodes)?;
    Ok(made)
}
