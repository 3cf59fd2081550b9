//! The nodes of values in memory.

ghost use Rattle.std.specs.Prelude.{◌≡◌, ◌≤◌, ℕ, suc, ◌+◌, [], ◌∷◌, Some, IfOk, length, take};
ghost use Rattle.vd_composites.specs.Answers.{HasItems, Replaces};
ghost use Rattle.vd_composites.specs.Nodes.{after, bounds_in, fields_in, parts_in, scalar_in, width_of};

use crate::ranges::Bounds;
use std::alloc::{AllocError, Global};
use vd_values::Scalar;

/// A node. The parts of an array and of a record stand behind it, from left to right.
#[derive(Clone, Copy, PartialEq, Eq, Debug)]
pub enum Node {
    Integer(i32),
    Literal(u32),
    Time(u64),
    /// An array begins. The next node has its right bound.
    Array { left: i64, down: bool },
    Right(i64),
    /// A record of so many fields begins.
    Fields(u32),
}

/// The bounds of the array that begins here.
pub(crate) fn bounds_at(nodes: &[Node]) -> Option<Bounds>
    ensures { result ≡ bounds_in nodes.now }
{
    match nodes {
        [Node::Array { left, down }, Node::Right(right), ..] => Some(Bounds {
            left: *left,
            right: *right,
            down: *down,
        }),
        _ => None,
    }
}

/// The scalar value that stands here.
pub(crate) fn scalar_at(nodes: &[Node]) -> Option<Scalar>
    ensures { result ≡ scalar_in nodes.now }
{
    match nodes {
        [Node::Integer(x), ..] => Some(Scalar::Integer(*x)),
        [Node::Literal(position), ..] => Some(Scalar::Literal(*position)),
        [Node::Time(femtoseconds), ..] => Some(Scalar::Time(*femtoseconds)),
        _ => None,
    }
}

/// The node of a scalar value.
pub(crate) fn node_of(scalar: Scalar) -> Node
    ensures { scalar_in (result ∷ []) ≡ Some scalar }
{
    match scalar {
        Scalar::Integer(x) => Node::Integer(x),
        Scalar::Literal(position) => Node::Literal(position),
        Scalar::Time(femtoseconds) => Node::Time(femtoseconds),
    }
}

/// How many fields the record has that begins here.
pub(crate) fn fields_at(nodes: &[Node]) -> Option<u32>
    ensures { result ≡ fields_in nodes.now }
{
    match nodes {
        [Node::Fields(count), ..] => Some(*count),
        _ => None,
    }
}

/// The nodes of an item's own, and how many items stand in it.
#[derive(Clone, Copy)]
pub(crate) struct Head {
    pub(crate) width: usize,
    pub(crate) parts: usize,
}

/// The head of the first item.
pub(crate) fn head_of(nodes: &[Node]) -> Head
    requires { (m : ℕ) × (after (suc m) nodes.now ≡ Some 0) }
    ensures width { result.width ≡ width_of nodes.now }
    ensures parts { result.parts ≡ parts_in nodes.now }
{
    let _most = nodes.len();
    if let Some(bounds) = bounds_at(nodes) {
        return Head {
            width: 2,
            parts: bounds.length() as usize,
        };
    }
    match fields_at(nodes) {
        Some(count) => Head {
            width: 1,
            parts: count as usize,
        },
        None => Head { width: 1, parts: 0 },
    }
}

/// How many nodes the first items have, of so many in all. Where each item is a node, as in a vector, these are as many.
pub(crate) fn front(nodes: &[Node], items: usize, total: usize) -> usize
    requires there { (k : ℕ) × (after (items + k) nodes.now ≡ Some 0) }
    requires all { after total nodes.now ≡ Some 0 }
    ensures within { result ≤ length nodes.now }
    ensures front { after items (take result nodes.now) ≡ Some 0 }
{
    let most = nodes.len();
    if most == total {
        return items;
    }
    let mut place = 0;
    let mut left = items;
    while left > 0 {
        let head = head_of(&nodes[place..]);
        place += head.width;
        left = left - 1 + head.parts;
    }
    place
}

/// Some nodes, and behind them those of items in a list.
pub(crate) fn items_behind(
    alloc: Global,
    head: &[Node],
    nodes: &[Node],
    place: usize,
    items: usize,
    total: usize,
) -> Result<Vec<Node>, AllocError>
    requires there { (k : ℕ) × (after (place + (items + k)) nodes.now ≡ Some 0) }
    requires all { after total nodes.now ≡ Some 0 }
    ensures { IfOk result (λ made. HasItems head.now nodes.now place items made.items) }
{
    let start = front(nodes, place, total);
    let rest = &nodes[start..];
    let end = front(rest, items, total - place);
    let mut made = Vec::from_slice(alloc, head)?;
    made.extend_from_slice(&rest[..end])?;
    Ok(made)
}

/// Some nodes, and behind them those of a list in which others stand in the place of items.
pub(crate) fn items_replaced(
    alloc: Global,
    head: &[Node],
    nodes: &[Node],
    place: usize,
    items: usize,
    total: usize,
    new: &[Node],
) -> Result<Vec<Node>, AllocError>
    requires there { (k : ℕ) × (after (place + (items + k)) nodes.now ≡ Some 0) }
    requires all { after total nodes.now ≡ Some 0 }
    requires as_many { after items new.now ≡ Some 0 }
    ensures { IfOk result (λ made. Replaces head.now nodes.now place items new.now made.items) }
{
    let start = front(nodes, place, total);
    let rest = &nodes[start..];
    let end = front(rest, items, total - place);
    let mut made = Vec::from_slice(alloc, head)?;
    made.extend_from_slice(&nodes[..start])?;
    made.extend_from_slice(new)?;
    made.extend_from_slice(&rest[end..])?;
    Ok(made)
}
