//! Elements, slices and fields, over the nodes of a value.

ghost use Rattle.std.specs.Prelude.{◌≡◌, ◌≤◌, Some, drop, length};
ghost use Rattle.vd_composites.specs.Composites.{items_in};
ghost use Rattle.vd_composites.specs.Answers.{MadeNodes};
ghost use Rattle.vd_composites.specs.Nodes.{after, read, slice_start, value_in};
ghost use Rattle.vd_composites.specs.Parts.{AtField, AtIndex, AtSlice, part};

use crate::ends::ValueEnd;
use crate::nodes::{Node, bounds_at, fields_at, items_behind};
use crate::ranges::Bounds;
use std::alloc::Global;
use vd_values::StopKind;

/// The element at an index.
pub(crate) fn element_nodes(
    alloc: Global,
    nodes: &[Node],
    index: i64,
) -> Result<Vec<Node>, ValueEnd>
    requires { after 1 nodes.now ≡ Some 0 }
    ensures { MadeNodes result (part (AtIndex index) (value_in (read nodes.now))) }
{
    let _most = nodes.len();
    let Some(bounds) = bounds_at(nodes) else {
        return Err(ValueEnd::Stop(StopKind::Range));
    };
    if !bounds.contains(index) {
        return Err(ValueEnd::Stop(StopKind::Index));
    }
    let place = bounds.place(index) as usize;
    let many = bounds.length();
    match items_behind(alloc, &[], &nodes[2..], place, 1, many as usize) {
        Ok(made) => Ok(made),
        Err(_) => Err(ValueEnd::Memory),
    }
}

/// The field with a number.
pub(crate) fn field_nodes(alloc: Global, nodes: &[Node], number: u32) -> Result<Vec<Node>, ValueEnd>
    requires { after 1 nodes.now ≡ Some 0 }
    ensures { MadeNodes result (part (AtField number) (value_in (read nodes.now))) }
{
    let _most = nodes.len();
    let Some(count) = fields_at(nodes) else {
        return Err(ValueEnd::Stop(StopKind::Range));
    };
    if number >= count {
        return Err(ValueEnd::Stop(StopKind::Range));
    }
    match items_behind(alloc, &[], &nodes[1..], number as usize, 1, count as usize) {
        Ok(made) => Ok(made),
        Err(_) => Err(ValueEnd::Memory),
    }
}

/// The place of the first element of a slice in an array with these bounds.
pub(crate) fn start_of(bounds: Bounds, range: Bounds) -> u128
    ensures { result ≡ slice_start bounds range }
{
    if range.length() == 0 {
        0
    } else {
        bounds.place(range.left)
    }
}

/// The slice with a range.
pub(crate) fn slice_nodes(
    alloc: Global,
    nodes: &[Node],
    range: Bounds,
) -> Result<Vec<Node>, ValueEnd>
    requires { after 1 nodes.now ≡ Some 0 }
    ensures { MadeNodes result (part (AtSlice range) (value_in (read nodes.now))) }
{
    let _most = nodes.len();
    let Some(bounds) = bounds_at(nodes) else {
        return Err(ValueEnd::Stop(StopKind::Range));
    };
    if !bounds.takes_slice(range) {
        return Err(ValueEnd::Stop(StopKind::Index));
    }
    let head = [
        Node::Array {
            left: range.left,
            down: range.down,
        },
        Node::Right(range.right),
    ];
    let place = start_of(bounds, range);
    let items = range.length();
    let many = bounds.length();
    match items_behind(
        alloc,
        &head,
        &nodes[2..],
        place as usize,
        items as usize,
        many as usize,
    ) {
        Ok(made) => Ok(made),
        Err(_) => Err(ValueEnd::Memory),
    }
}

/// Where the parts of a value begin among its nodes, and how many they are.
#[derive(Clone, Copy)]
pub(crate) struct Body {
    pub(crate) start: usize,
    pub(crate) parts: usize,
}

/// The elements of an array or the fields of a record. A scalar value has none.
pub(crate) fn body_of(nodes: &[Node]) -> Body
    requires { after 1 nodes.now ≡ Some 0 }
    ensures within { result.start ≤ length nodes.now }
    ensures whole { after result.parts (drop result.start nodes.now) ≡ Some 0 }
    ensures parts { read (drop result.start nodes.now) ≡ items_in (value_in (read nodes.now)) }
{
    let most = nodes.len();
    if let Some(bounds) = bounds_at(nodes) {
        return Body {
            start: 2,
            parts: bounds.length() as usize,
        };
    }
    match fields_at(nodes) {
        Some(count) => Body {
            start: 1,
            parts: count as usize,
        },
        None => Body {
            start: most,
            parts: 0,
        },
    }
}
