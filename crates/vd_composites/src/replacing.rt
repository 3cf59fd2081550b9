//! Values with a part replaced, over their nodes.

ghost use Rattle.std.specs.Prelude.{◌≡◌, Some};
ghost use Rattle.vd_composites.specs.Answers.{MadeNodes};
ghost use Rattle.vd_composites.specs.Nodes.{after, read, value_in};
ghost use Rattle.vd_composites.specs.Parts.{AtField, AtIndex, AtSlice, with_part};

use crate::ends::ValueEnd;
use crate::nodes::{Node, bounds_at, fields_at, items_replaced};
use crate::parts::start_of;
use crate::ranges::Bounds;
use std::alloc::Global;
use vd_values::StopKind;

/// The array with another element at an index.
pub(crate) fn with_element_nodes(
    alloc: Global,
    nodes: &[Node],
    index: i64,
    new: &[Node],
) -> Result<Vec<Node>, ValueEnd>
    requires value { after 1 nodes.now ≡ Some 0 }
    requires element { after 1 new.now ≡ Some 0 }
    ensures { MadeNodes result (with_part (AtIndex index) (value_in (read new.now)) (value_in (read nodes.now))) }
{
    let _most = nodes.len();
    let Some(bounds) = bounds_at(nodes) else {
        return Err(ValueEnd::Stop(StopKind::Range));
    };
    if !bounds.contains(index) {
        return Err(ValueEnd::Stop(StopKind::Index));
    }
    let place = bounds.place(index) as usize;
    let many = bounds.length();
    match items_replaced(
        alloc,
        &nodes[..2],
        &nodes[2..],
        place,
        1,
        many as usize,
        new,
    ) {
        Ok(made) => Ok(made),
        Err(_) => Err(ValueEnd::Memory),
    }
}

/// The record with another field.
pub(crate) fn with_field_nodes(
    alloc: Global,
    nodes: &[Node],
    number: u32,
    new: &[Node],
) -> Result<Vec<Node>, ValueEnd>
    requires value { after 1 nodes.now ≡ Some 0 }
    requires field { after 1 new.now ≡ Some 0 }
    ensures { MadeNodes result (with_part (AtField number) (value_in (read new.now)) (value_in (read nodes.now))) }
{
    let _most = nodes.len();
    let Some(count) = fields_at(nodes) else {
        return Err(ValueEnd::Stop(StopKind::Range));
    };
    if number >= count {
        return Err(ValueEnd::Stop(StopKind::Range));
    }
    match items_replaced(
        alloc,
        &nodes[..1],
        &nodes[1..],
        number as usize,
        1,
        count as usize,
        new,
    ) {
        Ok(made) => Ok(made),
        Err(_) => Err(ValueEnd::Memory),
    }
}

/// The array with the elements of another one in the place of a slice.
pub(crate) fn with_slice_nodes(
    alloc: Global,
    nodes: &[Node],
    range: Bounds,
    new: &[Node],
) -> Result<Vec<Node>, ValueEnd>
    requires value { after 1 nodes.now ≡ Some 0 }
    requires slice { after 1 new.now ≡ Some 0 }
    ensures { MadeNodes result (with_part (AtSlice range) (value_in (read new.now)) (value_in (read nodes.now))) }
{
    let _most = nodes.len();
    let Some(bounds) = bounds_at(nodes) else {
        return Err(ValueEnd::Stop(StopKind::Range));
    };
    if !bounds.takes_slice(range) {
        return Err(ValueEnd::Stop(StopKind::Index));
    }
    let Some(others) = bounds_at(new) else {
        return Err(ValueEnd::Stop(StopKind::Range));
    };
    let items = range.length();
    if others.length() != items {
        return Err(ValueEnd::Stop(StopKind::Length));
    }
    let place = start_of(bounds, range) as usize;
    let many = bounds.length();
    match items_replaced(
        alloc,
        &nodes[..2],
        &nodes[2..],
        place,
        items as usize,
        many as usize,
        &new[2..],
    ) {
        Ok(made) => Ok(made),
        Err(_) => Err(ValueEnd::Memory),
    }
}
