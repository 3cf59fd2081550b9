//! Values made values of a subtype, over their nodes.

ghost use Rattle.std.specs.Prelude.{◌≡◌, Some, None};
ghost use Rattle.vd_composites.specs.Answers.{MadeNodes};
ghost use Rattle.vd_composites.specs.Nodes.{after, read, value_in};
ghost use Rattle.vd_composites.specs.Subtypes.{Arrays, Records, Scalars, Subtype, Subtypes, fit, number_of};
ghost use Rattle.vd_composites.specs.declared.scalars.ScalarSubtype.{ScalarSubtype};

use crate::ends::ValueEnd;
use crate::nodes::{Node, bounds_at, fields_at, scalar_at};
use crate::ranges::Bounds;
use crate::scalars::ScalarSubtype;
use vd_values::StopKind;

/// A value made one of a scalar subtype.
pub(crate) fn fit_scalar_nodes(
    nodes: Vec<Node>,
    subtype: ScalarSubtype,
) -> Result<Vec<Node>, ValueEnd>
    requires { after 1 nodes.items ≡ Some 0 }
    ensures { MadeNodes result (fit (Scalars subtype) (value_in (read nodes.items))) }
{
    let Some(scalar) = scalar_at(&nodes) else {
        return Err(ValueEnd::Stop(StopKind::Range));
    };
    if !subtype.contains(scalar) {
        return Err(ValueEnd::Stop(StopKind::Range));
    }
    Ok(nodes)
}

/// A value made one of an array subtype without bounds.
pub(crate) fn fit_free_nodes(nodes: Vec<Node>, index: ScalarSubtype) -> Result<Vec<Node>, ValueEnd>
    requires { after 1 nodes.items ≡ Some 0 }
    ensures { (of : Subtype) → MadeNodes result (fit (Arrays index None of) (value_in (read nodes.items))) }
{
    let Some(own) = bounds_at(&nodes) else {
        return Err(ValueEnd::Stop(StopKind::Range));
    };
    if !index.range.covers(own) {
        return Err(ValueEnd::Stop(StopKind::Index));
    }
    Ok(nodes)
}

/// A value made one of an array subtype with bounds.
pub(crate) fn fit_bounded_nodes(mut nodes: Vec<Node>, bounds: Bounds) -> Result<Vec<Node>, ValueEnd>
    requires { after 1 nodes.items ≡ Some 0 }
    ensures { (index : ScalarSubtype) (of : Subtype) → MadeNodes result (fit (Arrays index (Some bounds) of) (value_in (read nodes.items))) }
{
    let Some(own) = bounds_at(&nodes) else {
        return Err(ValueEnd::Stop(StopKind::Range));
    };
    if own.length() != bounds.length() {
        return Err(ValueEnd::Stop(StopKind::Length));
    }
    nodes[0] = Node::Array {
        left: bounds.left,
        down: bounds.down,
    };
    nodes[1] = Node::Right(bounds.right);
    Ok(nodes)
}

/// A value made one of a record subtype of so many fields.
pub(crate) fn fit_record_nodes(nodes: Vec<Node>, fields: u32) -> Result<Vec<Node>, ValueEnd>
    requires { after 1 nodes.items ≡ Some 0 }
    ensures { (of : Subtypes) → number_of of ≡ fields → MadeNodes result (fit (Records of) (value_in (read nodes.items))) }
{
    let Some(own) = fields_at(&nodes) else {
        return Err(ValueEnd::Stop(StopKind::Range));
    };
    if own != fields {
        return Err(ValueEnd::Stop(StopKind::Range));
    }
    Ok(nodes)
}
