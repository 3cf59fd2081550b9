//! Arrays of discrete elements, and equality, over the nodes of values.

ghost use Rattle.std.specs.Prelude.{◌≡◌, ◌∷◌, ◌++◌, Some, IfOk, map};
ghost use Rattle.vd_composites.specs.Answers.{ListAnswers, MadeNodes};
ghost use Rattle.vd_composites.specs.Composites.{same_value};
ghost use Rattle.vd_composites.specs.Nodes.{after, read, value_in};
ghost use Rattle.vd_composites.specs.Parts.{array_of};
ghost use Rattle.vd_composites.specs.Vectors.{integer_position, literals, node_position, positions_as, positions_at, first_in, same_first};
ghost use Rattle.vd_composites.specs.declared.nodes.Node.TheVariants.{Array, Literal, Right};

use crate::ends::ValueEnd;
use crate::nodes::{Node, bounds_at, head_of};
use crate::ranges::Bounds;
use std::alloc::{AllocError, Global};
use vd_values::StopKind;

/// Which scalar values are taken by their positions.
#[derive(Clone, Copy, PartialEq, Eq, Debug)]
pub(crate) enum Elements {
    /// Integers and literals.
    Discrete,
    /// Literals alone.
    Literals,
}

/// The position of an integer.
fn position_of_integer(of: Elements, x: i32) -> Result<i64, StopKind>
    ensures { result ≡ integer_position of x }
{
    match of {
        Elements::Discrete => Ok(i64::from(x)),
        Elements::Literals => Err(StopKind::Range),
    }
}

/// The position of the value that a node is.
fn position_of(of: Elements, node: Node) -> Result<i64, StopKind>
    ensures { result ≡ node_position of node }
{
    match node {
        Node::Integer(x) => position_of_integer(of, x),
        Node::Literal(position) => Ok(i64::from(position)),
        _ => Err(StopKind::Range),
    }
}

/// The positions of some values.
fn positions_behind(alloc: Global, of: Elements, nodes: &[Node]) -> Result<Vec<i64>, ValueEnd>
    ensures { ListAnswers result (positions_at of nodes.now) }
{
    let Ok(mut positions) = Vec::with_capacity(alloc, nodes.len()) else {
        return Err(ValueEnd::Memory);
    };
    for node in nodes {
        match position_of(of, *node) {
            Err(kind) => return Err(ValueEnd::Stop(kind)),
            Ok(position) => {
                if positions.push(position).is_err() {
                    return Err(ValueEnd::Memory);
                }
            }
        }
    }
    Ok(positions)
}

/// The positions of the elements of an array.
pub(crate) fn positions_nodes(
    alloc: Global,
    of: Elements,
    nodes: &[Node],
) -> Result<Vec<i64>, ValueEnd>
    requires { after 1 nodes.now ≡ Some 0 }
    ensures { ListAnswers result (positions_as of (value_in (read nodes.now))) }
{
    let _most = nodes.len();
    let Some(_bounds) = bounds_at(nodes) else {
        return Err(ValueEnd::Stop(StopKind::Range));
    };
    positions_behind(alloc, of, &nodes[2..])
}

/// The nodes of an array of literals.
fn literals_behind(alloc: Global, bounds: Bounds, positions: &[u8]) -> Result<Vec<Node>, AllocError>
    ensures { IfOk result (λ made. made.items ≡ Array bounds.left bounds.down ∷ Right bounds.right ∷ map (λ p. Literal p) positions.now) }
{
    let head = [
        Node::Array {
            left: bounds.left,
            down: bounds.down,
        },
        Node::Right(bounds.right),
    ];
    let mut made = Vec::from_slice(alloc, &head)?;
    for position in positions {
        made.push(Node::Literal(u32::from(*position)))?;
    }
    Ok(made)
}

/// An array of literals with these bounds.
pub(crate) fn literal_nodes(
    alloc: Global,
    bounds: Bounds,
    positions: &[u8],
) -> Result<Vec<Node>, ValueEnd>
    ensures { MadeNodes result (array_of bounds (literals positions.now)) }
{
    if bounds.length() != positions.len() as u128 {
        return Err(ValueEnd::Stop(StopKind::Range));
    }
    match literals_behind(alloc, bounds, positions) {
        Ok(made) => Ok(made),
        Err(_) => Err(ValueEnd::Memory),
    }
}

/// Whether the first items of some nodes may be equal, parts aside.
fn heads_agree(left: &[Node], right: &[Node]) -> bool
    ensures { result ≡ same_first (first_in left.now) (first_in right.now) }
{
    if let (Some(l), Some(r)) = (bounds_at(left), bounds_at(right)) {
        return l.length() == r.length();
    }
    match (left, right) {
        ([Node::Integer(l), ..], [Node::Integer(r), ..]) => l == r,
        ([Node::Literal(l), ..], [Node::Literal(r), ..]) => l == r,
        ([Node::Time(l), ..], [Node::Time(r), ..]) => l == r,
        ([Node::Fields(l), ..], [Node::Fields(r), ..]) => l == r,
        _ => false,
    }
}

/// Whether two values are equal.
pub(crate) fn same_nodes(left: &[Node], right: &[Node]) -> bool
    requires left { after 1 left.now ≡ Some 0 }
    requires right { after 1 right.now ≡ Some 0 }
    ensures { result ≡ same_value (value_in (read left.now)) (value_in (read right.now)) }
{
    let mut place = 0;
    while place < left.len() && place < right.len() {
        if !heads_agree(&left[place..], &right[place..]) {
            return false;
        }
        place += head_of(&left[place..]).width;
    }
    true
}
