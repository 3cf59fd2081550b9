//! Subtypes in memory.

ghost use Rattle.std.specs.Prelude.{◌≡◌, ◌∷◌, Some, None, IfOk};
ghost use Rattle.vd_composites.specs.Subtypes.{Arrays, Records, Scalars, constrained};
ghost use Rattle.vd_subtypes.specs.Heads.{head_of};
ghost use Rattle.vd_subtypes.specs.Nodes.{IsNodesOf, MadeSubtype, after, head_in, read, subtype_in, subtypes_of};
ghost use Rattle.vd_composites.specs.Answers.{Found};

use crate::heads::SubtypeHead;
use std::alloc::{AllocError, Global};
use std::marker::Model;
use vd_composites::{Bounds, ScalarSubtype, ValueEnd};
use vd_values::StopKind;

/// A node. The element subtype of an array and the subtypes of a record's fields stand behind it.
#[derive(Clone, Copy)]
pub enum Node {
    Scalar(ScalarSubtype),
    /// Arrays of any bounds with an index of this subtype.
    Unbounded(ScalarSubtype),
    /// Arrays with an index of this subtype and these bounds.
    Bounded(ScalarSubtype, Bounds),
    /// Records of so many fields.
    Record(u32),
}

/// A subtype with evaluated bounds.
#[derive(Drop)]
pub struct Subtype {
    nodes: Vec<Node>,
}

impl Model for Subtype {
    ghost use Rattle.vd_composites.specs.Subtypes.{Subtype as AnySubtype};
    ghost use Rattle.vd_subtypes.specs.Codes.{coded_subtype};

    ghost Value = { AnySubtype };

    ghost coded = { coded_subtype };

    ghost use Rattle.std.specs.Prelude.{◌≡◌, Some};
    ghost use Rattle.vd_subtypes.specs.Nodes.{read, after, subtype_in};

    ghost view = { λ a. subtype_in (read a.nodes.items) };

    ghost invariant = { λ a. after 1 a.nodes.items ≡ Some 0 };
}

/// The head of the subtype that begins here.
fn head_at(nodes: &[Node]) -> SubtypeHead
    ensures { result ≡ head_in nodes.now }
{
    match nodes {
        [Node::Scalar(scalar), ..] => SubtypeHead::Scalar(*scalar),
        [Node::Unbounded(index), ..] => SubtypeHead::Unbounded(*index),
        [Node::Bounded(_, bounds), ..] => SubtypeHead::Bounded(*bounds),
        [Node::Record(fields), ..] => SubtypeHead::Record(*fields),
        [] => SubtypeHead::Record(0),
    }
}

/// The nodes of some subtypes one after another.
fn nodes_of(alloc: Global, fields: &[Subtype]) -> Result<Vec<Node>, AllocError>
    ensures { IfOk result (λ made. IsNodesOf fields.now made.items) }
{
    let mut made = Vec::new(alloc);
    for field in fields {
        made.extend_from_slice(field.nodes())?;
    }
    Ok(made)
}

/// A node and those of others.
fn behind(alloc: Global, node: Node, nodes: &[Node]) -> Result<Vec<Node>, AllocError>
    ensures { IfOk result (λ made. made.items ≡ node ∷ nodes.now) }
{
    let mut made = Vec::from_slice(alloc, &[node])?;
    made.extend_from_slice(nodes)?;
    Ok(made)
}

/// A scalar subtype with another range.
fn constrain_scalar(
    alloc: Global,
    scalar: ScalarSubtype,
    range: Bounds,
) -> Result<Vec<Node>, ValueEnd>
    ensures { MadeSubtype result (constrained (Scalars scalar) range) }
{
    if !scalar.range.covers(range) {
        return Err(ValueEnd::Stop(StopKind::Range));
    }
    let of_type = scalar.of_type;
    match behind(alloc, Node::Scalar(ScalarSubtype { of_type, range }), &[]) {
        Ok(made) => Ok(made),
        Err(_) => Err(ValueEnd::Memory),
    }
}

/// An array subtype of any bounds with these.
fn constrain_array(
    alloc: Global,
    index: ScalarSubtype,
    bounds: Bounds,
    element: &[Node],
) -> Result<Vec<Node>, ValueEnd>
    requires { after 1 element.now ≡ Some 0 }
    ensures { MadeSubtype result (constrained (Arrays index None (subtype_in (read element.now))) bounds) }
{
    if !index.range.covers(bounds) {
        return Err(ValueEnd::Stop(StopKind::Index));
    }
    match behind(alloc, Node::Bounded(index, bounds), element) {
        Ok(made) => Ok(made),
        Err(_) => Err(ValueEnd::Memory),
    }
}

/// A subtype with a constraint.
fn constrain(alloc: Global, nodes: &[Node], bounds: Bounds) -> Result<Vec<Node>, ValueEnd>
    requires { after 1 nodes.now ≡ Some 0 }
    ensures { MadeSubtype result (constrained (subtype_in (read nodes.now)) bounds) }
{
    let _most = nodes.len();
    match head_at(nodes) {
        SubtypeHead::Scalar(scalar) => constrain_scalar(alloc, scalar, bounds),
        SubtypeHead::Unbounded(index) => constrain_array(alloc, index, bounds, &nodes[1..]),
        SubtypeHead::Bounded(_) | SubtypeHead::Record(_) => Err(ValueEnd::Stop(StopKind::Range)),
    }
}

impl Subtype {
    /// A scalar subtype.
    pub fn scalars(alloc: Global, scalar: ScalarSubtype) -> Result<Subtype, AllocError>
        ensures { IfOk result (λ s. s ≡ Scalars scalar) }
    {
        let nodes = Vec::from_slice(alloc, &[Node::Scalar(scalar)])?;
        Ok(Subtype { nodes })
    }

    /// An array subtype with an index of this subtype, of any bounds, with these elements.
    pub fn unbounded(
        alloc: Global,
        index: ScalarSubtype,
        element: &Subtype,
    ) -> Result<Subtype, AllocError>
        ensures { IfOk result (λ s. s ≡ Arrays index None element.now) }
    {
        let mut nodes = Vec::from_slice(alloc, &[Node::Unbounded(index)])?;
        nodes.extend_from_slice(&element.nodes)?;
        Ok(Subtype { nodes })
    }

    /// An array subtype of these bounds.
    pub fn bounded(
        alloc: Global,
        index: ScalarSubtype,
        bounds: Bounds,
        element: &Subtype,
    ) -> Result<Subtype, AllocError>
        ensures { IfOk result (λ s. s ≡ Arrays index (Some bounds) element.now) }
    {
        let mut nodes = Vec::from_slice(alloc, &[Node::Bounded(index, bounds)])?;
        nodes.extend_from_slice(&element.nodes)?;
        Ok(Subtype { nodes })
    }

    /// The nodes.
    pub(crate) fn nodes(&self) -> &[Node]
        ensures whole { after 1 result.now ≡ Some 0 }
        ensures subtype { subtype_in (read result.now) ≡ self.now }
    {
        &self.nodes
    }

    /// What decides whether a value can be made one of the subtype.
    pub fn head(&self) -> SubtypeHead
        ensures { result ≡ head_of self.now }
    {
        head_at(&self.nodes)
    }

    /// A record subtype with fields of these subtypes.
    pub fn records(alloc: Global, fields: &[Subtype]) -> Result<Subtype, AllocError>
        ensures { IfOk result (λ s. s ≡ Records (subtypes_of fields.now)) }
    {
        let Ok(count) = u32::try_from(fields.len()) else {
            return Err(AllocError);
        };
        let parts = nodes_of(alloc, fields)?;
        let nodes = behind(alloc, Node::Record(count), &parts)?;
        Ok(Subtype { nodes })
    }

    /// The subtype with a constraint: a scalar one with a range, or an array one of any bounds with bounds.
    pub fn with_constraint(&self, alloc: Global, bounds: Bounds) -> Result<Subtype, ValueEnd>
        ensures { Found result (constrained self.now bounds) }
    {
        match constrain(alloc, &self.nodes, bounds) {
            Ok(nodes) => Ok(Subtype { nodes }),
            Err(end) => Err(end),
        }
    }
}
