//! Values in memory.

ghost use Rattle.std.specs.Prelude.{◌≡◌, Some, None, IfOk, Option};
ghost use Rattle.vd_values.specs.declared.scalar.Scalar.{Scalar};
ghost use Rattle.vd_composites.specs.declared.scalars.ScalarSubtype.{ScalarSubtype};
ghost use Rattle.vd_composites.specs.Answers.{Answers, ListAnswers, MadeNodes};
ghost use Rattle.vd_composites.specs.Composites.{One, bounds_of, leaves, same_value, scalar_of};
ghost use Rattle.vd_composites.specs.Composites.{Value as AnyValue};
ghost use Rattle.vd_composites.specs.Nodes.{after, read, value_in};
ghost use Rattle.vd_composites.specs.Parts.{AtField, AtIndex, AtSlice, array_of, part, with_part};
ghost use Rattle.vd_composites.specs.Stops.{OrStop};
ghost use Rattle.vd_composites.specs.Vectors.{literal_positions_of, literals, positions_of};
ghost use Rattle.vd_composites.specs.Subtypes.{Arrays, Records, Scalars, Subtype, Subtypes, fit, number_of};

use crate::ends::ValueEnd;
use crate::fitting::{fit_bounded_nodes, fit_free_nodes, fit_record_nodes, fit_scalar_nodes};
use crate::leaves::leaf_nodes;
use crate::nodes::{Node, bounds_at, node_of, scalar_at};
use crate::parts::{element_nodes, field_nodes, slice_nodes};
use crate::ranges::Bounds;
use crate::replacing::{with_element_nodes, with_field_nodes, with_slice_nodes};
use crate::scalars::ScalarSubtype;
use crate::vectors::{Elements, literal_nodes, positions_nodes, same_nodes};
use std::alloc::{AllocError, Global};
use std::marker::Model;
use vd_values::Scalar;

/// A value of any type. An element of a vector takes 16 bytes.
#[derive(Drop)]
pub struct Value {
    nodes: Vec<Node>,
}

impl Model for Value {
    ghost use Rattle.vd_values.specs.declared.scalar.Scalar.{Scalar};
    ghost use Rattle.vd_composites.specs.Composites.{Value as AnyValue};
    ghost use Rattle.vd_composites.specs.Codes.{coded_value};

    ghost Value = { AnyValue Scalar };

    ghost coded = { coded_value };

    ghost use Rattle.std.specs.Prelude.{◌≡◌, Some};
    ghost use Rattle.vd_composites.specs.Nodes.{read, after, value_in};

    ghost view = { λ a. value_in (read a.nodes.items) };

    ghost invariant = { λ a. after 1 a.nodes.items ≡ Some 0 };
}

/// The value of some nodes.
pub(crate) fn value_from(nodes: Result<Vec<Node>, ValueEnd>) -> Result<Value, ValueEnd>
    requires { IfOk nodes (λ ns. after 1 ns.items ≡ Some 0) }
    ensures { (g : OrStop (AnyValue Scalar)) → MadeNodes nodes g → Answers result g }
{
    match nodes {
        Ok(nodes) => Ok(Value { nodes }),
        Err(end) => Err(end),
    }
}

impl Value {
    /// A scalar value.
    pub fn scalar(alloc: Global, scalar: Scalar) -> Result<Value, AllocError>
        ensures { IfOk result (λ v. v ≡ One scalar) }
    {
        let nodes = Vec::from_slice(alloc, &[node_of(scalar)])?;
        Ok(Value { nodes })
    }

    /// The same value again.
    pub fn duplicate(&self, alloc: Global) -> Result<Value, AllocError>
        ensures { IfOk result (λ v. v ≡ self.now) }
    {
        let nodes = Vec::from_slice(alloc, &self.nodes)?;
        Ok(Value { nodes })
    }

    /// The nodes.
    pub(crate) fn nodes(&self) -> &[Node]
        ensures whole { after 1 result.now ≡ Some 0 }
        ensures items { value_in (read result.now) ≡ self.now }
    {
        &self.nodes
    }

    /// The scalar value, where the value is one.
    pub fn as_scalar(&self) -> Option<Scalar>
        ensures { result ≡ scalar_of self.now }
    {
        scalar_at(&self.nodes)
    }

    /// The bounds, where the value is an array.
    pub fn bounds(&self) -> Option<Bounds>
        ensures { result ≡ bounds_of self.now }
    {
        bounds_at(&self.nodes)
    }

    /// The element of an array at an index, by its position.
    pub fn element(&self, alloc: Global, index: i64) -> Result<Value, ValueEnd>
        ensures { Answers result (part (AtIndex index) self.now) }
    {
        value_from(element_nodes(alloc, &self.nodes, index))
    }

    /// The slice of an array with a range.
    pub fn slice(&self, alloc: Global, range: Bounds) -> Result<Value, ValueEnd>
        ensures { Answers result (part (AtSlice range) self.now) }
    {
        value_from(slice_nodes(alloc, &self.nodes, range))
    }

    /// The field of a record with a number, from 0.
    pub fn field(&self, alloc: Global, number: u32) -> Result<Value, ValueEnd>
        ensures { Answers result (part (AtField number) self.now) }
    {
        value_from(field_nodes(alloc, &self.nodes, number))
    }

    /// The array with another element at an index.
    pub fn with_element(&self, alloc: Global, index: i64, new: &Value) -> Result<Value, ValueEnd>
        ensures { Answers result (with_part (AtIndex index) new.now self.now) }
    {
        value_from(with_element_nodes(alloc, &self.nodes, index, &new.nodes))
    }

    /// The array with the elements of another one, which has as many as the range, in the place of a slice.
    pub fn with_slice(&self, alloc: Global, range: Bounds, new: &Value) -> Result<Value, ValueEnd>
        ensures { Answers result (with_part (AtSlice range) new.now self.now) }
    {
        value_from(with_slice_nodes(alloc, &self.nodes, range, &new.nodes))
    }

    /// The record with another field.
    pub fn with_field(&self, alloc: Global, number: u32, new: &Value) -> Result<Value, ValueEnd>
        ensures { Answers result (with_part (AtField number) new.now self.now) }
    {
        value_from(with_field_nodes(alloc, &self.nodes, number, &new.nodes))
    }

    /// The scalar values that it is made of, from left to right and record by field.
    pub fn leaves(&self, alloc: Global) -> Result<Vec<Scalar>, AllocError>
        ensures { IfOk result (λ scalars. scalars.items ≡ leaves self.now) }
    {
        leaf_nodes(alloc, &self.nodes)
    }

    /// The positions of the elements, where the value is an array of integers or of literals.
    pub fn positions(&self, alloc: Global) -> Result<Vec<i64>, ValueEnd>
        ensures { ListAnswers result (positions_of self.now) }
    {
        positions_nodes(alloc, Elements::Discrete, &self.nodes)
    }

    /// The positions of the elements, where the value is an array of literals.
    pub fn literal_positions(&self, alloc: Global) -> Result<Vec<i64>, ValueEnd>
        ensures { ListAnswers result (literal_positions_of self.now) }
    {
        positions_nodes(alloc, Elements::Literals, &self.nodes)
    }

    /// An array of literals with these bounds, by their positions.
    pub fn of_literals(alloc: Global, bounds: Bounds, positions: &[u8]) -> Result<Value, ValueEnd>
        ensures { Answers result (array_of bounds (literals positions.now)) }
    {
        value_from(literal_nodes(alloc, bounds, positions))
    }

    /// Whether two values are equal. The bounds of arrays don't count, their lengths do.
    pub fn equals(&self, other: &Value) -> bool
        ensures { result ≡ same_value self.now other.now }
    {
        same_nodes(&self.nodes, &other.nodes)
    }

    /// The value made one of a scalar subtype.
    pub fn fit_scalar(self, subtype: ScalarSubtype) -> Result<Value, ValueEnd>
        ensures { Answers result (fit (Scalars subtype) self) }
    {
        value_from(fit_scalar_nodes(self.nodes, subtype))
    }

    /// The value made one of an array subtype without bounds, whose elements are of any subtype `of`.
    pub fn fit_free(self, index: ScalarSubtype) -> Result<Value, ValueEnd>
        ensures { (of : Subtype) → Answers result (fit (Arrays index None of) self) }
    {
        value_from(fit_free_nodes(self.nodes, index))
    }

    /// The value made one of an array subtype with bounds, whose index and elements are of any subtypes.
    pub fn fit_bounded(self, bounds: Bounds) -> Result<Value, ValueEnd>
        ensures { (index : ScalarSubtype) (of : Subtype) → Answers result (fit (Arrays index (Some bounds) of) self) }
    {
        value_from(fit_bounded_nodes(self.nodes, bounds))
    }

    /// The value made one of a record subtype of so many fields, which are of any subtypes.
    pub fn fit_record(self, fields: u32) -> Result<Value, ValueEnd>
        ensures { (of : Subtypes) → number_of of ≡ fields → Answers result (fit (Records of) self) }
    {
        value_from(fit_record_nodes(self.nodes, fields))
    }
}
