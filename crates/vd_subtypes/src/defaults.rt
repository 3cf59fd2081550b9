//! The values with which objects begin that are given no other.

ghost use Rattle.std.specs.Prelude.{◌≡◌, IfOk};
ghost use Rattle.vd_composites.specs.Composites.{Array as ArrayOf, One};
ghost use Rattle.vd_composites.specs.Composites.{repeated};
ghost use Rattle.vd_composites.specs.Ranges.{length_of};
ghost use Rattle.vd_composites.specs.Scalars.{scalar_at};
ghost use Rattle.vd_composites.specs.Subtypes.{default_of, defaults_of};
ghost use Rattle.vd_subtypes.specs.Nodes.{read};
ghost use Rattle.vd_subtypes.specs.Stacks.{Begins, TakesRecord, from_top, null_on};

use crate::subtypes::{Node, Subtype};
use std::alloc::{AllocError, Global};
use vd_composites::{Bounds, Items, ScalarSubtype, ScalarType, Value, ValueEnd};
use vd_values::Scalar;

/// The scalar value at a position, also outside its type. What no scalar of code holds is taken for want of memory.
fn leftmost(subtype: ScalarSubtype) -> Result<Scalar, AllocError>
    ensures { IfOk result (λ x. x ≡ scalar_at subtype.of_type subtype.range.left) }
{
    let position = subtype.range.left;
    match subtype.of_type {
        ScalarType::Integers => match i32::try_from(position) {
            Ok(x) => Ok(Scalar::Integer(x)),
            Err(_) => Err(AllocError),
        },
        ScalarType::Enumeration(_) => match u32::try_from(position.max(0)) {
            Ok(n) => Ok(Scalar::Literal(n)),
            Err(_) => Err(AllocError),
        },
        ScalarType::Times => Ok(Scalar::Time(position.max(0) as u64)),
    }
}

/// The default of a scalar subtype.
fn scalar_default(alloc: Global, subtype: ScalarSubtype) -> Result<Value, AllocError>
    ensures { IfOk result (λ v. v ≡ One (scalar_at subtype.of_type subtype.range.left)) }
{
    let scalar = leftmost(subtype)?;
    Value::scalar(alloc, scalar)
}

/// An array of one value, as often as its bounds give.
fn repeat(alloc: Global, bounds: Bounds, value: &Value) -> Result<Value, AllocError>
    ensures { IfOk result (λ v. v ≡ ArrayOf bounds (repeated (length_of bounds) value.now)) }
{
    let Ok(count) = usize::try_from(bounds.length()) else {
        return Err(AllocError);
    };
    let mut items = Items::new(alloc);
    for _place in 0..count {
        items.push(value)?;
    }
    match items.array(alloc, bounds) {
        Ok(made) => Ok(made),
        Err(_) => Err(AllocError),
    }
}

/// The null array at the left bound of an index subtype.
fn null_array(alloc: Global, index: ScalarSubtype) -> Result<Value, AllocError>
    ensures { IfOk result (λ v. v ≡ null_on index) }
{
    match Items::new(alloc).array_on(alloc, index) {
        Ok(made) => Ok(made),
        Err(_) => Err(AllocError),
    }
}

/// The record of so many values from the top of a stack.
fn record_of(alloc: Global, stack: &mut Vec<Value>, fields: u32) -> Result<Value, AllocError>
    ensures { IfOk result (λ v. TakesRecord fields stack.old.items stack.new.items v) }
{
    let mut items = Items::new(alloc);
    for _place in 0..fields {
        let Some(value) = stack.pop() else {
            return Err(AllocError);
        };
        items.push(&value)?;
    }
    match items.record(alloc) {
        Ok(made) => Ok(made),
        Err(_) => Err(AllocError),
    }
}

/// The default of the subtype that a node begins, those of the parts standing on the stack.
fn default_at(alloc: Global, node: Node, stack: &mut Vec<Value>) -> Result<Value, AllocError>
    ensures { IfOk result (λ v. Begins node stack.old.items stack.new.items v) }
{
    match node {
        Node::Scalar(scalar) => scalar_default(alloc, scalar),
        Node::Unbounded(index) => {
            let Some(_element) = stack.pop() else {
                return Err(AllocError);
            };
            null_array(alloc, index)
        }
        Node::Bounded(_, bounds) => {
            let Some(element) = stack.pop() else {
                return Err(AllocError);
            };
            repeat(alloc, bounds, &element)
        }
        Node::Record(fields) => record_of(alloc, stack, fields),
    }
}

/// The defaults of the subtypes of some nodes, the first one on top.
fn defaults(alloc: Global, nodes: &[Node]) -> Result<Vec<Value>, AllocError>
    ensures { IfOk result (λ made. from_top made.items ≡ defaults_of (read nodes.now)) }
{
    let mut stack = Vec::new(alloc);
    let mut left = nodes.len();
    while left > 0 {
        left -= 1;
        let value = default_at(alloc, nodes[left], &mut stack)?;
        stack.push(value)?;
    }
    Ok(stack)
}

impl Subtype {
    /// The leftmost value of the subtype.
    pub fn default_value(&self, alloc: Global) -> Result<Value, AllocError>
        ensures { IfOk result (λ v. v ≡ default_of self.now) }
    {
        let mut stack = defaults(alloc, self.nodes())?;
        match stack.pop() {
            Some(value) => Ok(value),
            None => Err(AllocError),
        }
    }
}
