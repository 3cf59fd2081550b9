//! Values one after the other, of which arrays and records are made.

ghost use Rattle.std.specs.Prelude.{◌≡◌, Ok, OnOk, OnErr};
ghost use Rattle.vd_composites.specs.Answers.{Answers};
ghost use Rattle.vd_composites.specs.Composites.{One, count, item, items_in, joined, none};
ghost use Rattle.vd_composites.specs.Composites.{Fields as FieldsOf};
ghost use Rattle.vd_composites.specs.Concatenations.{array_on};
ghost use Rattle.vd_composites.specs.Parts.{array_of};

use crate::ends::ValueEnd;
use crate::joining::{add_items, array_nodes, array_on_nodes, record_nodes};
use crate::nodes::{Node, node_of};
use crate::parts::body_of;
use crate::ranges::Bounds;
use crate::scalars::ScalarSubtype;
use crate::value::{Value, value_from};
use std::alloc::{AllocError, Global};
use std::marker::Model;
use vd_values::Scalar;

/// Values one after the other.
#[derive(Drop)]
pub struct Items {
    nodes: Vec<Node>,
    number: usize,
}

impl Model for Items {
    ghost use Rattle.vd_values.specs.declared.scalar.Scalar.{Scalar};
    ghost use Rattle.vd_composites.specs.Composites.{Items as AnyItems};
    ghost use Rattle.vd_composites.specs.Codes.{coded_items};

    ghost Value = { AnyItems Scalar };

    ghost coded = { coded_items };

    ghost use Rattle.std.specs.Prelude.{◌≡◌, Some};
    ghost use Rattle.vd_composites.specs.Nodes.{read, after};

    ghost view = { λ a. read a.nodes.items };

    ghost invariant = { λ a. after a.number a.nodes.items ≡ Some 0 };
}

impl Items {
    /// No values.
    pub fn new(alloc: Global) -> Items
        ensures { result ≡ none }
    {
        Items {
            nodes: Vec::new(alloc),
            number: 0,
        }
    }

    /// Adds a scalar value behind the others.
    pub fn push_scalar(&mut self, scalar: Scalar) -> Result<(), AllocError>
        ensures ok { OnOk result (self.new ≡ joined self.old (item (One scalar) none)) }
        ensures err { OnErr result (self.new ≡ self.old) }
    {
        self.number = add_items(&mut self.nodes, self.number, &[node_of(scalar)], 1)?;
        Ok(())
    }

    /// Adds a value behind the others.
    pub fn push(&mut self, value: &Value) -> Result<(), AllocError>
        ensures ok { OnOk result (self.new ≡ joined self.old (item value.now none)) }
        ensures err { OnErr result (self.new ≡ self.old) }
    {
        self.number = add_items(&mut self.nodes, self.number, value.nodes(), 1)?;
        Ok(())
    }

    /// Adds the elements of an array or the fields of a record behind the others. A scalar value has none.
    pub fn push_parts(&mut self, value: &Value) -> Result<(), AllocError>
        ensures ok { OnOk result (self.new ≡ joined self.old (items_in value.now)) }
        ensures err { OnErr result (self.new ≡ self.old) }
    {
        let nodes = value.nodes();
        let body = body_of(nodes);
        self.number = add_items(
            &mut self.nodes,
            self.number,
            &nodes[body.start..],
            body.parts,
        )?;
        Ok(())
    }

    /// How many values there are.
    pub fn len(&self) -> usize
        ensures { result ≡ count self.now }
    {
        self.number
    }

    /// An array with these bounds, of the elements.
    pub fn array(&self, alloc: Global, bounds: Bounds) -> Result<Value, ValueEnd>
        ensures { Answers result (array_of bounds self.now) }
    {
        value_from(array_nodes(alloc, bounds, &self.nodes, self.number))
    }

    /// An array from the left bound of an index subtype on, of the elements.
    pub fn array_on(&self, alloc: Global, index: ScalarSubtype) -> Result<Value, ValueEnd>
        ensures { Answers result (array_on index self.now) }
    {
        value_from(array_on_nodes(alloc, index, &self.nodes, self.number))
    }

    /// A record of the fields.
    pub fn record(&self, alloc: Global) -> Result<Value, ValueEnd>
        ensures { Answers result (Ok (FieldsOf self.now)) }
    {
        value_from(record_nodes(alloc, &self.nodes, self.number))
    }
}
