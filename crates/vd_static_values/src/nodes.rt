//! Nodes, with what a piece of a name does to what stands in front of it.

use crate::names::KnownName;
use crate::senses::Sense;
use vd_composites::{Bounds, Value};
use vd_declarations::TypeId;
use vd_value_rules::StaticSort;

/// What a list in brackets is behind what isn't an attribute of a type.
#[derive(Drop)]
pub enum Bracketed {
    /// The arguments of a call, or the operand of a conversion: a value of its own.
    Own(KnownName),
    /// An index.
    Element,
    /// The range of a slice, where it is locally static and doesn't stop.
    Slice(Option<Bounds>),
}

/// A list in brackets behind a name: the value of its first element, how static that is, and what the list is behind what isn't an attribute of a type.
#[derive(Drop)]
pub struct Arguments {
    pub value: Option<Value>,
    pub known: StaticSort,
    pub otherwise: Bracketed,
}

/// A further piece of a name.
#[derive(Drop)]
pub enum Piece<'a> {
    /// No piece of a name.
    NoPiece,
    /// The element of a record with a number, from 0.
    Field(u32),
    /// What stands for something of its own, whatever is in front of it.
    Own(KnownName),
    /// An attribute, by its name, with the type of its value.
    Attribute {
        name: &'a [u8],
        mark: Option<TypeId>,
    },
    /// The attribute `range`.
    RangeAttribute {
        mark: Option<TypeId>,
    },
    Arguments(Arguments),
}

/// A node: what is known of it, and what piece of a name it is.
#[derive(Drop)]
pub struct Node<'a> {
    pub sense: Sense<'a>,
    pub piece: Piece<'a>,
}
