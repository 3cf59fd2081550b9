//! What is known of names.

use vd_composites::{Bounds, Value};
use vd_value_rules::StaticSort;

/// The subtype of a name.
#[derive(Clone, Copy, Debug)]
pub enum NameSubtype {
    /// The one with this number in the store.
    Stored(u32),
    /// That of a slice of the one with this number. The bounds are there where the range is locally static and doesn't stop.
    Slice {
        of: u32,
        bounds: Option<Bounds>,
        known: StaticSort,
    },
}

/// Whether something stands for a range, and for which one, where that is locally static and doesn't stop.
#[derive(Clone, Copy, Debug)]
pub enum Ranging {
    NoRange,
    Range(Option<Bounds>),
}

/// An attribute of a type that takes an argument.
#[derive(Clone, Copy, PartialEq, Eq, Debug)]
pub enum TypeAttribute {
    Position,
    Value,
    Successor,
    Predecessor,
    Image,
}

/// What is known of a name, up to one of its pieces.
#[derive(Drop)]
pub struct KnownName {
    /// Its value, where it is locally static and doesn't stop.
    pub value: Option<Value>,
    pub known: StaticSort,
    pub subtype: NameSubtype,
    /// Whether it has a subtype.
    pub has_subtype: bool,
    /// Of an array its bounds, where they are locally static and don't stop.
    pub shape: Option<Bounds>,
    /// Whether it is an object, a type or a part of one.
    pub is_object: bool,
    /// Whether each slice in it has a locally static range.
    pub local_slices: bool,
    pub is_mark: bool,
    pub range: Ranging,
    /// The attribute whose argument the next piece has.
    pub callee: Option<TypeAttribute>,
    pub is_signal: bool,
    /// Whether its longest static prefix is the whole name.
    pub is_whole: bool,
}
