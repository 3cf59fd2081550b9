//! What is known of declarations.

use vd_composites::{Bounds, Value};
use vd_declarations::Declaration;
use vd_forest::Store;
use vd_trees::Revision;
use vd_value_rules::{IndicatedForm, StaticSort};

/// What a declaration stands for when the text is analysed.
#[derive(Drop)]
pub struct Entry {
    /// The value of a constant, where it is locally static; any value else.
    pub value: Value,
    /// How static the value is, or of a function its calls.
    pub known: StaticSort,
    /// The subtype of an object or of a function's result, or that which a mark names, by its number in the store.
    pub subtype: u32,
    /// How static all bounds of that subtype are.
    pub bounds: StaticSort,
    /// Of an array the bounds of its value, or of its scalar signals.
    pub shape: Option<Bounds>,
    pub is_signal: bool,
    /// The predefined operator that a function stands for.
    pub operator: Option<u32>,
}

/// All that a static expression is evaluated over: the declarations of the design, and what is known of them, by their numbers.
#[derive(Clone, Copy)]
pub struct Ground<'a> {
    pub revision: Revision,
    pub declarations: &'a [Declaration],
    pub subtypes: &'a Store<IndicatedForm>,
    pub entries: &'a [Entry],
}
