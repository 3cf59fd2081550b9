//! What is known of the nodes of resolved trees.

use crate::names::{KnownName, Ranging};
use vd_composites::Value;
use vd_declarations::{DeclId, TypeId};
use vd_value_rules::StaticSort;

/// What an element in brackets stands for.
#[derive(Clone, Copy, PartialEq, Eq, Debug)]
pub enum Association {
    Positional,
    ByChoices,
    ForOthers,
}

/// What is known of a node.
#[derive(Drop)]
pub struct Sense<'a> {
    pub text: &'a [u8],
    pub declaration: Option<DeclId>,
    pub mark: Option<TypeId>,
    pub position: u32,
    pub is_present: bool,
    /// The value of an expression, where it is locally static and doesn't stop.
    pub value: Option<Value>,
    pub known: StaticSort,
    pub range: Ranging,
    pub name: KnownName,
    pub association: Association,
    /// What each choice of an element names.
    pub choices: Vec<Option<DeclId>>,
    pub is_open: bool,
}
