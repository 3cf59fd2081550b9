//! How far the longest static prefix of a name goes.
//!
//! (IEEE 1076, static names.) A record element is a step that is always static. An index or a slice is one where the index or the bounds are.

use crate::facts::{Facts, number_marked};
use crate::orders::{Staticness, static_by};
use std::alloc::{AllocError, Global};
use vd_declarations::Class;
use vd_forest::{Cursor, Opened};
use vd_forms::Form;
use vd_notes::{Note, Noted};
use vd_operations::class_of;
use vd_predefined::numbers::INTEGER;

/// What becomes of brackets in a prefix.
#[derive(Clone, Copy, PartialEq, Eq, Debug)]
pub(crate) enum Step {
    /// The prefix ends in front of them.
    Ends,
    /// They stand in it as they are.
    Kept,
    /// They stand in it with the value of the index, since it names something that the process declares.
    Index {
        of: u32,
        value: i32,
    },
    /// The same with the values of bounds.
    Bounds {
        of: u32,
        left: i32,
        right: i32,
        down: bool,
    },
}

/// Whether a tree is a literal: a number, a character, or the name of a literal.
fn is_literal(facts: &Facts<'_>, tree: &Opened<'_, Noted>) -> bool {
    match tree.form.node.form {
        Form::Number | Form::Letter => true,
        Form::Name => {
            let Some(piece) = tree.parts.open() else {
                return false;
            };
            match piece.form.node.declaration {
                Some(number) if piece.next.form().is_none() => matches!(
                    class_of(facts.declarations, number.number()),
                    Class::EnumerationLiteral
                ),
                _ => false,
            }
        }
        _ => false,
    }
}

/// Whether all trees are literals.
fn are_literals(facts: &Facts<'_>, trees: &Cursor<'_, Noted>) -> bool {
    let mut left = trees.fork();
    while let Some(first) = left.open() {
        if !is_literal(facts, &first) {
            return false;
        }
        left = first.next;
    }
    true
}

/// Whether what stands in brackets is static as far as that is seen of it alone: a literal, or a range of two.
fn is_plainly_static(facts: &Facts<'_>, parts: &Cursor<'_, Noted>) -> bool {
    match parts.open() {
        Some(first) if is_range(&first.form) => are_literals(facts, &first.parts),
        Some(first) => is_literal(facts, &first),
        None => false,
    }
}

/// Whether a tree is written as a range with two bounds.
fn is_range(form: &Noted) -> bool {
    matches!(form.node.form, Form::Ascending | Form::Descending)
}

/// Whether a value of a discrete type can be written.
fn is_written(facts: &Facts<'_>, of: u32, value: i32) -> bool {
    if of == INTEGER {
        return true;
    }
    match u32::try_from(value) {
        Ok(position) => facts.literal_at(of, position).is_some(),
        Err(_) => false,
    }
}

/// Whether brackets behind a name of this type are those of a slice, which is of the same type.
pub(crate) fn is_slice(piece: &Noted, mark: Option<u32>) -> bool {
    match (number_marked(&piece.node.mark), mark) {
        (Some(part), Some(whole)) => part == whole,
        _ => false,
    }
}

/// The step whose index or bounds are written as values.
fn by_value(facts: &Facts<'_>, piece: &Noted, mark: Option<u32>) -> Step {
    let Some(of) = facts.index_of(mark) else {
        return Step::Ends;
    };
    match piece.note {
        Note::Index {
            left,
            right,
            down,
            ..
        } => {
            if !is_written(facts, of, left) || !is_written(facts, of, right) {
                Step::Ends
            } else if is_slice(piece, mark) {
                Step::Bounds {
                    of,
                    left,
                    right,
                    down,
                }
            } else {
                Step::Index { of, value: left }
            }
        }
        _ => Step::Ends,
    }
}

/// What becomes of brackets with these parts in a prefix, behind a name of this type.
pub(crate) fn step_of(
    facts: &Facts<'_>,
    piece: &Noted,
    parts: &Cursor<'_, Noted>,
    mark: Option<u32>,
) -> Step {
    match static_by(piece.note) {
        Staticness::AsWritten => Step::Kept,
        Staticness::AsValues => by_value(facts, piece, mark),
        Staticness::Never => Step::Ends,
        Staticness::Unnoted => {
            if is_plainly_static(facts, parts) {
                Step::Kept
            } else {
                Step::Ends
            }
        }
    }
}

/// What tells prefixes apart: the number of the signal, and then what tells each step apart.
#[derive(PartialEq, Eq, Hash, Drop)]
pub(crate) struct Key {
    words: Vec<i64>,
}

/// A mark in front of each sort of steps, so that no two different ones look alike.
const FIELD: i64 = 0;

const VALUE: i64 = 1;

const RANGE: i64 = 2;

const TEXT: i64 = 3;

const OPEN: i64 = -1;

const CLOSE: i64 = -2;

/// The number of a declaration, or a number that none has.
fn number_or_none(tree: &Noted) -> i64 {
    match tree.node.declaration {
        Some(number) => number.number() as i64,
        None => -1,
    }
}

impl Key {
    /// That of a whole signal.
    pub(crate) fn of(alloc: Global, signal: u32) -> Result<Key, AllocError> {
        let mut words: Vec<i64> = Vec::new(alloc);
        words.push(signal as i64)?;
        Ok(Key { words })
    }

    /// And a record element of it.
    pub(crate) fn add_field(&mut self, position: u32) -> Result<(), AllocError> {
        self.words.push(FIELD)?;
        self.words.push(position as i64)?;
        Ok(())
    }

    /// And an element or a slice: by the values where they are known, or else by the text.
    pub(crate) fn add_brackets(
        &mut self,
        alloc: Global,
        piece: &Noted,
        parts: &Cursor<'_, Noted>,
        mark: Option<u32>,
    ) -> Result<(), AllocError> {
        match piece.note {
            Note::Index {
                is_known: true,
                left,
                right,
                down,
                ..
            } => {
                if is_slice(piece, mark) {
                    self.add_bounds(left, right, down)
                } else {
                    self.add_value(left)
                }
            }
            _ => self.add_text(alloc, parts),
        }
    }

    fn add_value(&mut self, value: i32) -> Result<(), AllocError> {
        self.words.push(VALUE)?;
        self.words.push(value as i64)?;
        Ok(())
    }

    fn add_bounds(&mut self, left: i32, right: i32, down: bool) -> Result<(), AllocError> {
        self.words.push(RANGE)?;
        self.words.push(left as i64)?;
        self.words.push(right as i64)?;
        self.words.push(if down { 1 } else { 0 })?;
        Ok(())
    }

    /// And brackets with this text in them.
    fn add_text(&mut self, alloc: Global, parts: &Cursor<'_, Noted>) -> Result<(), AllocError> {
        self.words.push(TEXT)?;
        let mut left: Vec<Cursor<'_, Noted>> = Vec::new(alloc);
        left.push(parts.fork())?;
        for _ in 0..u64::MAX {
            let Some(trees) = left.pop() else {
                return Ok(());
            };
            match trees.open() {
                Some(first) => {
                    self.add_node(&first)?;
                    left.push(first.next)?;
                    left.push(first.parts)?;
                }
                None => self.words.push(CLOSE)?,
            }
        }
        Ok(())
    }

    /// And a node.
    fn add_node(&mut self, tree: &Opened<'_, Noted>) -> Result<(), AllocError> {
        self.words.push(OPEN)?;
        self.words.push(tree.form.node.form as u16 as i64)?;
        self.words.push(number_or_none(&tree.form))?;
        self.words.push(tree.text.len() as i64)?;
        for byte in tree.text {
            self.words.push(*byte as i64)?;
        }
        Ok(())
    }
}
