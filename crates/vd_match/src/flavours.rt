//! Of which of the two vector types of IEEE 1164 a selector is by itself. In revision 2019 STD_LOGIC_VECTOR is a subtype of STD_ULOGIC_VECTOR, in revision
//! 1993 each is a type of its own.
#![tactic(auto, using(vd_forest::proofs::StoreLemmas::growing))]

use crate::choosing::Choosing;
use std::alloc::{AllocError, Global};
use vd_declarations::{Class, DeclId, Declaration, TypeId};
use vd_forest::{Cursor, Opened};
use vd_forms::Form;
use vd_notes::{Names, Noted, row_of};
use vd_operations::tables::class_of;
use vd_predefined::numbers::{STD_LOGIC_VECTOR, STD_ULOGIC, STD_ULOGIC_VECTOR};

/// For each declaration whether it is STD_LOGIC_VECTOR or a subtype of it, or was given with such a mark.
#[derive(Debug, Drop)]
pub(crate) struct Flavours {
    is_logic: Vec<bool>,
}

/// What is known of an expression.
#[derive(Clone, Copy)]
enum Found {
    /// It is of either.
    Either,
    /// It is STD_LOGIC_VECTOR, or it isn't.
    Logic(bool),
}

/// The number of a declaration.
fn number_of(declaration: &Option<DeclId>) -> Option<u32> {
    match declaration {
        Some(declaration) => Some(declaration.number()),
        None => None,
    }
}

/// The number at the first tree's node, or at its first part.
fn named_at(trees: &Cursor<'_, Noted>) -> Option<u32> {
    let first = trees.open()?;
    match number_of(&first.form.node.declaration) {
        Some(number) => Some(number),
        None => {
            let part = first.parts.open()?;
            number_of(&part.form.node.declaration)
        }
    }
}

/// Whether a mark is STD_LOGIC_VECTOR, where it is none of the earlier declarations or a subtype of one of them.
fn is_logic_mark(known: &[bool], class: Class, number: u32) -> bool {
    match class {
        Class::Subtype { mark } => {
            number == STD_LOGIC_VECTOR
                || match known.get(mark.number() as usize) {
                    Some(is_logic) => *is_logic,
                    None => false,
                }
        }
        _ => false,
    }
}

/// For each declaration whether it is such a mark. A mark stands in front of its subtypes.
fn marks_of(alloc: Global, declarations: &[Declaration]) -> Result<Vec<bool>, AllocError> {
    let mut known = Vec::with_capacity(alloc, declarations.len())?;
    let mut number: u32 = 0;
    for declaration in declarations {
        let is_logic = is_logic_mark(&known, declaration.class, number);
        known.push(is_logic)?;
        number = number.saturating_add(1);
    }
    Ok(known)
}

/// Notes that a declaration was given with such a mark.
fn set(known: &mut Vec<bool>, number: Option<u32>) {
    let Some(number) = number else {
        return;
    };
    if let Some(is_logic) = known.get_mut(number as usize) {
        *is_logic = true;
    }
}

/// The same of a list of names.
fn set_all(known: &mut Vec<bool>, names: &Cursor<'_, Noted>) {
    let mut rest = names.fork();
    while let Some(first) = rest.open() {
        set(known, number_of(&first.form.node.declaration));
        rest = first.next;
    }
}

/// Whether a declaration was noted.
fn is_noted(known: &[bool], number: Option<u32>) -> bool {
    let Some(number) = number else {
        return false;
    };
    match known.get(number as usize) {
        Some(is_logic) => *is_logic,
        None => false,
    }
}

/// Notes what a node declares with such a mark.
fn set_declared(known: &mut Vec<bool>, node: &Noted, parts: &Cursor<'_, Noted>) {
    let row = row_of(node.node.form);
    let Some(place) = row.mark else {
        return;
    };
    if !is_noted(known, named_at(&parts.skip(place))) {
        return;
    }
    match row.names {
        Names::List(list) => set_all(known, &parts.skip(list).parts()),
        Names::Itself => set(known, number_of(&node.node.declaration)),
        _ => {}
    }
}

impl Flavours {
    /// Those of a design.
    pub(crate) fn of(
        alloc: Global,
        declarations: &[Declaration],
        units: &Cursor<'_, Noted>,
    ) -> Result<Flavours, AllocError> {
        let mut is_logic = marks_of(alloc, declarations)?;
        let (store, count) = units.stands();
        for older in 0..count {
            let head = store.node(older + 1);
            set_declared(&mut is_logic, &head.form, &store.cursor(head.parts));
        }
        Ok(Flavours { is_logic })
    }
}

/// Whether a node is of the type that both have in revision 2019.
fn is_vector(node: &Noted) -> bool {
    match &node.node.mark {
        Some(mark) => mark.number() == STD_ULOGIC_VECTOR,
        None => false,
    }
}

/// Whether a node is of the type of their elements.
fn is_element(node: &Noted) -> bool {
    match &node.node.mark {
        Some(mark) => mark.number() == STD_ULOGIC,
        None => false,
    }
}

/// Whether one of some operands is an element.
fn has_element(operands: &Cursor<'_, Noted>) -> bool {
    let mut rest = operands.fork();
    while let Some(first) = rest.open() {
        if is_element(&first.form) {
            return true;
        }
        rest = first.next;
    }
    false
}

/// Whether nodes of this form are shifts, which give STD_ULOGIC_VECTOR.
fn is_shift(form: Form) -> bool {
    matches!(
        form,
        Form::ShiftLeftLogical
            | Form::ShiftRightLogical
            | Form::ShiftLeftArithmetic
            | Form::ShiftRightArithmetic
            | Form::RotateLeft
            | Form::RotateRight
    )
}

/// Whether nodes of this form are literals.
fn is_literal(form: Form) -> bool {
    matches!(form, Form::Quoted | Form::Bits)
}

impl<'d, 's> Choosing<'d, 's> {
    /// The flavour of the elements of an array type.
    fn element_flavour(&self, of: Option<TypeId>) -> Found {
        let Some(of) = of else {
            return Found::Logic(false);
        };
        match class_of(self.declarations, of.number()) {
            Class::ArrayType { element_mark, .. } => Found::Logic(is_noted(
                &self.flavours.is_logic,
                Some(element_mark.number()),
            )),
            _ => Found::Logic(false),
        }
    }

    /// The flavour of a name up to a piece, which is in brackets or not, behind a name of a type and a flavour.
    fn piece_flavour(&self, piece: &Noted, before: Option<TypeId>, so_far: Found) -> Found {
        let named = number_of(&piece.node.declaration);
        if named.is_some() {
            return Found::Logic(is_noted(&self.flavours.is_logic, named));
        }
        let is_same = match (&piece.node.mark, &before) {
            (Some(one), Some(other)) => one.number() == other.number(),
            _ => false,
        };
        if is_same {
            so_far
        } else {
            self.element_flavour(before)
        }
    }

    /// The flavour of a name.
    fn name_flavour(&self, pieces: &Cursor<'_, Noted>) -> Found {
        let mut found = Found::Logic(false);
        let mut before = None;
        let mut rest = pieces.fork();
        while let Some(piece) = rest.open() {
            found = self.piece_flavour(&piece.form, before, found);
            before = piece.form.node.mark;
            rest = piece.next;
        }
        found
    }

    /// The flavour of an expression as far as it doesn't hang on that of its parts.
    fn own_flavour(&self, node: &Opened<'_, Noted>) -> Found {
        let form = node.form.node.form;
        match form {
            Form::Name => self.name_flavour(&node.parts),
            Form::OperatorName | Form::Concatenate | Form::Aggregate => Found::Either,
            _ => {
                if is_shift(form) || (!is_literal(form) && has_element(&node.parts)) {
                    Found::Logic(false)
                } else {
                    Found::Either
                }
            }
        }
    }

    /// Whether a selector is STD_LOGIC_VECTOR: its first operand that is one of the two types is so.
    pub(crate) fn is_logic(
        &self,
        alloc: Global,
        selector: &Opened<'_, Noted>,
    ) -> Result<bool, AllocError> {
        if let Found::Logic(is_logic) = self.own_flavour(selector) {
            return Ok(is_logic);
        }
        let mut left: Vec<Cursor<'_, Noted>> = Vec::new(alloc);
        left.push(selector.parts.fork())?;
        // No text has so many nodes.
        for _ in 0..u64::MAX {
            let Some(trees) = left.pop() else {
                break;
            };
            let Some(first) = trees.open() else {
                continue;
            };
            left.push(first.next.fork())?;
            if is_vector(&first.form) {
                if let Found::Logic(is_logic) = self.own_flavour(&first) {
                    return Ok(is_logic);
                }
                left.push(first.parts)?;
            }
        }
        Ok(false)
    }
}
