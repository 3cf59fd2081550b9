//! What a list of what a process reads hangs on besides the process.

ghost use Rattle.std.specs.Prelude.{◌≡◌};

use std::alloc::{AllocError, Global};
use vd_declarations::{Class, Declaration, TypeId};
use vd_forest::Cursor;
use vd_forms::Form;
use vd_notes::Noted;
use vd_operations::class_of;
use vd_predefined::numbers::INTEGER;
use vd_statements::places::Places;

/// The declarations of a design, and what is found out about them once.
#[derive(Drop)]
pub(crate) struct Facts<'d> {
    pub(crate) declarations: &'d [Declaration],
    /// The place of each parameter of a function.
    pub(crate) places: Places,
    /// Whether a declaration is a port of mode `out`, by its number.
    outs: Vec<bool>,
    /// The operators `-` of INTEGER with one operand and with two.
    pub(crate) negation: Option<u32>,
    pub(crate) subtraction: Option<u32>,
}

/// The number of a type.
pub(crate) fn number_marked(mark: &Option<TypeId>) -> Option<u32> {
    match mark {
        Some(mark) => Some(mark.number()),
        None => None,
    }
}

/// Whether a declaration is the operator `-` of INTEGER with so many operands.
fn is_minus(declaration: &Declaration, operands: usize) -> bool {
    let is_of_integer = match &declaration.mark {
        Some(mark) => mark.number() == INTEGER,
        None => false,
    };
    is_of_integer
        && matches!(declaration.class, Class::PredefinedOperator)
        && declaration.parameters.as_slice().len() == operands
        && declaration.name.as_slice() == b"\"-\"".as_slice()
}

/// The number of the operator `-` of INTEGER with so many operands.
fn minus_of(declarations: &[Declaration], operands: usize) -> Option<u32> {
    let mut number: u32 = 0;
    for declaration in declarations {
        if is_minus(declaration, operands) {
            return Some(number);
        }
        number = number.saturating_add(1);
    }
    None
}

/// Notes the ports of a declaration, where their mode is `out`.
fn note_ports(outs: &mut Vec<bool>, parts: &Cursor<'_, Noted>) {
    let is_out = match parts.skip(2).form() {
        Some(mode) => matches!(mode.node.form, Form::Out),
        None => false,
    };
    if !is_out {
        return;
    }
    let mut left = parts.skip(1).parts();
    while let Some(first) = left.open() {
        if let Some(port) = first.form.node.declaration {
            if let Some(out) = outs.get_mut(port.number() as usize) {
                *out = true;
            }
        }
        left = first.next;
    }
}

/// For each declaration whether it is a port of mode `out`.
fn outs_of(
    alloc: Global,
    declarations: &[Declaration],
    units: &Cursor<'_, Noted>,
) -> Result<Vec<bool>, AllocError> {
    let mut outs: Vec<bool> = vec![in alloc; false; declarations.len()]?;
    let (store, count) = units.stands();
    for older in 0..count {
        let head = store.node(older + 1);
        if matches!(head.form.node.form, Form::PortDeclaration) {
            note_ports(&mut outs, &store.cursor(head.parts));
        }
    }
    Ok(outs)
}

impl<'d> Facts<'d> {
    /// Those of a design with these declarations.
    pub(crate) fn of(
        alloc: Global,
        declarations: &'d [Declaration],
        units: &Cursor<'_, Noted>,
    ) -> Result<Facts<'d>, AllocError> {
        let places = Places::of(alloc, declarations)?;
        let outs = outs_of(alloc, declarations, units)?;
        Ok(Facts {
            declarations,
            places,
            outs,
            negation: minus_of(declarations, 1),
            subtraction: minus_of(declarations, 2),
        })
    }

    /// Whether a declaration is a port of mode `out`.
    pub(crate) fn is_out(&self, number: u32) -> bool {
        match self.outs.get(number as usize) {
            Some(out) => *out,
            None => false,
        }
    }

    /// The type of the indexes of an array type.
    pub(crate) fn index_of(&self, mark: Option<u32>) -> Option<u32> {
        match class_of(self.declarations, mark?) {
            Class::ArrayType { index, .. } => Some(index.number()),
            _ => None,
        }
    }

    /// The literal at a position of an enumeration type. The literals stand right behind their type.
    pub(crate) fn literal_at(&self, mark: u32, position: u32) -> Option<u32> {
        let number = mark.checked_add(1)?.checked_add(position)?;
        let is_literal = matches!(
            class_of(self.declarations, number),
            Class::EnumerationLiteral
        );
        match vd_operations::mark_of(self.declarations, number) {
            Some(of) if is_literal && of.number() == mark => Some(number),
            _ => None,
        }
    }
}
