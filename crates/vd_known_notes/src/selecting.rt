//! How statements with choices are written. (IEEE 1076, case statement; selected signal assignment; in revision 1993 the selector of an array type is a
//! name, a call or a qualified expression)

ghost use Rattle.std.specs.Prelude.{◌≡◌, ◌∷◌, List};
ghost use Rattle.vd_known_designs.specs.Designs.{IsReady, Knows};
ghost use Rattle.vd_value_rules.specs.Designs.{Design};
ghost use Rattle.vd_value_rules.specs.Knowledge.{Known};

use crate::variables::{Bounded, bounds_of_type};
use std::alloc::{AllocError, Global};
use vd_declarations::{Class, Declaration, TypeId};
use vd_forest::{Cursor, Opened};
use vd_forms::Form;
use vd_known_designs::KnownDesign;
use vd_known_lengths::{Shape, shape_of};
use vd_notes::{CaseForm, Note};
use vd_operations::tables::class_of;
use vd_operations::{Role, is_present, role_of};
use vd_predefined::numbers::STD_ULOGIC;
use vd_resolved::Resolved;

/// A statement with choices: its selector, and whether it has the word `?`.
#[derive(Drop)]
pub(crate) struct Selected<'a> {
    selector: Cursor<'a, Resolved>,
    is_matching: bool,
}

/// The statement with choices that a node is. A `case` generate is none.
pub(crate) fn statement_of<'a>(node: &Opened<'a, Resolved>) -> Option<Selected<'a>> {
    let (selector, word) = match node.form.form {
        Form::CaseStatement => (1, 0),
        Form::SelectedSignalAssignment | Form::SelectedVariableAssignment => (0, 1),
        _ => return None,
    };
    Some(Selected {
        selector: node.parts.skip(selector),
        is_matching: is_present(&node.parts.skip(word)),
    })
}

/// The type of the first tree.
fn type_of(trees: &Cursor<'_, Resolved>) -> Option<TypeId> {
    match trees.form() {
        Some(form) => form.mark,
        None => None,
    }
}

/// Whether a type is STD_ULOGIC or of arrays of it.
fn is_logic(declarations: &[Declaration], of: &Option<TypeId>) -> bool {
    let Some(of) = of else {
        return false;
    };
    match class_of(declarations, of.number()) {
        Class::ArrayType { element, .. } => element.number() == STD_ULOGIC,
        _ => of.number() == STD_ULOGIC,
    }
}

/// Whether the last piece of a name makes it that of an object or of a part of one: it is no call, no conversion, and no qualified expression.
fn ends_in_object(declarations: &[Declaration], piece: &Resolved) -> bool {
    match piece.form {
        Form::Identifier | Form::Selection => matches!(
            role_of(declarations, piece.declaration),
            Role::Constant | Role::Variable | Role::Signal | Role::Element
        ),
        Form::Arguments => piece.declaration.is_none(),
        _ => false,
    }
}

/// The last of some pieces.
fn last_of(pieces: &Cursor<'_, Resolved>) -> Option<Resolved> {
    let mut last = None;
    let mut rest = pieces.fork();
    while let Some(piece) = rest.open() {
        last = Some(piece.form);
        rest = piece.next;
    }
    last
}

/// Whether a selector is the name of an object or of a part of one.
fn is_name(declarations: &[Declaration], selector: &Cursor<'_, Resolved>) -> bool {
    let Some(first) = selector.open() else {
        return false;
    };
    if !matches!(first.form.form, Form::Name | Form::OperatorName) {
        return false;
    }
    match last_of(&first.parts) {
        Some(last) => ends_in_object(declarations, &last),
        None => false,
    }
}

/// A note without a variable.
fn alone(form: CaseForm) -> Note {
    Note::Selecting {
        form,
        variable: 0,
        left: 0,
        right: 0,
        down: false,
    }
}

/// A note with the bounds of a variable, whose number isn't known yet.
fn with_bounds(form: CaseForm, bounds: Bounded) -> Note {
    Note::Selecting {
        form,
        variable: 0,
        left: bounds.left,
        right: bounds.right,
        down: bounds.down,
    }
}

/// The bounds of the variable of a matching selector: from 1, and where there are too many elements for that from 0.
fn matching_bounds(length: Option<u128>) -> Bounded {
    let (left, right) = match length {
        None => (1, 0),
        Some(length) => match i32::try_from(length) {
            Ok(right) => (1, right),
            Err(_) => (0, i32::MAX),
        },
    };
    Bounded {
        left,
        right,
        down: false,
    }
}

/// The note of a statement whose selector, of an array type, is no name.
fn array_note(design: &KnownDesign<'_, '_>, of: Option<TypeId>, length: Option<u128>) -> Note
    requires ready { IsReady design.now }
{
    match bounds_of_type(design, of, length) {
        Some(bounds) => with_bounds(CaseForm::Variable, bounds),
        None => alone(CaseForm::Compare),
    }
}

/// The note of a statement whose selector has this shape.
fn noted(design: &KnownDesign<'_, '_>, statement: &Selected<'_>, shape: Shape) -> Note
    requires ready { IsReady design.now }
{
    let selector = &statement.selector;
    let of = type_of(selector);
    if statement.is_matching && is_logic(design.declarations, &of) {
        return with_bounds(CaseForm::Match, matching_bounds(shape.length));
    }
    if !shape.is_array || is_name(design.declarations, selector) {
        return alone(CaseForm::Plain);
    }
    array_note(design, of, shape.length)
}

/// The note of a statement with choices.
pub(crate) fn selecting_note(
    design: &mut KnownDesign<'_, '_>,
    alloc: Global,
    statement: &Selected<'_>,
) -> Result<Note, AllocError>
    requires ready { IsReady design.old }
    ensures knows { (d : Design) (ks : List Known) → Knows d design.old ks → Knows d design.new ks }
{
    let shape = shape_of(design, alloc, &statement.selector)?;
    Ok(noted(design, statement, shape))
}
