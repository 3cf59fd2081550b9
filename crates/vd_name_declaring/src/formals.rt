//! Ports and generics, as their instances see them. (IEEE 1076, interface object declarations)

ghost use Rattle.std.specs.Prelude.{◌≡◌, OnOk};
ghost use Rattle.vd_name_rows.specs.Entering.{words_of};
ghost use Rattle.vd_naming.specs.Endings.{form_at as form_of_part, mode_of as mode_by, needs_value as is_value_needed, formal_of as formal_by, with_formals, with_formals_of};

use crate::numbers::number_behind;
use std::alloc::AllocError;
use vd_declarations::{Class, DeclId};
use vd_forest::Cursor;
use vd_forms::Form;
use vd_name_entering::note_formal;
use vd_name_rows::{Formal, Names};

/// The form of the part of a number. That of a part that isn't there is that of one that is left out.
fn form_at(number: u32, parts: &Cursor<'_, Form>) -> Form
    ensures { result ≡ form_of_part number parts.now }
{
    match parts.skip(number).form() {
        Some(form) => form,
        None => Form::Absent,
    }
}

/// The mode of a port or generic without a view that has this word for it.
fn mode_written(word: Form) -> Form
    ensures { result ≡ mode_by Form.In word }
{
    match word {
        Form::Absent => Form::In,
        _ => word,
    }
}

/// The mode of a port or generic of a form with this word for its mode.
fn mode_of(form: Form, word: Form) -> Form
    ensures { result ≡ mode_by form word }
{
    match form {
        Form::ViewPort => Form::ViewMode,
        _ => mode_written(word),
    }
}

/// Whether an instance has to give it a value.
fn needs_value(mode: Form, default: Form) -> bool
    ensures { result ≡ is_value_needed mode default }
{
    match mode {
        Form::ViewMode => true,
        Form::In => matches!(default, Form::Absent),
        _ => false,
    }
}

/// What the names of a declaration are as ports or generics.
fn formal_of(form: Form, parts: &Cursor<'_, Form>) -> Formal
    ensures { result ≡ formal_by form parts.now }
{
    let mode = mode_of(form, form_at(2, parts));
    Formal {
        mode,
        is_needed: needs_value(mode, form_at(4, parts)),
    }
}

/// Notes what ports or generics are: as many declarations as there are names, from a number on.
fn note_formals(
    names: &mut Names,
    formal: Formal,
    number: u32,
    list: &Cursor<'_, Form>,
) -> Result<(), AllocError>
    ensures { OnOk result (names.new ≡ with_formals formal number (words_of list.now) names.old) }
{
    let mut next = number;
    let mut left = list.fork();
    while let Some(name) = left.open() {
        note_formal(names, DeclId::of(next), formal)?;
        next = number_behind(next)?;
        left = name.next;
    }
    Ok(())
}

/// Notes what the names of a list are, where they are ports or generic constants.
pub(crate) fn note_formals_of(
    names: &mut Names,
    class: &Class,
    form: Form,
    parts: &Cursor<'_, Form>,
    number: u32,
    list: &Cursor<'_, Form>,
) -> Result<(), AllocError>
    ensures { OnOk result (names.new ≡ with_formals_of class.now form parts.now number (words_of list.now) names.old) }
{
    match class {
        Class::Port | Class::GenericConstant => {
            note_formals(names, formal_of(form, parts), number, list)
        }
        _ => Ok(()),
    }
}
