//! What can be said of the elements in brackets before they are resolved.

ghost use Rattle.std.specs.Prelude.{◌≡◌, ◌&&◌, ◌||◌, ℕ, not, map, drop, length, OnOk, IfOk, Some, None};
ghost use Rattle.std.specs.List.{filter, list_all, list_any};
ghost use Rattle.std.specs.Option.{option_copied};
ghost use Rattle.vd_forest.specs.Forest.{skipped};
ghost use Rattle.vd_forms.specs.Forms.{is_among, expressions};
ghost use Rattle.vd_forms.specs.Validity.{forms_of, is_one_expression};
ghost use Rattle.vd_visible.specs.Sights.{sight_from, class_of, mark_of, name_of, parameters_of};
ghost use Rattle.vd_visible.specs.Types.{is_some_type, common_type};
ghost use Rattle.vd_visible.specs.Lists.{only_identifier, simple_name as name_at, choice_names, names_in, only_one, is_name, positional as positional_of, formals, are_given, fits_call, is_others as others, is_association as association, is_unmixed};

use crate::kinds::{Kind, kind_of};
use crate::surroundings::Surroundings;
use std::alloc::{AllocError, Global};
use vd_declarations::DeclId;
use vd_forest::{Cursor, Opened};
use vd_forms::{Form, is_expression};

/// The text of the only tree, where it is an identifier.
fn only_identifier<'a>(trees: &Cursor<'a, Form>) -> Option<&'a [u8]>
    ensures { option_copied result ≡ only_identifier trees.now }
{
    let first = trees.open()?;
    if first.next.open().is_some() {
        return None;
    }
    match kind_of(first.form) {
        Kind::Identifier => Some(first.text),
        _ => None,
    }
}

/// The identifier that is the whole of a name.
pub fn simple_name<'a>(form: Form, parts: &Cursor<'a, Form>) -> Option<&'a [u8]>
    ensures { option_copied result ≡ name_at form parts.now }
{
    match kind_of(form) {
        Kind::Name => only_identifier(parts),
        _ => None,
    }
}

/// The choices of an association.
pub fn choices_of<'a>(association: &Cursor<'a, Form>) -> Cursor<'a, Form>
    ensures { choice_names result ≡ names_in association.now }
{
    association.parts()
}

/// The identifier that is the one choice of an association.
pub fn only_choice<'a>(association: &Cursor<'a, Form>) -> Option<&'a [u8]>
    ensures { option_copied result ≡ only_one (names_in association.now) }
{
    let choices = choices_of(association);
    let first = choices.open()?;
    if first.next.open().is_some() {
        return None;
    }
    simple_name(first.form, &first.parts)
}

/// How many expressions stand at the head.
pub fn positional(trees: &Cursor<'_, Form>) -> Result<u32, AllocError>
    ensures { IfOk result (λ count. count ≡ positional_of trees.now) }
{
    let mut count = 0u32;
    let mut rest = trees.fork();
    while let Some(first) = rest.open() {
        if !is_expression(first.form) {
            return Ok(count);
        }
        let Some(more) = count.checked_add(1) else {
            return Err(AllocError);
        };
        count = more;
        rest = first.next;
    }
    Ok(count)
}

/// How many trees there are.
pub fn tree_count(trees: &Cursor<'_, Form>) -> Result<usize, AllocError>
    ensures { IfOk result (λ count. count ≡ length (forms_of trees.now)) }
{
    let mut count = 0usize;
    let mut rest = trees.fork();
    while let Some(first) = rest.open() {
        let Some(more) = count.checked_add(1) else {
            return Err(AllocError);
        };
        count = more;
        rest = first.next;
    }
    Ok(count)
}

/// Whether one expression stands there and nothing else.
pub fn is_one_expression(trees: &Cursor<'_, Form>) -> bool
    ensures { result ≡ is_one_expression trees.now }
{
    let Some(first) = trees.open() else {
        return false;
    };
    first.next.open().is_none() && is_expression(first.form)
}

/// Whether it stands for all other elements.
pub fn is_others(form: Form) -> bool
    ensures { result ≡ others form }
{
    kind_of(form) == Kind::OthersAssociation
}

/// Whether it has choices and a value.
pub fn is_association(form: Form) -> bool
    ensures { result ≡ association form }
{
    kind_of(form) == Kind::Association
}

/// Whether no tree gives an element by a choice other than `others`.
fn are_positional(trees: &Cursor<'_, Form>) -> bool
    ensures { result ≡ list_all (λ form. is_among expressions form || others form) (forms_of trees.now) }
{
    let mut rest = trees.fork();
    while let Some(first) = rest.open() {
        if !is_expression(first.form) && !is_others(first.form) {
            return false;
        }
        rest = first.next;
    }
    true
}

/// Whether each tree gives elements by choices.
fn are_named(trees: &Cursor<'_, Form>) -> bool
    ensures { result ≡ list_all (λ form. association form || others form) (forms_of trees.now) }
{
    let mut rest = trees.fork();
    while let Some(first) = rest.open() {
        if !is_association(first.form) && !is_others(first.form) {
            return false;
        }
        rest = first.next;
    }
    true
}

/// Whether no position stands beside a choice other than `others`.
pub fn is_unmixed(trees: &Cursor<'_, Form>) -> bool
    ensures { result ≡ is_unmixed (forms_of trees.now) }
{
    are_positional(trees) || are_named(trees)
}

/// Whether `others` stands there.
pub fn has_others(trees: &Cursor<'_, Form>) -> bool
    ensures { result ≡ list_any others (forms_of trees.now) }
{
    let mut rest = trees.fork();
    while let Some(first) = rest.open() {
        if is_others(first.form) {
            return true;
        }
        rest = first.next;
    }
    false
}

/// Whether an identifier is one of the choices that are identifiers.
pub fn is_chosen_among(name: &[u8], choices: &Cursor<'_, Form>) -> bool
    ensures { result ≡ list_any (is_name name.now) (choice_names choices.now) }
{
    let mut rest = choices.fork();
    while let Some(first) = rest.open() {
        if let Some(choice) = simple_name(first.form, &first.parts) {
            if choice == name {
                return true;
            }
        }
        rest = first.next;
    }
    false
}
