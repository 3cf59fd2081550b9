//! Functions and types that are generics.

ghost use Rattle.std.specs.Prelude.{◌≡◌, ◌≤◌, IfOk, OnOk, None, length};
ghost use Rattle.vd_declarations.specs.declared.classes.Class.TheVariants as class;
ghost use Rattle.vd_forest.specs.Store.{Extends};
ghost use Rattle.vd_forms.specs.declared.form.Form.TheVariants as form;
ghost use Rattle.vd_forms.specs.Forms.{form_number};
ghost use Rattle.vd_name_rows.specs.Noting.{with_formal};
ghost use Rattle.vd_name_entering.specs.Made.{IsMade};
ghost use Rattle.vd_name_entering.specs.Ended.{seen_ended};
ghost use Rattle.vd_naming.specs.Endings.{form_at, is_form};
ghost use Rattle.vd_name_rows.specs.Entering.{declaration_of};
ghost use Rattle.vd_naming.specs.Functions.{function_of, generic_function_ends, generic_type_ends};

use crate::headers::function_of;
use std::alloc::{AllocError, Global};
use vd_declarations::{Class, DeclId, Declaration, RegionId, TypeId};
use vd_forest::{Cursor, Store};
use vd_forms::Form;
use vd_name_entering::{Ended, Made, declaration_of, enter, finished, note_formal};
use vd_name_rows::{At, Formal, Names};
use vd_resolved::Resolved;

// The number of a form.
fn number_of(form: Form) -> u16
    ensures { result ≡ form_number form }
{
    form as u16
}

/// Whether the part of a number is missing.
fn is_missing(parts: &Cursor<'_, Form>, number: u32) -> bool
    ensures { result ≡ is_form (form_at number parts.now) form.Absent }
{
    let word = parts.skip(number).form().unwrap_or(Form::Absent);
    number_of(word) == number_of(Form::Absent)
}

/// A generic, which an instance may have to give an actual.
fn note_generic(names: &mut Names, id: DeclId, is_needed: bool) -> Result<(), AllocError>
    ensures { OnOk result (names.new ≡ with_formal id (record { mode = form.In; is_needed = is_needed }) names.old) }
{
    note_formal(
        names,
        id,
        Formal {
            mode: Form::In,
            is_needed,
        },
    )
}

/// The function that is a generic with the name that was read last, and the type at hand.
fn generic_read(
    alloc: Global,
    names: &Names,
    at: &At<'_>,
    region: RegionId,
) -> Result<Declaration, AllocError>
    ensures { IfOk result (λ made. made
        ≡ function_of class.GenericFunction (record { name = at.now.word; place = at.now.word_place }) at.now.mark region names.now) }
{
    let name = at.word.name(alloc)?;
    let class = Class::GenericFunction;
    function_of(
        alloc,
        names,
        class,
        name.as_slice(),
        at.word_place,
        at.mark,
        region,
    )
}

/// The type that is a generic with the name that was read last.
fn type_read(alloc: Global, at: &At<'_>) -> Result<Declaration, AllocError>
    ensures { IfOk result (λ made. made ≡ declaration_of class.GenericType (record { name = at.now.word; place = at.now.word_place }) None) }
{
    let name = at.word.name(alloc)?;
    let class = Class::GenericType;
    let declared = declaration_of(alloc, class, name.as_slice(), at.word_place, None)?;
    Ok(declared)
}

/// A function that is a generic is declared at its end.
pub fn generic_function_ends(
    alloc: Global,
    names: &mut Names,
    ended: &Ended<'_, '_>,
    out: &mut Store<Resolved>,
) -> Result<Made, AllocError>
    requires { ended.now.inner.now.tree ≤ length out.old }
    ensures is { IfOk result (λ made. IsMade out.new names.new made (generic_function_ends (seen_ended out.old names.old ended.now))) }
    ensures extends { Extends out.old out.new }
{
    let id = DeclId::of(names.next_number()?);
    let inner = ended.inner;
    let inside = ended.inside;
    let outer = ended.outer;
    let declared = generic_read(alloc, names, &inner.at, inside.region)?;
    let first = enter(names, outer.region, declared)?;
    note_generic(names, id, is_missing(&ended.node.parts, 4))?;
    let made = finished(ended, Some(id), None, ended.inner.tree, first, out)?;
    Ok(made)
}

/// A type that is a generic is declared at its end, with its operators.
pub fn generic_type_ends(
    alloc: Global,
    names: &mut Names,
    ended: &Ended<'_, '_>,
    out: &mut Store<Resolved>,
) -> Result<Made, AllocError>
    requires { ended.now.inner.now.tree ≤ length out.old }
    ensures is { IfOk result (λ made. IsMade out.new names.new made (generic_type_ends (seen_ended out.old names.old ended.now))) }
    ensures extends { Extends out.old out.new }
{
    let number = names.next_number()?;
    let inner = ended.inner;
    let outer = ended.outer;
    let declared = type_read(alloc, &inner.at)?;
    let first = enter(names, outer.region, declared)?;
    names.bring_operators(outer.region, TypeId::of(number), Class::GenericType)?;
    note_generic(names, DeclId::of(number), true)?;
    let id = DeclId::of(number);
    let made = finished(ended, Some(id), None, ended.inner.tree, first, out)?;
    Ok(made)
}
