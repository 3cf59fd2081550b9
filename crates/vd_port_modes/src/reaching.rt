//! What names name: an object and the fields that are selected in it, before an attribute or a call makes something else of it.

ghost use Rattle.std.specs.Prelude.{◌≡◌, IfOk, codes, if◌then◌else◌};
ghost use Rattle.vd_operations.specs.Roles.{read_role};
ghost use Rattle.vd_meaning.specs.Tables.{role_of as role_named};
ghost use Rattle.vd_port_modes.specs.Readings.{attribute_behind, field_behind, read_reached, value_of_reached};
ghost use Rattle.vd_port_modes.specs.Source.{design_in};
ghost use Rattle.vd_value_rules.specs.Reaching.{bracketed_in, first_reached as first_is_reached, is_over as is_reached_over, name_of_element, nothing_reached as reached_nothing, reached as is_reached, selected_in, with_piece as reached_with_piece};

use crate::interfaces::Interfaces;
use std::alloc::{AllocError, Global};
use vd_declarations::DeclId;
use vd_forest::{Cursor, Opened};
use vd_forms::Form;
use vd_operations::Role;
use vd_operations::tables::name_of;
use vd_resolved::Resolved;

/// What a name names.
#[derive(Drop)]
pub struct Reached<'a> {
    pub declaration: Option<DeclId>,
    /// The names of the record elements that are selected, in order.
    pub fields: Vec<&'a [u8]>,
    /// The first attribute behind it.
    pub attribute: Option<&'a [u8]>,
    /// Whether it is a call, a conversion or a qualified expression.
    pub is_value: bool,
}

fn nothing_reached<'a>(alloc: Global) -> Reached<'a>
    ensures { read_reached result ≡ reached_nothing }
{
    Reached {
        declaration: None,
        fields: Vec::new(alloc),
        attribute: None,
        is_value: true,
    }
}

fn first_reached<'a>(alloc: Global, node: &Resolved) -> Reached<'a>
    ensures { read_reached result ≡ first_is_reached node.now }
{
    Reached {
        declaration: node.declaration,
        fields: Vec::new(alloc),
        attribute: None,
        is_value: false,
    }
}

/// The name under which a record element is declared.
fn name_declared<'a>(interfaces: &Interfaces<'a>, number: Option<DeclId>) -> &'a [u8]
    ensures { result.now ≡ name_of_element (design_in interfaces.now) number }
{
    match number {
        None => &[],
        Some(number) => name_of(interfaces.declarations(), number.number()),
    }
}

/// With one more field.
fn with_field<'a>(reached: Reached<'a>, name: &'a [u8]) -> Result<Reached<'a>, AllocError>
    ensures { IfOk result (λ r. read_reached r ≡ field_behind (read_reached reached.entry) name.now) }
{
    let mut fields = reached.fields;
    fields.push(name)?;
    Ok(Reached {
        declaration: reached.declaration,
        fields,
        attribute: reached.attribute,
        is_value: reached.is_value,
    })
}

/// Behind a point stands a record element, or what a unit declares.
fn selected<'a>(
    alloc: Global,
    interfaces: &Interfaces<'a>,
    node: &Resolved,
    reached: Reached<'a>,
) -> Result<Reached<'a>, AllocError>
    ensures { IfOk result (λ r. read_reached r
        ≡ selected_in (role_named (design_in interfaces.now).table node.now.declaration) (design_in interfaces.now) node.now (read_reached reached.entry)) }
{
    match interfaces.role_of(node.declaration) {
        Role::Element => with_field(reached, name_declared(interfaces, node.declaration)),
        _ => Ok(first_reached(alloc, node)),
    }
}

/// Another value.
fn as_value(reached: Reached<'_>) -> Reached<'_>
    ensures { read_reached result ≡ value_of_reached (read_reached reached.entry) }
{
    Reached {
        declaration: reached.declaration,
        fields: reached.fields,
        attribute: reached.attribute,
        is_value: true,
    }
}

/// Brackets hold arguments of a call or the operand of a conversion, or else an index.
fn bracketed<'a>(
    interfaces: &Interfaces<'_>,
    number: Option<DeclId>,
    reached: Reached<'a>,
) -> Reached<'a>
    ensures { read_reached result ≡ bracketed_in (role_named (design_in interfaces.now).table number) (read_reached reached.entry) }
{
    match interfaces.role_of(number) {
        Role::Function | Role::Mark => as_value(reached),
        _ => reached,
    }
}

fn with_attribute<'a>(reached: Reached<'a>, attribute: &'a [u8]) -> Reached<'a>
    ensures { read_reached result ≡ attribute_behind (read_reached reached.entry) attribute.now }
{
    Reached {
        declaration: reached.declaration,
        fields: reached.fields,
        attribute: Some(attribute),
        is_value: reached.is_value,
    }
}

/// With the next piece of the name.
fn with_piece<'a>(
    alloc: Global,
    interfaces: &Interfaces<'a>,
    piece: &Opened<'a, Resolved>,
    reached: Reached<'a>,
) -> Result<Reached<'a>, AllocError>
    ensures { IfOk result (λ r. read_reached r
        ≡ reached_with_piece piece.now.form.form (design_in interfaces.now) piece.now.form piece.now.parts (read_reached reached.entry)) }
{
    match piece.form.form {
        Form::Selection => selected(alloc, interfaces, &piece.form, reached),
        Form::Arguments => Ok(bracketed(interfaces, piece.form.declaration, reached)),
        Form::Attribute => Ok(with_attribute(reached, piece.parts.text())),
        Form::RangeAttribute => Ok(with_attribute(reached, b"range".as_slice())),
        Form::Qualification => Ok(as_value(reached)),
        _ => Ok(reached),
    }
}

/// Whether no object is named any more.
pub fn is_over(reached: &Reached<'_>) -> bool
    ensures { result ≡ is_reached_over (read_reached reached.now) }
{
    reached.is_value || reached.attribute.is_some()
}

/// With the next piece, where it still counts.
fn behind<'a>(
    alloc: Global,
    interfaces: &Interfaces<'a>,
    piece: &Opened<'a, Resolved>,
    reached: Reached<'a>,
) -> Result<Reached<'a>, AllocError>
    ensures { IfOk result (λ r. read_reached r
        ≡ (if is_reached_over (read_reached reached.entry) then read_reached reached.entry
        else reached_with_piece piece.now.form.form (design_in interfaces.now) piece.now.form piece.now.parts (read_reached reached.entry))) }
{
    if is_over(&reached) {
        Ok(reached)
    } else {
        with_piece(alloc, interfaces, piece, reached)
    }
}

/// What a name with these parts names.
pub fn reached_by<'a>(
    alloc: Global,
    interfaces: &Interfaces<'a>,
    parts: &Cursor<'a, Resolved>,
) -> Result<Reached<'a>, AllocError>
    ensures { IfOk result (λ r. read_reached r ≡ is_reached (design_in interfaces.now) parts.now) }
{
    let Some(first) = parts.open() else {
        return Ok(nothing_reached(alloc));
    };
    let mut found = first_reached(alloc, &first.form);
    let mut rest = first.next;
    while let Some(piece) = rest.open() {
        found = behind(alloc, interfaces, &piece, found)?;
        rest = piece.next;
    }
    Ok(found)
}
