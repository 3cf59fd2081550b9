//! What is looked up in the list of declarations.

ghost use Rattle.std.specs.Prelude.{◌≡◌, slice_index_or};
ghost use Rattle.vd_meaning.specs.Tables.{given_count as count_of_given, is_predefined as predefined, no_declaration, table};

use vd_declarations::{Class, DeclId, Declaration, TypeId};
use vd_trees::Revision;

/// The class of a declaration. Where there is none, it is that of a label.
pub fn class_of(declarations: &[Declaration], number: u32) -> Class
    ensures { result ≡ (slice_index_or declarations.now number no_declaration).class }
{
    match declarations.get(number as usize) {
        Some(declaration) => declaration.class,
        None => Class::Label,
    }
}

/// The type of a declaration.
pub fn mark_of(declarations: &[Declaration], number: u32) -> Option<TypeId>
    ensures { result ≡ (slice_index_or declarations.now number no_declaration).mark }
{
    match declarations.get(number as usize) {
        Some(declaration) => declaration.mark,
        None => None,
    }
}

/// The name of a declaration.
pub fn name_of<'a>(declarations: &'a [Declaration], number: u32) -> &'a [u8]
    ensures { result.now ≡ (slice_index_or declarations.now number no_declaration).name }
{
    match declarations.get(number as usize) {
        Some(declaration) => declaration.name.as_slice(),
        None => &[],
    }
}

/// The parameters of a declaration.
pub fn parameters_of<'a>(declarations: &'a [Declaration], number: u32) -> &'a [DeclId]
    ensures { result.now ≡ (slice_index_or declarations.now number no_declaration).parameters }
{
    match declarations.get(number as usize) {
        Some(declaration) => declaration.parameters.as_slice(),
        None => &[],
    }
}

/// How many declarations are given.
pub fn given_count(revision: Revision) -> u32
    ensures { result ≡ count_of_given revision }
{
    match revision {
        Revision::V2019 => 463,
        Revision::V1993 => 387,
    }
}

/// Whether a declaration has its meaning from the language.
pub fn is_predefined(revision: Revision, declarations: &[Declaration], number: u32) -> bool
    ensures { result ≡ predefined (table revision declarations.now) number }
{
    number < given_count(revision)
        || matches!(class_of(declarations, number), Class::PredefinedOperator)
}

/// A function that is a generic is its actual in an instance.
pub fn followed(declarations: &[Declaration], number: u32) -> u32
    ensures { (revision : Revision) → result ≡ Rattle.vd_meaning.specs.Tables.followed (table revision declarations.now) number }
{
    match class_of(declarations, number) {
        Class::ActualFunction { actual } => actual.number(),
        _ => number,
    }
}
