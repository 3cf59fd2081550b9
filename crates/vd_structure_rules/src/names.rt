//! Names that no declaration may have.

ghost use Rattle.std.specs.Prelude.{◌≡◌};
ghost use Rattle.vd_structure_rules.specs.Names.{is_support as is_support_name, is_library as is_library_name, is_kept_free as is_free_name, name_part as part_of_name, kept_free_name as is_kept_free_at, first_identifier as first_is_kept_free, declared_name as is_declared_name, declared_name_at as first_declares, declared_name_in as part_declares, only_2019 as in_2019};

use crate::around::Naming;
use crate::functions::is_2019;
use crate::statements::refused_if;
use vd_bytes::{Place, Refused};
use vd_forest::Cursor;
use vd_forms::Form;
use vd_resolved::Resolved;
use vd_trees::Revision;

fn is_support(name: &[u8]) -> bool
    ensures { result ≡ is_support_name name.now }
{
    name == b"vdown_support".as_slice()
}

fn is_library(name: &[u8]) -> bool
    ensures { result ≡ is_library_name name.now }
{
    name == b"work".as_slice() || (name == b"std".as_slice() || name == b"ieee".as_slice())
}

/// Whether nothing may be declared by a name.
fn is_kept_free(naming: Naming, name: &[u8]) -> bool
    ensures { result ≡ is_free_name naming name.now }
{
    match naming {
        Naming::Declared => is_support(name) || is_library(name),
        Naming::Element => is_support(name),
        _ => false,
    }
}

/// The part that has the name which a node declares.
fn name_part(form: Form) -> Option<u32>
    ensures { result ≡ part_of_name form }
{
    match form {
        Form::EntityDeclaration
        | Form::ArchitectureBody
        | Form::PackageDeclaration
        | Form::PackageInstantiation
        | Form::ContextDeclaration
        | Form::TypeDeclaration
        | Form::SubtypeDeclaration
        | Form::ViewDeclaration
        | Form::GenericType
        | Form::LabelledStatement
        | Form::LabelledConcurrent
        | Form::ForLoop
        | Form::ForGenerate => Some(0),
        Form::FunctionDeclaration
        | Form::FunctionBody
        | Form::FunctionInstantiation
        | Form::GenericFunction => Some(1),
        _ => None,
    }
}

/// The refusal of an identifier that declares a name.
pub fn kept_free_name(naming: Naming, form: Form, text: &[u8], place: Place) -> Option<Refused>
    ensures { result ≡ is_kept_free_at naming form text.now place }
{
    match form {
        Form::Identifier => refused_if(is_kept_free(naming, text), place, 412),
        _ => None,
    }
}

/// The refusal of the first identifier of a selected name.
fn first_identifier(trees: &Cursor<'_, Resolved>) -> Option<Refused>
    ensures { result ≡ first_is_kept_free trees.now }
{
    match trees.open() {
        None => None,
        Some(first) => {
            kept_free_name(Naming::Declared, first.form.form, first.text, first.place)
        }
    }
}

/// The refusal of a name that is declared. That of a context declaration is a selected name.
fn declared_name(
    form: Form,
    text: &[u8],
    place: Place,
    parts: &Cursor<'_, Resolved>,
) -> Option<Refused>
    ensures { result ≡ is_declared_name form text.now place parts.now }
{
    match form {
        Form::SelectedName => first_identifier(parts),
        _ => kept_free_name(Naming::Declared, form, text, place),
    }
}

/// The refusal of the first tree, which declares a name.
fn declared_name_at(trees: &Cursor<'_, Resolved>) -> Option<Refused>
    ensures { result ≡ first_declares trees.now }
{
    match trees.open() {
        None => None,
        Some(first) => declared_name(first.form.form, first.text, first.place, &first.parts),
    }
}

/// The refusal of the name that a node declares.
pub fn declared_name_in(form: Form, parts: &Cursor<'_, Resolved>) -> Option<Refused>
    ensures { result ≡ part_declares (part_of_name form) parts.now }
{
    match name_part(form) {
        None => None,
        Some(number) => declared_name_at(&parts.skip(number)),
    }
}

/// A refusal of revision 2019 alone.
pub fn only_2019(revision: Revision, refused: Option<Refused>) -> Option<Refused>
    ensures { result ≡ in_2019 revision refused }
{
    if is_2019(revision) { refused } else { None }
}
