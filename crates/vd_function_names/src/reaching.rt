//! The declaration that a name names, before an attribute or a call makes something else of it.

ghost use Rattle.std.specs.Prelude.{◌≡◌};
ghost use Rattle.vd_meaning.specs.Elaborations.{Units};
ghost use Rattle.vd_operations.specs.Roles.{read_role};
ghost use Rattle.vd_function_names.specs.Steps.{step_of as step_by};
ghost use Rattle.vd_meaning.specs.Tables.{role_of as role_in, table};
ghost use Rattle.vd_trees.specs.declared.revision.Revision.{Revision};
ghost use Rattle.vd_value_rules.specs.Reaching.{reached};

use vd_declarations::{DeclId, Declaration};
use vd_forest::{Cursor, Opened};
use vd_forms::Form;
use vd_operations::{Role, role_of};
use vd_resolved::Resolved;

/// What a piece does to what is named in front of it.
#[derive(Clone, Copy)]
pub enum Step {
    /// It is still the same object, or a part of it.
    Stays,
    /// Another declaration is selected.
    Selects,
    /// The rest of the name is no object any more.
    Ends,
}

/// What a piece of the form does.
fn step_by_form(form: Form, role: Role) -> Step
    ensures { result ≡ step_by form (read_role role) }
{
    match form {
        Form::Selection => match role {
            Role::Element => Step::Stays,
            _ => Step::Selects,
        },
        Form::Arguments => match role {
            Role::Function | Role::Mark => Step::Ends,
            _ => Step::Stays,
        },
        Form::Attribute | Form::RangeAttribute | Form::Qualification => Step::Ends,
        _ => Step::Stays,
    }
}

/// What a piece does.
fn step_of(declarations: &[Declaration], piece: &Resolved) -> Step
    ensures { (revision : Revision) → result ≡ step_by piece.now.form (role_in (table revision declarations.now) piece.now.declaration) }
{
    step_by_form(piece.form, role_of(declarations, piece.declaration))
}

/// The declaration that a name with these pieces names.
pub fn declaration_reached(
    declarations: &[Declaration],
    pieces: &Cursor<'_, Resolved>,
) -> Option<DeclId>
    ensures { (revision : Revision) (units : Units)
        → result ≡ (reached (record { revision = revision; table = table revision declarations.now; units = units }) pieces.now).declaration }
{
    let first = pieces.open()?;
    let mut number = first.form.declaration;
    let mut rest = first.next;
    while let Some(piece) = rest.open() {
        let node = piece.form;
        rest = piece.next;
        match step_of(declarations, &node) {
            Step::Stays => {}
            Step::Selects => number = node.declaration,
            Step::Ends => return number,
        }
    }
    number
}
