//! Names that a function may not use.

ghost use Rattle.std.specs.Prelude.{◌≡◌, ◌&&◌, ◌||◌, not};
ghost use Rattle.vd_meaning.specs.Elaborations.{Units};
ghost use Rattle.vd_operations.specs.Roles.{read_role};
ghost use Rattle.vd_function_names.specs.Functions.{among};
ghost use Rattle.vd_walks.specs.Least.{least_of};
ghost use Rattle.vd_meaning.specs.Tables.{role_of as role_in, table};
ghost use Rattle.vd_value_rules.specs.Groups.{name_in_function as refused_in_function};
ghost use Rattle.vd_trees.specs.declared.revision.Revision.{Revision};
ghost use Rattle.vd_value_rules.specs.Names.{broken_in_function as broken_inside, is_outer_variable};
ghost use Rattle.vd_value_rules.specs.Reaching.{is_signal_role, is_variable_role, reached};

use crate::locals::Locals;
use crate::reaching::declaration_reached;
use vd_bytes::{Place, Refused};
use vd_declarations::{DeclId, Declaration};
use vd_forest::{Cursor, Opened};
use vd_forms::Form;
use vd_operations::{Role, role_of};
use vd_resolved::Resolved;
use vd_value_rules::refused_if;

/// Whether a function may not name what has a role, where it declares it itself or not.
fn is_foreign_role(role: Role, is_local: bool) -> bool
    ensures { result ≡ (is_signal_role (read_role role) || (is_variable_role (read_role role) && not is_local)) }
{
    match role {
        Role::Signal => true,
        Role::Variable => !is_local,
        _ => false,
    }
}

/// Whether a function with these variables may not name a declaration.
fn is_foreign(declarations: &[Declaration], locals: &Locals, number: Option<DeclId>) -> bool
    ensures { (revision : Revision) (units : Units) → result
        ≡ (is_signal_role (role_in (table revision declarations.now) number)
        || is_outer_variable locals.now (record { revision = revision; table = table revision declarations.now; units = units }) number) }
{
    match number {
        None => false,
        Some(id) => {
            let is_local = locals.has(id);
            is_foreign_role(role_of(declarations, number), is_local)
        }
    }
}

/// The refusal of a name with these pieces, inside a function with these variables or outside of all.
fn broken_in_function(
    declarations: &[Declaration],
    locals: &Option<Locals>,
    place: Place,
    pieces: &Cursor<'_, Resolved>,
) -> Option<Refused>
    ensures { (revision : Revision) (units : Units) → result
        ≡ least_of (broken_inside locals.now (record { revision = revision; table = table revision declarations.now; units = units }) place
        (reached (record { revision = revision; table = table revision declarations.now; units = units }) pieces.now)) }
{
    match locals {
        None => None,
        Some(own) => {
            let number = declaration_reached(declarations, pieces);
            refused_if(is_foreign(declarations, own, number), place, 409)
        }
    }
}

/// The refusal of a node, inside a function with these variables or outside of all.
pub fn name_in_function(
    declarations: &[Declaration],
    locals: &Option<Locals>,
    node: &Opened<'_, Resolved>,
) -> Option<Refused>
    ensures { (revision : Revision) (units : Units) → result
        ≡ least_of (refused_in_function node.now.form.form (record { revision = revision; table = table revision declarations.now; units = units })
        (among locals.now) node.now.place node.now.parts) }
{
    match node.form.form {
        Form::Name => broken_in_function(declarations, locals, node.place, &node.parts),
        _ => None,
    }
}
