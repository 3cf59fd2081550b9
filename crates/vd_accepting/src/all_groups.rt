//! What a resolved design breaks of the rules that need types, values, modes and static names.

ghost use Rattle.std.specs.Prelude.{◌≡◌, IfOk};
ghost use Rattle.vd_value_rules.specs.Groups.{firsts_of};
ghost use Rattle.vd_value_rules.specs.Rules.{broken_in};

use crate::value_refusals;
use std::alloc::{AllocError, Global};
use vd_body_rules::body_refusals;
use vd_function_names::foreign_refusals;
use vd_name_rules::{assignment_refusals, name_refusals, operator_refusals, view_port_refusals};
use vd_resolved::Tree;
use vd_trees::Revision;
use vd_value_rules::{Firsts, together};

/// The first refusals of all groups of rules.
pub fn first_of_groups(alloc: Global, revision: Revision, tree: &Tree) -> Result<Firsts, AllocError>
    ensures { IfOk result (λ found. found ≡ firsts_of (broken_in revision tree.now)) }
{
    let names = name_refusals(alloc, revision, tree)?;
    let foreign = foreign_refusals(alloc, revision, tree)?;
    let assignments = assignment_refusals(alloc, tree, revision)?;
    let values = value_refusals(alloc, revision, tree)?;
    let bodies = body_refusals(alloc, revision, tree)?;
    let ports = view_port_refusals(alloc, revision, tree)?;
    let operators = operator_refusals(alloc, revision, tree)?;
    let last = together(ports, operators);
    let with_bodies = together(bodies, last);
    let with_values = together(values, with_bodies);
    let with_assignments = together(assignments, with_values);
    let with_foreign = together(foreign, with_assignments);
    Ok(together(names, with_foreign))
}
