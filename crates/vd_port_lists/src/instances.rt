//! The instances of packages in a design.

ghost use Rattle.std.specs.Prelude.{◌≡◌, IfOk, List, ℕ};
ghost use Rattle.vd_meaning.specs.Elaborations.{units_of, views_of_instances};
ghost use Rattle.vd_meaning.specs.NodeFacets.{View};
ghost use Rattle.vd_forest.specs.Forest.{Forest};
ghost use Rattle.vd_meaning.specs.Tables.{Table, table};
ghost use Rattle.vd_port_lists.specs.Listed.{views_of_listed};
ghost use Rattle.vd_port_lists.specs.Seeking.{inside_for_instances as instances_looked_for, inside_package as package_inside, instance_at as instance_answered, instance_by as instance_of_form, instance_seeker};

use crate::entries::ListedInstance;
use crate::seeking::{Seeking, Sought, all_trees, for_next, is_here, nothing_sought};
use std::alloc::{AllocError, Global};
use vd_declarations::{DeclId, Declaration};
use vd_forest::{Cursor, Opened};
use vd_forms::Form;
use vd_operations::{declaration_of, number_made};
use vd_resolved::{Resolved, Tree};
use vd_trees::Revision;
use vd_walks::{Finding, find_all};

/// The instance that a node is.
fn instance_by(node: &Resolved, parts: &Cursor<'_, Resolved>) -> Option<ListedInstance>
    ensures { (t : Table) → result ≡ instance_of_form node.now.form t node.now parts.now }
{
    match node.form {
        Form::PackageInstantiation => Some(ListedInstance {
            generic: declaration_of(&parts.skip(1)).unwrap_or(DeclId::of(0)),
            instance: number_made(node, parts),
        }),
        _ => None,
    }
}

fn instance_at(
    sought: Sought,
    node: &Resolved,
    parts: &Cursor<'_, Resolved>,
) -> Option<ListedInstance>
    ensures { (t : Table) (text : List ℕ) → result ≡ instance_answered t sought node.now text parts.now }
{
    match sought {
        Sought::PackageInstances => instance_by(node, parts),
        _ => None,
    }
}

/// No instance is a unit inside another unit.
fn inside_package(form: Form) -> Seeking
    ensures { result ≡ package_inside form }
{
    match form {
        Form::EntityDeclaration
        | Form::ArchitectureBody
        | Form::PackageDeclaration
        | Form::PackageBody
        | Form::PackageInstantiation => nothing_sought(),
        _ => all_trees(Sought::PackageInstances),
    }
}

/// What is looked for inside a node.
fn inside_for_instances(sought: Sought, form: Form) -> Seeking
    ensures { (parts : Forest Resolved) → result ≡ instances_looked_for sought form parts }
{
    match sought {
        Sought::PackageInstances => inside_package(form),
        _ => nothing_sought(),
    }
}

/// The instances, by the declarations of a design.
#[derive(Clone, Copy)]
struct InstanceSeeker<'d> {
    revision: Revision,
    declarations: &'d [Declaration],
}

impl<'d> Finding<Resolved, Seeking, ListedInstance> for InstanceSeeker<'d> {
    ghost finder = { λ by. instance_seeker (table by.revision by.declarations.now) };

    fn answer(
        &self,
        _alloc: Global,
        state: &Seeking,
        node: &Opened<'_, Resolved>,
    ) -> Result<Option<ListedInstance>, AllocError> {
        if is_here(state.trees) {
            Ok(instance_at(state.sought, &node.form, &node.parts))
        } else {
            Ok(None)
        }
    }

    fn down(
        &self,
        _alloc: Global,
        state: &Seeking,
        node: &Opened<'_, Resolved>,
    ) -> Result<Seeking, AllocError> {
        if is_here(state.trees) {
            Ok(inside_for_instances(state.sought, node.form.form))
        } else {
            Ok(nothing_sought())
        }
    }

    fn along(
        &self,
        _alloc: Global,
        state: &Seeking,
        _node: &Opened<'_, Resolved>,
    ) -> Result<Seeking, AllocError> {
        Ok(for_next(state))
    }
}

/// The instances of packages, in the order of the text.
pub fn listed_instances(
    alloc: Global,
    revision: Revision,
    tree: &Tree,
) -> Result<Vec<ListedInstance>, AllocError>
    ensures { IfOk result (λ instances. (views : List View)
        → views_of_listed (table revision tree.now.declarations) views instances.items ≡ views_of_instances (units_of revision tree.now).units views) }
{
    let seeker = InstanceSeeker {
        revision,
        declarations: tree.declarations(),
    };
    let instances = find_all(
        alloc,
        &tree.cursor(),
        all_trees(Sought::PackageInstances),
        &seeker,
    )?;
    Ok(instances)
}
