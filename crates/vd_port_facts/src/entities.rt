//! The entities of a design, by their names.

ghost use Rattle.std.specs.Prelude.{◌≡◌, IfOk, List, None, ℕ};
ghost use Rattle.vd_meaning.specs.Elaborations.{units_of};
ghost use Rattle.vd_forest.specs.Forest.{size};
ghost use Rattle.vd_meaning.specs.Tables.{Table, table};
ghost use Rattle.vd_port_facts.specs.Reading.{entities_in, name_first};
ghost use Rattle.vd_port_facts.specs.Seeking.{entity_by as entity_of_form, entity_of as entity_declared, entity_seeker, inside_unit as unit_inside};
ghost use Rattle.vd_port_facts.specs.Tables.{last_place};
ghost use Rattle.vd_port_lists.specs.Named.{value_named};

use crate::generics::{ListedGenerics, ObjectSeeker, generics_of_first};
use crate::trees::last_of;
use indexmap::IndexMap;
use std::alloc::{AllocError, Global};
use vd_body_rules::identified::text_of_first;
use vd_bytes::Text;
use vd_forest::{Cursor, Opened};
use vd_forms::Form;
use vd_function_names::counting::{Counted, behind, counts};
use vd_resolved::{Resolved, Tree};
use vd_trees::Revision;
use vd_walks::{Finding, find_all};

/// An entity: its name and its generics.
#[derive(Drop)]
pub struct ListedEntity {
    pub name: Text,
    pub generics: ListedGenerics,
}

/// What the first tree is called by as the name of a unit, of which a selected name has the last part.
fn name_of_first<'a>(trees: &Cursor<'a, Resolved>) -> &'a [u8]
    ensures { (t : Table) → result.now ≡ name_first t trees.now }
{
    let mut rest = trees.fork();
    while let Some(first) = rest.open() {
        match first.form.form {
            Form::SelectedName => rest = last_of(&first.parts),
            Form::Association => rest = first.parts.skip(1),
            Form::OthersAssociation => rest = first.parts,
            Form::UnconstrainedIndex => rest = first.parts,
            _ => return text_of_first(&rest),
        }
    }
    &[]
}

/// The entities, by the declarations of a design.
#[derive(Clone, Copy)]
struct EntitySeeker<'d> {
    objects: ObjectSeeker<'d>,
}

fn entity_of(
    alloc: Global,
    objects: &ObjectSeeker<'_>,
    parts: &Cursor<'_, Resolved>,
) -> Result<ListedEntity, AllocError>
    ensures { IfOk result (λ entity. entity ≡ entity_declared (table objects.now.revision objects.now.declarations.now) parts.now) }
{
    let name = Text::from_slice(alloc, name_of_first(parts))?;
    let generics = generics_of_first(alloc, objects, &parts.skip(1))?;
    Ok(ListedEntity { name, generics })
}

fn entity_by(
    alloc: Global,
    objects: &ObjectSeeker<'_>,
    form: Form,
    parts: &Cursor<'_, Resolved>,
) -> Result<Option<ListedEntity>, AllocError>
    ensures { IfOk result (λ entity. entity ≡ entity_of_form form (table objects.now.revision objects.now.declarations.now) parts.now) }
{
    match form {
        Form::EntityDeclaration => {
            let entity = entity_of(alloc, objects, parts)?;
            Ok(Some(entity))
        }
        _ => Ok(None),
    }
}

/// No entity stands inside a unit.
fn inside_unit(form: Form) -> Counted
    ensures { result ≡ unit_inside form }
{
    match form {
        Form::EntityDeclaration
        | Form::ArchitectureBody
        | Form::PackageDeclaration
        | Form::PackageBody
        | Form::PackageInstantiation => Counted::NoTrees,
        _ => Counted::Each,
    }
}

impl<'d> Finding<Resolved, Counted, ListedEntity> for EntitySeeker<'d> {
    ghost finder = { λ by. entity_seeker (table by.objects.revision by.objects.declarations.now) };

    fn answer(
        &self,
        alloc: Global,
        trees: &Counted,
        node: &Opened<'_, Resolved>,
    ) -> Result<Option<ListedEntity>, AllocError> {
        if counts(*trees) {
            entity_by(alloc, &self.objects, node.form.form, &node.parts)
        } else {
            Ok(None)
        }
    }

    fn down(
        &self,
        _alloc: Global,
        trees: &Counted,
        node: &Opened<'_, Resolved>,
    ) -> Result<Counted, AllocError> {
        if counts(*trees) {
            Ok(inside_unit(node.form.form))
        } else {
            Ok(Counted::NoTrees)
        }
    }

    fn along(
        &self,
        _alloc: Global,
        trees: &Counted,
        _node: &Opened<'_, Resolved>,
    ) -> Result<Counted, AllocError> {
        Ok(behind(*trees))
    }
}

/// The entities of a design, in the order of the text.
pub fn listed_entities(
    alloc: Global,
    revision: Revision,
    tree: &Tree,
) -> Result<Vec<ListedEntity>, AllocError>
    ensures { IfOk result (λ entities. entities.items ≡ entities_in (units_of revision tree.now).units) }
{
    let objects = ObjectSeeker {
        revision,
        declarations: tree.declarations(),
    };
    let entities = find_all(
        alloc,
        &tree.cursor(),
        Counted::Each,
        &EntitySeeker { objects },
    )?;
    Ok(entities)
}

/// The places of entities by their names. The last is put last, so that it counts.
pub(crate) fn entities_by_name(
    alloc: Global,
    entities: &[ListedEntity],
) -> Result<IndexMap<Vec<u8>, usize>, AllocError>
    ensures { IfOk result (λ places. (name : List ℕ) → value_named places.entries (λ key. key.items) name ≡ last_place None 0 entities.now name) }
{
    let mut places = IndexMap::new(alloc);
    for place in 0..entities.len() {
        let name = Vec::from_slice(alloc, entities[place].name.as_slice())?;
        places.insert(name, place)?;
    }
    Ok(places)
}
