//! The generics of entities, and what their defaults name.

ghost use Rattle.std.specs.Prelude.{◌≡◌, IfOk};
ghost use Rattle.vd_meaning.specs.Tables.{Table, table};
ghost use Rattle.vd_port_facts.specs.Seeking.{default_by as default_of_form, default_seeker, generics_at, inside_defaults as defaults_inside, inside_objects as objects_inside, names_part as part_with_names, object_seeker, objects_by as objects_of_part};

use crate::names::names_of_first;
use std::alloc::{AllocError, Global};
use std::marker::Model;
use vd_declarations::{Declaration, Declarations};
use vd_forest::{Cursor, Opened};
use vd_forms::Form;
use vd_function_names::counting::{Counted, behind, counts};
use vd_function_names::numbers::numbers_of_first;
use vd_resolved::Resolved;
use vd_trees::Revision;
use vd_walks::{Finding, find_all};

/// Lists of declarations, in their order. Contracts see the list of these lists.
#[derive(Drop)]
pub struct Lists {
    lists: Vec<Declarations>,
}

impl Model for Lists {
    ghost use Rattle.std.specs.Prelude.{ℕ, List};
    ghost use Rattle.std.specs.Coded.{coded_list, coded_ℕ};

    ghost Value = { List (List ℕ) };

    ghost coded = { coded_list (coded_list coded_ℕ) };

    ghost view = { λ a. a.lists.items };
}

impl Lists {
    /// These lists.
    fn of(lists: Vec<Declarations>) -> Lists
        ensures { result ≡ lists.items }
    {
        Lists { lists }
    }

    /// The lists.
    pub fn as_slice(&self) -> &[Declarations]
        ensures { result.now ≡ self.now }
    {
        self.lists.as_slice()
    }
}

/// The generics of an entity: which are declared together, and what the default of each such declaration names.
#[derive(Drop)]
pub struct ListedGenerics {
    pub objects: Lists,
    pub defaults: Lists,
}

/// Which part of a node has the names of the objects that it declares.
fn names_part(form: Form) -> Option<u32>
    ensures { result ≡ part_with_names form }
{
    match form {
        Form::SignalDeclaration => Some(0),
        Form::PortDeclaration => Some(1),
        Form::GenericConstant => Some(1),
        _ => None,
    }
}

/// The objects whose names stand in a part.
fn objects_by(
    alloc: Global,
    part: Option<u32>,
    parts: &Cursor<'_, Resolved>,
) -> Result<Option<Declarations>, AllocError>
    ensures { IfOk result (λ found. (t : Table) → found ≡ objects_of_part part t parts.now) }
{
    match part {
        None => Ok(None),
        Some(part) => {
            let numbers = numbers_of_first(alloc, &parts.skip(part))?;
            Ok(Some(Declarations::of(numbers)))
        }
    }
}

/// Where further objects are declared inside a node.
fn inside_objects(form: Form) -> Counted
    ensures { result ≡ objects_inside form }
{
    match form {
        Form::GenericClause | Form::PortClause | Form::ParameterList | Form::DeclarativePart => {
            Counted::Each
        }
        Form::Association => Counted::SecondAlone,
        Form::OthersAssociation | Form::UnconstrainedIndex => Counted::FirstAlone,
        _ => Counted::NoTrees,
    }
}

/// What the default of a generic names.
fn default_by(
    alloc: Global,
    form: Form,
    parts: &Cursor<'_, Resolved>,
) -> Result<Option<Declarations>, AllocError>
    ensures { IfOk result (λ found. (t : Table) → found ≡ default_of_form form t parts.now) }
{
    match form {
        Form::GenericConstant => {
            let names = names_of_first(alloc, &parts.skip(4))?;
            Ok(Some(Declarations::of(names)))
        }
        _ => Ok(None),
    }
}

/// No generic is declared inside one.
fn inside_defaults(form: Form) -> Counted
    ensures { result ≡ defaults_inside form }
{
    match form {
        Form::GenericConstant => Counted::NoTrees,
        _ => Counted::Each,
    }
}

/// The objects that are declared together, by the declarations of a design.
#[derive(Clone, Copy)]
pub(crate) struct ObjectSeeker<'d> {
    pub(crate) revision: Revision,
    pub(crate) declarations: &'d [Declaration],
}

impl<'d> Finding<Resolved, Counted, Declarations> for ObjectSeeker<'d> {
    ghost finder = { λ by. object_seeker (table by.revision by.declarations.now) };

    fn answer(
        &self,
        alloc: Global,
        trees: &Counted,
        node: &Opened<'_, Resolved>,
    ) -> Result<Option<Declarations>, AllocError> {
        if counts(*trees) {
            objects_by(alloc, names_part(node.form.form), &node.parts)
        } else {
            Ok(None)
        }
    }

    fn down(
        &self,
        _alloc: Global,
        trees: &Counted,
        node: &Opened<'_, Resolved>,
    ) -> Result<Counted, AllocError> {
        if counts(*trees) {
            Ok(inside_objects(node.form.form))
        } else {
            Ok(Counted::NoTrees)
        }
    }

    fn along(
        &self,
        _alloc: Global,
        trees: &Counted,
        _node: &Opened<'_, Resolved>,
    ) -> Result<Counted, AllocError> {
        Ok(behind(*trees))
    }
}

/// What the defaults of generics name, by the declarations of a design.
#[derive(Clone, Copy)]
struct DefaultSeeker<'d> {
    objects: ObjectSeeker<'d>,
}

impl<'d> Finding<Resolved, Counted, Declarations> for DefaultSeeker<'d> {
    ghost finder = { λ by. default_seeker (table by.objects.revision by.objects.declarations.now) };

    fn answer(
        &self,
        alloc: Global,
        trees: &Counted,
        node: &Opened<'_, Resolved>,
    ) -> Result<Option<Declarations>, AllocError> {
        if counts(*trees) {
            default_by(alloc, node.form.form, &node.parts)
        } else {
            Ok(None)
        }
    }

    fn down(
        &self,
        _alloc: Global,
        trees: &Counted,
        node: &Opened<'_, Resolved>,
    ) -> Result<Counted, AllocError> {
        if counts(*trees) {
            Ok(inside_defaults(node.form.form))
        } else {
            Ok(Counted::NoTrees)
        }
    }

    fn along(
        &self,
        _alloc: Global,
        trees: &Counted,
        _node: &Opened<'_, Resolved>,
    ) -> Result<Counted, AllocError> {
        Ok(behind(*trees))
    }
}

/// The generics in the first tree.
pub(crate) fn generics_of_first(
    alloc: Global,
    objects: &ObjectSeeker<'_>,
    trees: &Cursor<'_, Resolved>,
) -> Result<ListedGenerics, AllocError>
    ensures { IfOk result (λ generics. generics ≡ generics_at (table objects.now.revision objects.now.declarations.now) trees.now) }
{
    let defaults = find_all(
        alloc,
        trees,
        Counted::FirstAlone,
        &DefaultSeeker { objects: *objects },
    )?;
    let declared = find_all(alloc, trees, Counted::FirstAlone, objects)?;
    Ok(ListedGenerics {
        objects: Lists::of(declared),
        defaults: Lists::of(defaults),
    })
}
