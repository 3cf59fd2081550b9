//! The views of a design.

ghost use Rattle.std.specs.Prelude.{◌≡◌, IfOk, map};
ghost use Rattle.vd_forest.specs.Forest.{Forest};
ghost use Rattle.vd_meaning.specs.Tables.{Table, table};
ghost use Rattle.vd_port_lists.specs.Listed.{own_views, read_view};
ghost use Rattle.vd_port_lists.specs.Seeking.{element_at as element_answered, element_seeker, elements_in as elements_inside, inside_for_elements as elements_looked_for, inside_for_views as views_looked_for, inside_view as view_inside, named_element as element_named, view_at as view_answered, view_by as view_of_form, view_of as view_declared, view_seeker};

use crate::elements::Elements;
use crate::entries::ListedElement;
use crate::modes::PortMode;
use crate::seeking::{
    Seeking, Sought, all_trees, for_next, inside_element, inside_names, is_here, nothing_sought,
    one_tree,
};
use std::alloc::{AllocError, Global};
use vd_bytes::Text;
use vd_declarations::{DeclId, Declaration};
use vd_forest::{Cursor, Opened};
use vd_forms::Form;
use vd_operations::{declaration_of, number_made, quoted};
use vd_resolved::{Resolved, Tree};
use vd_trees::Revision;
use vd_walks::{Finding, find_all};

/// A view: its declaration, the mark of its record type, and its elements.
#[derive(Drop)]
pub struct ListedView {
    pub view: DeclId,
    pub mark: Option<DeclId>,
    pub elements: Elements,
}

fn named_element(
    alloc: Global,
    form: Form,
    text: &[u8],
    mode: PortMode,
) -> Result<Option<ListedElement>, AllocError>
    ensures { IfOk result (λ element. element ≡ element_named form text.now mode) }
{
    let name = match form {
        Form::Identifier => Text::from_slice(alloc, text)?,
        Form::Letter => quoted(alloc, text)?,
        _ => return Ok(None),
    };
    Ok(Some(ListedElement { name, mode }))
}

fn element_at(
    alloc: Global,
    sought: Sought,
    node: &Opened<'_, Resolved>,
) -> Result<Option<ListedElement>, AllocError>
    ensures { IfOk result (λ element. element ≡ element_answered sought node.now.form node.now.text.now node.now.parts) }
{
    match sought {
        Sought::Names(mode) => named_element(alloc, node.form.form, node.text, mode),
        _ => Ok(None),
    }
}

/// What is looked for inside a node, where elements are.
fn inside_for_elements(sought: Sought, form: Form, parts: &Cursor<'_, Resolved>) -> Seeking
    ensures { (t : Table) → result ≡ elements_looked_for t sought form parts.now }
{
    match sought {
        Sought::ElementLists => inside_element(form, parts),
        Sought::Names(mode) => inside_names(form, mode),
        _ => nothing_sought(),
    }
}

/// The elements of a view, by the declarations of a design.
#[derive(Clone, Copy)]
struct ElementSeeker<'d> {
    revision: Revision,
    declarations: &'d [Declaration],
}

impl<'d> Finding<Resolved, Seeking, ListedElement> for ElementSeeker<'d> {
    ghost finder = { λ by. element_seeker (table by.revision by.declarations.now) };

    fn answer(
        &self,
        alloc: Global,
        state: &Seeking,
        node: &Opened<'_, Resolved>,
    ) -> Result<Option<ListedElement>, AllocError> {
        if is_here(state.trees) {
            element_at(alloc, state.sought, node)
        } else {
            Ok(None)
        }
    }

    fn down(
        &self,
        _alloc: Global,
        state: &Seeking,
        node: &Opened<'_, Resolved>,
    ) -> Result<Seeking, AllocError> {
        if is_here(state.trees) {
            Ok(inside_for_elements(state.sought, node.form.form, &node.parts))
        } else {
            Ok(nothing_sought())
        }
    }

    fn along(
        &self,
        _alloc: Global,
        state: &Seeking,
        _node: &Opened<'_, Resolved>,
    ) -> Result<Seeking, AllocError> {
        Ok(for_next(state))
    }
}

/// The elements in the parts of a view.
fn elements_in(
    alloc: Global,
    seeker: &ElementSeeker<'_>,
    parts: &Cursor<'_, Resolved>,
) -> Result<Elements, AllocError>
    ensures { IfOk result (λ elements. elements ≡ elements_inside (table seeker.now.revision seeker.now.declarations.now) parts.now) }
{
    let listed = find_all(alloc, parts, one_tree(2, Sought::ElementLists), seeker)?;
    let elements = Elements::of(alloc, listed)?;
    Ok(elements)
}

fn view_of(
    alloc: Global,
    seeker: &ElementSeeker<'_>,
    node: &Opened<'_, Resolved>,
) -> Result<ListedView, AllocError>
    ensures { IfOk result (λ view. view ≡ view_declared (table seeker.now.revision seeker.now.declarations.now) node.now.form node.now.parts) }
{
    let elements = elements_in(alloc, seeker, &node.parts)?;
    Ok(ListedView {
        view: number_made(&node.form, &node.parts),
        mark: declaration_of(&node.parts.skip(1)),
        elements,
    })
}

fn view_by(
    alloc: Global,
    seeker: &ElementSeeker<'_>,
    node: &Opened<'_, Resolved>,
) -> Result<Option<ListedView>, AllocError>
    ensures { IfOk result (λ view. view ≡ view_of_form node.now.form.form (table seeker.now.revision seeker.now.declarations.now) node.now.form node.now.parts) }
{
    match node.form.form {
        Form::ViewDeclaration => {
            let view = view_of(alloc, seeker, node)?;
            Ok(Some(view))
        }
        _ => Ok(None),
    }
}

fn view_at(
    alloc: Global,
    seeker: &ElementSeeker<'_>,
    sought: Sought,
    node: &Opened<'_, Resolved>,
) -> Result<Option<ListedView>, AllocError>
    ensures { IfOk result (λ view. view ≡ view_answered (table seeker.now.revision seeker.now.declarations.now) sought node.now.form node.now.text.now node.now.parts) }
{
    match sought {
        Sought::Views => view_by(alloc, seeker, node),
        _ => Ok(None),
    }
}

/// No view is declared inside one.
fn inside_view(form: Form) -> Seeking
    ensures { result ≡ view_inside form }
{
    match form {
        Form::ViewDeclaration => nothing_sought(),
        _ => all_trees(Sought::Views),
    }
}

/// What is looked for inside a node, where views are.
fn inside_for_views(sought: Sought, form: Form) -> Seeking
    ensures { (parts : Forest Resolved) → result ≡ views_looked_for sought form parts }
{
    match sought {
        Sought::Views => inside_view(form),
        _ => nothing_sought(),
    }
}

/// The views, by the declarations of a design.
#[derive(Clone, Copy)]
struct ViewSeeker<'d> {
    elements: ElementSeeker<'d>,
}

impl<'d> Finding<Resolved, Seeking, ListedView> for ViewSeeker<'d> {
    ghost finder = { λ by. view_seeker (table by.elements.revision by.elements.declarations.now) };

    fn answer(
        &self,
        alloc: Global,
        state: &Seeking,
        node: &Opened<'_, Resolved>,
    ) -> Result<Option<ListedView>, AllocError> {
        if is_here(state.trees) {
            view_at(alloc, &self.elements, state.sought, node)
        } else {
            Ok(None)
        }
    }

    fn down(
        &self,
        _alloc: Global,
        state: &Seeking,
        node: &Opened<'_, Resolved>,
    ) -> Result<Seeking, AllocError> {
        if is_here(state.trees) {
            Ok(inside_for_views(state.sought, node.form.form))
        } else {
            Ok(nothing_sought())
        }
    }

    fn along(
        &self,
        _alloc: Global,
        state: &Seeking,
        _node: &Opened<'_, Resolved>,
    ) -> Result<Seeking, AllocError> {
        Ok(for_next(state))
    }
}

/// The views that a design declares itself, in the order of the text.
pub fn listed_views(
    alloc: Global,
    revision: Revision,
    tree: &Tree,
) -> Result<Vec<ListedView>, AllocError>
    ensures { IfOk result (λ views. map read_view views.items ≡ own_views revision tree.now) }
{
    let elements = ElementSeeker {
        revision,
        declarations: tree.declarations(),
    };
    let views = find_all(
        alloc,
        &tree.cursor(),
        all_trees(Sought::Views),
        &ViewSeeker { elements },
    )?;
    Ok(views)
}
