//! Views of a nested record, which are those of its type.

ghost use Rattle.std.specs.Prelude.{◌≡◌};
ghost use Rattle.vd_forest.specs.Forest.{next_of, parts_of};
ghost use Rattle.vd_naming.specs.Views.{record_viewed as type_viewed_by, are_other as are_other_types, has_other_type as is_of_other_type, declarations_of, nested_wrongly as are_nested_wrongly, declaration_of_tree as declared_by, view_of_mode as view_by_mode, view_in_element as view_by_element, some_nested_wrongly as some_are_nested_wrongly};

use vd_declarations::{DeclId, TypeId};
use vd_forest::Cursor;
use vd_forms::Form;
use vd_name_rows::Names;
use vd_resolved::Resolved;

/// The record type of a view.
fn record_viewed(names: &Names, view: Option<DeclId>) -> Option<TypeId>
    ensures { result ≡ type_viewed_by names.now view }
{
    match view {
        None => None,
        Some(view) => names.mark_of(view),
    }
}

/// Whether two types are known, and are two.
fn are_other(one: Option<TypeId>, other: Option<TypeId>) -> bool
    ensures { result ≡ are_other_types one other }
{
    match (one, other) {
        (Some(one), Some(other)) => one.number() != other.number(),
        _ => false,
    }
}

/// Whether an element has another type.
fn has_other_type(names: &Names, mark: &Option<TypeId>, element: Option<DeclId>) -> bool
    ensures { result ≡ is_of_other_type names.now mark.now element }
{
    match element {
        None => false,
        Some(element) => are_other(*mark, names.mark_of(element)),
    }
}

/// Whether one of the elements that are named has another type.
fn nested_wrongly(names: &Names, mark: &Option<TypeId>, elements: &Cursor<'_, Resolved>) -> bool
    ensures { result ≡ are_nested_wrongly names.now mark.now (declarations_of elements.now) }
{
    let mut left = elements.fork();
    while let Some(element) = left.form() {
        if has_other_type(names, mark, element.declaration) {
            return true;
        }
        left = left.next();
    }
    false
}

/// The declaration of the first tree.
pub(crate) fn declaration_of_tree(trees: &Cursor<'_, Resolved>) -> Option<DeclId>
    ensures { result ≡ declared_by trees.now }
{
    match trees.form() {
        None => None,
        Some(node) => node.declaration,
    }
}

/// The view of a mode, where it is one.
fn view_of_mode(form: Form, parts: &Cursor<'_, Resolved>) -> Option<DeclId>
    ensures { result ≡ view_by_mode form parts.now }
{
    match form {
        Form::ViewMode => declaration_of_tree(parts),
        _ => None,
    }
}

/// The view of the mode that is the first tree, where it is one.
fn view_in_element(mode: &Cursor<'_, Resolved>) -> Option<DeclId>
    ensures { result ≡ view_by_element mode.now }
{
    match mode.form() {
        None => None,
        Some(node) => view_of_mode(node.form, &mode.parts()),
    }
}

/// Whether an element with these parts is nested, and has a view of another type.
fn is_nested_wrongly(names: &Names, parts: &Cursor<'_, Resolved>) -> bool
    ensures { result ≡ are_nested_wrongly names.now (type_viewed_by names.now (view_by_element (next_of parts.now))) (declarations_of (parts_of parts.now)) }
{
    let mark = record_viewed(names, view_in_element(&parts.next()));
    nested_wrongly(names, &mark, &parts.parts())
}

/// Whether one of the elements of a view is nested, and has a view of another type.
pub(crate) fn some_nested_wrongly(names: &Names, elements: &Cursor<'_, Resolved>) -> bool
    ensures { result ≡ some_are_nested_wrongly names.now elements.now }
{
    let mut left = elements.fork();
    while let Some(element) = left.open() {
        if is_nested_wrongly(names, &element.parts) {
            return true;
        }
        left = element.next;
    }
    false
}
