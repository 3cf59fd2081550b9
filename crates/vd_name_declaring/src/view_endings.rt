//! The ends of views.

ghost use Rattle.std.specs.Prelude.{◌≡◌, ◌≤◌, IfOk, length};
ghost use Rattle.std.specs.List.{list_any};
ghost use Rattle.vd_forest.specs.Store.{Extends};
ghost use Rattle.vd_naming.specs.Endings as endings;
ghost use Rattle.vd_naming.specs.Views.{is_ill_given as is_given_ill, elements_given as given_by, elements_of, is_ill_viewed as is_viewed_ill, type_viewed as type_of_view, is_no_record as is_other_type, refused_view as refusal_of_view, view_ends as view_declared};
ghost use Rattle.vd_name_entering.specs.Ended.{seen_ended};
ghost use Rattle.vd_name_entering.specs.Made.{IsMade};
ghost use Rattle.vd_name_declaring.specs.Counted.{is_counted_ill};

use crate::declared_word;
use crate::given::{Given, elements_given};
use crate::nested::{declaration_of_tree, some_nested_wrongly};
use std::alloc::{AllocError, Global};
use vd_bytes::Refused;
use vd_declarations::{Class, DeclId, TypeId};
use vd_forest::{Cursor, Store};
use vd_name_entering::{Ended, Made, enter, finished};
use vd_name_rows::Names;
use vd_naming::broken_if;
use vd_resolved::Resolved;
use vd_walks::lesser;

/// Whether one of the elements of a record type is given several times, or is missing, by these counts.
fn some_counted_ill(names: &Names, mark: &Option<TypeId>, given: &Given) -> bool
    ensures { result ≡ list_any (is_counted_ill given.now) (elements_of names.now mark.now) }
{
    let Some(mark) = mark else {
        return false;
    };
    for element in names.parameters_of(DeclId::of(mark.number())) {
        if given.is_ill_given(*element) {
            return true;
        }
    }
    false
}

/// Whether one of the elements of a record type is given several times, or is missing.
#[tactic(auto, using(crate::proofs::CountLemmas::some_ill_as_counted))]
fn some_ill_given(
    alloc: Global,
    names: &Names,
    mark: &Option<TypeId>,
    elements: &Cursor<'_, Resolved>,
) -> Result<bool, AllocError>
    ensures { IfOk result (λ ill. ill ≡ list_any (is_given_ill (given_by elements.now)) (elements_of names.now mark.now)) }
{
    let given = elements_given(alloc, elements)?;
    let ill = some_counted_ill(names, mark, &given);
    Ok(ill)
}

/// Whether the elements of a view are not those of its record type, each once, and each with a view of its type where it is nested.
fn is_ill_viewed(
    alloc: Global,
    names: &Names,
    mark: &Option<TypeId>,
    elements: &Cursor<'_, Resolved>,
) -> Result<bool, AllocError>
    ensures { IfOk result (λ ill. ill ≡ is_viewed_ill names.now mark.now elements.now) }
{
    let ill = some_ill_given(alloc, names, mark, elements)?;
    Ok(ill || some_nested_wrongly(names, elements))
}

/// The type of the mark of a view.
fn type_viewed(
    names: &Names,
    ended: &Ended<'_, '_>,
    out: &Store<Resolved>,
) -> Result<Option<TypeId>, AllocError>
    requires { ended.now.inner.now.tree ≤ length out.now }
    ensures { IfOk result (λ mark. mark ≡ type_of_view (seen_ended out.now names.now ended.now)) }
{
    let outer = ended.outer;
    let place = names.surroundings(outer)?;
    match declaration_of_tree(&out.cursor(ended.inner.tree).next()) {
        None => Ok(None),
        Some(id) => Ok(place.type_meant(id)),
    }
}

/// Whether a type is known, and is no record type.
fn is_no_record(names: &Names, mark: &Option<TypeId>) -> bool
    ensures { (x : endings.Ended) → x.inner.design ≡ names.now → result ≡ is_other_type x mark.now }
{
    match mark {
        None => false,
        Some(mark) => !matches!(names.class_of(DeclId::of(mark.number())), Class::RecordType),
    }
}

/// What is refused of a view of a type.
fn refused_view(
    alloc: Global,
    names: &Names,
    mark: &Option<TypeId>,
    ended: &Ended<'_, '_>,
    out: &Store<Resolved>,
) -> Result<Option<Refused>, AllocError>
    requires { ended.now.inner.now.tree ≤ length out.now }
    ensures { IfOk result (λ first. first ≡ refusal_of_view (seen_ended out.now names.now ended.now) mark.now) }
{
    let node = ended.node;
    let place = match node.parts.next().place() {
        Some(place) => place,
        None => node.place,
    };
    let other = broken_if(is_no_record(names, mark), 307, place);
    let elements = out.cursor(ended.inner.tree).skip(2).parts();
    let ill = is_ill_viewed(alloc, names, mark, &elements)?;
    Ok(lesser(other, broken_if(ill, 308, node.place)))
}

/// Declares a view.
#[tactic(auto, using(vd_walks::proofs::OrderLaws::lesser_brackets))]
pub fn view_ends(
    alloc: Global,
    names: &mut Names,
    ended: &Ended<'_, '_>,
    out: &mut Store<Resolved>,
) -> Result<Made, AllocError>
    requires { ended.now.inner.now.tree ≤ length out.old }
    ensures is { IfOk result (λ made. IsMade out.new names.new made (view_declared (seen_ended out.old names.old ended.now))) }
    ensures extends { Extends out.old out.new }
{
    let mark = type_viewed(names, ended, out)?;
    let refused = refused_view(alloc, names, &mark, ended, out)?;
    let number = names.next_number()?;
    let declared = declared_word(alloc, &Class::View, ended, mark)?;
    let outer = ended.outer;
    let first = enter(names, outer.region, declared)?;
    let own = Some(DeclId::of(number));
    let both = lesser(first, refused);
    let made = finished(ended, own, None, ended.inner.tree, both, out)?;
    Ok(made)
}
