//! Names that have to mean a type or a view.

ghost use Rattle.std.specs.Prelude.{◌≡◌, IfOk, OnOk};
ghost use Rattle.vd_forest.specs.Forest.{nothing, more};
ghost use Rattle.vd_forest.specs.Store.{Holds, Extends};
ghost use Rattle.vd_naming.specs.Paths.{mark as mark_step, with_named};
ghost use Rattle.vd_naming.specs.Views.{record_viewed as record_of_view, view_name as view_name_step, converse as converse_step};
ghost use Rattle.vd_name_rows.specs.Designs as designs;
ghost use Rattle.vd_name_entering.specs.Made.{IsMade};
ghost use Rattle.vd_naming.specs.Nodes.{named_to_fit};

use crate::{Made, add_node, one_tree};
use std::alloc::{AllocError, Global};
use vd_bytes::{Place, Refused};
use vd_declarations::{DeclId, TypeId};
use vd_forest::{Opened, Store};
use vd_forms::Form;
use vd_name_rows::{At, Names};
use vd_naming::{Fit, Named, broken_if, named_as};
use vd_resolved::Resolved;

/// A name that has to mean one declaration that fits. What is at hand behind it is not kept yet.
pub fn fitting_name(
    alloc: Global,
    names: &Names,
    at: &At<'_>,
    fit: Fit,
    node: &Opened<'_, Form>,
    out: &mut Store<Resolved>,
) -> Result<Named, AllocError>
    ensures tree { IfOk result (λ found. Holds out.new found.tree
        (named_to_fit fit at.now names.now node.now.place (more node.now.form node.now.text.now node.now.place node.now.parts nothing)).tree) }
    ensures at { IfOk result (λ found. with_named found.named found.mark at.now
        ≡ (named_to_fit fit at.now names.now node.now.place (more node.now.form node.now.text.now node.now.place node.now.parts nothing)).at) }
    ensures first { IfOk result (λ found. found.first
        ≡ (named_to_fit fit at.now names.now node.now.place (more node.now.form node.now.text.now node.now.place node.now.parts nothing)).first) }
    ensures extends { Extends out.old out.new }
{
    let mut single = Store::new(alloc);
    let number = one_tree(node, &mut single)?;
    let tree = single.cursor(number);
    let found = named_as(alloc, names, at, fit, node.place, &tree, out)?;
    Ok(found)
}

/// A mark. It and its type are at hand behind it.
pub fn mark(
    alloc: Global,
    names: &Names,
    at: &mut At<'_>,
    node: &Opened<'_, Form>,
    out: &mut Store<Resolved>,
) -> Result<Made, AllocError>
    ensures is { IfOk result (λ made. IsMade out.new names.now made
        (mark_step at.old names.now node.now.place (more node.now.form node.now.text.now node.now.place node.now.parts nothing))) }
    ensures at { OnOk result (at.new
        ≡ (mark_step at.old names.now node.now.place (more node.now.form node.now.text.now node.now.place node.now.parts nothing)).at) }
    ensures extends { Extends out.old out.new }
{
    let found = fitting_name(alloc, names, at, Fit::Mark, node, out)?;
    at.named = found.named;
    at.mark = found.mark;
    Ok(Made {
        tree: found.tree,
        first: found.first,
    })
}

/// The record type of a view, where there is one.
fn record_viewed(names: &Names, view: &Option<DeclId>) -> Option<TypeId>
    ensures { result ≡ record_of_view names.now view.now }
{
    match *view {
        None => None,
        Some(id) => names.mark_of(id),
    }
}

/// The name of a view. Its record type is at hand behind it, and its place is kept.
pub fn view_name(
    alloc: Global,
    names: &Names,
    at: &mut At<'_>,
    node: &Opened<'_, Form>,
    out: &mut Store<Resolved>,
) -> Result<Made, AllocError>
    ensures is { IfOk result (λ made. IsMade out.new names.now made
        (view_name_step at.old names.now node.now.place (more node.now.form node.now.text.now node.now.place node.now.parts nothing))) }
    ensures at { OnOk result (at.new
        ≡ (view_name_step at.old names.now node.now.place (more node.now.form node.now.text.now node.now.place node.now.parts nothing)).at) }
    ensures extends { Extends out.old out.new }
{
    let found = fitting_name(alloc, names, at, Fit::View, node, out)?;
    at.mark = record_viewed(names, &found.named);
    at.named = found.named;
    at.word_place = node.place;
    Ok(Made {
        tree: found.tree,
        first: found.first,
    })
}

/// What is refused of the word behind the apostrophe, where there is one.
fn refused_converse(form: Form, text: &[u8], place: Place) -> Option<Refused>
    ensures { (at : designs.At) (d : designs.Design) → result ≡ (converse_step at d form text.now place).first }
{
    match form {
        Form::Absent => None,
        _ => broken_if(text != b"converse".as_slice(), 307, place),
    }
}

/// The word behind the apostrophe of a view, where there is one: `converse` alone.
pub fn converse(
    names: &Names,
    at: &At<'_>,
    node: &Opened<'_, Form>,
    out: &mut Store<Resolved>,
) -> Result<Made, AllocError>
    ensures is { IfOk result (λ made. IsMade out.new names.now made (converse_step at.now names.now node.now.form node.now.text.now node.now.place)) }
    ensures at { OnOk result ((converse_step at.now names.now node.now.form node.now.text.now node.now.place).at ≡ at.now) }
    ensures extends { Extends out.old out.new }
{
    let tree = add_node(node, None, None, 0, out)?;
    Ok(Made {
        tree,
        first: refused_converse(node.form, node.text, node.place),
    })
}
