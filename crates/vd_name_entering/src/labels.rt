//! Labels, and the names of loops.

ghost use Rattle.std.specs.Prelude.{◌≡◌, IfOk, OnOk};
ghost use Rattle.vd_forest.specs.Store.{Extends};
ghost use Rattle.vd_naming.specs.Paths.{refused_path as path_refused};
ghost use Rattle.vd_naming.specs.Statements.{label as label_step, label_name as label_name_step, label_name_as as label_meant_by};
ghost use Rattle.vd_naming.specs.Selected.{some_or};
ghost use Rattle.vd_name_rows.specs.Designs.{sight};
ghost use Rattle.vd_name_rows.specs.Noting.{with_loop};
ghost use Rattle.vd_name_entering.specs.Made.{IsMade};

use crate::{Made, add_node, declaration_of, enter};
use std::alloc::{AllocError, Global};
use vd_bytes::{Place, Refused};
use vd_declarations::{Class, DeclId};
use vd_forest::{Opened, Store};
use vd_forms::Form;
use vd_name_rows::{At, Names, Note};
use vd_naming::{Fit, Meant, one_that, refused_path, visible_meant};
use vd_resolved::Resolved;

/// Notes that a label is that of a loop, where it is.
fn note_loop(names: &mut Names, is_loop: bool, id: DeclId) -> Result<(), AllocError>
    ensures { OnOk result (names.new ≡ with_loop is_loop id names.old) }
{
    if !is_loop {
        return Ok(());
    }
    let note = Note {
        is_loop: true,
        ..names.note(id)
    };
    names.put(id, note)
}

/// A label is declared where it stands.
pub fn label(
    alloc: Global,
    names: &mut Names,
    at: &mut At<'_>,
    node: &Opened<'_, Form>,
    out: &mut Store<Resolved>,
) -> Result<Made, AllocError>
    ensures is { IfOk result (λ made. IsMade out.new names.new made (label_step at.old names.old node.now.form node.now.text.now node.now.place)) }
    ensures at { OnOk result (at.new ≡ (label_step at.old names.old node.now.form node.now.text.now node.now.place).at) }
    ensures extends { Extends out.old out.new }
{
    let id = DeclId::of(names.next_number()?);
    let declared = declaration_of(alloc, Class::Label, node.text, node.place, None)?;
    let first = enter(names, at.region, declared)?;
    note_loop(names, at.is_loop, id)?;
    at.label_place = node.place;
    let tree = add_node(node, Some(id), None, 0, out)?;
    Ok(Made { tree, first })
}

/// What is refused of a name, where nothing is found that it has to mean.
fn refused_of(named: &Option<DeclId>, meant: &Meant, at: Place) -> Option<Refused>
    ensures { result ≡ path_refused named.now meant.now at }
{
    refused_path(*named, meant, at)
}

/// The name of a loop.
fn label_meant(
    alloc: Global,
    names: &Names,
    at: &At<'_>,
    node: &Opened<'_, Form>,
    out: &mut Store<Resolved>,
) -> Result<Made, AllocError>
    ensures is { IfOk result (λ made. IsMade out.new names.now made
        (label_meant_by (some_or 303 ((sight at.now names.now).visible node.now.text.now)) at.now names.now node.now.form node.now.text.now node.now.place)) }
    ensures extends { Extends out.old out.new }
{
    let place = names.surroundings(at)?;
    let meant = visible_meant(alloc, &place, node.text)?;
    let named = one_that(names, &place, Fit::LoopLabel, &meant);
    let first = refused_of(&named, &meant, node.place);
    let tree = add_node(node, named, None, 0, out)?;
    Ok(Made { tree, first })
}

/// The name of a loop behind `next` or `exit`, where there is one.
pub fn label_name(
    alloc: Global,
    names: &Names,
    at: &At<'_>,
    node: &Opened<'_, Form>,
    out: &mut Store<Resolved>,
) -> Result<Made, AllocError>
    ensures is { IfOk result (λ made. IsMade out.new names.now made (label_name_step at.now names.now node.now.form node.now.text.now node.now.place)) }
    ensures at { OnOk result ((label_name_step at.now names.now node.now.form node.now.text.now node.now.place).at ≡ at.now) }
    ensures extends { Extends out.old out.new }
{
    match node.form {
        Form::Absent => {
            let tree = add_node(node, None, None, 0, out)?;
            Ok(Made { tree, first: None })
        }
        _ => {
            let made = label_meant(alloc, names, at, node, out)?;
            Ok(made)
        }
    }
}
