//! The passes from a resolved design of revision 2019 to a text of revision 1993.

ghost use Rattle.std.specs.Prelude.{◌≤◌, IfOk, length};

use crate::supporting::support;
use std::alloc::{AllocError, Global};
use vd_bytes::Bytes;
use vd_forest::Store;
use vd_forms::Form;
use vd_generics::expand;
use vd_known_notes::known_notes;
use vd_lowering::lower_statements;
use vd_match::{Shift, lower_matches, with_package};
use vd_names::{Chosen, NameMap, Rows, choose, rows_of};
use vd_notes::{Tables, tables_of};
use vd_noting::{Noting, note};
use vd_print93::text_of;
use vd_resolved::Tree;
use vd_statements::normal;
use vd_vector_conversions::convert_vectors;
use vd_views::split;
use vd_visible_names::{Written, write_names};

/// A text of revision 1993 that isn't checked yet, the trees that it was written from, and the map of its names.
#[derive(Drop)]
pub struct Lowered {
    pub text: Bytes,
    pub trees: Store<Form>,
    pub units: u32,
    pub map: NameMap,
}

/// A design without generic packages, generic functions and mode views. Maps by name and calls by position come first, so that each element of a map
/// says its formal.
fn unfolded(alloc: Global, tree: &Tree) -> Result<Tree, AllocError> {
    let normal = normal(alloc, tree)?;
    let expanded = expand(alloc, &normal)?;
    split(alloc, &expanded)
}

/// A design without the statements that revision 2019 has alone, with notes.
fn lowered_noting(alloc: Global, tree: &Tree) -> Result<Noting, AllocError>
    ensures { IfOk result (λ made. made.units ≤ length made.trees) }
{
    let plain = unfolded(alloc, tree)?;
    let known = known_notes(alloc, &plain)?;
    let noting = note(alloc, &plain, &known)?;
    lower_statements(alloc, noting)
}

/// A design in the forms of revision 1993, with the declarations and names of revision 2019. The support package is put in front as it stands.
fn plain(alloc: Global, tree: &Tree) -> Result<Tree, AllocError> {
    let noting = lowered_noting(alloc, tree)?;
    let package = support(alloc)?;
    let shift = Shift::behind(noting.declarations.len())?;
    let lowered = lower_matches(alloc, noting, shift, &package)?;
    let normal = normal(alloc, &lowered)?;
    let whole = with_package(alloc, &normal, shift, &package)?;
    convert_vectors(alloc, whole)
}

/// The map of the names of such a design.
fn map_of(
    alloc: Global,
    tree: &Tree,
    tables: &Tables,
    chosen: &Chosen,
) -> Result<NameMap, AllocError> {
    let rows = rows_of(alloc, tree, tables, chosen)?;
    Ok(NameMap {
        rows: Rows::of(rows),
    })
}

/// The same with the trees and the text that are written with these names.
fn written(
    alloc: Global,
    tree: &Tree,
    tables: &Tables,
    chosen: &Chosen,
) -> Result<Lowered, AllocError>
    ensures { IfOk result (λ made. made.units ≤ length made.trees) }
{
    let map = map_of(alloc, tree, tables, chosen)?;
    let Written { store, units } = write_names(alloc, tree, tables, chosen)?;
    let text = text_of(alloc, &store.cursor(units))?;
    Ok(Lowered {
        text: Bytes::of(text),
        trees: store,
        units,
        map,
    })
}

/// What is to be written of a design that breaks no rule.
pub fn lower(alloc: Global, tree: &Tree) -> Result<Lowered, AllocError>
    ensures { IfOk result (λ made. made.units ≤ length made.trees) }
{
    let tree = plain(alloc, tree)?;
    let tables = tables_of(alloc, &tree)?;
    let chosen = choose(alloc, &tree, &tables)?;
    written(alloc, &tree, &tables, &chosen)
}
