//! Library clauses.

ghost use Rattle.std.specs.Prelude.{◌≡◌, Some, IfOk, OnOk};
ghost use Rattle.vd_forest.specs.Store.{Extends};
ghost use Rattle.vd_naming.specs.Units.{library_named as library_of_name, library_as as library_clause, library_word as library_word_step};
ghost use Rattle.vd_name_entering.specs.Made.{IsMade};

use std::alloc::{AllocError, Global};
use vd_bytes::Refused;
use vd_declarations::{Class, DeclId};
use vd_forest::{Opened, Store};
use vd_forms::Form;
use vd_name_entering::{Made, add_node, declaration_of, enter};
use vd_name_rows::{At, Names};
use vd_predefined::numbers::{IEEE, STD, WORK};
use vd_resolved::Resolved;

/// The library of a name.
fn library_named(name: &[u8]) -> Option<DeclId>
    ensures { result ≡ library_of_name name.now }
{
    if name == b"work".as_slice() {
        Some(DeclId::of(WORK))
    } else if name == b"std".as_slice() {
        Some(DeclId::of(STD))
    } else if name == b"ieee".as_slice() {
        Some(DeclId::of(IEEE))
    } else {
        None
    }
}

/// The name of a library, which it declares.
fn library_as(
    alloc: Global,
    names: &mut Names,
    at: &At<'_>,
    library: DeclId,
    node: &Opened<'_, Form>,
    out: &mut Store<Resolved>,
) -> Result<Made, AllocError>
    ensures is { IfOk result (λ made. IsMade out.new names.new made
        (library_clause (Some library) at.now names.old node.now.form node.now.text.now node.now.place)) }
    ensures extends { Extends out.old out.new }
{
    let class = Class::LibraryName { library };
    let declared = declaration_of(alloc, class, node.text, node.place, None)?;
    let first = enter(names, at.region, declared)?;
    let tree = add_node(node, Some(library), None, 0, out)?;
    Ok(Made { tree, first })
}

/// A name of a library clause.
pub fn library_word(
    alloc: Global,
    names: &mut Names,
    at: &At<'_>,
    node: &Opened<'_, Form>,
    out: &mut Store<Resolved>,
) -> Result<Made, AllocError>
    ensures is { IfOk result (λ made. IsMade out.new names.new made
        (library_word_step at.now names.old node.now.form node.now.text.now node.now.place)) }
    ensures at { OnOk result ((library_word_step at.now names.old node.now.form node.now.text.now node.now.place).at ≡ at.now) }
    ensures extends { Extends out.old out.new }
{
    match library_named(node.text) {
        Some(library) => {
            let made = library_as(alloc, names, at, library, node, out)?;
            Ok(made)
        }
        None => {
            let tree = add_node(node, None, None, 0, out)?;
            let first = Some(Refused {
                place: node.place,
                rule: 302,
            });
            Ok(Made { tree, first })
        }
    }
}
