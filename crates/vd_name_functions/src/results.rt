//! The type of a result, with which the header of a body ends.

ghost use Rattle.std.specs.Prelude.{◌≡◌, IfOk, OnOk, List, None};
ghost use Rattle.vd_forest.specs.Forest.{Forest, nothing, more};
ghost use Rattle.vd_forest.specs.Store.{Holds, Extends};
ghost use Rattle.vd_resolved.specs.declared.node.Resolved.{Resolved as Node};
ghost use Rattle.vd_name_rows.specs.Designs.{gives};
ghost use Rattle.vd_name_entering.specs.Made.{IsMade};
ghost use Rattle.vd_naming.specs.Paths.{mark};
ghost use Rattle.vd_naming.specs.Functions.{body_known, body_begun, header_ends, header_ends_as};

use crate::headers::function_read;
use crate::matching::{declaration_of_body, header_of};
use std::alloc::{AllocError, Global};
use vd_declarations::{DeclId, Declaration};
use vd_forest::{Opened, Store};
use vd_forms::Form;
use vd_name_entering::{Made, one_tree};
use vd_name_rows::{At, Names, Taken};
use vd_naming::{Fit, fits_are_tests, named_as};
use vd_resolved::Resolved;

/// The body is that of a declaration, whose header its own stands for.
fn body_known(
    names: &mut Names,
    at: &mut At<'_>,
    id: DeclId,
    new: &Declaration,
) -> Result<(), AllocError>
    ensures design { OnOk result (names.new ≡ (body_known id at.old names.old new.now (gives at.old names.old nothing None)).design) }
    ensures at { OnOk result (at.new ≡ (body_known id at.old names.old new.now (gives at.old names.old nothing None)).at) }
{
    let end = names.next_number()?;
    let other = header_of(names, id);
    names.take(Taken {
        first: at.header,
        end,
        other,
    })?;
    at.function = Some(id);
    at.result = new.mark;
    at.header_end = end;
    Ok(())
}

/// The function is declared at the end of its body.
fn body_begun(names: &Names, at: &mut At<'_>, new: &Declaration) -> Result<(), AllocError>
    ensures { OnOk result (at.new ≡ (body_begun names.now new.now (gives at.old names.now nothing None)).at) }
{
    let end = names.next_number()?;
    let regions = names.next_region()?;
    at.function = None;
    at.result = new.mark;
    at.header_end = end;
    at.header_regions = regions;
    Ok(())
}

/// The one or the other.
fn header_ends_as(
    names: &mut Names,
    at: &mut At<'_>,
    known: Option<DeclId>,
    new: &Declaration,
) -> Result<(), AllocError>
    ensures design { OnOk result (names.new ≡ (header_ends_as known at.old names.old new.now (gives at.old names.old nothing None)).design) }
    ensures at { OnOk result (at.new ≡ (header_ends_as known at.old names.old new.now (gives at.old names.old nothing None)).at) }
{
    match known {
        None => body_begun(names, at, new),
        Some(id) => body_known(names, at, id, new),
    }
}

/// The end of the header of a body, given what the type of its result came to, which is at hand.
pub fn end_header(
    alloc: Global,
    names: &mut Names,
    at: &mut At<'_>,
    made: Made,
) -> Result<Made, AllocError>
    ensures is { IfOk result (λ ended. (store : List (Forest Node)) (tree : Forest Node) → Holds store made.tree tree
        → IsMade store names.new ended (header_ends (gives at.old names.old tree made.first))) }
    ensures at { OnOk result ((tree : Forest Node) → at.new ≡ (header_ends (gives at.old names.old tree made.first)).at) }
{
    let new = function_read(alloc, names, at, at.region)?;
    let known = declaration_of_body(alloc, names, at, &new)?;
    header_ends_as(names, at, known, &new)?;
    Ok(made)
}

/// The type of the result of a body, with which its header ends.
pub fn result_mark<'a>(
    alloc: Global,
    names: &mut Names,
    at: &mut At<'a>,
    node: &Opened<'a, Form>,
    out: &mut Store<Resolved>,
) -> Result<Made, AllocError>
    ensures is { IfOk result (λ made. IsMade out.new names.new made
        (header_ends (mark at.old names.old node.now.place (more node.now.form node.now.text.now node.now.place node.now.parts nothing)))) }
    ensures at { OnOk result (at.new
        ≡ (header_ends (mark at.old names.old node.now.place (more node.now.form node.now.text.now node.now.place node.now.parts nothing))).at) }
    ensures extends { Extends out.old out.new }
{
    fits_are_tests();
    let mut single = Store::new(alloc);
    let number = one_tree(node, &mut single)?;
    let tree = single.cursor(number);
    let found = named_as(alloc, names, at, Fit::Mark, node.place, &tree, out)?;
    at.named = found.named;
    at.mark = found.mark;
    let made = Made {
        tree: found.tree,
        first: found.first,
    };
    let ended = end_header(alloc, names, at, made)?;
    Ok(ended)
}
