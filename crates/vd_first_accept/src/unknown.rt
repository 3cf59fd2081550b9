//! The first name that is no port.

ghost use Rattle.std.specs.Prelude.{◌≡◌, OnOk, IfOk, None, ℕ, List};
ghost use Rattle.vd_first_passes.specs.Lowering.{names_in, tree_names, is_among};
ghost use Rattle.vd_first_accept.specs.Unknown.{listed_names, tree_listed, texts_in, first_outside, first_unknown, with_all};

use std::alloc::{AllocError, Global};
use vd_bytes::Place;
use vd_first_passes::NameSet;
use vd_first_trees::Form;
use vd_first_trees::form_tests::{is_identifier_list, is_name};
use vd_forest::{Cursor, Opened};

/// The place of the first name of some design units, in the order of the text, that is no port.
pub fn find_unknown(alloc: Global, units: &Cursor<'_, Form>) -> Result<Option<Place>, AllocError>
    ensures { IfOk result (λ place. place ≡ first_unknown units.now) }
{
    let mut ports = NameSet::new(alloc);
    add_listed(&mut ports, units)?;
    Ok(find_outside(&ports, units))
}

// Puts the identifiers of the lists in.
#[cycle(listing)]
fn add_listed(ports: &mut NameSet, trees: &Cursor<'_, Form>) -> Result<(), AllocError>
    ensures { OnOk result (ports.new ≡ with_all ports.old (listed_names trees.now)) }
{
    let mut left = trees.fork();
    while let Some(first) = left.open() {
        add_tree(ports, &first)?;
        left = first.next;
    }
    Ok(())
}

// The same of one tree.
#[cycle(listing)]
fn add_tree(ports: &mut NameSet, tree: &Opened<'_, Form>) -> Result<(), AllocError>
    ensures { OnOk result (ports.new ≡ with_all ports.old (tree_listed tree.now.form tree.now.parts)) }
{
    if is_identifier_list(tree.form) {
        add_texts(ports, &tree.parts)
    } else {
        add_listed(ports, &tree.parts)
    }
}

// Puts the texts of some leaves in.
fn add_texts(ports: &mut NameSet, leaves: &Cursor<'_, Form>) -> Result<(), AllocError>
    ensures { OnOk result (ports.new ≡ with_all ports.old (texts_in leaves.now)) }
{
    let mut left = leaves.fork();
    while let Some(first) = left.open() {
        ports.insert(first.text)?;
        left = first.next;
    }
    Ok(())
}

// The first name of some trees that isn't there.
#[cycle(outside)]
fn find_outside(known: &NameSet, trees: &Cursor<'_, Form>) -> Option<Place>
    ensures { result ≡ first_outside known.now (names_in trees.now) }
{
    let mut left = trees.fork();
    while let Some(first) = left.open() {
        let place = find_in_tree(known, &first);
        if place.is_some() {
            return place;
        }
        left = first.next;
    }
    None
}

// The same of one tree.
#[cycle(outside)]
fn find_in_tree(known: &NameSet, tree: &Opened<'_, Form>) -> Option<Place>
    ensures { result ≡ first_outside known.now (tree_names tree.now.form tree.now.text.now tree.now.place tree.now.parts) }
{
    if !is_name(tree.form) {
        return find_outside(known, &tree.parts);
    }
    if known.contains(tree.parts.text()) {
        None
    } else {
        Some(tree.place)
    }
}
