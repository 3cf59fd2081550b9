//! Facets of what the first of some trees means. Each is that of the tree at the end of a chain of nodes that mean what a part of theirs means.

ghost use Rattle.std.specs.Prelude.{◌≡◌, ◌≤◌, [], MatchOption, map};
ghost use Rattle.vd_forest.specs.Forest.{size};
ghost use Rattle.vd_operations.specs.Passing.{first_named, last_tree};
ghost use Rattle.vd_meaning.specs.Brackets.{is_positional as is_by_position};
ghost use Rattle.vd_meaning.specs.Facets.{nth};
ghost use Rattle.vd_meaning.specs.Meanings.{formal_named, made, map_element, meanings};
ghost use Rattle.vd_meaning.specs.Names.{number_or};
ghost use Rattle.vd_meaning.specs.Tables.{Table};

use crate::passing::{Passing, passing_of};
use vd_declarations::DeclId;
use vd_forest::Cursor;
use vd_resolved::Resolved;

/// The last tree.
fn last<'a>(trees: &Cursor<'a, Resolved>) -> Cursor<'a, Resolved>
    ensures is { result ≡ last_tree trees.now }
    ensures within { size result ≤ size trees.now }
{
    let mut rest = trees.fork();
    while let Some(first) = rest.open() {
        if first.next.form().is_none() {
            return rest;
        }
        rest = first.next;
    }
    rest
}

/// The declaration that the first tree names or makes.
pub fn declaration_of(trees: &Cursor<'_, Resolved>) -> Option<DeclId>
    ensures { (t : Table) → result ≡ (nth 0 (meanings t trees.now)).declaration }
{
    let mut rest = trees.fork();
    while let Some(first) = rest.open() {
        match passing_of(first.form.form) {
            Passing::Nothing => return None,
            Passing::First | Passing::OpenFirst => rest = first.parts,
            Passing::Second => rest = first.parts.skip(1),
            Passing::Last => {
                if first.form.declaration.is_some() {
                    return first.form.declaration;
                }
                rest = last(&first.parts);
            }
            _ => return first.form.declaration,
        }
    }
    None
}

/// The number of what a node declares, which it carries itself or the first of these trees; 0 where there is none.
pub fn number_made(node: &Resolved, trees: &Cursor<'_, Resolved>) -> DeclId
    ensures { (t : Table) → result ≡ number_or (made node.now (nth 0 (meanings t trees.now))) }
{
    match node.declaration.or(declaration_of(trees)) {
        Some(number) => number,
        None => DeclId::of(0),
    }
}

/// What the first of the choices of the first tree names.
fn named_first(trees: &Cursor<'_, Resolved>) -> Option<DeclId>
    ensures { (t : Table) → result ≡ first_named (nth 0 (meanings t trees.now)).choices }
{
    let mut rest = trees.fork();
    while let Some(first) = rest.open() {
        match passing_of(first.form.form) {
            Passing::First | Passing::OpenFirst | Passing::Second => rest = first.parts,
            Passing::Choices => return declaration_of(&first.parts),
            _ => return None,
        }
    }
    None
}

/// What the first tree, as an element of a map, names in front of `=>`.
pub fn formal_of(trees: &Cursor<'_, Resolved>) -> Option<DeclId>
    ensures { (t : Table) → result ≡ formal_named (nth 0 (meanings t trees.now)).association (nth 0 (meanings t trees.now)).choices }
{
    let mut rest = trees.fork();
    while let Some(first) = rest.open() {
        match passing_of(first.form.form) {
            Passing::OpenFirst => rest = first.parts,
            Passing::Second => return named_first(&first.parts),
            _ => return None,
        }
    }
    None
}

/// Whether the first tree is there.
pub fn is_present(trees: &Cursor<'_, Resolved>) -> bool
    ensures { (t : Table) → result ≡ (nth 0 (meanings t trees.now)).is_present }
{
    let mut rest = trees.fork();
    while let Some(first) = rest.open() {
        match passing_of(first.form.form) {
            Passing::Nothing => return false,
            Passing::First | Passing::OpenFirst => rest = first.parts,
            Passing::Second => rest = first.parts.skip(1),
            _ => return true,
        }
    }
    false
}

/// Whether the first tree is `open`.
pub fn is_open(trees: &Cursor<'_, Resolved>) -> bool
    ensures { (t : Table) → result ≡ (nth 0 (meanings t trees.now)).is_open }
{
    let mut rest = trees.fork();
    while let Some(first) = rest.open() {
        match passing_of(first.form.form) {
            Passing::First => rest = first.parts,
            Passing::Second => rest = first.parts.skip(1),
            Passing::OpenFirst | Passing::Open => return true,
            _ => return false,
        }
    }
    false
}

/// The elements of the first tree, where it is a generic map.
pub fn elements_of<'a>(trees: &Cursor<'a, Resolved>) -> Option<Cursor<'a, Resolved>>
    ensures { MatchOption result ((t : Table) → (nth 0 (meanings t trees.now)).elements ≡ [])
        (λ elements. (t : Table) → (nth 0 (meanings t trees.now)).elements ≡ map map_element (meanings t elements)) }
{
    let mut rest = trees.fork();
    while let Some(first) = rest.open() {
        match passing_of(first.form.form) {
            Passing::First | Passing::OpenFirst => rest = first.parts,
            Passing::Second => rest = first.parts.skip(1),
            Passing::Map => return Some(first.parts),
            _ => return None,
        }
    }
    None
}

/// Whether the first tree, as an element in brackets, stands for its position, and not for what it names in front of `=>` or for all others.
pub fn is_positional(trees: &Cursor<'_, Resolved>) -> bool
    ensures { (t : Table) → result ≡ is_by_position (nth 0 (meanings t trees.now)).association }
{
    let mut rest = trees.fork();
    while let Some(first) = rest.open() {
        match passing_of(first.form.form) {
            Passing::OpenFirst => rest = first.parts,
            Passing::First | Passing::Second => return false,
            _ => return true,
        }
    }
    true
}
