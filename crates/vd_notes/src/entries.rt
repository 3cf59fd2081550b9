//! What a text declares.

ghost use Rattle.std.specs.Prelude.{◌≡◌, ◌<◌, ◌+◌, ◌*◌, ◌++◌, IfOk, OnOk, map};
ghost use Rattle.vd_forest.specs.Forest.{size};
ghost use Rattle.vd_notes.specs.Entries.{all_of, entries, first_declaration, home_in as home_inside, made_at, made_in as numbers_made, mark_in as mark_inside, named, one_of, own_entries};
ghost use Rattle.vd_notes.specs.Lefts.{all_left, work};

use crate::declares::{Names, Row, row_of};
use std::alloc::{AllocError, Global};
use vd_declarations::DeclId;
use vd_forest::{Cursor, Opened};
use vd_resolved::Resolved;

/// A declaration that a text makes.
#[derive(Clone, Copy, PartialEq, Eq, Debug)]
pub struct Entry {
    pub number: u32,
    /// The unit that declares it.
    pub home: Option<u32>,
    /// The type or subtype that it was given with. An architecture has its entity there.
    pub mark: Option<u32>,
}

/// The number of a declaration, where there is one.
pub fn number_of(declaration: &Option<DeclId>) -> Option<u32>
    ensures { result ≡ declaration.now }
{
    match declaration {
        Some(id) => Some(id.number()),
        None => None,
    }
}

/// The number at the first tree's node.
pub fn first_number(trees: &Cursor<'_, Resolved>) -> Option<u32>
    ensures { result ≡ first_declaration trees.now }
{
    let first = trees.open()?;
    number_of(&first.form.declaration)
}

/// The number at a node, or at its first part.
pub fn number_at(node: &Opened<'_, Resolved>) -> Option<u32>
    ensures { result ≡ made_at node.now.form node.now.parts }
{
    match number_of(&node.form.declaration) {
        Some(number) => Some(number),
        None => first_number(&node.parts),
    }
}

/// What the mark of a node names.
fn mark_in(place: Option<u32>, parts: &Cursor<'_, Resolved>) -> Option<u32>
    ensures { result ≡ mark_inside place parts.now }
{
    let place = place?;
    let first = parts.skip(place).open()?;
    number_at(&first)
}

/// The unit of what a node and its parts declare.
fn home_in(row: &Row, home: Option<u32>, node: &Opened<'_, Resolved>) -> Option<u32>
    ensures { result ≡ home_inside row.now home node.now.form node.now.parts }
{
    if !row.is_unit {
        return home;
    }
    match number_at(node) {
        Some(number) => Some(number),
        None => home,
    }
}

/// Puts a declaration behind the others, where there is one.
fn add_one(
    number: Option<u32>,
    home: Option<u32>,
    mark: Option<u32>,
    found: &mut Vec<Entry>,
) -> Result<(), AllocError>
    ensures { OnOk result (found.new.items ≡ found.old.items ++ one_of home mark number) }
{
    if let Some(number) = number {
        found.push(Entry { number, home, mark })?;
    }
    Ok(())
}

/// Puts what some trees declare behind the others.
#[tactic(auto, using(crate::proofs::EntryLemmas::adding))]
fn add_all(
    trees: &Cursor<'_, Resolved>,
    home: Option<u32>,
    mark: Option<u32>,
    found: &mut Vec<Entry>,
) -> Result<(), AllocError>
    ensures { OnOk result (found.new.items ≡ found.old.items ++ all_of home mark trees.now) }
{
    let mut rest = trees.fork();
    while let Some(first) = rest.open() {
        add_one(number_of(&first.form.declaration), home, mark, found)?;
        rest = first.next;
    }
    Ok(())
}

/// Puts what a node declares behind the others.
fn add_named(
    names: Names,
    home: Option<u32>,
    mark: Option<u32>,
    node: &Opened<'_, Resolved>,
    found: &mut Vec<Entry>,
) -> Result<(), AllocError>
    ensures { OnOk result (found.new.items ≡ found.old.items ++ named names home mark node.now.form node.now.parts) }
{
    match names {
        Names::Nowhere => Ok(()),
        Names::Itself => add_one(number_at(node), home, mark, found),
        Names::First => add_one(first_number(&node.parts), home, mark, found),
        Names::List(place) => add_all(&node.parts.skip(place).parts(), home, mark, found),
        Names::All => add_all(&node.parts, home, mark, found),
    }
}

/// Trees that are still to be walked, and the unit in which they stand.
#[derive(Drop)]
struct Left<'a> {
    trees: Cursor<'a, Resolved>,
    home: Option<u32>,
}

/// Puts what the first of some trees declares itself behind the others, and what is in its parts and behind it in front of what waits.
#[tactic(auto, using(crate::proofs::EntryLemmas::opening))]
fn open_next<'a>(
    next: &Left<'a>,
    left: &mut Vec<Left<'a>>,
    found: &mut Vec<Entry>,
) -> Result<(), AllocError>
    ensures found { OnOk result (found.new.items ++ all_left left.new.items
        ≡ found.old.items ++ (entries next.now.home next.now.trees ++ all_left left.old.items)) }
    ensures fewer { OnOk result (work left.new.items < work left.old.items + (2 * size next.now.trees + 1)) }
{
    let Some(first) = next.trees.open() else {
        return Ok(());
    };
    let row = row_of(first.form.form);
    let home = home_in(&row, next.home, &first);
    let mark = mark_in(row.mark, &first.parts);
    add_named(row.names, home, mark, &first, found)?;
    left.push(Left {
        trees: first.next,
        home: next.home,
    })?;
    left.push(Left {
        trees: first.parts,
        home,
    })?;
    Ok(())
}

/// What a text declares, in its order, where it stands in a unit or in none.
#[tactic(auto, using(crate::proofs::EntryLemmas::walking))]
pub fn declared_in(
    alloc: Global,
    text: &Cursor<'_, Resolved>,
    home: Option<u32>,
) -> Result<Vec<Entry>, AllocError>
    ensures { IfOk result (λ found. found.items ≡ entries home text.now) }
{
    let mut found: Vec<Entry> = Vec::new(alloc);
    let mut left: Vec<Left<'_>> = Vec::new(alloc);
    left.push(Left {
        trees: text.fork(),
        home,
    })?;
    while let Some(next) = left.pop() {
        open_next(&next, &mut left, &mut found)?;
    }
    Ok(found)
}

/// The numbers of the declarations that a text makes, in its order.
pub fn made_in(alloc: Global, text: &Cursor<'_, Resolved>) -> Result<Vec<u32>, AllocError>
    ensures { IfOk result (λ numbers. numbers.items ≡ numbers_made text.now) }
{
    let found = declared_in(alloc, text, None)?;
    let mut numbers: Vec<u32> = Vec::new(alloc);
    for entry in &found {
        numbers.push(entry.number)?;
    }
    Ok(numbers)
}
