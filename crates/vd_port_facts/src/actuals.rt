//! The actuals of a generic map, as far as is asked whether a generic has one.

ghost use Rattle.std.specs.Prelude.{◌≡◌, ◌++◌, IfOk, OnOk, drop, map, nat_eq, ℕ};
ghost use Rattle.std.specs.HashMap.{get};
ghost use Rattle.vd_meaning.specs.Parts.{parts as parts_of};
ghost use Rattle.vd_forest.specs.Forest.{skipped};
ghost use Rattle.vd_meaning.specs.Tables.{Table};
ghost use Rattle.vd_port_facts.specs.Needed.{is_no_placed as no_placed, left_out, open_for};
ghost use Rattle.vd_port_facts.specs.Reading.{actuals_by as actuals_of_form, formal_by as formal_of_form, formal_first, is_map as maps, part_first, read_actual, read_element};

use crate::trees::last_of;
use std::alloc::{AllocError, Global};
use std::collections::HashMap;
use std::marker::Model;
use vd_declarations::DeclId;
use vd_forest::Cursor;
use vd_forms::Form;
use vd_operations::is_open;
use vd_resolved::Resolved;

/// An actual: the generic that is named in front of `=>`, and whether it is `open`.
#[derive(Clone, Copy)]
pub struct ListedActual {
    pub formal: Option<DeclId>,
    pub is_open: bool,
}

/// What the first tree, in front of `=>`, names.
fn formal_of_first(trees: &Cursor<'_, Resolved>) -> Option<DeclId>
    ensures { (t : Table) → result ≡ formal_first t trees.now }
{
    let mut rest = trees.fork();
    while let Some(first) = rest.open() {
        match first.form.form {
            Form::Identifier => return first.form.declaration,
            Form::Name => {
                if first.form.declaration.is_some() {
                    return first.form.declaration;
                }
                rest = last_of(&first.parts);
            }
            Form::Arguments => rest = first.parts,
            Form::AssociationChoices => rest = first.parts,
            Form::Association => rest = first.parts,
            _ => return None,
        }
    }
    None
}

/// The generic that an element of a map names.
fn formal_by(form: Form, parts: &Cursor<'_, Resolved>) -> Option<DeclId>
    ensures { (t : Table) → result ≡ formal_of_form form t parts.now }
{
    match form {
        Form::Association => formal_of_first(parts),
        _ => None,
    }
}

/// The generic that the first tree, as an element of a map, names.
fn formal_in_map(trees: &Cursor<'_, Resolved>) -> Option<DeclId>
    ensures { (t : Table) → result ≡ (read_element (part_first t trees.now)).formal }
{
    match trees.open() {
        Some(first) => formal_by(first.form.form, &first.parts),
        None => None,
    }
}

/// The first tree as an element of a map.
fn element_of_first(trees: &Cursor<'_, Resolved>) -> ListedActual
    ensures { (t : Table) → result ≡ read_element (part_first t trees.now) }
{
    ListedActual {
        formal: formal_in_map(trees),
        is_open: is_open(trees),
    }
}

/// The elements of a map.
fn elements_in(alloc: Global, trees: &Cursor<'_, Resolved>) -> Result<Vec<ListedActual>, AllocError>
    ensures { IfOk result (λ found. (t : Table) → found.items ≡ map read_element (parts_of t trees.now)) }
{
    let mut found = Vec::new(alloc);
    let mut rest = trees.fork();
    while let Some(first) = rest.open() {
        found.push(element_of_first(&rest))?;
        rest = first.next;
    }
    Ok(found)
}

fn is_map(form: Form) -> bool
    ensures { result ≡ maps form }
{
    match form {
        Form::GenericMap => true,
        Form::PortMap => true,
        _ => false,
    }
}

/// The actuals of a node with these parts, where it is a map.
fn actuals_by(
    alloc: Global,
    form: Form,
    parts: &Cursor<'_, Resolved>,
) -> Result<Vec<ListedActual>, AllocError>
    ensures { IfOk result (λ found. (t : Table) → found.items ≡ actuals_of_form form t parts.now) }
{
    if is_map(form) {
        elements_in(alloc, parts)
    } else {
        Ok(Vec::new(alloc))
    }
}

/// The actuals of the first tree, where it is a map.
fn actuals_of_first(
    alloc: Global,
    trees: &Cursor<'_, Resolved>,
) -> Result<Vec<ListedActual>, AllocError>
    ensures { IfOk result (λ found. (t : Table) → found.items ≡ map read_actual (part_first t trees.now).actuals) }
{
    match trees.open() {
        Some(first) => actuals_by(alloc, first.form.form, &first.parts),
        None => Ok(Vec::new(alloc)),
    }
}

/// Which generics are named, and whether the first actual that names each is `open`. The last is put first, so that the first counts.
fn opens_of(alloc: Global, listed: &[ListedActual]) -> Result<HashMap<u32, bool>, AllocError>
    ensures { IfOk result (λ opens. (n : ℕ) → get nat_eq opens n ≡ open_for listed.now n) }
{
    let mut opens = HashMap::new(alloc);
    let mut left = listed.len();
    while left > 0 {
        left -= 1;
        if let Some(formal) = listed[left].formal {
            opens.insert(formal.number(), listed[left].is_open)?;
        }
    }
    Ok(opens)
}

/// Whether no actual stands at a place alone.
#[tactic(auto, using(crate::proofs::LoopLemmas::placed_actuals))]
fn is_no_placed(listed: &[ListedActual], place: usize) -> bool
    ensures { result ≡ no_placed (drop place listed.now) }
{
    if place < listed.len() {
        let actual = listed[place];
        actual.formal.is_some() || actual.is_open
    } else {
        true
    }
}

/// The place so many behind another, or one behind all.
#[tactic(auto, using(crate::proofs::LoopLemmas::places_behind))]
fn place_behind(listed: &[ListedActual], place: usize, count: usize) -> usize
    ensures { drop result listed.now ≡ drop count (drop place listed.now) }
{
    let rest = listed.len().saturating_sub(place);
    if count < rest {
        place + count
    } else {
        listed.len()
    }
}

/// The actuals of an instance. Contracts see the list of them.
#[derive(Drop)]
pub struct Actuals {
    listed: Vec<ListedActual>,
    opens: HashMap<u32, bool>,
}

impl Model for Actuals {
    ghost use Rattle.std.specs.Prelude.{◌≡◌, ℕ, List, nat_eq};
    ghost use Rattle.std.specs.HashMap.{get};
    ghost use Rattle.vd_port_facts.specs.declared.actuals.ListedActual.{ListedActual};
    ghost use Rattle.vd_port_facts.specs.Needed.{open_for};

    ghost Value = { List ListedActual };

    ghost view = { λ a. a.listed.items };

    ghost invariant = { λ a. (n : ℕ) → get nat_eq a.opens n ≡ open_for a.listed.items n };
}

impl Actuals {
    /// Those of the generics of an instance with these parts.
    pub fn of(alloc: Global, parts: &Cursor<'_, Resolved>) -> Result<Actuals, AllocError>
        ensures { IfOk result (λ actuals. (t : Table) → actuals ≡ map read_actual (part_first t (skipped 2 parts.now)).actuals) }
    {
        let listed = actuals_of_first(alloc, &parts.skip(2))?;
        let opens = opens_of(alloc, &listed)?;
        Ok(Actuals { listed, opens })
    }

    /// Whether a generic has no actual, of which the one at its place is this.
    pub fn leaves_out(&self, place: usize, number: DeclId) -> bool
        ensures { result ≡ left_out (open_for self.now number) (no_placed (drop place self.now)) }
    {
        match self.opens.get(&number.number()) {
            Some(is_open) => *is_open,
            None => is_no_placed(&self.listed, place),
        }
    }

    /// The place so many behind another, or one behind all.
    pub fn place_behind(&self, place: usize, count: usize) -> usize
        ensures { drop result self.now ≡ drop count (drop place self.now) }
    {
        place_behind(&self.listed, place, count)
    }
}
