//! Trees that stand side by side and have no parent yet.

ghost use Rattle.std.specs.Prelude.{◌≡◌, ◌≤◌, ◌<◌, ◌-◌, length, take, drop, map, IfOk, OnOk, Some, slice_get, not, ◌&&◌};
ghost use Rattle.std.specs.List.{AllByRecursion};
ghost use Rattle.vd_forest.specs.Forest.{more};
ghost use Rattle.vd_forest.specs.Store.{at, Holds, Extends};
ghost use Rattle.vd_forms.specs.Validity.{is_bracketed, is_one_expression};
ghost use Rattle.vd_forms.specs.Forms.{same_form};
ghost use Rattle.vd_shapes.specs.Shapes.{text_at, place_at, text_in, place_in, settled, without_brackets};
ghost use Rattle.vd_shapes.specs.Standing.{tree_of, trees_of, planted_all, planted, IsEntryOf};

use std::alloc::AllocError;
use vd_bytes::Place;
use vd_forest::{Cursor, Store};
use vd_forms::{Form, is_expression};
use vd_tokens::Tokens;

/// A tree: its form, the number of its first token, whether it is a leaf with that token's text,
/// and the number of its parts in the store.
#[derive(Clone, Copy, Drop)]
pub(crate) struct Entry {
    pub(crate) form: Form,
    pub(crate) first: u32,
    pub(crate) is_leaf: bool,
    pub(crate) parts: u32,
}

/// The place of no token.
const NO_PLACE: Place = Place {
    file: 0,
    line: 0,
    column: 0,
};

/// The place of the token with a number.
fn place_at(tokens: &Tokens, number: u32) -> Place
    ensures { result ≡ place_at tokens.now number }
{
    if (number as usize) < tokens.len() {
        tokens.get(number as usize).place
    } else {
        NO_PLACE
    }
}

/// The text of an entry.
fn text_of<'a>(tokens: &'a Tokens, entry: Entry) -> &'a [u8]
    ensures { (store : _) → result.now ≡ (tree_of store tokens.now entry).text }
{
    if entry.is_leaf && (entry.first as usize) < tokens.len() {
        tokens.get(entry.first as usize).text
    } else {
        &[]
    }
}

fn is_aggregate(form: Form) -> bool
    ensures { result ≡ same_form form Form.Aggregate }
{
    matches!(form, Form::Aggregate)
}

/// Whether a forest is one expression.
fn is_one_expression(store: &Store<Form>, number: u32) -> bool
    requires { number ≤ length store.now }
    ensures { result ≡ is_one_expression (at store.now number) }
{
    match store.cursor(number).open() {
        None => false,
        Some(first) => is_alone(&first.next, first.form),
    }
}

/// Whether a tree of this form is an expression, and nothing stands behind it.
fn is_alone(behind: &Cursor<'_, Form>, form: Form) -> bool
    ensures { (text : _) (place : _) (parts : _) → result ≡ is_one_expression (more form text place parts behind.now) }
{
    match behind.open() {
        None => is_expression(form),
        Some(_) => false,
    }
}

/// Whether an entry stands for brackets round one expression that leave no node.
fn loses_brackets(store: &Store<Form>, entry: Entry, keep: bool) -> bool
    requires { entry.parts ≤ length store.now }
    ensures { result ≡ (not keep && is_bracketed entry.form (at store.now entry.parts)) }
{
    !keep && is_aggregate(entry.form) && is_one_expression(store, entry.parts)
}

/// Puts an entry's tree in front of a forest, without its brackets where they don't stay.
#[tactic(auto, using(crate::proofs::EntryLemmas::planting))]
fn plant(
    store: &mut Store<Form>,
    tokens: &Tokens,
    entry: Entry,
    keep: bool,
    next: u32,
) -> Result<u32, AllocError>
    requires parts_in { entry.parts ≤ length store.old }
    requires next_in { next ≤ length store.old }
    ensures holds { IfOk result (λ made. Holds store.new made (without_brackets (not keep && is_bracketed entry.form (at store.old entry.parts))
        entry.form (tree_of store.old tokens.now entry).text (place_at tokens.now entry.first) (at store.old entry.parts) (at store.old next))) }
    ensures extends { Extends store.old store.new }
{
    if loses_brackets(store, entry, keep) {
        let made = store.relink(entry.parts, next)?;
        return Ok(made);
    }
    let text = text_of(tokens, entry);
    let made = store.add(
        entry.form,
        text,
        place_at(tokens, entry.first),
        entry.parts,
        next,
    )?;
    Ok(made)
}

/// Takes the entries from a base on, and makes a forest of them. Brackets of the first trees of
/// it stay or not.
#[tactic(auto, using(crate::proofs::EntryLemmas::gathering))]
pub(crate) fn gather(
    store: &mut Store<Form>,
    tokens: &Tokens,
    entries: &mut Vec<Entry>,
    base: u32,
    keep: bool,
) -> Result<u32, AllocError>
    requires base_in { base ≤ length entries.old.items }
    requires within { AllByRecursion (IsEntryOf (length store.old)) entries.old.items }
    ensures left { OnOk result (entries.new.items ≡ take base entries.old.items) }
    ensures holds { IfOk result (λ made. Holds store.new made
        (settled keep (planted_all (trees_of store.old tokens.now (drop base entries.old.items))))) }
    ensures extends { Extends store.old store.new }
{
    let mut made = 0;
    while entries.len() > base as usize {
        if let Some(entry) = entries.pop() {
            made = plant(store, tokens, entry, keep, made)?;
        }
    }
    Ok(made)
}

/// Whether the entries from a base on are one, and it is an expression.
#[tactic(auto, using(crate::proofs::EntryLemmas::one_alone, crate::proofs::EntryLemmas::others_not_alone))]
pub(crate) fn are_one_expression(entries: &[Entry], base: u32) -> bool
    requires { base ≤ length entries.now }
    ensures { (store : _) (tokens : _) → result ≡ is_one_expression (planted_all (trees_of store tokens (drop base entries.now))) }
{
    if entries.len() != base as usize + 1 {
        return false;
    }
    is_expression(entries[base as usize].form)
}
