//! Types that are made and read.

ghost use Rattle.std.specs.Prelude.{◌≤◌, IfOk, length};
ghost use Rattle.vd_forest.specs.Store.{Extends};

use anyhow::bail;
use std::alloc::{AllocError, Global};
use vd_composites::Bounds;
use vd_forest::{Cursor, Store};
use vd_value_rules::array_facts::{array_bounds, static_length};
use vd_value_rules::arrays::array_of_any_bounds;
use vd_value_rules::constraints::narrowed;
use vd_value_rules::inside::InsideTable;
use vd_value_rules::part_facts::{element, field as field_of, index_literals, literals};
use vd_value_rules::parts::{field, literal};
use vd_value_rules::types::{enumeration, record_type};
use vd_value_rules::{IndicatedForm, StaticSort, all_bounds};

/// The type (red, green, blue).
#[tactic(auto, using(vd_forest::proofs::StoreLemmas::growing))]
fn colours(store: &mut Store<IndicatedForm>) -> Result<u32, AllocError>
    ensures within { IfOk result (λ number. number ≤ length store.new) }
    ensures extends { Extends store.old store.new }
{
    let blue = literal(store, b"blue", 0)?;
    let green = literal(store, b"green", blue)?;
    let red = literal(store, b"red", green)?;
    let made = enumeration(store, red)?;
    Ok(made)
}

/// Arrays of colours with an index that is a colour, here from red to green.
#[tactic(auto, using(vd_forest::proofs::StoreLemmas::growing))]
fn two_colours(store: &mut Store<IndicatedForm>, known: StaticSort) -> Result<u32, AllocError>
    ensures within { IfOk result (λ number. number ≤ length store.new) }
    ensures extends { Extends store.old store.new }
{
    let colour = colours(store)?;
    let arrays = array_of_any_bounds(store, colour, known, colour)?;
    let range = Bounds {
        left: 0,
        right: 1,
        down: false,
    };
    let made = narrowed(store, arrays, Some(range), known)?;
    Ok(made)
}

/// Records with a field `first` that is a colour, and a field `others` of two colours.
#[tactic(auto, using(vd_forest::proofs::StoreLemmas::growing))]
fn palettes(store: &mut Store<IndicatedForm>, known: StaticSort) -> Result<u32, AllocError>
    ensures within { IfOk result (λ number. number ≤ length store.new) }
    ensures extends { Extends store.old store.new }
{
    let two = two_colours(store, known)?;
    let colour = colours(store)?;
    let others = field(store, b"others", two, 0)?;
    let fields = field(store, b"first", colour, others)?;
    let made = record_type(store, fields)?;
    Ok(made)
}

/// Adds a word behind a text.
fn add(text: &mut String, word: &str) -> Result<(), AllocError> {
    if !text.is_empty() {
        text.push(' ')?;
    }
    text.push_str(word)
}

/// Bytes as a text, where they are one.
fn text_of(bytes: &[u8]) -> &str {
    match str::from_utf8(bytes) {
        Ok(text) => text,
        Err(_) => "?",
    }
}

/// The texts of the trees side by side.
fn texts(alloc: Global, from: &Cursor<'_, IndicatedForm>) -> Result<String, AllocError> {
    let mut text = String::new(alloc);
    let mut left = from.fork();
    for _ in 0..100 {
        let Some(first) = left.open() else {
            break;
        };
        add(&mut text, text_of(first.text))?;
        left = first.next;
    }
    Ok(text)
}

/// A length, or that there is none.
fn length(alloc: Global, subtype: &Cursor<'_, IndicatedForm>) -> Result<String, AllocError> {
    match static_length(subtype) {
        Some(length) => format!(in alloc; "{length}"),
        None => String::from_str(alloc, "none"),
    }
}

/// The bounds of an array, or that there are none.
fn bounds(alloc: Global, subtype: &Cursor<'_, IndicatedForm>) -> Result<String, AllocError> {
    match array_bounds(subtype) {
        Some(bounds) => format!(in alloc; "{bounds:?}"),
        None => String::from_str(alloc, "none"),
    }
}

/// Whether all bounds of a subtype are known from the text alone, or by the elaboration.
fn known(alloc: Global, subtype: &Cursor<'_, IndicatedForm>) -> Result<String, AllocError> {
    let sort = all_bounds(alloc, subtype)?;
    let local = sort.is_local;
    let global = sort.is_global;
    format!(in alloc; "{local} {global}")
}

/// A part of a subtype.
fn part<'a>(from: Cursor<'a, IndicatedForm>, word: &str) -> Cursor<'a, IndicatedForm> {
    match word {
        "first" => field_of(&from, 0),
        "others" => field_of(&from, 1),
        "element" => element(&from),
        _ => from,
    }
}

/// A part of a part, as the words say in order.
fn part_of<'a>(from: Cursor<'a, IndicatedForm>, words: &str) -> Cursor<'a, IndicatedForm> {
    let mut part_so_far = from;
    for word in words.split('.') {
        part_so_far = part(part_so_far, word);
    }
    part_so_far
}

/// What is asked of a subtype.
fn asked(alloc: Global, subtype: &Cursor<'_, IndicatedForm>, kind: &str) -> anyhow::Result<String> {
    match kind {
        "literals" => Ok(texts(alloc, &literals(subtype))?),
        "index_literals" => Ok(texts(alloc, &index_literals(subtype))?),
        "bounds" => Ok(bounds(alloc, subtype)?),
        "length" => Ok(length(alloc, subtype)?),
        "known" => Ok(known(alloc, subtype)?),
        _ => bail!("there is no question {kind}"),
    }
}

/// The subtype of a word, whose bounds are known from the text alone or only in a run.
fn made(store: &mut Store<IndicatedForm>, word: &str, known: StaticSort) -> Result<u32, AllocError>
    ensures { IfOk result (λ number. number ≤ length store.new) }
{
    match word {
        "two_colours" => two_colours(store, known),
        _ => palettes(store, known),
    }
}

/// When the bounds are known that a word says.
fn sort(word: &str) -> StaticSort {
    if word == "always" {
        StaticSort::always()
    } else {
        StaticSort::never()
    }
}

/// What is asked of a part of a subtype.
fn of_part(alloc: Global, words: [&str; 4]) -> anyhow::Result<String> {
    let [name, known, path, kind] = words;
    let mut store = Store::new(alloc);
    let number = made(&mut store, name, sort(known))?;
    let subtype = part_of(store.cursor(number), path);
    asked(alloc, &subtype, kind)
}

/// What the bounds of a subtype are inside, and whether what is inside is made again.
fn inside(alloc: Global) -> Result<String, AllocError> {
    let mut store = Store::new(alloc);
    let number = palettes(&mut store, StaticSort::always())?;
    let mut table = InsideTable::new(alloc);
    let inside = table.inside(&mut store, number)?;
    let again = table.inside(&mut store, inside)?;
    let known = known(alloc, &store.cursor(inside))?;
    let same = again == inside;
    let text = known.as_str();
    format!(in alloc; "{text} {same}")
}

/// The answer of `SUBTYPE KNOWN PART QUESTION`, or `inside`.
pub fn answer(alloc: Global, words: &str) -> anyhow::Result<String> {
    if words == "inside" {
        return Ok(inside(alloc)?);
    }
    let words: Vec<&str> = words.split(' ').collect(alloc)?;
    let [name, known, path, kind] = words.as_slice() else {
        bail!("there are four words");
    };
    of_part(alloc, [*name, *known, *path, *kind])
}
