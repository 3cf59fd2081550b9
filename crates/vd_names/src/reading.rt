//! Reading the text of a map.

ghost use Rattle.std.specs.Prelude.{◌≡◌, ◌++◌, ◌∷◌, [], ℕ, None, Some, IfOk, IfErr, OnOk, IsUtf8, MatchResult, option_map};
ghost use Rattle.vd_trees.specs.declared.rows.Row.{Row as RowThere};
ghost use Rattle.serde_json.specs.Read.{read as read_text};
ghost use Rattle.serde_json.specs.View.{view, items_view};
ghost use Rattle.vd_names.specs.Reading.{HasOther, HasRows, answer_of_items, answer_to, is_format, is_pair, kind_of as kind_named, row_in as row_there, rows_from, rows_member, text_at};
ghost use Rattle.vd_names.specs.Ends.{Ends, seen_texts};

use serde_json::Value;
use std::alloc::{AllocError, Global};
use vd_bytes::Text;
use vd_first_names::{NameMap, Rows};
use vd_trees::{Row, RowKind};

/// Why no map was read.
#[derive(Clone, Copy, PartialEq, Eq, Debug)]
pub enum MapEnd {
    /// With 0: the bytes aren't one object with the two keys of a map, its format 1 and a list of rows. Else the number, from 1, of the first row that
    /// isn't a list of six texts of a known kind.
    NotAMap(u32),
    Memory,
}

/// Whether the format is the whole number 1.
fn is_format(value: &Value) -> bool
    ensures { result ≡ is_format (view value.now) }
{
    match value.get("format").and_then(Value::as_u64) {
        Some(format) => format == 1,
        None => false,
    }
}

/// Whether it is an object with two members.
#[tactic(auto, using(crate::proofs::ReadingLemmas::counting))]
fn is_pair(value: &Value) -> bool
    ensures { result ≡ is_pair (view value.now) }
{
    match value.as_object() {
        Some(members) => members.len() == 2,
        None => false,
    }
}

/// The rows of a map, as the list that they stand in.
fn rows_member(value: &Value) -> Option<&Vec<Value>>
    ensures { option_map (λ v. items_view v.now.items) result ≡ rows_member (view value.now) }
{
    if !is_pair(value) || !is_format(value) {
        return None;
    }
    value.get("rows").and_then(Value::as_array)
}

/// The text at a place of a list.
fn text_at(value: &Value, place: usize) -> Option<&[u8]>
    ensures { option_map (λ s. s.now) result ≡ text_at place (view value.now) }
{
    let text = value.get(place)?.as_str()?;
    Some(text.as_bytes())
}

/// The kinds of rows.
const PORT: &[u8] = b"port";

const SIGNAL: &[u8] = b"signal";

const IMPLICIT: &[u8] = b"implicit";

const LABEL: &[u8] = b"label";

const TYPE: &[u8] = b"type";

/// The kind of rows that a word names.
fn kind_of(word: &[u8]) -> Option<RowKind>
    ensures { result ≡ kind_named word.now }
{
    if word == PORT {
        Some(RowKind::Port)
    } else if word == SIGNAL {
        Some(RowKind::Signal)
    } else if word == IMPLICIT {
        Some(RowKind::Implicit)
    } else if word == LABEL {
        Some(RowKind::Label)
    } else if word == TYPE {
        Some(RowKind::TypeName)
    } else {
        None
    }
}

/// The texts of a row.
#[derive(Clone, Copy)]
struct Texts<'a> {
    kind: RowKind,
    unit: &'a [u8],
    name19: &'a [u8],
    name93: &'a [u8],
    mark: &'a [u8],
    mode: &'a [u8],
}

/// The texts of a row, where it is one.
fn texts_in(value: &Value) -> Option<Texts<'_>>
    ensures { option_map seen_texts result ≡ row_there (view value.now) }
{
    let word = text_at(value, 0)?;
    let kind = kind_of(word)?;
    let unit = text_at(value, 1)?;
    let name19 = text_at(value, 2)?;
    let name93 = text_at(value, 3)?;
    let mark = text_at(value, 4)?;
    let mode = text_at(value, 5)?;
    if value.get(6_usize).is_some() {
        return None;
    }
    Some(Texts {
        kind,
        unit,
        name19,
        name93,
        mark,
        mode,
    })
}

/// A row of these texts.
fn row_of(alloc: Global, texts: &Texts<'_>) -> Result<Row, AllocError>
    ensures { IfOk result (λ row. row ≡ seen_texts texts.now) }
{
    Ok(Row {
        kind: texts.kind,
        unit: Text::from_slice(alloc, texts.unit)?,
        name19: Text::from_slice(alloc, texts.name19)?,
        name93: Text::from_slice(alloc, texts.name93)?,
        mark: Text::from_slice(alloc, texts.mark)?,
        mode: Text::from_slice(alloc, texts.mode)?,
        range: Text::from_slice(alloc, &[])?,
    })
}

/// A row, where it is one.
fn row_in(alloc: Global, value: &Value) -> Result<Option<Row>, AllocError>
    ensures { IfOk result (λ row. row ≡ row_there (view value.now)) }
{
    match texts_in(value) {
        None => Ok(None),
        Some(texts) => {
            let row = row_of(alloc, &texts)?;
            Ok(Some(row))
        }
    }
}

/// Puts the row with this number behind others, where it is one.
fn add_row(alloc: Global, number: u32, value: &Value, rows: &mut Vec<Row>) -> Result<(), MapEnd>
    ensures row { OnOk result ((row : RowThere) × (row_there (view value.now) ≡ Some row) × (rows.new.items ≡ rows.old.items ++ row ∷ [])) }
    ensures other { IfErr result (λ e. (n : ℕ) → e ≡ MapEnd.NotAMap n → (n ≡ number) × (row_there (view value.now) ≡ None)) }
{
    match row_in(alloc, value) {
        Err(_) => Err(MapEnd::Memory),
        Ok(None) => Err(MapEnd::NotAMap(number)),
        Ok(Some(row)) => match rows.push(row) {
            Ok(()) => Ok(()),
            Err(_) => Err(MapEnd::Memory),
        },
    }
}

/// All rows of a list.
#[tactic(auto, using(crate::proofs::ReadingLemmas::reading))]
fn rows_in(alloc: Global, items: &[Value]) -> Result<Vec<Row>, MapEnd>
    ensures { MatchResult result (λ rows. rows_from 1 (items_view items.now) ≡ HasRows rows.items) (Ends (rows_from 1 (items_view items.now))) }
{
    let mut rows = Vec::new(alloc);
    let mut number: u32 = 1;
    for item in items {
        add_row(alloc, number, item, &mut rows)?;
        let Some(next) = number.checked_add(1) else {
            return Err(MapEnd::Memory);
        };
        number = next;
    }
    Ok(rows)
}

/// The map of a JSON value.
fn map_in(alloc: Global, value: &Value) -> Result<NameMap, MapEnd>
    ensures { MatchResult result (λ map. answer_of_items (rows_member (view value.now)) ≡ HasRows map.rows) (Ends (answer_of_items (rows_member (view value.now)))) }
{
    let Some(items) = rows_member(value) else {
        return Err(MapEnd::NotAMap(0));
    };
    let rows = rows_in(alloc, items.as_slice())?;
    Ok(NameMap {
        rows: Rows::of(rows),
    })
}

/// Reads the text of a map: an object with the key `format`, which is the whole number 1, and the key `rows`, a list of rows, and no other key. Of a key that
/// is repeated the last member counts, and a text that nests deeper than 127 isn't read.
pub fn read_map(alloc: Global, bytes: &[u8]) -> Result<NameMap, MapEnd>
    ensures read { IfOk result (λ map. IsUtf8 bytes.now × (answer_to (read_text bytes.now) ≡ HasRows map.rows)) }
    ensures refused { IfErr result (λ e. IsUtf8 bytes.now → Ends (answer_to (read_text bytes.now)) e) }
    ensures no_text { IfErr result (λ e. ¬ IsUtf8 bytes.now → Ends (HasOther 0) e) }
{
    match Value::from_slice(alloc, bytes) {
        Ok(value) => map_in(alloc, &value),
        Err(error) => {
            if error.is_memory() {
                Err(MapEnd::Memory)
            } else {
                Err(MapEnd::NotAMap(0))
            }
        }
    }
}
