//! The places of characters among the literals of a type, in a table by their codes. (IEEE 1076, string literals.)

ghost use Rattle.std.specs.Prelude.{◌≡◌, IfOk, List, length, ℕ};
ghost use Rattle.vd_environments.specs.Environments.{element_make, literals_of};
ghost use Rattle.vd_value_rules.specs.Indicated.{indicated_in, texts_in};
ghost use Rattle.vd_plain_values.specs.Strings.{places_in};
ghost use Rattle.vd_static_values.specs.Characters.{HasCharacters, IsCharacter, IsEntered};
ghost use Rattle.vd_static_values.specs.Finding.{IsListFound};

use std::alloc::{AllocError, Global};
use vd_forest::Cursor;
use vd_value_rules::IndicatedForm;
use vd_value_rules::part_facts::{element, literals};

/// The code of the character that a literal is.
fn character_of(literal: &[u8]) -> Option<u8>
    ensures { IsCharacter literal.now result }
{
    let [_, code, ..] = literal else {
        return None;
    };
    if literal == [b'\'', *code, b'\''].as_slice() {
        Some(*code)
    } else {
        None
    }
}

/// Enters a literal at its place, where no other one stands for its character.
fn enter(table: &mut Vec<Option<u32>>, literal: &[u8], place: u32)
    requires { length table.old.items ≡ 256 }
    ensures { IsEntered table.old.items table.new.items literal.now place }
{
    let Some(code) = character_of(literal) else {
        return;
    };
    if table[code as usize].is_none() {
        table[code as usize] = Some(place);
    }
}

/// The places of all characters among some literals.
fn characters(
    alloc: Global,
    literals: &Cursor<'_, IndicatedForm>,
) -> Result<Vec<Option<u32>>, AllocError>
    ensures { IfOk result (λ table. HasCharacters table.items (texts_in literals.now)) }
{
    let mut table: Vec<Option<u32>> = Vec::from_slice(alloc, &[None; 256])?;
    let mut left = literals.fork();
    let mut place: u32 = 0;
    while let Some(first) = left.open() {
        enter(&mut table, first.text, place);
        let Some(more) = place.checked_add(1) else {
            return Err(AllocError);
        };
        place = more;
        left = first.next;
    }
    Ok(table)
}

/// The places of all characters among the literals of an array's elements.
pub(crate) fn element_characters(
    alloc: Global,
    subtype: &Cursor<'_, IndicatedForm>,
) -> Result<Vec<Option<u32>>, AllocError>
    ensures { IfOk result (λ table. HasCharacters table.items (literals_of (element_make (indicated_in subtype.now).make))) }
{
    characters(alloc, &literals(&element(subtype)))
}

/// The places of some characters.
pub(crate) fn places(
    alloc: Global,
    table: &[Option<u32>],
    text: &[u8],
) -> Result<Option<Vec<u32>>, AllocError>
    requires { length table.now ≡ 256 }
    ensures { (ls : List (List ℕ)) → HasCharacters table.now ls → IfOk result (λ places. IsListFound places (places_in ls text.now)) }
{
    let mut made: Vec<u32> = Vec::new(alloc);
    for code in text {
        match table[*code as usize] {
            Some(place) => made.push(place)?,
            None => return Ok(None),
        }
    }
    Ok(Some(made))
}
