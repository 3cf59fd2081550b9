//! The values of `std_ulogic` by their characters, and what the operators on them give.

use anyhow::bail;
use std::alloc::{AllocError, Global};
use vd_values::{Logic, condition, logic_and, logic_not, logic_or, logic_xor, matches, resolve};

/// The values in the order of the printed rows and columns.
const LETTERS: [(char, Logic); 9] = [
    ('U', Logic::U),
    ('X', Logic::X),
    ('0', Logic::Zero),
    ('1', Logic::One),
    ('Z', Logic::Z),
    ('W', Logic::W),
    ('L', Logic::L),
    ('H', Logic::H),
    ('-', Logic::Dash),
];

/// The value of a character.
pub fn value_of(letter: char) -> Option<Logic> {
    for (own, value) in &LETTERS {
        if *own == letter {
            return Some(*value);
        }
    }
    None
}

/// The character of a value.
fn letter_of(value: Logic) -> char {
    for (letter, own) in &LETTERS {
        if *own == value {
            return *letter;
        }
    }
    '?'
}

/// The values of some characters.
pub fn values_of(alloc: Global, letters: &str) -> anyhow::Result<Vec<Logic>> {
    let mut values = Vec::new(alloc);
    for letter in letters.chars() {
        match value_of(letter) {
            Some(value) => values.push(value)?,
            None => bail!("there is no value {letter}"),
        }
    }
    Ok(values)
}

/// What an operator gives of two values.
fn of_pair(operator: &str, left: Logic, right: Logic) -> char {
    match operator {
        "and" => letter_of(logic_and(left, right)),
        "or" => letter_of(logic_or(left, right)),
        "xor" => letter_of(logic_xor(left, right)),
        "?=" => letter_of(matches(left, right)),
        "resolved_with" => letter_of(resolve(&[left, right])),
        _ => '?',
    }
}

/// What an operator gives of one value.
fn of_one(operator: &str, value: Logic) -> char {
    match operator {
        "not" => letter_of(logic_not(value)),
        "??" => { if condition(value) { '1' } else { '0' } }
        "alone" => letter_of(resolve(&[value])),
        _ => '?',
    }
}

/// The row of a value in the table of an operator.
fn row(alloc: Global, operator: &str, left: Logic) -> Result<String, AllocError> {
    let mut text = String::new(alloc);
    for (_, right) in &LETTERS {
        text.push(of_pair(operator, left, *right))?;
    }
    Ok(text)
}

/// What an operator gives of each of the values.
fn column(alloc: Global, operator: &str) -> Result<String, AllocError> {
    let mut text = String::new(alloc);
    for (_, value) in &LETTERS {
        text.push(of_one(operator, *value))?;
    }
    Ok(text)
}

/// What some sources resolve to.
fn resolved(alloc: Global, letters: &str) -> anyhow::Result<String> {
    let values = values_of(alloc, letters)?;
    if values.is_empty() {
        bail!("there is no source");
    }
    let letter = letter_of(resolve(&values));
    Ok(format!(in alloc; "{letter}")?)
}

/// The answer of `OPERATOR`, `OPERATOR VALUE` or `resolve VALUES`.
pub fn answer(alloc: Global, words: &str) -> anyhow::Result<String> {
    let Some((operator, letters)) = words.split_once(' ') else {
        return Ok(column(alloc, words)?);
    };
    if operator == "resolve" {
        return resolved(alloc, letters);
    }
    match values_of(alloc, letters)?.first() {
        Some(left) => Ok(row(alloc, operator, *left)?),
        None => bail!("there is no value"),
    }
}
