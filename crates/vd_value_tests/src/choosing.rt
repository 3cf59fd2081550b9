//! Choices: whether they cover what they must take, and which of them is given twice.

use crate::logic::values_of;
use anyhow::bail;
use std::alloc::{AllocError, Global};
use vd_choices::{
    Interval, Pattern, Text, covers, first_overlapping, first_repeated, first_repeated_text,
    is_repeated, texts_cover,
};

/// The interval of a word `LOW:HIGH`.
fn interval(word: &str) -> anyhow::Result<Interval> {
    let Some((low, high)) = word.split_once(':') else {
        bail!("there is no interval {word}");
    };
    Ok(Interval {
        low: low.parse::<u64>()?,
        high: high.parse::<u64>()?,
    })
}

/// The intervals of some words.
fn intervals(alloc: Global, words: &[&str]) -> anyhow::Result<Vec<Interval>> {
    let mut intervals = Vec::new(alloc);
    for word in words {
        intervals.push(interval(word)?)?;
    }
    Ok(intervals)
}

/// The text of a word `POSITION,POSITION,..`.
fn text(alloc: Global, word: &str) -> anyhow::Result<Text> {
    let mut positions = Vec::new(alloc);
    for position in word.split(',') {
        positions.push(position.parse::<u64>()?)?;
    }
    Ok(Text { positions })
}

/// The texts of some words.
fn texts(alloc: Global, words: &[&str]) -> anyhow::Result<Vec<Text>> {
    let mut texts = Vec::new(alloc);
    for word in words {
        texts.push(text(alloc, word)?)?;
    }
    Ok(texts)
}

/// The arrays of some words, which are the characters of IEEE 1164.
fn patterns(alloc: Global, words: &[&str]) -> anyhow::Result<Vec<Pattern>> {
    let mut patterns = Vec::new(alloc);
    for word in words {
        let elements = values_of(alloc, word)?;
        patterns.push(Pattern { elements })?;
    }
    Ok(patterns)
}

/// A place, or that there is none.
fn place(alloc: Global, found: Option<usize>) -> Result<String, AllocError> {
    match found {
        Some(at) => format!(in alloc; "{at}"),
        None => String::from_str(alloc, "none"),
    }
}

fn truth(alloc: Global, holds: bool) -> Result<String, AllocError> {
    format!(in alloc; "{holds}")
}

/// The answer where choices are intervals.
fn of_intervals(alloc: Global, kind: &str, words: &[&str]) -> anyhow::Result<String> {
    let choices = intervals(alloc, words)?;
    match (kind, choices.split_first()) {
        ("covers", Some((within, choices))) => {
            Ok(truth(alloc, covers(alloc, *within, choices)?)?)
        }
        ("is_repeated", _) => Ok(truth(alloc, is_repeated(alloc, &choices)?)?),
        ("first_repeated", _) => Ok(place(alloc, first_repeated(alloc, &choices)?)?),
        _ => bail!("there is no call {kind}"),
    }
}

/// Whether choices that are texts cover all texts of a length.
fn cover_texts(alloc: Global, words: &[&str]) -> anyhow::Result<String> {
    let [within, length, choices @ ..] = words else {
        bail!("there is no length");
    };
    let choices = texts(alloc, choices)?;
    let covered = texts_cover(alloc, interval(within)?, length.parse::<usize>()?, &choices)?;
    Ok(truth(alloc, covered)?)
}

/// The first text that is given twice.
fn repeated_text(alloc: Global, words: &[&str]) -> anyhow::Result<String> {
    let choices = texts(alloc, words)?;
    Ok(place(alloc, first_repeated_text(alloc, &choices)?)?)
}

/// The first array that overlaps an earlier one.
fn overlapping(alloc: Global, words: &[&str]) -> anyhow::Result<String> {
    let choices = patterns(alloc, words)?;
    Ok(place(alloc, first_overlapping(alloc, &choices)?)?)
}

/// The answer of `CALL CHOICE ..`. `covers` has the interval that is to be covered in front, `texts_cover` an interval and a length.
pub fn answer(alloc: Global, words: &str) -> anyhow::Result<String> {
    let words: Vec<&str> = words.split(' ').collect(alloc)?;
    let [kind, rest @ ..] = words.as_slice() else {
        bail!("there is no call");
    };
    match *kind {
        "texts_cover" => cover_texts(alloc, rest),
        "first_repeated_text" => repeated_text(alloc, rest),
        "first_overlapping" => overlapping(alloc, rest),
        _ => of_intervals(alloc, kind, rest),
    }
}
