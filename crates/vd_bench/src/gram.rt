//! Reads a long text of a grammar, for measurements: `list N` is a sum of N numbers side by side, and `nested N` a number in N
//! pairs of brackets.

use crate::arithmetic::{CLOSE, NUMBER, OPEN, PLUS, arithmetic};
use anyhow::bail;
use std::alloc::{AllocError, Global};
use vd_gram::{CheckedTable, Cursor, Opened, ParseEnd, Symbol, check, parse};

/// The symbols of a sum of numbers.
fn list(alloc: Global, count: u32) -> Result<Vec<Symbol>, AllocError> {
    let mut symbols = Vec::new(alloc);
    for number in 0..count {
        if number > 0 {
            symbols.push(PLUS)?;
        }
        symbols.push(NUMBER)?;
    }
    Ok(symbols)
}

/// The symbols of a number in brackets.
fn nested(alloc: Global, count: u32) -> Result<Vec<Symbol>, AllocError> {
    let mut symbols = Vec::new(alloc);
    for _ in 0..count {
        symbols.push(OPEN)?;
    }
    symbols.push(NUMBER)?;
    for _ in 0..count {
        symbols.push(CLOSE)?;
    }
    Ok(symbols)
}

/// The last of some trees, of which there is one.
fn last<'a>(trees: &Cursor<'a>) -> Cursor<'a> {
    let mut found = trees.fork();
    for _ in 0..u32::MAX {
        let next = match found.open() {
            None => return found,
            Some(Opened::Leaf { next, .. }) => next,
            Some(Opened::Node { next, .. }) => next,
        };
        if next.open().is_none() {
            return found;
        }
        found = next;
    }
    found
}

/// How many nodes stand above one another on the way down by first parts, or by last ones.
fn way_down(trees: &Cursor<'_>, by_last: bool) -> u32 {
    let mut left = trees.fork();
    for nodes in 0..u32::MAX {
        match left.open() {
            Some(Opened::Node { parts, .. }) => left = if by_last { last(&parts) } else { parts },
            _ => return nodes,
        }
    }
    u32::MAX
}

/// How many nodes stand above one another in a derivation, down by first parts and by last ones.
fn answer(
    alloc: Global,
    table: &CheckedTable<'_>,
    kind: &str,
    count: u32,
) -> Result<(u32, u32), ParseEnd> {
    let symbols = if kind == "list" {
        list(alloc, count)?
    } else {
        nested(alloc, count)?
    };
    let derivation = parse(alloc, table, &symbols, u32::MAX)?;
    let trees = derivation.cursor();
    Ok((way_down(&trees, false), way_down(&trees, true)))
}

/// Runs the bench on its words.
pub fn run(rt: HostRuntime, words: &[String]) -> anyhow::Result<()> {
    let kind = match words.first() {
        None => "list",
        Some(word) => word.as_str(),
    };
    let count = match words.get(1) {
        None => 1000,
        Some(word) => word.parse::<u32>().unwrap_or(1000),
    };
    let Ok(table) = check(arithmetic()) else {
        bail!("the claims of the table don't hold together");
    };
    match answer(rt.alloc(), &table, kind, count) {
        Ok((first, last)) => println!(rt;
            "{kind} {count}: {first} nodes down by first parts, {last} by last parts"
        )?,
        Err(ParseEnd::At(place)) => println!(rt; "{kind} {count}: refused at {place}")?,
        Err(ParseEnd::TooDeep) => println!(rt; "{kind} {count}: too deep")?,
        Err(ParseEnd::Memory) => println!(rt; "{kind} {count}: no memory")?,
    }
    Ok(())
}
