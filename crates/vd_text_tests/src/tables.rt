//! Grammars' tables in words, and texts that are read by them. A table is `TERMINALS START; MARKED; PRODUCTIONS; CLAIMS`. A production is
//! `LEFT = RIGHT` and a claim `SYMBOL RANK EMPTY : FIRST : FOLLOW`, with commas between them. Symbols are numbers, and `end` is the end of a text. What
//! may be empty has a 1. Behind a table and `|` stands what is to be done: `check`, or `derive` or `read` with how deep marked nodes may stand in one
//! another. Behind another `|` stand the symbols of a text, where `A*N` are N times the symbol A.

use crate::steps::derived;
use std::alloc::{AllocError, Global};
use vd_gram::{CheckedTable, Claim, END, ParseEnd, Production, Symbol, Table, check, parse};

/// What a nonterminal may become.
#[derive(Drop)]
struct Row {
    left: Symbol,
    right: Vec<Symbol>,
}

/// What is claimed of a nonterminal.
#[derive(Drop)]
struct Told {
    symbol: Symbol,
    rank: u32,
    empty: bool,
    first: Vec<Symbol>,
    follow: Vec<Symbol>,
}

/// A table.
#[derive(Drop)]
struct Grammar {
    terminals: Symbol,
    start: Symbol,
    marked: Vec<Symbol>,
    rows: Vec<Row>,
    claims: Vec<Told>,
}

/// A number, or 0.
fn number(word: &str) -> u32 {
    word.parse::<u32>().unwrap_or(0)
}

/// A symbol.
fn symbol(word: &str) -> Symbol {
    word.parse::<Symbol>().unwrap_or(END)
}

/// A symbol, as often as a word says.
fn add_symbols(out: &mut Vec<Symbol>, word: &str) -> Result<(), AllocError> {
    let (named, times) = match word.split_once('*') {
        Some((named, times)) => (symbol(named), number(times)),
        None => (symbol(word), 1),
    };
    for _ in 0..times {
        out.push(named)?;
    }
    Ok(())
}

/// Symbols with spaces between them.
fn symbols(alloc: Global, text: &str) -> Result<Vec<Symbol>, AllocError> {
    let mut out = Vec::new(alloc);
    for word in text.split_whitespace() {
        add_symbols(&mut out, word)?;
    }
    Ok(out)
}

/// The productions of a table.
fn rows(alloc: Global, text: &str) -> Result<Vec<Row>, AllocError> {
    let mut rows = Vec::new(alloc);
    for part in text.split(',') {
        if let Some((left, right)) = part.split_once('=') {
            let right = symbols(alloc, right)?;
            rows.push(Row {
                left: symbol(left.trim()),
                right,
            })?;
        }
    }
    Ok(rows)
}

/// One claim.
fn claim_of(alloc: Global, text: &str) -> Result<Told, AllocError> {
    let mut parts = text.split(':');
    let mut words = parts.next().unwrap_or("").split_whitespace();
    let first = symbols(alloc, parts.next().unwrap_or(""))?;
    let follow = symbols(alloc, parts.next().unwrap_or(""))?;
    Ok(Told {
        symbol: symbol(words.next().unwrap_or("")),
        rank: number(words.next().unwrap_or("")),
        empty: number(words.next().unwrap_or("")) == 1,
        first,
        follow,
    })
}

/// The claims of a table.
fn all_told(alloc: Global, text: &str) -> Result<Vec<Told>, AllocError> {
    let mut claims = Vec::new(alloc);
    for part in text.split(',') {
        claims.push(claim_of(alloc, part)?)?;
    }
    Ok(claims)
}

/// A table in words.
fn grammar_of(alloc: Global, text: &str) -> Result<Grammar, AllocError> {
    let mut parts = text.split(';');
    let mut words = parts.next().unwrap_or("").split_whitespace();
    let marked = symbols(alloc, parts.next().unwrap_or(""))?;
    let rows = rows(alloc, parts.next().unwrap_or(""))?;
    let claims = all_told(alloc, parts.next().unwrap_or(""))?;
    Ok(Grammar {
        terminals: symbol(words.next().unwrap_or("")),
        start: symbol(words.next().unwrap_or("")),
        marked,
        rows,
        claims,
    })
}

fn productions<'a>(alloc: Global, rows: &'a [Row]) -> Result<Vec<Production<'a>>, AllocError> {
    let mut out = Vec::new(alloc);
    for row in rows {
        out.push(Production {
            left: row.left,
            right: row.right.as_slice(),
        })?;
    }
    Ok(out)
}

fn claims<'a>(alloc: Global, all: &'a [Told]) -> Result<Vec<Claim<'a>>, AllocError> {
    let mut out = Vec::new(alloc);
    for one in all {
        out.push(Claim {
            symbol: one.symbol,
            empty: one.empty,
            first: one.first.as_slice(),
            follow: one.follow.as_slice(),
            rank: one.rank,
        })?;
    }
    Ok(out)
}

/// What is answered to a text.
fn answer(
    alloc: Global,
    table: &CheckedTable<'_>,
    goal: &str,
    symbols: &[Symbol],
) -> Result<Vec<u8>, AllocError> {
    let Some((goal, deep)) = goal.trim().split_once(' ') else {
        return Vec::from_slice(alloc, b"taken");
    };
    match parse(alloc, table, symbols, number(deep)) {
        Ok(derivation) => {
            if goal == "derive" {
                derived(alloc, &derivation.cursor())
            } else {
                Vec::from_slice(alloc, b"read")
            }
        }
        Err(ParseEnd::At(place)) => {
            let text = format!(in alloc; "at {place}")?;
            Vec::from_slice(alloc, text.as_bytes())
        }
        Err(ParseEnd::TooDeep) => Vec::from_slice(alloc, b"too deep"),
        Err(ParseEnd::Memory) => Vec::from_slice(alloc, b"no memory"),
    }
}

/// Whether a table is taken, or what is answered to a text by one that is.
fn shown_by(
    alloc: Global,
    grammar: &Grammar,
    goal: &str,
    symbols: &[Symbol],
) -> Result<Vec<u8>, AllocError> {
    let productions = productions(alloc, &grammar.rows)?;
    let claims = claims(alloc, &grammar.claims)?;
    let table = Table {
        terminals: grammar.terminals,
        start: grammar.start,
        marked: grammar.marked.as_slice(),
        productions: productions.as_slice(),
        claims: claims.as_slice(),
    };
    match check(table) {
        Ok(checked) => answer(alloc, &checked, goal, symbols),
        Err(_) => Vec::from_slice(alloc, b"given back"),
    }
}

/// Whether a table is taken, or what is answered to a text by one that is.
pub fn shown_reading(alloc: Global, input: &str) -> Result<Vec<u8>, AllocError> {
    let mut parts = input.split('|');
    let grammar = grammar_of(alloc, parts.next().unwrap_or(""))?;
    let goal = parts.next().unwrap_or("");
    let symbols = symbols(alloc, parts.next().unwrap_or(""))?;
    shown_by(alloc, &grammar, goal, &symbols)
}
