//! Expressions as words, parts before the node that they are parts of. A word is `FORM;TEXT;DECLARATION;TYPE;POSITION;PARTS`, where what is
//! left out behind is nothing, or 0.

use crate::forms::form_of;
use std::alloc::{AllocError, Global};
use vd_bytes::Place;
use vd_declarations::{DeclId, TypeId};
use vd_resolved::{Builder, Resolved, Tree};

/// The field of a word, from 0.
pub fn field<'a>(word: &'a str, at: usize) -> &'a str {
    match word.split(';').nth(at) {
        Some(field) => field,
        None => "",
    }
}

/// The number in a field.
pub fn number(word: &str, at: usize) -> Option<u32> {
    field(word, at).parse::<u32>().ok()
}

/// The node of a word.
fn node(word: &str) -> Option<Resolved> {
    Some(Resolved {
        form: form_of(field(word, 0))?,
        declaration: declaration(number(word, 2)),
        mark: mark(number(word, 3)),
        position: number(word, 4).unwrap_or(0),
    })
}

fn declaration(number: Option<u32>) -> Option<DeclId> {
    Some(DeclId::of(number?))
}

pub fn mark(number: Option<u32>) -> Option<TypeId> {
    Some(TypeId::of(number?))
}

/// Adds the node of a word, if it is one.
fn add(builder: &mut Builder, word: &str) -> Result<bool, AllocError> {
    let parts = number(word, 5).unwrap_or(0) as usize;
    let Some(node) = node(word) else {
        return Ok(false);
    };
    if builder.len() < parts {
        return Ok(false);
    }
    let place = Place {
        file: 0,
        line: 1,
        column: 1,
    };
    builder.push(node, field(word, 1).as_bytes(), place, parts)?;
    Ok(true)
}

/// Adds the nodes of some words.
fn add_all(builder: &mut Builder, words: &str) -> Result<bool, AllocError> {
    for word in words.split_whitespace() {
        if !add(builder, word)? {
            return Ok(false);
        }
    }
    Ok(true)
}

/// The tree of some words, if they are one.
pub fn tree(alloc: Global, words: &str) -> Result<Option<Tree>, AllocError> {
    let mut builder = Builder::new(alloc);
    if !add_all(&mut builder, words)? {
        return Ok(None);
    }
    Ok(Some(builder.finish()?))
}
