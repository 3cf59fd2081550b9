//! Resolved trees from lines. `declare CLASS NAME [TYPE]` declares a name, and `node FORM PLACE PARTS [TEXT [NAMED]]` puts a node above so many of
//! the last trees, where a place is `LINE:COLUMN` and what is named is `DECLARATION:TYPE:POSITION`, of which any may be nothing. `--` begins a comment.

use crate::forms::form_of;
use crate::words::plain_class;
use anyhow::bail;
use std::alloc::{AllocError, Global};
use vd_bytes::{Place, Text};
use vd_declarations::{Class, DeclId, Declaration, Declarations, Made, TypeId};
use vd_forms::Form;
use vd_resolved::{Builder, Resolved, Tree};

/// A declaration of a name. The type of what has one is the declaration with the number `mark`.
fn declaration(
    alloc: Global,
    class: Class,
    name: &str,
    mark: Option<u32>,
) -> Result<Declaration, AllocError> {
    let wanted = Text::from_slice(alloc, name.as_bytes())?;
    let name = Text::from_slice(alloc, name.as_bytes())?;
    Ok(Declaration {
        class,
        name,
        mark: mark.map(TypeId::of),
        parameters: Declarations::of(Vec::new(alloc)),
        generics: Declarations::of(Vec::new(alloc)),
        inside: None,
        place: Place {
            file: 0,
            line: 1,
            column: 1,
        },
        made: Made::Written,
        wanted,
    })
}

/// Declares a name.
fn declare(
    builder: &mut Builder,
    alloc: Global,
    class: &str,
    name: &str,
    mark: &str,
) -> anyhow::Result<()> {
    let Some(class) = plain_class(class) else {
        bail!("there is no class {class}");
    };
    builder.declare(declaration(alloc, class, name, mark.parse::<u32>().ok())?)?;
    Ok(())
}

/// The number in a field of `DECLARATION:TYPE:POSITION`.
fn field(named: &str, at: usize) -> Option<u32> {
    named.split(':').nth(at)?.parse::<u32>().ok()
}

/// A node, from its form and what it names.
fn node(form: Form, named: &str) -> Resolved {
    Resolved {
        form,
        declaration: field(named, 0).map(DeclId::of),
        mark: field(named, 1).map(TypeId::of),
        position: field(named, 2).unwrap_or(0),
    }
}

/// The place `LINE:COLUMN`.
fn place(word: &str) -> Place {
    Place {
        file: 0,
        line: field(word, 0).unwrap_or(0),
        column: field(word, 1).unwrap_or(0),
    }
}

/// Puts a node above the last trees.
fn push(
    builder: &mut Builder,
    node: Resolved,
    place: Place,
    parts: usize,
    text: &str,
) -> anyhow::Result<()> {
    if builder.len() < parts {
        bail!("there are too few parts");
    }
    builder.push(node, text.as_bytes(), place, parts)?;
    Ok(())
}

/// A word, where there are so many.
fn word<'a>(words: &[&'a str], at: usize) -> &'a str {
    match words.get(at) {
        Some(word) => word,
        None => "",
    }
}

/// Does what the words of a line say.
fn take(builder: &mut Builder, alloc: Global, words: &[&str]) -> anyhow::Result<()> {
    match word(words, 0) {
        "declare" => declare(
            builder,
            alloc,
            word(words, 1),
            word(words, 2),
            word(words, 3),
        ),
        "node" => {
            let Some(form) = form_of(word(words, 1)) else {
                bail!("there is no such form");
            };
            let parts = word(words, 3).parse::<usize>()?;
            let node = node(form, word(words, 5));
            push(builder, node, place(word(words, 2)), parts, word(words, 4))
        }
        _ => bail!("there is no such line"),
    }
}

/// Does what a line says.
fn take_line(builder: &mut Builder, alloc: Global, line: &str) -> anyhow::Result<()> {
    if line.is_empty() || line.starts_with("--") {
        return Ok(());
    }
    let words: Vec<&str> = line.split(' ').collect(alloc)?;
    take(builder, alloc, &words)
}

/// Does what the lines of a text say.
fn take_all(builder: &mut Builder, alloc: Global, text: &str) -> anyhow::Result<()> {
    for line in text.lines() {
        take_line(builder, alloc, line)?;
    }
    Ok(())
}

/// The trees of a text, side by side.
pub fn made(alloc: Global, text: &str) -> anyhow::Result<Tree> {
    let mut builder = Builder::new(alloc);
    take_all(&mut builder, alloc, text)?;
    let tree = builder.finish()?;
    Ok(tree)
}
