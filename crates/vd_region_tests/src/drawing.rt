//! Resolved trees as lines: a node's form, place and text and what it names, its parts further in.

use crate::making::made;
use anyhow::bail;
use vd_declarations::DeclId;
use vd_resolved::{Resolved, ResolvedCursor, Tree};

/// A forest, and how far in it stands.
#[derive(Drop)]
struct Waiting<'a> {
    trees: ResolvedCursor<'a>,
    deep: usize,
}

/// Prints a declaration's number and name, behind a word.
fn show_declaration(rt: HostRuntime, tree: &Tree, word: &str, number: u32) -> anyhow::Result<()> {
    if number as usize >= tree.declarations().len() {
        bail!("there is no such declaration");
    }
    print!(rt; ", {word} {number} ")?;
    rt.stdout()
        .write_all(tree.declaration(DeclId::of(number)).name.as_slice())?;
    Ok(())
}

/// Prints what a node names, to the end of the line.
fn show_named(rt: HostRuntime, tree: &Tree, node: Resolved) -> anyhow::Result<()> {
    if let Some(declaration) = node.declaration {
        show_declaration(rt, tree, "declaration", declaration.number())?;
        let position = node.position;
        print!(rt; ", position {position}")?;
    }
    if let Some(mark) = node.mark {
        show_declaration(rt, tree, "type", mark.number())?;
    }
    println!(rt; "")?;
    Ok(())
}

/// Prints the number of declarations and the trees.
fn show(rt: HostRuntime, tree: &Tree) -> anyhow::Result<()> {
    let declared = tree.declarations().len();
    println!(rt; "{declared} declarations")?;
    let mut waiting = Vec::new(rt.alloc());
    waiting.push(Waiting {
        trees: tree.cursor(),
        deep: 0,
    })?;
    for _ in 0..u64::MAX {
        let Some(Waiting { trees, deep }) = waiting.pop() else {
            return Ok(());
        };
        let Some(first) = trees.open() else {
            continue;
        };
        for _ in 0..deep {
            print!(rt; "  ")?;
        }
        let form = first.form.form;
        let line = first.place.line;
        let column = first.place.column;
        print!(rt; "{form:?} {line}:{column}")?;
        if !first.text.is_empty() {
            print!(rt; " ")?;
        }
        rt.stdout().write_all(first.text)?;
        show_named(rt, tree, first.form)?;
        waiting.push(Waiting {
            trees: first.next,
            deep,
        })?;
        waiting.push(Waiting {
            trees: first.parts,
            deep: deep.saturating_add(1),
        })?;
    }
    Ok(())
}

/// Prints the trees of a file.
pub fn draw(rt: HostRuntime, text: &str) -> anyhow::Result<()> {
    let tree = made(rt.alloc(), text)?;
    show(rt, &tree)
}
