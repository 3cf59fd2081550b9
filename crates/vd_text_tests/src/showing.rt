//! Trees as lines: a node's form, place and text, its parts further in; and prints.

ghost use Rattle.std.specs.Prelude.{◌<◌, ◌≤◌, length};

use crate::printing::printed;
use anyhow::bail;
use std::str;
use vd_directives::plain::plain;
use vd_forest::Cursor;
use vd_forms::Form;
use vd_grammar19::read19;
use vd_lex::lex19;
use vd_test_texts::LONGEST;

/// A forest, and how far in it stands.
#[derive(Drop)]
struct Waiting<'a> {
    trees: Cursor<'a, Form>,
    deep: usize,
}

/// Prints the trees of a forest.
fn show(rt: HostRuntime, trees: &Cursor<'_, Form>) -> anyhow::Result<()> {
    let mut waiting = Vec::new(rt.alloc());
    waiting.push(Waiting {
        trees: trees.fork(),
        deep: 0,
    })?;
    for _ in 0..u64::MAX {
        let Some(Waiting { trees, deep }) = waiting.pop() else {
            return Ok(());
        };
        let Some(first) = trees.open() else {
            continue;
        };
        for _ in 0..deep {
            print!(rt; "  ")?;
        }
        let form = first.form;
        let line = first.place.line;
        let column = first.place.column;
        print!(rt; "{form:?} {line}:{column}")?;
        if !first.text.is_empty() {
            print!(rt; " ")?;
        }
        rt.stdout().write_all(first.text)?;
        println!(rt; "")?;
        waiting.push(Waiting {
            trees: first.next,
            deep,
        })?;
        waiting.push(Waiting {
            trees: first.parts,
            deep: deep.saturating_add(1),
        })?;
    }
    Ok(())
}

/// Prints the tree of a text of revision 2019.
pub fn show_tree(rt: HostRuntime, bytes: &[u8]) -> anyhow::Result<()> {
    if bytes.len() >= LONGEST {
        bail!("the text is too long");
    }
    let text = plain(rt.alloc(), 0, bytes)?;
    let Ok(tokens) = lex19(rt.alloc(), &text) else {
        bail!("the text has no tokens");
    };
    match read19(rt.alloc(), &tokens) {
        Ok(design) => show(rt, &design.units()),
        Err(_) => bail!("the text has no tree"),
    }
}

/// Shows the print of a text of revision 1993.
pub fn show_print(rt: HostRuntime, bytes: &[u8]) -> anyhow::Result<()> {
    match printed(rt.alloc(), bytes)? {
        Some(bytes) => match str::from_utf8(&bytes) {
            Ok(text) => print!(rt; "{text}")?,
            Err(_) => bail!("a print has other bytes than ASCII"),
        },
        None => println!(rt; "refused")?,
    }
    Ok(())
}
