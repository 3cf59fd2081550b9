//! Reads a file, for measurements. The words are `lex`, `read` or `count`, the revision `2019` or `1993`, and the file. `lex` stops
//! at the tokens, `read` makes the tree, and `count` counts its nodes.

ghost use Rattle.std.specs.Prelude.{◌<◌, ◌≤◌, length};

use anyhow::bail;
use std::alloc::{AllocError, Global};
use std::fs;
use vd_bytes::Refusal;
use vd_directives::plain::plain;
use vd_forest::Cursor;
use vd_forms::Form;
use vd_grammar19::read19;
use vd_grammar93::read93;
use vd_lex::{lex19, lex93};
use vd_shapes::GrammarEnd;

/// How far a run goes.
#[derive(Clone, Copy)]
enum Goal {
    Tokens,
    Tree,
    Nodes,
}

/// How many nodes a forest has.
fn count(alloc: Global, trees: &Cursor<'_, Form>) -> Result<usize, AllocError> {
    let mut nodes: usize = 0;
    let mut waiting = Vec::new(alloc);
    waiting.push(trees.fork())?;
    for _ in 0..u64::MAX {
        let Some(trees) = waiting.pop() else {
            return Ok(nodes);
        };
        if let Some(first) = trees.open() {
            nodes = nodes.saturating_add(1);
            waiting.push(first.next)?;
            waiting.push(first.parts)?;
        }
    }
    Ok(nodes)
}

/// Prints why a text isn't read.
fn say_end(rt: HostRuntime, end: GrammarEnd) -> anyhow::Result<()> {
    match end {
        GrammarEnd::Refused(e) => {
            let rule = e.rule;
            let line = e.place.line;
            let column = e.place.column;
            println!(rt; "refused {rule} {line}:{column}")?;
        }
        GrammarEnd::Nesting => println!(rt; "nesting")?,
        GrammarEnd::Memory => println!(rt; "no memory")?,
    }
    Ok(())
}

/// Reads a text of revision 2019, and prints how many tokens and nodes it has.
fn run19(rt: HostRuntime, goal: Goal, bytes: &[u8]) -> anyhow::Result<()>
    requires { length bytes.now < 2147483648 }
{
    let text = plain(rt.alloc(), 0, bytes)?;
    let tokens = match lex19(rt.alloc(), &text) {
        Ok(tokens) => tokens,
        Err(Refusal::Refused(e)) => return say_end(rt, GrammarEnd::Refused(e)),
        Err(Refusal::Memory) => return say_end(rt, GrammarEnd::Memory),
    };
    let length = tokens.len();
    print!(rt; "{length} tokens")?;
    if let Goal::Tokens = goal {
        println!(rt; "")?;
        return Ok(());
    }
    match read19(rt.alloc(), &tokens) {
        Ok(design) => {
            if let Goal::Nodes = goal {
                let nodes = count(rt.alloc(), &design.units())?;
                print!(rt; " {nodes} nodes")?;
            }
            println!(rt; "")?;
            Ok(())
        }
        Err(end) => say_end(rt, end),
    }
}

/// Reads a text of revision 1993, and prints how many tokens and nodes it has.
fn run93(rt: HostRuntime, goal: Goal, bytes: &[u8]) -> anyhow::Result<()>
    requires { length bytes.now < 2147483648 }
{
    let text = plain(rt.alloc(), 0, bytes)?;
    let tokens = match lex93(rt.alloc(), &text) {
        Ok(tokens) => tokens,
        Err(Refusal::Refused(e)) => return say_end(rt, GrammarEnd::Refused(e)),
        Err(Refusal::Memory) => return say_end(rt, GrammarEnd::Memory),
    };
    let length = tokens.len();
    print!(rt; "{length} tokens")?;
    if let Goal::Tokens = goal {
        println!(rt; "")?;
        return Ok(());
    }
    match read93(rt.alloc(), &tokens) {
        Ok(design) => {
            if let Goal::Nodes = goal {
                let nodes = count(rt.alloc(), &design.units())?;
                print!(rt; " {nodes} nodes")?;
            }
            println!(rt; "")?;
            Ok(())
        }
        Err(end) => say_end(rt, end),
    }
}

/// Runs the bench on its words.
pub fn run(rt: HostRuntime, words: &[String]) -> anyhow::Result<()> {
    let [goal, revision, name] = words else {
        bail!("the words are lex, read or count; 2019 or 1993; and a file");
    };
    let goal = match goal.as_str() {
        "lex" => Goal::Tokens,
        "read" => Goal::Tree,
        _ => Goal::Nodes,
    };
    let bytes = fs::read(&rt, name)?;
    if bytes.len() >= 1 << 31 {
        bail!("the file is too long");
    }
    if revision.as_str() == "1993" {
        run93(rt, goal, &bytes)
    } else {
        run19(rt, goal, &bytes)
    }
}
