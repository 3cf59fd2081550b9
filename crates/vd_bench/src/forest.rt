//! Passes over a chain of operators that is nested as deep as it is long, for measurements:
//! `KIND N` copies, folds or rewrites a chain of N operators, and prints how deep the result is.

ghost use Rattle.std.specs.Prelude.{◌≤◌, IfOk, length};

use crate::logic::{Depth, Form, Settling, WithoutPairs};
use anyhow::bail;
use std::alloc::{AllocError, Global};
use vd_bytes::Place;
use vd_forest::{Cursor, Store};
use vd_rewriting::{copy_shared, fold, rewrite, rewrite_under};

/// Whether the operator with this number, from the innermost on, is a negation. Of five three
/// are, and two of these stand side by side. The others are conjunctions with a name.
fn is_negation(number: u32) -> bool {
    matches!(number % 5, 1 | 3 | 4)
}

/// A chain of so many operators.
#[tactic(auto, using(vd_forest::proofs::StoreLemmas::growing))]
fn chain(store: &mut Store<Form>, count: u32) -> Result<u32, AllocError>
    ensures { IfOk result (λ number. number ≤ length store.new) }
{
    let place = Place {
        file: 0,
        line: 1,
        column: 1,
    };
    let right = store.add(Form::Name, b"b", place, 0, 0)?;
    let mut made = store.add(Form::Name, b"a", place, 0, right)?;
    for number in 0..count {
        let next = if number + 1 < count && !is_negation(number + 1) {
            store.add(Form::Name, b"b", place, 0, 0)?
        } else {
            0
        };
        let form = if is_negation(number) {
            Form::Not
        } else {
            Form::And
        };
        made = store.add(form, b"", place, made, next)?;
    }
    Ok(made)
}

/// How deep the first tree is.
fn depth(alloc: Global, trees: &Cursor<'_, Form>) -> Result<u32, AllocError> {
    let depths = fold(alloc, trees, &mut Depth)?;
    Ok(depths.first().copied().unwrap_or(0))
}

/// How deep the result of a pass over a chain is, where there is such a pass.
fn answer(alloc: Global, kind: &str, count: u32) -> Result<Option<u32>, AllocError> {
    let mut store = Store::new(alloc);
    let number = chain(&mut store, count)?;
    let trees = store.cursor(number);
    let mut out = Store::new(alloc);
    let made = match kind {
        "fold" => {
            let deep = depth(alloc, &trees)?;
            return Ok(Some(deep));
        }
        "copy" => out.copy(&trees)?,
        "share" => copy_shared(alloc, &trees, &mut out)?,
        "rewrite" => rewrite(alloc, &trees, &mut out, &mut WithoutPairs)?,
        "under" => rewrite_under(alloc, &trees, false, &mut out, &mut Settling)?,
        _ => return Ok(None),
    };
    let deep = depth(alloc, &out.cursor(made))?;
    Ok(Some(deep))
}

/// Runs the bench on its words.
pub fn run(rt: HostRuntime, words: &[String]) -> anyhow::Result<()> {
    let kind = match words.first() {
        None => "fold",
        Some(word) => word.as_str(),
    };
    let count = match words.get(1) {
        None => 1000,
        Some(word) => word.parse::<u32>().unwrap_or(1000),
    };
    match answer(rt.alloc(), kind, count) {
        Ok(Some(deep)) => println!(rt; "{kind} {count}: {deep} deep")?,
        Ok(None) => bail!("there is no such pass"),
        Err(_) => println!(rt; "{kind} {count}: no memory")?,
    }
    Ok(())
}
