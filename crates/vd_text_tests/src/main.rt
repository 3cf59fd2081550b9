//! Runs the crates that read and write texts on files of cases, and says what is answered otherwise than stands there. The words are pairs of a kind
//! and a file:
//!
//!     2019, 1993   texts of a revision with the answers in front of them
//!     tree         a text of revision 2019, whose tree is shown
//!     cases        texts of revision 1993 with what is printed for them
//!     again        texts of revision 1993, each of which is printed, read and printed once more
//!     show         a text of revision 1993, whose print is shown
//!     depth        a text of revision 1993, whose depth is shown
//!
//! Any other kind is one of `given`: a file of lines with an input and what is answered.
#![tactic(auto)]

mod again;
mod answers;
mod cases;
mod depths;
mod forests;
mod given;
mod lexing;
mod lines;
mod passes;
mod printing;
mod selecting;
mod showing;
mod steps;
mod tables;
mod traces;
mod trays;

use crate::again::check_again;
use crate::answers::answered;
use crate::cases::check_cases;
use crate::depths::show_depth;
use crate::lines::check_lines;
use crate::showing::{show_print, show_tree};
use anyhow::bail;
use std::{env, fs};
use vd_test_texts::{LONGEST, Text, texts_of};
use vd_trees::Revision;

/// Says which texts of a file are answered otherwise than stands in front of them, and how many there are.
fn compare(rt: HostRuntime, revision: Revision, name: &str, texts: &[Text]) -> anyhow::Result<()> {
    let mut wrong: usize = 0;
    for text in texts {
        let given = answered(rt.alloc(), revision, &text.bytes).shown(rt.alloc())?;
        if !text.wants(given.as_bytes()) {
            let line = text.line;
            println!(rt; "{name}:{line}: {given}")?;
            wrong = wrong.saturating_add(1);
        }
    }
    let count = texts.len();
    println!(rt; "{name}: {count} texts, {wrong} answered otherwise")?;
    Ok(())
}

/// Runs one kind on one file.
fn run(rt: HostRuntime, kind: &str, name: &str, bytes: &[u8]) -> anyhow::Result<()> {
    match kind {
        "2019" => compare(rt, Revision::V2019, name, &texts_of(rt.alloc(), bytes)?),
        "1993" => compare(rt, Revision::V1993, name, &texts_of(rt.alloc(), bytes)?),
        "tree" => show_tree(rt, bytes),
        "cases" => check_cases(rt, name, bytes),
        "again" => check_again(rt, name, bytes),
        "show" => show_print(rt, bytes),
        "depth" => show_depth(rt, name, bytes),
        _ => check_lines(rt, kind, name, bytes),
    }
}

fn main(rt: HostRuntime) -> anyhow::Result<()> {
    let words: Vec<String> = env::args(&rt)?.skip(1).collect(rt.alloc())?;
    for pair in words.chunks(2) {
        let [kind, name] = pair else {
            bail!("the words are pairs");
        };
        let bytes = fs::read(&rt, name)?;
        if bytes.len() >= LONGEST {
            bail!("the file is too long");
        }
        run(rt, kind, name, &bytes)?;
    }
    Ok(())
}
