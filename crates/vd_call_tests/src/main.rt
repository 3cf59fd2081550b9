//! Carries out calls of the program over files in memory, and runs of the first language, and says what comes otherwise than files of cases
//! want it. The words are names of such files. The kinds of cases are
//!
//!     call      what each of the `words` leaves where there are these files, `file NAME`. The calls whose numbers are given fail, `opens`,
//!               `reads` and `writes`, and a call moves `most` bytes at most. A channel that isn't wanted is neither created nor emptied
//!     lengths   the same of a mode that tells the lengths of files
//!     sure      the status over a tray that never fails
//!     words     what each of the `words` means
//!     refusal   the answer where a `rule` is broken
//!     units     the answer to so many `units`
//!     runs      what a run of the texts, `2019` and `1993`, comes to from each `top`, for so many `cycles`
//!     written   the same of a source with each line of `each` for a `$`, and of what is written for it
//!     steps     what three cycles of such a run come to, one by one
//!     files     what comes of steps over real files
#![tactic(auto)]

mod answers;
mod cases;
mod files;
mod modes;
mod parts;
mod runs;
mod steps;
mod trays;
mod words;

use crate::answers::answers;
use crate::cases::{Case, cases_of};
use crate::parts::{Part, are_same};
use std::{env, fs};

/// Says what came.
fn show(rt: HostRuntime, parts: &[Part]) -> anyhow::Result<()> {
    for part in parts {
        let kind = part.kind.as_str();
        let name = part.name.as_str();
        println!(rt; "= {kind} {name}")?;
        rt.stdout().write_all(&part.bytes)?;
    }
    Ok(())
}

/// Says which case it is, and what came.
fn show_case(rt: HostRuntime, file: &str, case: &Case, parts: &[Part]) -> anyhow::Result<()> {
    let line = case.line;
    let title = case.title.as_str();
    println!(rt; "{file}:{line}: {title}")?;
    show(rt, parts)
}

/// Whether something else comes of a case than is wanted, or nothing at all. What comes first of that is said.
fn differs(rt: HostRuntime, file: &str, case: &Case) -> anyhow::Result<bool> {
    let came = answers(rt, case)?;
    for parts in &came {
        if !are_same(parts, &case.wanted) {
            show_case(rt, file, case, parts)?;
            return Ok(true);
        }
    }
    if came.is_empty() {
        show_case(rt, file, case, &[])?;
    }
    Ok(came.is_empty())
}

/// Carries out the cases of a file.
fn run(rt: HostRuntime, file: &str, text: &str) -> anyhow::Result<()> {
    let cases = cases_of(rt, text)?;
    let mut wrong: usize = 0;
    for case in &cases {
        if differs(rt, file, case)? {
            wrong = wrong.saturating_add(1);
        }
    }
    let count = cases.len();
    println!(rt; "{file}: {count} cases, {wrong} answered otherwise")?;
    Ok(())
}

fn main(rt: HostRuntime) -> anyhow::Result<()> {
    let names: Vec<String> = env::args(&rt)?.skip(1).collect(rt.alloc())?;
    for name in &names {
        let text = fs::read_to_string(&rt, name)?;
        run(rt, name, &text)?;
    }
    Ok(())
}
