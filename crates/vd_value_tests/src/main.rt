//! Carries out what files say of values, the kernel, walks and readings, and compares the answers with those that stand there. The words are pairs: a
//! kind of file, and its name.
#![tactic(auto)]

mod agreeing;
mod answering;
mod calculating;
mod choosing;
mod composing;
mod driving;
mod fielding;
mod indicating;
mod integers;
mod logic;
mod names;
mod operators;
mod readings;
mod shapes;
mod simulating;
mod times;
mod values;
mod walkers;

use crate::agreeing::compare_operators;
use crate::answering::compare_answers;
use anyhow::bail;
use std::{env, fs};

/// Does with a file what its kind says.
fn run(rt: HostRuntime, kind: &str, name: &str) -> anyhow::Result<()> {
    let text = fs::read_to_string(&rt, name)?;
    match kind {
        "operators" => compare_operators(rt, name, &text),
        _ => compare_answers(rt, kind, name, &text),
    }
}

fn main(rt: HostRuntime) -> anyhow::Result<()> {
    let words: Vec<String> = env::args(&rt)?.skip(1).collect(rt.alloc())?;
    for pair in words.chunks(2) {
        let [kind, name] = pair else {
            bail!("the words are pairs");
        };
        run(rt, kind, name)?;
    }
    Ok(())
}
