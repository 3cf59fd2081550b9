//! Runs what is measured, for the scripts in bench/. The first word says which module does it, and the other words are for that.
#![tactic(auto)]

mod arithmetic;
mod forest;
mod gram;
mod lex;
mod logic;
mod print;
mod read;
mod regions;
mod values;

use anyhow::bail;
use std::env;

fn main(rt: HostRuntime) -> anyhow::Result<()> {
    let words: Vec<String> = env::args(&rt)?.skip(1).collect(rt.alloc())?;
    let [bench, words @ ..] = words.as_slice() else {
        println!(rt;
            "the words are values, gram, forest, lex, read, print or regions, and those for that bench"
        )?;
        return Ok(());
    };
    match bench.as_str() {
        "values" => values::run(rt, words),
        "gram" => gram::run(rt, words),
        "forest" => forest::run(rt, words),
        "lex" => lex::run(rt, words),
        "read" => read::run(rt, words),
        "print" => print::run(rt, words),
        "regions" => regions::run(rt, words),
        _ => bail!("there is no such bench"),
    }
}
