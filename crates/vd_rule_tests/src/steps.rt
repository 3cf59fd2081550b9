//! Steps. A line is a step, or a question, behind `?`: what is wanted, a colon and an expression; the line behind a question has the
//! outcome that it must have, behind `=>`. Behind `!` the text of a question is read, and nothing is asked. `--` begins a comment.
//!
//!     given REVISION | package NAME | end | region | inside | use PATH
//!     enumeration NAME LITERAL .. | array NAME INDEX ELEMENT | record NAME ELEMENT:MARK .. | subtype NAME MARK
//!     constant NAME MARK | signal NAME MARK | function NAME RESULT PARAMETER:MARK ..

use crate::asking::{outcome, read_alone};
use crate::declaring::declare;
use crate::world::{World, new_world};
use std::alloc::Global;
use std::io;
use vd_trees::Revision;

/// Carries out a step.
fn step(alloc: Global, world: &mut World, words: &[&str]) -> anyhow::Result<()> {
    match words {
        ["given", "2019"] => *world = new_world(alloc, Revision::V2019)?,
        ["given", "1993"] => *world = new_world(alloc, Revision::V1993)?,
        ["package", name] => world.package(alloc, name)?,
        ["end"] => world.end()?,
        ["region"] => {
            world.unit()?;
        }
        ["inside"] => {
            let here = world.here;
            world.nest(here)?;
        }
        ["use", path] => world.use_package(alloc, path)?,
        _ => declare(alloc, world, words)?,
    }
    Ok(())
}

/// What the steps made, the last outcome, and how many outcomes there were, and how many other ones.
#[derive(Drop)]
struct Steps {
    world: World,
    last: String,
    outcomes: usize,
    others: usize,
}

/// Carries out the step of a line.
fn take_step(alloc: Global, world: &mut World, line: &str) -> anyhow::Result<()> {
    let words: Vec<&str> = line.split_whitespace().collect(alloc)?;
    step(alloc, world, &words)
}

fn say(rt: HostRuntime, name: &str, line: usize, text: &str) -> io::Result<()> {
    println!(rt; "{name}:{line}: {text}")?;
    Ok(())
}

/// Compares the last outcome with the wanted one, and says it at the question's line where it is another.
fn compare(
    rt: HostRuntime,
    steps: &mut Steps,
    name: &str,
    line: usize,
    wanted: &str,
) -> io::Result<()> {
    steps.outcomes = steps.outcomes.saturating_add(1);
    if wanted != steps.last.as_str() {
        steps.others = steps.others.saturating_add(1);
        say(rt, name, line, steps.last.as_str())?;
    }
    Ok(())
}

/// Asks, reads, or carries out a step.
fn take(alloc: Global, steps: &mut Steps, line: &str) -> anyhow::Result<()> {
    if let Some(question) = line.strip_prefix("? ") {
        steps.last = outcome(alloc, &steps.world, question)?;
    } else if let Some(question) = line.strip_prefix("! ") {
        read_alone(alloc, &steps.world, question)?;
    } else if !line.starts_with("--") && !line.is_empty() {
        take_step(alloc, &mut steps.world, line)?;
    }
    Ok(())
}

/// Takes a line, behind so many others.
fn take_line(
    rt: HostRuntime,
    steps: &mut Steps,
    name: &str,
    others: usize,
    line: &str,
) -> anyhow::Result<()> {
    if let Some(wanted) = line.strip_prefix("=> ") {
        compare(rt, steps, name, others, wanted)?;
    } else {
        take(rt.alloc(), steps, line)?;
    }
    Ok(())
}

/// What is given in revision 2019, of which nothing was asked.
fn begun(alloc: Global) -> anyhow::Result<Steps> {
    Ok(Steps {
        world: new_world(alloc, Revision::V2019)?,
        last: String::new(alloc),
        outcomes: 0,
        others: 0,
    })
}

/// Takes the lines of a file, and says how many outcomes are others than the lines have.
fn take_all(rt: HostRuntime, steps: &mut Steps, name: &str, text: &str) -> anyhow::Result<()> {
    for (number, line) in text.lines().enumerate() {
        take_line(rt, steps, name, number, line)?;
    }
    let count = steps.outcomes;
    let others = steps.others;
    println!(rt; "{name}: {count} outcomes, {others} others")?;
    Ok(())
}

/// Carries out the steps of a file, and says which outcomes are others than the lines have.
pub fn run_steps(rt: HostRuntime, name: &str, text: &str) -> anyhow::Result<()> {
    let mut steps = begun(rt.alloc())?;
    take_all(rt, &mut steps, name, text)
}
