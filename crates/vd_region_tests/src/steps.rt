//! Steps and their answers. A line is a step, or the answer that the step before it must have, behind `=>`; `--` begins a comment.
//!
//!     new | given 2019 | given 1993
//!     nest OUTER LABEL | body OUTER LABEL DECLARATION
//!     use REGION FROM [NAME] | close REGION
//!     enter REGION LABEL CLASS NAME [mark=LABEL | number=N] [of=LABEL] [params=LABEL,LABEL] [inside=REGION]
//!     visible REGION NAME | selected REGION PREFIX NAME
//!
//! A function of a step says whether the world has what its words name, and puts the answer behind a text.

use crate::words::{class_of, enter_with};
use crate::world::{
    World, add_label, given_regions, label_declarations, label_regions, unlabelled,
};
use std::alloc::{AllocError, Global};
use std::io;
use vd_declarations::{DeclId, RegionId};
use vd_regions::{EnterEnd, Regions};
use vd_trees::Revision;

/// A region that the world has.
fn known(world: &World, label: &str) -> Option<RegionId> {
    let region = world.region(label)?;
    if world.regions.is_region(region) {
        Some(region)
    } else {
        None
    }
}

/// The regions of another world.
fn regions_of(alloc: Global, revision: &str) -> Result<Regions, AllocError> {
    match revision {
        "2019" => given_regions(alloc, Revision::V2019),
        "1993" => given_regions(alloc, Revision::V1993),
        _ => Regions::new(alloc),
    }
}

/// Another world.
fn begin(alloc: Global, world: &mut World, revision: &str) -> Result<bool, AllocError> {
    let regions = regions_of(alloc, revision)?;
    *world = unlabelled(alloc, regions);
    label_regions(alloc, world)?;
    label_declarations(alloc, world)?;
    Ok(true)
}

/// A region more in another one.
fn nest(
    alloc: Global,
    world: &mut World,
    outer: RegionId,
    label: &str,
) -> Result<bool, AllocError> {
    if !world.regions.is_region(outer) {
        return Ok(false);
    }
    world.regions.nest(outer)?;
    add_label(alloc, &mut world.region_labels, label)?;
    Ok(true)
}

/// The region of a body in another one.
fn nest_body(
    alloc: Global,
    world: &mut World,
    outer: RegionId,
    label: &str,
    begun: &str,
) -> Result<bool, AllocError> {
    let Some(begun) = known(world, begun) else {
        return Ok(false);
    };
    if !world.regions.is_region(outer) || !world.regions.is_region(begun) {
        return Ok(false);
    }
    world.regions.nest_body(outer, begun)?;
    add_label(alloc, &mut world.region_labels, label)?;
    Ok(true)
}

/// A use clause, of all names where none stands.
fn use_name(
    world: &mut World,
    region: RegionId,
    from: &str,
    name: &str,
) -> Result<bool, AllocError> {
    let Some(from) = known(world, from) else {
        return Ok(false);
    };
    if !world.regions.is_region(region) {
        return Ok(false);
    }
    let name = if name.is_empty() { None } else { Some(name) };
    world.regions.use_name(region, from, name)?;
    Ok(true)
}

/// The end of a region.
fn close(world: &mut World, region: RegionId) -> bool {
    let is_region = world.regions.is_region(region);
    if is_region {
        world.regions.close(region);
    }
    is_region
}

/// Why a declaration isn't entered.
fn show_end(world: &World, end: EnterEnd, answer: &mut String) -> Result<bool, AllocError> {
    match end {
        EnterEnd::Homograph(first) => {
            answer.push_str("homograph ")?;
            answer.push_str(world.label(first))?;
            Ok(true)
        }
        EnterEnd::Memory => Err(AllocError),
    }
}

/// A declaration more, or the homograph.
fn enter(
    alloc: Global,
    world: &mut World,
    region: RegionId,
    words: &[&str],
    answer: &mut String,
) -> Result<bool, AllocError> {
    let [label, class, name, rest @ ..] = words else {
        return Ok(false);
    };
    let Some(class) = class_of(world, class, rest) else {
        return Ok(false);
    };
    match enter_with(alloc, world, region, class, name, rest) {
        Ok(_) => {
            add_label(alloc, &mut world.labels, label)?;
            answer.push_str("ok")?;
            Ok(true)
        }
        Err(end) => show_end(world, end, answer),
    }
}

/// The labels of declarations, in order.
fn show(world: &World, found: &[DeclId], answer: &mut String) -> Result<bool, AllocError> {
    for id in found {
        if !answer.is_empty() {
            answer.push(' ')?;
        }
        answer.push_str(world.label(*id))?;
    }
    Ok(true)
}

/// What is visible.
fn visible(
    alloc: Global,
    world: &World,
    region: RegionId,
    name: &str,
    answer: &mut String,
) -> Result<bool, AllocError> {
    let found = world.regions.visible(alloc, region, name)?;
    show(world, &found, answer)
}

/// What is selected.
fn selected(
    alloc: Global,
    world: &World,
    region: RegionId,
    prefix: &str,
    name: &str,
    answer: &mut String,
) -> Result<bool, AllocError> {
    let Some(prefix) = world.id(prefix) else {
        return Ok(false);
    };
    let found = world.regions.selected(alloc, region, prefix, name)?;
    show(world, &found, answer)
}

/// A word, where there are so many.
fn word<'a>(words: &[&'a str], at: usize) -> &'a str {
    match words.get(at) {
        Some(word) => word,
        None => "",
    }
}

/// Carries out a step at a region, with the words behind the region's.
fn step_at(
    alloc: Global,
    world: &mut World,
    kind: &str,
    region: RegionId,
    words: &[&str],
    answer: &mut String,
) -> Result<bool, AllocError> {
    let first = word(words, 0);
    let second = word(words, 1);
    match kind {
        "nest" => nest(alloc, world, region, first),
        "body" => nest_body(alloc, world, region, first, second),
        "use" => use_name(world, region, first, second),
        "close" => Ok(close(world, region)),
        "enter" => enter(alloc, world, region, words, answer),
        "visible" => visible(alloc, world, region, first, answer),
        "selected" => selected(alloc, world, region, first, second, answer),
        _ => Ok(false),
    }
}

/// Carries out a step.
fn step(
    alloc: Global,
    world: &mut World,
    words: &[&str],
    answer: &mut String,
) -> Result<bool, AllocError> {
    let kind = word(words, 0);
    if kind == "new" || kind == "given" {
        return begin(alloc, world, word(words, 1));
    }
    match (known(world, word(words, 1)), words.get(2..)) {
        (Some(region), Some(rest)) => step_at(alloc, world, kind, region, rest, answer),
        _ => Ok(false),
    }
}

/// What the steps made, the last answer, and how many answers there were, and how many other ones.
#[derive(Drop)]
struct Steps {
    world: World,
    last: String,
    answers: usize,
    others: usize,
}

/// Carries out the step of a line.
fn take_step(alloc: Global, steps: &mut Steps, line: &str) -> Result<bool, AllocError> {
    let words: Vec<&str> = line.split_whitespace().collect(alloc)?;
    steps.last.clear();
    step(alloc, &mut steps.world, &words, &mut steps.last)
}

fn say(rt: HostRuntime, name: &str, at: usize, text: &str) -> io::Result<()> {
    println!(rt; "{name}:{at}: {text}")?;
    Ok(())
}

/// Compares the last answer with the wanted one.
fn compare(
    rt: HostRuntime,
    steps: &mut Steps,
    name: &str,
    at: usize,
    wanted: &str,
) -> io::Result<()> {
    steps.answers = steps.answers.saturating_add(1);
    if wanted != steps.last.as_str() {
        steps.others = steps.others.saturating_add(1);
        say(rt, name, at, steps.last.as_str())?;
    }
    Ok(())
}

/// Reads a line.
fn read(
    rt: HostRuntime,
    steps: &mut Steps,
    name: &str,
    at: usize,
    line: &str,
) -> anyhow::Result<()> {
    if let Some(wanted) = line.strip_prefix("=>") {
        compare(rt, steps, name, at, wanted.trim())?;
    } else if !line.is_empty() && !line.starts_with("--") && !take_step(rt.alloc(), steps, line)? {
        say(rt, name, at, "no step")?;
    }
    Ok(())
}

/// A world of nothing, of which nothing was asked.
fn begun(alloc: Global) -> Result<Steps, AllocError> {
    Ok(Steps {
        world: unlabelled(alloc, Regions::new(alloc)?),
        last: String::new(alloc),
        answers: 0,
        others: 0,
    })
}

/// Reads all lines, and says how many answers are others than the lines have.
fn read_all(rt: HostRuntime, steps: &mut Steps, name: &str, text: &str) -> anyhow::Result<()> {
    for (number, line) in text.lines().enumerate() {
        read(rt, steps, name, number.saturating_add(1), line)?;
    }
    let Steps {
        answers,
        others,
        ..
    } = steps;
    println!(rt; "{name}: {answers} answers, {others} others")?;
    Ok(())
}

/// Carries out the steps of a file, and says which answers are others than the lines have.
pub fn run_steps(rt: HostRuntime, name: &str, text: &str) -> anyhow::Result<()> {
    let mut steps = begun(rt.alloc())?;
    read_all(rt, &mut steps, name, text)
}
