//! Traces of two steps, of a stop in a step and of a stop before any.

use std::alloc::{AllocError, Global};
use vd_bytes::Text;
use vd_trace_text::{TypeText, add_done, add_quiet, add_shown_step, add_stop, add_stopped_step};
use vd_trees::{
    Label, Labels, Level, Levels, Path, PathIndex, PathStep, PathSteps, Report, Scope, Stop,
};
use vd_values::{Scalar, StopKind};

/// A label by its name, with the position and the text of its index where that isn't empty.
type Given = (&'static str, i64, &'static str);

/// The instance `u` in the generate `g(3)`.
const INSTANCE: [Given; 2] = [("g", 3, "3"), ("u", 0, "")];

/// The generate `h(busy)`.
const GENERATE: [Given; 1] = [("h", 1, "busy")];

fn index(alloc: Global, position: i64, text: &str) -> Result<PathIndex, AllocError> {
    let text = Text::from_slice(alloc, text.as_bytes())?;
    Ok(PathIndex { position, text })
}

fn index_if(alloc: Global, position: i64, text: &str) -> Result<Option<PathIndex>, AllocError> {
    if text.is_empty() {
        return Ok(None);
    }
    let index = index(alloc, position, text)?;
    Ok(Some(index))
}

fn label(alloc: Global, given: &Given) -> Result<Label, AllocError> {
    let name = Text::from_slice(alloc, given.0.as_bytes())?;
    let index = index_if(alloc, given.1, given.2)?;
    Ok(Label { name, index })
}

fn labels(alloc: Global, given: &[Given]) -> Result<Labels, AllocError> {
    let mut labels = Vec::new(alloc);
    for one in given {
        labels.push(label(alloc, one)?)?;
    }
    Ok(Labels::of(labels))
}

fn level(alloc: Global, given: &[Given], entity: &str) -> Result<Level, AllocError> {
    let labels = labels(alloc, given)?;
    let entity = Text::from_slice(alloc, entity.as_bytes())?;
    let architecture = Text::from_slice(alloc, b"rtl")?;
    Ok(Level {
        labels,
        entity,
        architecture,
    })
}

/// The top, and an instance of `k` in it.
fn levels(alloc: Global) -> Result<Levels, AllocError> {
    let mut levels = Vec::new(alloc);
    levels.push(level(alloc, &[], "top")?)?;
    levels.push(level(alloc, &INSTANCE, "k")?)?;
    Ok(Levels::of(levels))
}

/// The element of index -2, and its field `f`.
fn steps(alloc: Global) -> Result<PathSteps, AllocError> {
    let mut steps = Vec::new(alloc);
    steps.push(PathStep::Index(index(alloc, -2, "-2")?))?;
    steps.push(PathStep::Field(Text::from_slice(alloc, b"f")?))?;
    Ok(PathSteps::of(steps))
}

fn path(alloc: Global, object: &str) -> Result<Path, AllocError> {
    let levels = levels(alloc)?;
    let generates = labels(alloc, &GENERATE)?;
    let object = Text::from_slice(alloc, object.as_bytes())?;
    let rest = steps(alloc)?;
    Ok(Path {
        levels,
        generates,
        object,
        rest,
    })
}

/// The paths of objects.
fn paths(alloc: Global, objects: &[&str]) -> Result<Vec<Path>, AllocError> {
    let mut paths = Vec::new(alloc);
    for object in objects {
        paths.push(path(alloc, object)?)?;
    }
    Ok(paths)
}

/// Reports, each a severity and a text.
fn reports(alloc: Global, given: &[(u8, &[u8])]) -> Result<Vec<Report>, AllocError> {
    let mut reports = Vec::new(alloc);
    for one in given {
        let text = Text::from_slice(alloc, one.1)?;
        reports.push(Report {
            severity: one.0,
            text,
        })?;
    }
    Ok(reports)
}

/// The place of a declaration below the top.
fn deep_scope(alloc: Global) -> Result<Scope, AllocError> {
    let levels = levels(alloc)?;
    let generates = labels(alloc, &GENERATE)?;
    let unit = Text::from_slice(alloc, b"")?;
    Ok(Scope {
        levels,
        generates,
        unit,
    })
}

/// The package `pk`.
fn package_scope(alloc: Global) -> Result<Scope, AllocError> {
    let unit = Text::from_slice(alloc, b"pk")?;
    Ok(Scope {
        levels: Levels::of(Vec::new(alloc)),
        generates: Labels::of(Vec::new(alloc)),
        unit,
    })
}

fn stop(
    alloc: Global,
    kind: StopKind,
    time: u64,
    delta: u32,
    scope: Scope,
) -> Result<Stop, AllocError> {
    let text = Text::from_slice(alloc, b"")?;
    Ok(Stop {
        kind,
        time,
        delta,
        scope,
        text,
    })
}

/// The enumeration of `false` and `true`.
fn boolean(alloc: Global) -> Result<TypeText, AllocError> {
    let mut literals = Vec::new(alloc);
    literals.push(Text::from_slice(alloc, b"false")?)?;
    literals.push(Text::from_slice(alloc, b"true")?)?;
    Ok(TypeText::enumeration(literals))
}

/// Two steps, the second with two values that are new.
fn add_two_steps(
    out: &mut Vec<u8>,
    paths: &[Path],
    types: &[&TypeText],
    reports: &[Report],
) -> Result<(), AllocError> {
    let first = [
        Scalar::Literal(8),
        Scalar::Integer(-5),
        Scalar::Time(5),
        Scalar::Literal(0),
    ];
    let second = [
        Scalar::Literal(8),
        Scalar::Integer(2_147_483_647),
        Scalar::Time(5),
        Scalar::Literal(1),
    ];
    add_shown_step(out, paths, types, 0, 0, 0, reports, &[], &first)?;
    add_shown_step(out, paths, types, 1, 7, 2, &[], &first, &second)?;
    add_quiet(out)
}

fn add_shown(alloc: Global, out: &mut Vec<u8>) -> Result<(), AllocError> {
    let logic = TypeText::std_ulogic(alloc)?;
    let boolean = boolean(alloc)?;
    let types = [&logic, &TypeText::integers(), &TypeText::times(), &boolean];
    let paths = paths(alloc, &["a", "b", "c", "d"])?;
    let reports = reports(alloc, &[(1, b"a~\\\n\xff".as_slice()), (0, b"".as_slice())])?;
    add_two_steps(out, &paths, &types, &reports)
}

fn add_stopped(alloc: Global, out: &mut Vec<u8>) -> Result<(), AllocError> {
    let reports = reports(alloc, &[(3, b"no".as_slice()), (2, b" yes".as_slice())])?;
    let scope = deep_scope(alloc)?;
    let stop = stop(alloc, StopKind::DivideByZero, 5_000_000, 3, scope)?;
    add_stopped_step(out, 12, 5_000_000, 3, &reports, &stop)
}

fn add_early_stop(alloc: Global, out: &mut Vec<u8>) -> Result<(), AllocError> {
    let scope = package_scope(alloc)?;
    let stop = stop(alloc, StopKind::Overflow, 0, 0, scope)?;
    add_stop(out, &stop)
}

/// One of the traces by its word.
fn add_trace(alloc: Global, out: &mut Vec<u8>, word: &str) -> Result<(), AllocError> {
    match word {
        "steps" => add_shown(alloc, out),
        "stop" => add_stopped(alloc, out),
        "early" => add_early_stop(alloc, out),
        _ => add_done(out),
    }
}

/// Traces one behind the other.
pub fn trace(alloc: Global, words: &str) -> Result<Vec<u8>, AllocError> {
    let mut out = Vec::new(alloc);
    for word in words.split_whitespace() {
        add_trace(alloc, &mut out, word)?;
    }
    Ok(out)
}
