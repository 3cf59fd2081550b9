//! What overload resolution makes of an expression.

use crate::frames::{Frame, find};
use crate::world::World;
use anyhow::bail;
use std::alloc::{AllocError, Global};
use vd_bytes::Refusal;
use vd_declarations::TypeId;
use vd_directives::plain::plain;
use vd_forest::{Cursor, Store};
use vd_forms::{Design19, Design93, Form};
use vd_grammar19::read19;
use vd_grammar93::read93;
use vd_lex::{lex19, lex93};
use vd_overloads::{Env, Wanted, resolve_expr};
use vd_test_texts::LONGEST;
use vd_trees::Revision;
use vd_visible::Surroundings;
use vd_visible::type_lists::all_types;

/// The type of a mark.
fn type_of(alloc: Global, world: &World, mark: &str) -> anyhow::Result<TypeId> {
    let mark = world.find(alloc, mark)?;
    let base = world.base(mark)?;
    Ok(base)
}

/// What these words want, and the text that stands round the expression.
fn wanted_by(alloc: Global, world: &World, words: &[&str]) -> anyhow::Result<(Wanted, Frame)> {
    match words {
        ["condition"] => Ok((Wanted::Condition, Frame::Value)),
        ["free"] => Ok((Wanted::Free, Frame::Value)),
        ["discrete"] => Ok((Wanted::AnyDiscreteRange, Frame::Range)),
        ["choice", mark] => Ok((Wanted::Choice(type_of(alloc, world, mark)?), Frame::Choice)),
        [mark] => Ok((Wanted::OfType(type_of(alloc, world, mark)?), Frame::Value)),
        _ => bail!("such words want nothing"),
    }
}

/// What is wanted, and the text that stands round the expression.
fn wanted_of(alloc: Global, world: &World, want: &str) -> anyhow::Result<(Wanted, Frame)> {
    let words: Vec<&str> = want.split_whitespace().collect(alloc)?;
    wanted_by(alloc, world, &words)
}

/// A text of revision 2019 as a tree.
fn design19(alloc: Global, text: &str) -> anyhow::Result<Design19> {
    if text.len() >= LONGEST {
        bail!("the text is too long");
    }
    let text = plain(alloc, 0, text.as_bytes())?;
    let Ok(tokens) = lex19(alloc, &text) else {
        bail!("the text has no tokens");
    };
    match read19(alloc, &tokens) {
        Ok(design) => Ok(design),
        Err(_) => bail!("the text has no tree"),
    }
}

/// A text of revision 1993 as a tree.
fn design93(alloc: Global, text: &str) -> anyhow::Result<Design93> {
    if text.len() >= LONGEST {
        bail!("the text is too long");
    }
    let text = plain(alloc, 0, text.as_bytes())?;
    let Ok(tokens) = lex93(alloc, &text) else {
        bail!("the text has no tokens");
    };
    match read93(alloc, &tokens) {
        Ok(design) => Ok(design),
        Err(_) => bail!("the text has no tree"),
    }
}

/// The expression in a tree, and what stands behind it.
fn expression_in<'a>(
    alloc: Global,
    units: &Cursor<'a, Form>,
    frame: Frame,
) -> anyhow::Result<Cursor<'a, Form>> {
    let Some(found) = find(alloc, units, frame.form())? else {
        bail!("the text has no such form");
    };
    Ok(found.parts().skip(frame.part()))
}

/// Resolves an expression where the steps are, or says what is refused of it.
fn resolve(
    alloc: Global,
    world: &World,
    wanted: &Wanted,
    tree: &Cursor<'_, Form>,
) -> Result<(), Refusal> {
    let Ok(types) = all_types(alloc, &world.regions) else {
        return Err(Refusal::Memory);
    };
    let env = Env {
        surroundings: Surroundings::of(world.revision, &world.regions, world.here, None, &types),
    };
    let mut out = Store::new(alloc);
    resolve_expr(alloc, &env, tree, wanted, &mut out)?;
    Ok(())
}

/// The rule, and the column in the expression.
fn refusal(alloc: Global, frame: Frame, end: Refusal) -> Result<String, AllocError> {
    match end {
        Refusal::Memory => String::from_str(alloc, "no memory"),
        Refusal::Refused(r) => {
            let rule = r.rule;
            let column = (r.place.column as usize).saturating_sub(frame.front().len());
            format!(in alloc; "{rule}@{column}")
        }
    }
}

/// That there is one interpretation, or what is refused.
fn resolved(
    alloc: Global,
    world: &World,
    wanted: &Wanted,
    frame: Frame,
    units: &Cursor<'_, Form>,
) -> anyhow::Result<String> {
    let tree = expression_in(alloc, units, frame)?;
    match resolve(alloc, world, wanted, &tree) {
        Ok(()) => Ok(String::from_str(alloc, "ok")?),
        Err(end) => Ok(refusal(alloc, frame, end)?),
    }
}

/// What comes of a text of revision 2019 in which an expression stands.
fn outcome19(
    alloc: Global,
    world: &World,
    wanted: &Wanted,
    frame: Frame,
    text: &str,
) -> anyhow::Result<String> {
    let design = design19(alloc, text)?;
    resolved(alloc, world, wanted, frame, &design.units())
}

/// What comes of a text of revision 1993 in which an expression stands.
fn outcome93(
    alloc: Global,
    world: &World,
    wanted: &Wanted,
    frame: Frame,
    text: &str,
) -> anyhow::Result<String> {
    let design = design93(alloc, text)?;
    resolved(alloc, world, wanted, frame, &design.units())
}

/// An expression with what stands round it.
fn framed(alloc: Global, frame: Frame, text: &str) -> Result<String, AllocError> {
    let front = frame.front();
    let back = frame.back();
    format!(in alloc; "{front}{text}{back}")
}

/// What comes of a question: what is wanted, a colon and an expression.
pub fn outcome(alloc: Global, world: &World, question: &str) -> anyhow::Result<String> {
    let Some((want, text)) = question.split_once(" : ") else {
        bail!("{question} is no question");
    };
    let (wanted, frame) = wanted_of(alloc, world, want.trim())?;
    let whole = framed(alloc, frame, text.trim())?;
    match world.revision {
        Revision::V2019 => outcome19(alloc, world, &wanted, frame, &whole),
        Revision::V1993 => outcome93(alloc, world, &wanted, frame, &whole),
    }
}

/// Reads the text of a question, and asks nothing.
pub fn read_alone(alloc: Global, world: &World, question: &str) -> anyhow::Result<()> {
    let Some((want, text)) = question.split_once(" : ") else {
        bail!("{question} is no question");
    };
    let (_, frame) = wanted_of(alloc, world, want.trim())?;
    let whole = framed(alloc, frame, text.trim())?;
    match world.revision {
        Revision::V2019 => {
            design19(alloc, &whole)?;
        }
        Revision::V1993 => {
            design93(alloc, &whole)?;
        }
    }
    Ok(())
}
