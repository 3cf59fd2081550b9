//! The top of a hierarchy, by its name.

ghost use Rattle.std.specs.Prelude.{◌≡◌, ◌<◌, ◌==◌, position, length, IfOk, IfSome};
ghost use Rattle.vd_trees.specs.Identifiers as identifiers;
ghost use Rattle.vd_first_runs.specs.TopNames.{closed_top, top_told, top_named};

use crate::units::has_units;
use std::alloc::{AllocError, Global};
use std::marker::Model;
use vd_bytes::Text;
use vd_first_trees::{Design19, Design93, Form};
use vd_forest::Cursor;

/// An entity by its name, in lower case, and its architecture by its name, or without one the last that is analysed.
#[derive(Debug, Drop)]
pub struct Top {
    pub entity: Text,
    pub architecture: Option<Text>,
}

impl Model for Top {
    ghost use Rattle.vd_first_elaboration.specs.Tops as definitions;

    ghost Value = { definitions.Top };

    ghost view = { λ a. record { entity = a.entity; architecture = a.architecture } };
}

// A letter's lower case. Every other byte stays.
fn lower(b: u8) -> u8
    ensures { result ≡ identifiers.lower b }
{
    if b'A' <= b && b <= b'Z' { b + 32 } else { b }
}

fn lowered(alloc: Global, text: &[u8]) -> Result<Vec<u8>, AllocError>
    ensures { IfOk result (λ v. v.items ≡ identifiers.lowered text.now) }
{
    let mut lowered = Vec::new(alloc);
    for b in text {
        lowered.push(lower(*b))?;
    }
    Ok(lowered)
}

// The place of the first opening bracket.
fn opening(name: &[u8]) -> Option<usize>
    ensures place { result ≡ position (λ b. b == 40) name.now }
    ensures within { IfSome result (λ i. i < length name.now) }
{
    name.iter().position(|b| *b == b'(')
}

fn top_of(alloc: Global, entity: &[u8], architecture: Option<Text>) -> Result<Top, AllocError>
    ensures { IfOk result (λ top. top ≡ record { entity = entity.now; architecture = architecture }) }
{
    Ok(Top {
        entity: Text::from_slice(alloc, entity)?,
        architecture,
    })
}

// The top of this entity, where this stands behind an opening bracket.
fn closed_top(alloc: Global, entity: &[u8], rest: &[u8]) -> Result<Option<Top>, AllocError>
    ensures { IfOk result (λ top. top ≡ closed_top entity.now rest.now) }
{
    let n = rest.len();
    if n == 0 || rest[n - 1] != b')' {
        return Ok(None);
    }
    let architecture = Text::from_slice(alloc, &rest[..n - 1])?;
    let top = top_of(alloc, entity, Some(architecture))?;
    Ok(Some(top))
}

// The top that a name in lower case tells.
fn read_top(alloc: Global, name: &[u8]) -> Result<Option<Top>, AllocError>
    ensures { IfOk result (λ top. top ≡ top_told name.now) }
{
    match opening(name) {
        Some(i) => closed_top(alloc, &name[..i], &name[i + 1..]),
        None => {
            let top = top_of(alloc, name, None)?;
            Ok(Some(top))
        }
    }
}

pub(crate) fn find_top(
    alloc: Global,
    units: &Cursor<'_, Form>,
    name: &str,
) -> Result<Option<Top>, AllocError>
    ensures { IfOk result (λ top. top ≡ top_named units.now name.now) }
{
    let name = lowered(alloc, name.as_bytes())?;
    let Some(top) = read_top(alloc, &name)? else {
        return Ok(None);
    };
    if has_units(units, &top) {
        Ok(Some(top))
    } else {
        Ok(None)
    }
}

/// The top of that name in a design of revision 2019: `entity`, or `entity(architecture)`, in letters of either case.
pub fn top19(alloc: Global, design: &Design19, name: &str) -> Result<Option<Top>, AllocError>
    ensures { IfOk result (λ top. top ≡ top_named design.now name.now) }
{
    find_top(alloc, &design.units(), name)
}

/// The same for a design of revision 1993.
pub fn top93(alloc: Global, design: &Design93, name: &str) -> Result<Option<Top>, AllocError>
    ensures { IfOk result (λ top. top ≡ top_named design.now name.now) }
{
    find_top(alloc, &design.units(), name)
}
