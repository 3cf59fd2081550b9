//! Names with numbers behind them.

ghost use Rattle.std.specs.Prelude.{◌≡◌, ◌≤◌, ◌<◌, ℕ, false, true, IfOk};
ghost use Rattle.vd_region_tables.specs.declared.keys.Name.{Name};
ghost use Rattle.vd_names.specs.Names.{IsFresh, is_used, numbered};

use crate::used::Used;
use std::alloc::{AllocError, Global};
use vd_region_tables::Name;

/// The least number that stands behind a name.
pub(crate) const FIRST: u32 = 2;

/// A name with a number behind it, and the number.
#[derive(Drop)]
pub struct Fresh {
    pub name: Name,
    pub number: u32,
}

/// A name, an underscore and a number.
fn numbered(alloc: Global, wanted: &[u8], number: u32) -> Result<Name, AllocError>
    ensures { IfOk result (λ name. name.bytes.items ≡ numbered wanted.now number) }
{
    let digits = format!(in alloc; "_{number}")?;
    let mut bytes = Vec::from_slice(alloc, wanted)?;
    bytes.extend_from_slice(digits.as_bytes())?;
    Ok(Name { bytes })
}

/// The first name with a number behind it, from a number on, that isn't used. Where numbers of 32 bits run out it ends as where memory does.
#[tactic(auto, using(crate::proofs::FreshLemmas::seeking))]
pub(crate) fn fresh_from(
    alloc: Global,
    used: &Used,
    wanted: &[u8],
    first: u32,
) -> Result<Fresh, AllocError>
    ensures { IfOk result (IsFresh used.now wanted.now first) }
{
    for number in first..u32::MAX {
        let name = numbered(alloc, wanted, number)?;
        if !used.has(&name) {
            return Ok(Fresh { name, number });
        }
    }
    Err(AllocError)
}

/// The name with the least number behind it, from 2 on, that isn't used.
pub fn fresh_name(alloc: Global, used: &Used, wanted: &[u8]) -> Result<Fresh, AllocError>
    ensures { IfOk result (IsFresh used.now wanted.now 2) }
{
    fresh_from(alloc, used, wanted, FIRST)
}
