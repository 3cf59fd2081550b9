//! What an instance declares for the generics of a package or a function.

ghost use Rattle.std.specs.Prelude.{◌≡◌, IfOk, ℕ, nat_eq};
ghost use Rattle.std.specs.HashMap.{get};
ghost use Rattle.vd_meaning.specs.Elaborations.{copied};
ghost use Rattle.vd_meaning.specs.Tables.{pairs};

use std::alloc::{AllocError, Global};
use std::collections::HashMap;
use vd_declarations::DeclId;

/// The pairs of two lists, as far as both go.
#[tactic(auto, using(vd_port_modes::proofs::CopyLemmas::pairs_more, vd_port_modes::proofs::CopyLemmas::pairs_all))]
fn side_by_side(
    alloc: Global,
    generics: &[DeclId],
    copies: &[DeclId],
) -> Result<Vec<(u32, u32)>, AllocError>
    ensures { IfOk result (λ made. made.items ≡ pairs generics.now copies.now) }
{
    let mut made = Vec::new(alloc);
    for at in 0..generics.len().min(copies.len()) {
        let generic = generics[at];
        let copy = copies[at];
        made.push((generic.number(), copy.number()))?;
    }
    Ok(made)
}

/// The table of the pairs. The last is put first, so that the first counts.
fn table_of(alloc: Global, pairs: &[(u32, u32)]) -> Result<HashMap<u32, u32>, AllocError>
    ensures { IfOk result (λ table. (n : ℕ) → get nat_eq table n ≡ copied pairs.now n) }
{
    let mut table = HashMap::new(alloc);
    let mut left = pairs.len();
    while left > 0 {
        left -= 1;
        let (number, copy) = pairs[left];
        table.insert(number, copy)?;
    }
    Ok(table)
}

/// For each generic what an instance declares for it.
pub(crate) fn copies_of(
    alloc: Global,
    generics: &[DeclId],
    copies: &[DeclId],
) -> Result<HashMap<u32, u32>, AllocError>
    ensures { IfOk result (λ table. (n : ℕ) → get nat_eq table n ≡ copied (pairs generics.now copies.now) n) }
{
    let made = side_by_side(alloc, generics, copies)?;
    table_of(alloc, &made)
}
