//! Tables by the numbers of declarations.

ghost use Rattle.std.specs.Prelude.{◌≡◌, ℕ, ◌==◌, Some, None, IfOk, is_some, slice_index_or, if◌then◌else◌};
ghost use Rattle.vd_structure_rules.specs.Functions.{is_among};
ghost use Rattle.vd_structure_rules.specs.Loops.{loop_of};

use crate::loops::LabelledLoop;
use std::alloc::{AllocError, Global};
use vd_declarations::DeclId;

/// What stands at a number, or nothing behind the end.
pub fn entry<A: Copy + Drop>(table: &[Option<A>], number: u32) -> Option<A>
    ensures { result ≡ slice_index_or table.now number None }
{
    match table.get(number as usize) {
        None => None,
        Some(found) => *found,
    }
}

/// Puts an entry at a number, over what stands there.
#[tactic(auto, using(crate::proofs::TableLemmas::room_for_more, crate::proofs::TableLemmas::after_setting))]
pub fn put<A: Copy + Drop>(
    table: &mut Vec<Option<A>>,
    number: u32,
    entry: A,
) -> Result<(), AllocError>
    ensures { IfOk result (λ _. (k : ℕ) → slice_index_or table.new.items k None
        ≡ (if k == number then Some entry else slice_index_or table.old.items k None)) }
{
    let place = number as usize;
    while table.len() <= place {
        table.push(None)?;
    }
    table[place] = Some(entry);
    Ok(())
}

/// The functions that have bodies, by their numbers.
pub fn bodies_by_number(alloc: Global, bodies: &[DeclId]) -> Result<Vec<Option<DeclId>>, AllocError>
    ensures { IfOk result (λ table. (k : ℕ) → is_some (slice_index_or table.items k None) ≡ is_among bodies.now k) }
{
    let mut table = Vec::new(alloc);
    let mut left = bodies.len();
    while left > 0 {
        left -= 1;
        let body = bodies[left];
        put(&mut table, body.number(), body)?;
    }
    Ok(table)
}

/// The loops with labels, by the numbers of the labels.
pub fn loops_by_label(
    alloc: Global,
    loops: &[LabelledLoop],
) -> Result<Vec<Option<LabelledLoop>>, AllocError>
    ensures { IfOk result (λ table. (k : ℕ) → slice_index_or table.items k None ≡ loop_of loops.now k) }
{
    let mut table = Vec::new(alloc);
    let mut left = loops.len();
    while left > 0 {
        left -= 1;
        let labelled = loops[left];
        put(&mut table, labelled.label.number(), labelled)?;
    }
    Ok(table)
}
