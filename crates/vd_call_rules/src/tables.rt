//! What calls reach, by the numbers of the functions that are called.

ghost use Rattle.std.specs.Prelude.{◌≡◌, ◌==◌, ℕ, IfOk, OnOk, Some, None, slice_get, slice_index_or, if◌then◌else◌};
ghost use Rattle.vd_call_rules.specs.Chains.{class_in, first_reach_of as reach_of_first, put_reach, reach_in};

use crate::reaches::{Reach, again, generic_call, no_call};
use std::alloc::{AllocError, Global};
use vd_declarations::{Class, DeclId, Declaration};

/// What calls reach, by the numbers of what they call; where there is no row, nothing has been called there or has ended.
pub type Rows = Vec<Option<Reach>>;

/// What a call of a function reaches before anything has ended.
fn first_reach(alloc: Global, class: Option<Class>, number: DeclId) -> Result<Reach, AllocError>
    ensures { IfOk result (λ reach. reach ≡ reach_of_first class number) }
{
    match class {
        Some(Class::GenericFunction) => generic_call(alloc, number),
        _ => Ok(no_call(alloc)),
    }
}

/// The class of a declaration.
pub fn class_at(declarations: &[Declaration], number: DeclId) -> Option<Class>
    ensures { result ≡ class_in (slice_get declarations.now number) }
{
    match declarations.get(number.number() as usize) {
        None => None,
        Some(declaration) => Some(declaration.class),
    }
}

/// What a call of a function reaches.
pub fn reach_of(
    alloc: Global,
    declarations: &[Declaration],
    rows: &Rows,
    number: DeclId,
) -> Result<Reach, AllocError>
    ensures { IfOk result (λ reach. reach ≡ reach_in declarations.now rows.now.items number) }
{
    match rows.as_slice().get(number.number() as usize) {
        Some(Some(reach)) => again(alloc, reach),
        _ => first_reach(alloc, class_at(declarations, number), number),
    }
}

/// Puts a row at a number, over what stands there.
#[tactic(auto, using(vd_structure_rules::proofs::TableLemmas::room_for_more, vd_structure_rules::proofs::TableLemmas::after_setting))]
fn put_row(rows: &mut Rows, number: u32, reach: Reach) -> Result<(), AllocError>
    ensures { IfOk result (λ _. (k : ℕ) → slice_index_or rows.new.items k None
        ≡ (if k == number then Some reach else slice_index_or rows.old.items k None)) }
{
    let place = number as usize;
    while rows.len() <= place {
        rows.push(None)?;
    }
    rows[place] = Some(reach);
    Ok(())
}

/// Puts what a call of a function reaches, over what stands there.
#[tactic(auto, using(crate::proofs::RowLemmas::row_put))]
pub fn put(
    declarations: &[Declaration],
    rows: &mut Rows,
    number: DeclId,
    reach: Reach,
) -> Result<(), AllocError>
    ensures { OnOk result (reach_in declarations.now rows.new.items ≡ put_reach number reach (reach_in declarations.now rows.old.items)) }
{
    put_row(rows, number.number(), reach)
}
