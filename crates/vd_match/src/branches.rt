//! `if` statements, branch by branch.
#![tactic(auto, using(vd_forest::proofs::StoreLemmas::growing))]

ghost use Rattle.std.specs.Prelude.{◌≡◌, ◌≤◌, IfOk, length};
ghost use Rattle.vd_forest.specs.Store.{Extends};

use crate::trees::{bare, behind, in_front};
use std::alloc::AllocError;
use vd_bytes::Place;
use vd_forest::Store;
use vd_forms::Form;
use vd_notes::{Noted, absent};

/// The branches of an `if` statement.
#[derive(Clone, Copy)]
pub(crate) struct Branches {
    /// The condition and the statements of the first one, or none.
    pub(crate) first: u32,
    /// Those behind it, the last one first.
    pub(crate) further: u32,
    /// The last one, without a condition, or none.
    pub(crate) other: u32,
}

/// None.
pub(crate) fn no_branches() -> Branches
    ensures first { result.first ≡ 0 }
    ensures further { result.further ≡ 0 }
    ensures other { result.other ≡ 0 }
{
    Branches {
        first: 0,
        further: 0,
        other: 0,
    }
}

/// One more branch, which begins with its condition.
pub(crate) fn with_branch(
    out: &mut Store<Noted>,
    branches: Branches,
    place: Place,
    branch: u32,
) -> Result<Branches, AllocError>
    requires first_in { branches.first ≤ length out.old }
    requires further_in { branches.further ≤ length out.old }
    requires other_in { branches.other ≤ length out.old }
    requires branch_in { branch ≤ length out.old }
    ensures first { IfOk result (λ made. made.first ≤ length out.new) }
    ensures further { IfOk result (λ made. made.further ≤ length out.new) }
    ensures other { IfOk result (λ made. made.other ≤ length out.new) }
    ensures extends { Extends out.old out.new }
{
    if branches.first == 0 {
        return Ok(Branches {
            first: branch,
            ..branches
        });
    }
    let further = out.add(
        bare(Form::ElsifBranch),
        &[],
        place,
        branch,
        branches.further,
    )?;
    Ok(Branches {
        further,
        ..branches
    })
}

/// The last branch, with these statements.
pub(crate) fn with_other(
    out: &mut Store<Noted>,
    branches: Branches,
    place: Place,
    statements: u32,
) -> Result<Branches, AllocError>
    requires first_in { branches.first ≤ length out.old }
    requires further_in { branches.further ≤ length out.old }
    requires statements_in { statements ≤ length out.old }
    ensures first { IfOk result (λ made. made.first ≤ length out.new) }
    ensures further { IfOk result (λ made. made.further ≤ length out.new) }
    ensures other { IfOk result (λ made. made.other ≤ length out.new) }
    ensures extends { Extends out.old out.new }
{
    let other = out.add(bare(Form::ElseBranch), &[], place, statements, 0)?;
    Ok(Branches { other, ..branches })
}

/// What stands behind the first branch.
fn behind_first(out: &mut Store<Noted>, branches: Branches, place: Place) -> Result<u32, AllocError>
    requires further_in { branches.further ≤ length out.old }
    requires other_in { branches.other ≤ length out.old }
    ensures within { IfOk result (λ made. made ≤ length out.new) }
    ensures extends { Extends out.old out.new }
{
    let name = absent(out, place, 0)?;
    let last = if branches.other == 0 {
        absent(out, place, name)?
    } else {
        out.relink(branches.other, name)?
    };
    let further = out.turn(branches.further, 0)?;
    let made = out.add(bare(Form::ElsifBranches), &[], place, further, last)?;
    Ok(made)
}

/// The `if` statement of some branches, of which there is a first one.
pub(crate) fn if_statement(
    out: &mut Store<Noted>,
    branches: Branches,
    place: Place,
) -> Result<u32, AllocError>
    requires first_in { branches.first ≤ length out.old }
    requires further_in { branches.further ≤ length out.old }
    requires other_in { branches.other ≤ length out.old }
    ensures within { IfOk result (λ made. made ≤ length out.new) }
    ensures extends { Extends out.old out.new }
{
    let statements = behind(out, branches.first);
    let made = behind_first(out, branches, place)?;
    let made = in_front(out, statements, made)?;
    let made = in_front(out, branches.first, made)?;
    let made = out.add(bare(Form::IfStatement), &[], place, made, 0)?;
    Ok(made)
}
