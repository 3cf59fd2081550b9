//! Trees whose parts are walked: what is known there, and what the tree comes to at their end.

ghost use Rattle.std.specs.Prelude.{◌≡◌, ◌≤◌, true, IfOk, OnOk, length};
ghost use Rattle.vd_forest.specs.Forest.{Forest};
ghost use Rattle.vd_forest.specs.Store.{Extends};
ghost use Rattle.vd_forms.specs.declared.form.Form.{Form as AnyForm};
ghost use Rattle.vd_name_entering.specs.Made.{IsMade};
ghost use Rattle.vd_name_rows.specs.Rows.{row_of as row_for};
ghost use Rattle.vd_naming.specs.Naming.{done, ended, looked_at, left_by};
ghost use Rattle.vd_naming.specs.Views.{are_other as differ};
ghost use Rattle.vd_name_units.specs.Opened.{IsOpened};
ghost use Rattle.vd_name_resolution.specs.Inside.{opened_by, ended_at, behind_view};
ghost use Rattle.vd_name_resolution.specs.Kinds.{goes_inside as walks_parts};
ghost use Rattle.vd_walks.specs.Outcomes.{seen_in, IsOutcome, IsEntry};

use crate::kept::Kept;
use crate::kinds::{is_of_view, is_within};
use crate::{end, place_behind};
use std::alloc::{AllocError, Global};
use vd_bytes::{Place, Refused};
use vd_declarations::TypeId;
use vd_forest::{Opened, Store};
use vd_forms::Form;
use vd_name_entering::{Ended, Made, Units};
use vd_name_rows::{At, Names, Step, row_of};
use vd_name_units::{open, within};
use vd_resolved::Resolved;
use vd_walks::{Entry, Outcome, lesser};

/// Opens a tree: in a region of its own where its row says so, or in the one that is open.
fn open_by(
    alloc: Global,
    names: &mut Names,
    at: &mut At<'_>,
    step: Step,
    node: &Opened<'_, Form>,
) -> Result<Option<Refused>, AllocError>
    ensures { IfOk result (λ first. IsOpened names.new at.new first
        (opened_by step node.now.form at.old names.old node.now.place node.now.parts)) }
{
    if is_within(step) {
        within(names, at, node)?;
        return Ok(None);
    }
    let first = open(alloc, names, at, node)?;
    Ok(first)
}

/// Goes inside a tree.
#[tactic(auto, using(crate::proofs::StepLemmas::entered))]
pub fn go_inside<'a>(
    alloc: Global,
    names: &mut Names,
    at: At<'a>,
    step: Step,
    node: &Opened<'a, Form>,
    out: &Store<Resolved>,
) -> Result<Entry<At<'a>, Kept<'a>>, AllocError>
    ensures { (whole : Forest AnyForm) → walks_parts step node.now.form ≡ true → IfOk result (λ entry. IsEntry out.now names.new entry
        (done whole step node.now.form node.now.text.now node.now.place node.now.parts at.entry names.old)) }
{
    let mut inside = at.again(alloc)?;
    let first = open_by(alloc, names, &mut inside, step, node)?;
    let kept = Kept {
        step,
        outer: at,
        inside: inside.again(alloc)?,
        first,
    };
    Ok(Entry::Inside { at: inside, kept })
}

/// Whether two types are known, and another one each.
fn are_other(mark: &Option<TypeId>, other: &Option<TypeId>) -> bool
    ensures { result ≡ differ mark.now other.now }
{
    match (mark, other) {
        (Some(mark), Some(other)) => *mark != *other,
        _ => false,
    }
}

/// What is refused of the subtype behind the view of a port: it has to be one of the view's record type.
fn refused_subtype(step: Step, form: Form, outer: &At<'_>, behind: &At<'_>) -> Option<Refused>
    ensures { result ≡ behind_view step form outer.now behind.now.mark }
{
    if !is_of_view(step) || matches!(form, Form::Absent) || !are_other(&outer.mark, &behind.mark) {
        return None;
    }
    Some(Refused {
        place: outer.word_place,
        rule: 308,
    })
}

/// The node at the end of its parts, and what it declares.
fn end_tree<'a>(
    alloc: Global,
    names: &mut Names,
    units: &Units<'_>,
    kept: &Kept<'a>,
    node: &Opened<'a, Form>,
    inner: &Outcome<At<'a>>,
    out: &mut Store<Resolved>,
) -> Result<Made, AllocError>
    requires { inner.now.tree ≤ length out.old }
    ensures is { IfOk result (λ made. IsMade out.new names.new made (ended units.now (row_for node.now.form).ending
        (ended_at kept.now node.now.form node.now.text.now node.now.place node.now.parts (seen_in out.old names.old inner.now)))) }
    ensures extends { Extends out.old out.new }
{
    let ended = Ended {
        node,
        outer: &kept.outer,
        inside: &kept.inside,
        inner,
    };
    let made = end(alloc, names, units, row_of(node.form).ending, &ended, out)?;
    Ok(made)
}

/// What a tree comes to at the end of its parts.
#[tactic(auto, using(crate::proofs::StepLemmas::left, vd_forest::proofs::StoreLemmas::growing))]
pub fn leave_tree<'a>(
    alloc: Global,
    names: &mut Names,
    units: &Units<'_>,
    kept: &Kept<'a>,
    node: &Opened<'a, Form>,
    outcome: &mut Outcome<At<'a>>,
    out: &mut Store<Resolved>,
) -> Result<(), AllocError>
    requires { outcome.old.tree ≤ length out.old }
    ensures is { OnOk result (IsOutcome out.new names.new outcome.new
        (left_by kept.now.step node.now.form node.now.place kept.now.outer
        (looked_at units.now kept.now node.now.form node.now.text.now node.now.place node.now.parts (seen_in out.old names.old outcome.old)))) }
    ensures extends { Extends out.old out.new }
{
    let ending = row_of(node.form).ending;
    let outer = kept.outer.again(alloc)?;
    let behind = place_behind(names, ending, outer, &outcome.at)?;
    let made = end_tree(alloc, names, units, kept, node, outcome, out)?;
    let refused = refused_subtype(kept.step, node.form, &kept.outer, &behind);
    outcome.tree = made.tree;
    outcome.first = lesser(lesser(kept.first, made.first), refused);
    outcome.at = behind;
    Ok(())
}
