//! Selected assignments among sequential statements as `case` statements.
//!
//! Concurrent ones stay, which revision 1993 has too. How a statement with choices is to be written is noted at it, and stays so.

ghost use Rattle.std.specs.Prelude.{◌≡◌, ◌≤◌, false, [], IfOk, length};
ghost use Rattle.vd_forest.specs.Forest.{more, nothing, with_next};
ghost use Rattle.vd_notes.specs.Makers.{absent as no_tree, noted};
ghost use Rattle.vd_forest.specs.Store.{at, Holds, Extends};
ghost use Rattle.vd_rewriting.specs.Inheriting.{rewritten_under};
ghost use Rattle.vd_lowering.specs.Selections.{all_alternatives, alternative, alternatives, case_end, case_node, case_parts, is_sequence, plain_form, selected, selecting, selections};

use crate::assignments::{Statement, Taking, bare, behind, values_in};
use std::alloc::{AllocError, Global};
use vd_bytes::Place;
use vd_forest::{Cursor, Opened, Store};
use vd_forms::Form;
use vd_notes::{Noted, absent};
use vd_resolved::Resolved;
use vd_rewriting::{Inheriting, rewrite_under};

/// The pass, which needs no table.
#[derive(Clone, Copy, Debug)]
pub struct Selections;

/// Whether nodes of this form hold sequential statements.
fn is_sequence(form: Form) -> bool
    ensures { result ≡ is_sequence form }
{
    matches!(
        form,
        Form::Statements | Form::ElseBranch | Form::LabelledStatement
    )
}

/// The statements that select what they assign, and where the values stand behind the target.
fn selecting(form: Form) -> Option<Taking>
    ensures { result ≡ selecting form }
{
    match form {
        Form::SelectedSignalAssignment => Some(Taking::Signal),
        Form::SelectedVariableAssignment => Some(Taking::Variable),
        _ => None,
    }
}

/// The statement that assigns one of the values.
fn plain_form(to: Taking) -> Form
    ensures { result ≡ plain_form to }
{
    match to {
        Taking::Signal => Form::SignalAssignment,
        Taking::Variable => Form::VariableAssignment,
        Taking::Return => Form::ReturnStatement,
    }
}

/// The node of the `case` statement for a node.
fn case_node(node: Noted) -> Noted
    ensures { result ≡ case_node node }
{
    Noted {
        node: Resolved {
            form: Form::CaseStatement,
            declaration: None,
            mark: None,
            position: 0,
        },
        note: node.note,
    }
}

impl Statement {
    /// The alternative of a value and its choices, in front of others.
    #[tactic(auto, using(vd_forest::proofs::StoreLemmas::growing))]
    fn alternative(
        &self,
        out: &mut Store<Noted>,
        spot: Place,
        values: u32,
        next: u32,
    ) -> Result<u32, AllocError>
        requires parts_in { self.now.parts ≤ length out.old }
        requires values_in { values ≤ length out.old }
        requires next_in { next ≤ length out.old }
        ensures holds { IfOk result (λ made. Holds out.new made
            (alternative self.now.to self.now.node self.now.place (at out.old self.now.parts) spot (at out.old values) (at out.old next))) }
        ensures extends { Extends out.old out.new }
    {
        let parts = self.branch(out, values, 0)?;
        let made = out.add(bare(Form::CaseAlternative), &[], spot, parts, next)?;
        Ok(made)
    }

    /// An alternative for each value and its choices.
    #[tactic(auto, using(crate::proofs::SelectionLemmas::selecting))]
    fn alternatives(&self, out: &mut Store<Noted>, values: u32) -> Result<u32, AllocError>
        requires parts_in { self.now.parts ≤ length out.old }
        requires values_in { values ≤ length out.old }
        ensures holds { IfOk result (λ made. Holds out.new made
            (alternatives self.now.to self.now.node self.now.place (at out.old self.now.parts) (at out.old values))) }
        ensures extends { Extends out.old out.new }
    {
        let mut left = values;
        let mut made = 0;
        while left > 0 {
            let first = out.node(left);
            let (spot, inner, rest) = (first.place, first.parts, first.next);
            made = self.alternative(out, spot, inner, made)?;
            left = rest;
        }
        out.turn(made, 0)
    }
}

/// The alternatives of a selected assignment, of which these are the parts from the target on.
fn all_alternatives(
    out: &mut Store<Noted>,
    to: Taking,
    place: Place,
    parts: u32,
) -> Result<u32, AllocError>
    requires { parts ≤ length out.old }
    ensures holds { IfOk result (λ made. Holds out.new made (all_alternatives to place (at out.old parts))) }
    ensures extends { Extends out.old out.new }
{
    let values = values_in(out, to, parts);
    let statement = Statement {
        to,
        node: bare(plain_form(to)),
        place,
        parts,
    };
    statement.alternatives(out, values)
}

/// The word `?`, where it is there, and no name.
#[tactic(auto, using(vd_forest::proofs::StoreLemmas::growing))]
fn word_end(out: &mut Store<Noted>, place: Place, word: u32) -> Result<u32, AllocError>
    requires { word ≤ length out.old }
    ensures holds { IfOk result (λ made. Holds out.new made (with_next (at out.old word) (no_tree noted place nothing))) }
    ensures extends { Extends out.old out.new }
{
    let name = absent(out, place, 0)?;
    let made = out.relink(word, name)?;
    Ok(made)
}

/// The alternatives, and what stands behind them.
#[tactic(auto, using(vd_forest::proofs::StoreLemmas::growing))]
fn case_end(out: &mut Store<Noted>, to: Taking, place: Place, parts: u32) -> Result<u32, AllocError>
    requires { parts ≤ length out.old }
    ensures holds { IfOk result (λ made. Holds out.new made (case_end to place (at out.old parts))) }
    ensures extends { Extends out.old out.new }
{
    let word = behind(out, parts);
    let target = behind(out, word);
    let end = word_end(out, place, word)?;
    let alternatives = all_alternatives(out, to, place, target)?;
    let made = out.add(bare(Form::CaseAlternatives), &[], place, alternatives, end)?;
    Ok(made)
}

/// The parts of the `case` statement for a selected assignment with these parts.
#[tactic(auto, using(vd_forest::proofs::StoreLemmas::growing))]
fn case_parts(
    out: &mut Store<Noted>,
    to: Taking,
    place: Place,
    parts: u32,
) -> Result<u32, AllocError>
    requires { parts ≤ length out.old }
    ensures holds { IfOk result (λ made. Holds out.new made (case_parts to place (at out.old parts))) }
    ensures extends { Extends out.old out.new }
{
    let word = behind(out, parts);
    let end = case_end(out, to, place, parts)?;
    let selector = out.relink(parts, end)?;
    let made = out.relink(word, selector)?;
    Ok(made)
}

/// The `case` statement for a selected assignment.
#[tactic(auto, using(vd_forest::proofs::StoreLemmas::growing))]
fn case_statement(
    out: &mut Store<Noted>,
    to: Taking,
    node: &Opened<'_, Noted>,
    parts: u32,
    next: u32,
) -> Result<u32, AllocError>
    requires parts_in { parts ≤ length out.old }
    requires next_in { next ≤ length out.old }
    ensures holds { IfOk result (λ made. Holds out.new made
        (more (case_node node.now.form) [] node.now.place (case_parts to node.now.place (at out.old parts)) (at out.old next))) }
    ensures extends { Extends out.old out.new }
{
    let inner = case_parts(out, to, node.place, parts)?;
    let made = out.add(case_node(node.form), &[], node.place, inner, next)?;
    Ok(made)
}

impl Inheriting<Noted, Noted, bool> for Selections {
    ghost rules = { λ by. selections };

    fn down(&mut self, _is_inside: bool, node: &Opened<'_, Noted>) -> Result<bool, AllocError> {
        Ok(is_sequence(node.form.node.form))
    }

    fn along(&mut self, is_inside: bool, _node: &Opened<'_, Noted>) -> Result<bool, AllocError> {
        Ok(is_inside)
    }

    fn make(
        &mut self,
        out: &mut Store<Noted>,
        is_inside: bool,
        node: &Opened<'_, Noted>,
        parts: u32,
        next: u32,
    ) -> Result<u32, AllocError> {
        match selecting(node.form.node.form) {
            Some(to) if is_inside => case_statement(out, to, node, parts, next),
            _ => out.add(node.form, node.text, node.place, parts, next),
        }
    }
}

/// Writes selected assignments among sequential statements as `case` statements.
pub fn lower_selections(
    alloc: Global,
    from: &Cursor<'_, Noted>,
    out: &mut Store<Noted>,
) -> Result<u32, AllocError>
    ensures holds { IfOk result (λ made. Holds out.new made (rewritten_under selections false from.now)) }
    ensures extends { Extends out.old out.new }
{
    rewrite_under(alloc, from, false, out, &mut Selections)
}
