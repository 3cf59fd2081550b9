//! Assignments and returns with conditions as `if` statements.
//!
//! Concurrent assignments keep their conditions, which revision 1993 has too. Where no condition holds and there is no value without one, or the value is
//! `unaffected`, nothing is done.

ghost use Rattle.std.specs.Prelude.{◌≡◌, ◌≤◌, ◌<◌, true, IfOk, length};
ghost use Rattle.vd_forest.specs.Store.{at, Holds, Extends};
ghost use Rattle.vd_rewriting.specs.Rewriting.{rewritten};
ghost use Rattle.vd_lowering.specs.Conditionals.{branches, conditional, elsif, elsifs, is_chain, is_conditional, last_value, lowered, other_branches, otherwise, taking};

use crate::assignments::{
    Statement, Taking, bare, behind, has_value, inside, null_statement, values_in,
};
use std::alloc::{AllocError, Global};
use vd_bytes::Place;
use vd_forest::{Cursor, Opened, Store};
use vd_forms::Form;
use vd_notes::{Noted, absent};
use vd_rewriting::{Rewriting, rewrite};

/// The pass, which needs no table.
#[derive(Clone, Copy, Debug)]
pub struct Conditionals;

/// The statements that may have conditions, and where their value stands.
fn taking(form: Form) -> Option<Taking>
    ensures { result ≡ taking form }
{
    match form {
        Form::SignalAssignment => Some(Taking::Signal),
        Form::VariableAssignment => Some(Taking::Variable),
        Form::ReturnStatement => Some(Taking::Return),
        _ => None,
    }
}

/// Whether a value of this form has a condition.
fn is_conditional(form: Form) -> bool
    ensures { result ≡ is_conditional form }
{
    matches!(
        form,
        Form::ConditionalWaveform
            | Form::GuardedWaveform
            | Form::ConditionalValue
            | Form::GuardedValue
            | Form::ConditionalReturn
    )
}

/// Whether there is a value, and it has a condition.
fn is_chain(out: &Store<Noted>, number: u32) -> bool
    requires { number ≤ length out.now }
    ensures is { result ≡ is_chain (at out.now number) }
    ensures some { result ≡ true → 0 < number }
{
    match out.head(number) {
        Some(first) => is_conditional(first.form.node.form),
        None => false,
    }
}

/// The branches of a chain, and the value at its end.
#[derive(Clone, Copy)]
struct Chain {
    branches: u32,
    last: u32,
}

impl Statement {
    /// The branch of a value and its condition, in front of others.
    #[tactic(auto, using(vd_forest::proofs::StoreLemmas::growing))]
    fn elsif(
        &self,
        out: &mut Store<Noted>,
        link: Place,
        values: u32,
        next: u32,
    ) -> Result<u32, AllocError>
        requires parts_in { self.now.parts ≤ length out.old }
        requires values_in { values ≤ length out.old }
        requires next_in { next ≤ length out.old }
        ensures holds { IfOk result (λ made. Holds out.new made
            (elsif self.now.to self.now.node self.now.place (at out.old self.now.parts) link (at out.old values) (at out.old next))) }
        ensures extends { Extends out.old out.new }
    {
        let parts = self.branch(out, values, 0)?;
        let made = out.add(bare(Form::ElsifBranch), &[], link, parts, next)?;
        Ok(made)
    }

    /// The branches of the chain that is behind a value and its condition, where there is one.
    #[tactic(auto, using(crate::proofs::ConditionalLemmas::chaining))]
    fn chain(&self, out: &mut Store<Noted>, values: u32) -> Result<Chain, AllocError>
        requires parts_in { self.now.parts ≤ length out.old }
        requires values_in { values ≤ length out.old }
        ensures branches { IfOk result (λ chain. Holds out.new chain.branches
            (elsifs self.now.to self.now.node self.now.place (at out.old self.now.parts) 2 (at out.old values))) }
        ensures last { IfOk result (λ chain. Holds out.new chain.last (last_value 2 (at out.old values))) }
        ensures extends { Extends out.old out.new }
    {
        let mut left = behind(out, behind(out, values));
        let mut made = 0;
        while is_chain(out, left) {
            let first = out.node(left);
            let (link, inner) = (first.place, first.parts);
            let rest = behind(out, behind(out, inner));
            made = self.elsif(out, link, inner, made)?;
            left = rest;
        }
        let branches = out.turn(made, 0)?;
        Ok(Chain {
            branches,
            last: left,
        })
    }

    /// What is done where no condition holds, and the name at the end, which isn't there.
    #[tactic(auto, using(vd_forest::proofs::StoreLemmas::growing))]
    fn otherwise(&self, out: &mut Store<Noted>, last: u32) -> Result<u32, AllocError>
        requires parts_in { self.now.parts ≤ length out.old }
        requires last_in { last ≤ length out.old }
        ensures holds { IfOk result (λ made. Holds out.new made
            (otherwise self.now.to self.now.node self.now.place (at out.old self.now.parts) (at out.old last))) }
        ensures extends { Extends out.old out.new }
    {
        let name = absent(out, self.place, 0)?;
        let statement = self.assigned(out, last)?;
        let made = out.add(bare(Form::ElseBranch), &[], self.place, statement, name)?;
        Ok(made)
    }

    /// What stands behind the first branch.
    #[tactic(auto, using(vd_forest::proofs::StoreLemmas::growing))]
    fn other_branches(&self, out: &mut Store<Noted>, values: u32) -> Result<u32, AllocError>
        requires parts_in { self.now.parts ≤ length out.old }
        requires values_in { values ≤ length out.old }
        ensures holds { IfOk result (λ made. Holds out.new made
            (other_branches self.now.to self.now.node self.now.place (at out.old self.now.parts) (at out.old values))) }
        ensures extends { Extends out.old out.new }
    {
        let chain = self.chain(out, values)?;
        let otherwise = self.otherwise(out, chain.last)?;
        let made = out.add(
            bare(Form::ElsifBranches),
            &[],
            self.place,
            chain.branches,
            otherwise,
        )?;
        Ok(made)
    }

    /// The `if` statement for a value with a condition.
    #[tactic(auto, using(vd_forest::proofs::StoreLemmas::growing))]
    fn conditional(&self, out: &mut Store<Noted>, values: u32, next: u32) -> Result<u32, AllocError>
        requires parts_in { self.now.parts ≤ length out.old }
        requires values_in { values ≤ length out.old }
        requires next_in { next ≤ length out.old }
        ensures holds { IfOk result (λ made. Holds out.new made
            (conditional self.now.to self.now.node self.now.place (at out.old self.now.parts) (at out.old values) (at out.old next))) }
        ensures extends { Extends out.old out.new }
    {
        let others = self.other_branches(out, values)?;
        let parts = self.branch(out, values, others)?;
        let made = out.add(bare(Form::IfStatement), &[], self.place, parts, next)?;
        Ok(made)
    }
}

/// What a statement becomes that takes a value.
fn lowered(
    out: &mut Store<Noted>,
    to: Taking,
    node: &Opened<'_, Noted>,
    parts: u32,
    next: u32,
) -> Result<u32, AllocError>
    requires parts_in { parts ≤ length out.old }
    requires next_in { next ≤ length out.old }
    ensures holds { IfOk result (λ made. Holds out.new made
        (lowered to node.now.form node.now.text.now node.now.place (at out.old parts) (at out.old next))) }
    ensures extends { Extends out.old out.new }
{
    let value = values_in(out, to, parts);
    if is_chain(out, value) {
        let statement = Statement {
            to,
            node: node.form,
            place: node.place,
            parts,
        };
        statement.conditional(out, inside(out, value), next)
    } else if has_value(out, value) {
        out.add(node.form, node.text, node.place, parts, next)
    } else {
        null_statement(out, node.place, next)
    }
}

impl Rewriting<Noted, Noted> for Conditionals {
    ghost pass = { λ by. branches };

    fn make(
        &mut self,
        out: &mut Store<Noted>,
        node: &Opened<'_, Noted>,
        parts: u32,
        next: u32,
    ) -> Result<u32, AllocError> {
        match taking(node.form.node.form) {
            Some(to) => lowered(out, to, node, parts, next),
            None => out.add(node.form, node.text, node.place, parts, next),
        }
    }
}

/// Writes assignments and returns with conditions as `if` statements.
pub fn lower_conditionals(
    alloc: Global,
    from: &Cursor<'_, Noted>,
    out: &mut Store<Noted>,
) -> Result<u32, AllocError>
    ensures holds { IfOk result (λ made. Holds out.new made (rewritten branches from.now)) }
    ensures extends { Extends out.old out.new }
{
    rewrite(alloc, from, out, &mut Conditionals)
}
