//! Statements that are given several values, of which one is assigned or returned.

ghost use Rattle.std.specs.Prelude.{◌≡◌, ◌≤◌, [], IfOk, length};
ghost use Rattle.vd_forest.specs.Forest.{more, next_of, nothing, parts_of, with_next};
ghost use Rattle.vd_forest.specs.Store.{at, Holds, Extends};
ghost use Rattle.vd_lowering.specs.Assignments.{assigned, bare, branch, has_value, is_value, null_statement, values_in, with_value};

use std::alloc::AllocError;
use vd_bytes::Place;
use vd_forest::Store;
use vd_forms::Form;
use vd_notes::{Note, Noted};
use vd_statements::words::plain;

/// Where the value stands among the parts of a statement.
#[derive(Clone, Copy, PartialEq, Eq, Debug)]
pub enum Taking {
    /// Alone.
    Return,
    /// Behind the target.
    Variable,
    /// Behind the target and the delay.
    Signal,
}

/// A statement that takes one of several values: its node, its place, and its parts up to the value.
#[derive(Clone, Copy)]
pub(crate) struct Statement {
    pub(crate) to: Taking,
    pub(crate) node: Noted,
    pub(crate) place: Place,
    pub(crate) parts: u32,
}

/// A node that stands for no node of the source.
pub(crate) fn bare(form: Form) -> Noted
    ensures { result ≡ bare form }
{
    Noted {
        node: plain(form),
        note: Note::Nothing,
    }
}

/// A statement without effect.
pub(crate) fn null_statement(
    out: &mut Store<Noted>,
    place: Place,
    next: u32,
) -> Result<u32, AllocError>
    requires { next ≤ length out.old }
    ensures holds { IfOk result (λ made. Holds out.new made (null_statement place (at out.old next))) }
    ensures extends { Extends out.old out.new }
{
    out.add(bare(Form::NullStatement), &[], place, 0, next)
}

/// The trees behind the first one, where there is one.
pub(crate) fn behind(out: &Store<Noted>, number: u32) -> u32
    requires { number ≤ length out.now }
    ensures older { result ≤ number }
    ensures next { at out.now result ≡ next_of (at out.now number) }
{
    if number == 0 { 0 } else { out.after(number) }
}

/// The parts of the first tree.
pub(crate) fn inside(out: &Store<Noted>, number: u32) -> u32
    requires { number ≤ length out.now }
    ensures within { result ≤ length out.now }
    ensures parts { at out.now result ≡ parts_of (at out.now number) }
{
    match out.head(number) {
        Some(first) => first.parts,
        None => 0,
    }
}

/// The value among the parts of a statement.
pub(crate) fn values_in(out: &Store<Noted>, to: Taking, parts: u32) -> u32
    requires { parts ≤ length out.now }
    ensures within { result ≤ length out.now }
    ensures values { at out.now result ≡ values_in to (at out.now parts) }
{
    match to {
        Taking::Return => parts,
        Taking::Variable => behind(out, parts),
        Taking::Signal => behind(out, behind(out, parts)),
    }
}

/// The target and the delay, and then another value.
#[tactic(auto, using(vd_forest::proofs::StoreLemmas::growing))]
fn with_waveform(out: &mut Store<Noted>, parts: u32, value: u32) -> Result<u32, AllocError>
    requires parts_in { parts ≤ length out.old }
    requires value_in { value ≤ length out.old }
    ensures holds { IfOk result (λ made. Holds out.new made
        (with_next (at out.old parts) (with_next (next_of (at out.old parts)) (at out.old value)))) }
    ensures extends { Extends out.old out.new }
{
    let delay = behind(out, parts);
    let waveform = out.relink(delay, value)?;
    let made = out.relink(parts, waveform)?;
    Ok(made)
}

/// The parts in front of the value, and then another value.
fn with_value(out: &mut Store<Noted>, to: Taking, parts: u32, value: u32) -> Result<u32, AllocError>
    requires parts_in { parts ≤ length out.old }
    requires value_in { value ≤ length out.old }
    ensures holds { IfOk result (λ made. Holds out.new made (with_value to (at out.old parts) (at out.old value))) }
    ensures extends { Extends out.old out.new }
{
    match to {
        Taking::Return => Ok(value),
        Taking::Variable => out.relink(parts, value),
        Taking::Signal => with_waveform(out, parts, value),
    }
}

/// Whether this is the form of a value. `unaffected` is none.
fn is_value(form: Form) -> bool
    ensures { result ≡ is_value form }
{
    !matches!(form, Form::Unaffected)
}

/// Whether there is a value.
pub(crate) fn has_value(out: &Store<Noted>, values: u32) -> bool
    requires { values ≤ length out.now }
    ensures { result ≡ has_value (at out.now values) }
{
    match out.head(values) {
        Some(first) => is_value(first.form.node.form),
        None => false,
    }
}

impl Statement {
    /// The statement with the first of some values, which it takes.
    #[tactic(auto, using(vd_forest::proofs::StoreLemmas::growing))]
    fn taking(&self, out: &mut Store<Noted>, values: u32) -> Result<u32, AllocError>
        requires parts_in { self.now.parts ≤ length out.old }
        requires values_in { values ≤ length out.old }
        ensures holds { IfOk result (λ made. Holds out.new made
            (more self.now.node [] self.now.place (with_value self.now.to (at out.old self.now.parts) (with_next (at out.old values) nothing)) nothing)) }
        ensures extends { Extends out.old out.new }
    {
        let value = out.relink(values, 0)?;
        let parts = with_value(out, self.to, self.parts, value)?;
        let made = out.add(self.node, &[], self.place, parts, 0)?;
        Ok(made)
    }

    /// The statement with the first of some values, or one without effect where there is none.
    pub(crate) fn assigned(&self, out: &mut Store<Noted>, values: u32) -> Result<u32, AllocError>
        requires parts_in { self.now.parts ≤ length out.old }
        requires values_in { values ≤ length out.old }
        ensures holds { IfOk result (λ made. Holds out.new made
            (assigned self.now.to self.now.node self.now.place (at out.old self.now.parts) (at out.old values))) }
        ensures extends { Extends out.old out.new }
    {
        if has_value(out, values) {
            self.taking(out, values)
        } else {
            null_statement(out, self.place, 0)
        }
    }

    /// What a value stands under, and then the statement with it, as a list of statements.
    #[tactic(auto, using(vd_forest::proofs::StoreLemmas::growing))]
    pub(crate) fn branch(
        &self,
        out: &mut Store<Noted>,
        values: u32,
        next: u32,
    ) -> Result<u32, AllocError>
        requires parts_in { self.now.parts ≤ length out.old }
        requires values_in { values ≤ length out.old }
        requires next_in { next ≤ length out.old }
        ensures holds { IfOk result (λ made. Holds out.new made
            (branch self.now.to self.now.node self.now.place (at out.old self.now.parts) (at out.old values) (at out.old next))) }
        ensures extends { Extends out.old out.new }
    {
        let under = behind(out, values);
        let statement = self.assigned(out, values)?;
        let statements = out.add(bare(Form::Statements), &[], self.place, statement, next)?;
        let made = out.relink(under, statements)?;
        Ok(made)
    }
}
