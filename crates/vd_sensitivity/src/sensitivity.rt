//! The sensitivity list of a process that is sensitive to all that it reads. (IEEE 1076, process statement; concurrent selected signal assignment.)
//!
//! Where it reads nothing it has no list, and waits behind its statements. A concurrent assignment that selects its values stands for such a process, and
//! becomes one where revision 1993 lacks it: where its choices are matches, or its selector is to have a variable or is to be compared.
#![tactic(auto, using(vd_forest::proofs::StoreLemmas::growing))]

ghost use Rattle.std.specs.Prelude.{◌≡◌, ◌≤◌, IfOk, length};
ghost use Rattle.vd_forest.specs.Store.{Extends};

use crate::facts::Facts;
use crate::reads::{Prefix, read_in, read_in_selection};
use crate::written::{bare, names_of};
use std::alloc::{AllocError, Global};
use vd_bytes::Place;
use vd_declarations::Declaration;
use vd_forest::{Cursor, Opened, Store};
use vd_forms::Form;
use vd_notes::{CaseForm, Note, Noted, absent};
use vd_tours::{Entry, Touring, tour};

/// The table of the pass.
#[derive(Drop)]
struct Sensitivity<'d> {
    facts: Facts<'d>,
    /// The nodes that the walk stands in, the innermost one last.
    round: Vec<Form>,
}

/// The trees behind the first one, where there is one.
fn behind(out: &Store<Noted>, number: u32) -> u32
    requires { number ≤ length out.now }
    ensures { result ≤ length out.now }
{
    if number == 0 { 0 } else { out.after(number) }
}

/// Whether a node is a process that is sensitive to all that it reads.
fn reads_all(node: &Opened<'_, Noted>) -> bool {
    let is_process = matches!(node.form.node.form, Form::ProcessStatement);
    match node.parts.form() {
        Some(first) => is_process && matches!(first.node.form, Form::All),
        None => false,
    }
}

/// Whether nodes of this form hold sequential statements.
fn is_sequence(form: Form) -> bool {
    matches!(
        form,
        Form::Statements | Form::ElseBranch | Form::LabelledStatement
    )
}

/// Whether revision 1993 has a statement with this note as it stands.
fn is_plain(note: Note) -> bool {
    match note {
        Note::Selecting { form, .. } => matches!(form, CaseForm::Plain),
        _ => true,
    }
}

/// The parts of a process that is sensitive to all that it reads, with one statement.
fn process_of(out: &mut Store<Noted>, place: Place, statement: u32) -> Result<u32, AllocError>
    requires { statement ≤ length out.old }
    ensures within { IfOk result (λ made. made ≤ length out.new) }
    ensures extends { Extends out.old out.new }
{
    let name = absent(out, place, 0)?;
    let node = bare(Form::Statements, None, None, 0);
    let statements = out.add(node, &[], place, statement, name)?;
    let node = bare(Form::DeclarativePart, None, None, 0);
    let declarations = out.add(node, &[], place, 0, statements)?;
    let word = absent(out, place, declarations)?;
    let node = bare(Form::All, None, None, 0);
    out.add(node, &[], place, 0, word)
}

/// The parts of such a process with this list in place of `all`.
fn with_list(
    alloc: Global,
    out: &mut Store<Noted>,
    facts: &Facts<'_>,
    prefixes: &[Prefix<'_>],
    place: Place,
    parts: u32,
) -> Result<u32, AllocError>
    requires { parts ≤ length out.old }
    ensures within { IfOk result (λ made. made ≤ length out.new) }
    ensures extends { Extends out.old out.new }
{
    let rest = behind(out, parts);
    let names = names_of(alloc, out, facts, prefixes)?;
    let node = bare(Form::SensitivityList, None, None, 0);
    out.add(node, &[], place, names, rest)
}

/// `wait;`, behind all other statements.
fn wait_statement(out: &mut Store<Noted>, place: Place) -> Result<u32, AllocError>
    ensures within { IfOk result (λ made. made ≤ length out.new) }
    ensures extends { Extends out.old out.new }
{
    let timeout = absent(out, place, 0)?;
    let condition = absent(out, place, timeout)?;
    let list = absent(out, place, condition)?;
    let node = bare(Form::WaitStatement, None, None, 0);
    out.add(node, &[], place, list, 0)
}

/// Statements with `wait;` behind them.
fn waiting(
    out: &mut Store<Noted>,
    place: Place,
    statements: u32,
    next: u32,
) -> Result<u32, AllocError>
    requires statements_in { statements ≤ length out.old }
    requires next_in { next ≤ length out.old }
    ensures within { IfOk result (λ made. made ≤ length out.new) }
    ensures extends { Extends out.old out.new }
{
    let (form, at, own) = match out.head(statements) {
        Some(head) => (head.form, head.place, head.parts),
        None => (bare(Form::Statements, None, None, 0), place, 0),
    };
    let last = wait_statement(out, place)?;
    let turned = out.turn(own, 0)?;
    let all = out.turn(turned, last)?;
    out.add(form, &[], at, all, next)
}

/// The parts of a process that reads nothing, without `all` and with `wait;`.
fn with_wait(out: &mut Store<Noted>, place: Place, parts: u32) -> Result<u32, AllocError>
    requires { parts ≤ length out.old }
    ensures within { IfOk result (λ made. made ≤ length out.new) }
    ensures extends { Extends out.old out.new }
{
    let word = behind(out, parts);
    let declarations = behind(out, word);
    let statements = behind(out, declarations);
    let name = behind(out, statements);
    let made = waiting(out, place, statements, name)?;
    let made = out.relink(declarations, made)?;
    let made = out.relink(word, made)?;
    absent(out, place, made)
}

impl<'d> Sensitivity<'d> {
    /// The parts of a process that reads this, with a list or a last `wait;` in place of `all`.
    fn reading(
        &self,
        alloc: Global,
        out: &mut Store<Noted>,
        prefixes: &[Prefix<'_>],
        place: Place,
        parts: u32,
    ) -> Result<u32, AllocError>
        requires { parts ≤ length out.old }
        ensures within { IfOk result (λ made. made ≤ length out.new) }
        ensures extends { Extends out.old out.new }
    {
        if prefixes.is_empty() {
            with_wait(out, place, parts)
        } else {
            with_list(alloc, out, &self.facts, prefixes, place, parts)
        }
    }

    /// Whether a node is a concurrent assignment that becomes a process.
    fn is_moved(&self, node: &Noted) -> bool {
        if !matches!(node.node.form, Form::SelectedSignalAssignment) || is_plain(node.note) {
            return false;
        }
        match self.round.last() {
            Some(round) => !is_sequence(*round),
            None => true,
        }
    }

    /// A process with this assignment, which selects its values, that is sensitive to all that it reads.
    fn process(
        &self,
        alloc: Global,
        out: &mut Store<Noted>,
        node: &Opened<'_, Noted>,
        statement: u32,
    ) -> Result<u32, AllocError>
        requires { statement ≤ length out.old }
        ensures within { IfOk result (λ made. made ≤ length out.new) }
        ensures extends { Extends out.old out.new }
    {
        let prefixes = read_in_selection(alloc, &self.facts, &node.parts)?;
        let parts = process_of(out, node.place, statement)?;
        let parts = self.reading(alloc, out, &prefixes, node.place, parts)?;
        let process = bare(Form::ProcessStatement, None, None, 0);
        let made = out.add(process, &[], node.place, parts, 0)?;
        Ok(made)
    }

    /// A node, or the process that it becomes.
    fn node(
        &self,
        alloc: Global,
        out: &mut Store<Noted>,
        node: &Opened<'_, Noted>,
        parts: u32,
    ) -> Result<u32, AllocError>
        requires { parts ≤ length out.old }
        ensures within { IfOk result (λ made. made ≤ length out.new) }
        ensures extends { Extends out.old out.new }
    {
        let made = out.add(node.form, node.text, node.place, parts, 0)?;
        if self.is_moved(&node.form) {
            self.process(alloc, out, node, made)
        } else {
            Ok(made)
        }
    }

    /// The parts of a process with what it reads in place of `all`.
    fn listed(
        &self,
        alloc: Global,
        out: &mut Store<Noted>,
        node: &Opened<'_, Noted>,
        parts: u32,
    ) -> Result<u32, AllocError>
        requires { parts ≤ length out.old }
        ensures within { IfOk result (λ made. made ≤ length out.new) }
        ensures extends { Extends out.old out.new }
    {
        let prefixes = read_in(alloc, &self.facts, &node.parts.skip(2))?;
        let place = match node.parts.place() {
            Some(place) => place,
            None => node.place,
        };
        self.reading(alloc, out, &prefixes, place, parts)
    }

    /// The parts of a node.
    fn parts(
        &self,
        alloc: Global,
        out: &mut Store<Noted>,
        node: &Opened<'_, Noted>,
        parts: u32,
    ) -> Result<u32, AllocError>
        requires { parts ≤ length out.old }
        ensures within { IfOk result (λ made. made ≤ length out.new) }
        ensures extends { Extends out.old out.new }
    {
        if reads_all(node) {
            self.listed(alloc, out, node, parts)
        } else {
            Ok(parts)
        }
    }
}

impl<'a, 'd> Touring<'a, Noted, Noted> for Sensitivity<'d> {
    ghost knows = { λ _ _ _. Unit {0} };

    ghost Frame = { Unit {0} };

    ghost frame = { λ _. tt };

    ghost replaces = { λ _ _ _ _. Unit {0} };

    ghost becomes = { λ _ _ _ _ _. Unit {0} };

    fn enter(
        &mut self,
        _alloc: Global,
        _out: &mut Store<Noted>,
        node: &Opened<'a, Noted>,
    ) -> Result<Entry, AllocError> {
        self.round.push(node.form.node.form)?;
        Ok(Entry::Inside)
    }

    fn leave(
        &mut self,
        alloc: Global,
        out: &mut Store<Noted>,
        node: &Opened<'a, Noted>,
        parts: u32,
    ) -> Result<u32, AllocError> {
        let _left = self.round.pop();
        let parts = self.parts(alloc, out, node, parts)?;
        self.node(alloc, out, node, parts)
    }
}

/// The same design, in which each process that is sensitive to all that it reads has a list of that, or none and a last `wait;` where it reads nothing, and
/// in which a concurrent assignment that selects its values, and whose note says that revision 1993 lacks it, is a process that has it.
/// The list has the longest static prefixes of the names of signals, each once, in the order of first reading.
#[tactic(auto, using(vd_statements::proofs::TourLemmas::at_start_noted))]
pub fn lower_sensitivity(
    alloc: Global,
    declarations: &[Declaration],
    from: &Cursor<'_, Noted>,
    out: &mut Store<Noted>,
) -> Result<u32, AllocError>
    ensures within { IfOk result (λ made. made ≤ length out.new) }
    ensures extends { Extends out.old out.new }
{
    let facts = Facts::of(alloc, declarations, from)?;
    let mut by = Sensitivity {
        facts,
        round: Vec::new(alloc),
    };
    tour(alloc, from, out, &mut by)
}
