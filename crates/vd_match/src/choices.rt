//! Statements with choices as revision 1993 has them. (IEEE 1076-2019, case statement; in revision 1993 there is no matching one, and the selector of an
//! array type is a name, a call or a qualified expression)
//!
//! How each is written is noted at it: with its choices, with them over a variable that has the selector's value, as comparisons, or as matches of such a
//! variable. The variables stand behind the other declarations of the process or the function that has the statement.
#![tactic(auto, using(vd_forest::proofs::StoreLemmas::growing))]

ghost use Rattle.std.specs.Prelude.{◌≤◌, IfOk, length};
ghost use Rattle.vd_forest.specs.Store.{Extends};

use crate::branches::{Branches, if_statement, no_branches, with_branch, with_other};
use crate::choosing::Choosing;
use crate::support::{Function, Support};
use crate::tests::{DASH, Test};
use crate::trees::{bare, behind, form_at, in_front, node_of, parts_at, place_or, type_at};
use std::alloc::{AllocError, Global};
use vd_bytes::Place;
use vd_declarations::{DeclId, Declaration, TypeId};
use vd_forest::{Cursor, Opened, Store};
use vd_forms::Form;
use vd_notes::{CaseForm, Note, Noted, absent, name_of};
use vd_predefined::numbers::{SEVERITY_LEVEL, STD_ULOGIC, STRING};
use vd_tours::{Entry, Touring, tour};

/// What a matching statement reports where its selector holds '-'.
const HOLDS_DASH: &[u8] = b"vdown: matching case selector holds '-'";

/// The position of the literal FAILURE.
const FAILURE: u32 = 3;

/// The numbers of some parts of a `case` statement.
#[derive(Clone, Copy)]
struct Case {
    selector: u32,
    alternatives: u32,
    name: u32,
}

/// The selector, the alternatives and the last part of a `case` statement with these parts.
fn case_of(out: &Store<Noted>, parts: u32) -> Case
    requires { parts ≤ length out.now }
    ensures selector { result.selector ≤ length out.now }
    ensures alternatives { result.alternatives ≤ length out.now }
    ensures name { result.name ≤ length out.now }
{
    let selector = behind(out, parts);
    let alternatives = behind(out, selector);
    let word = behind(out, alternatives);
    let name = behind(out, word);
    Case {
        selector,
        alternatives,
        name,
    }
}

/// The parts of a `case` statement without the word `?`, over this selector.
fn plain_parts(
    out: &mut Store<Noted>,
    place: Place,
    case: Case,
    selector: u32,
) -> Result<u32, AllocError>
    requires selector_in { selector ≤ length out.old }
    requires alternatives_in { case.alternatives ≤ length out.old }
    requires name_in { case.name ≤ length out.old }
    ensures within { IfOk result (λ made. made ≤ length out.new) }
    ensures extends { Extends out.old out.new }
{
    let word = absent(out, place, case.name)?;
    let alternatives = in_front(out, case.alternatives, word)?;
    let selector = in_front(out, selector, alternatives)?;
    absent(out, place, selector)
}

/// An assignment that selects its values, with these parts, without the word `?`.
fn plain_selection(
    out: &mut Store<Noted>,
    node: &Opened<'_, Noted>,
    parts: u32,
) -> Result<u32, AllocError>
    requires { parts ≤ length out.old }
    ensures within { IfOk result (λ made. made ≤ length out.new) }
    ensures extends { Extends out.old out.new }
{
    let target = behind(out, behind(out, parts));
    let word = absent(out, node.place, target)?;
    let parts = in_front(out, parts, word)?;
    out.add(node.form, &[], node.place, parts, 0)
}

/// Statements with a label, which is that of the last one of two.
fn labelled(out: &mut Store<Noted>, node: &Opened<'_, Noted>, label: u32) -> Result<u32, AllocError>
    requires { label ≤ length out.old }
    ensures within { IfOk result (λ made. made ≤ length out.new) }
    ensures extends { Extends out.old out.new }
{
    let first = behind(out, label);
    let last = behind(out, first);
    if last == 0 {
        let made = out.add(node.form, node.text, node.place, label, 0)?;
        return Ok(made);
    }
    let inner = in_front(out, label, last)?;
    let last = out.add(node.form, node.text, node.place, inner, 0)?;
    in_front(out, first, last)
}

impl<'d, 's> Choosing<'d, 's> {
    /// A `case` statement with its choices over this selector.
    fn plain(
        &self,
        out: &mut Store<Noted>,
        node: &Opened<'_, Noted>,
        case: Case,
        selector: u32,
    ) -> Result<u32, AllocError>
        requires selector_in { selector ≤ length out.old }
        requires alternatives_in { case.alternatives ≤ length out.old }
        requires name_in { case.name ≤ length out.old }
        ensures within { IfOk result (λ made. made ≤ length out.new) }
        ensures extends { Extends out.old out.new }
    {
        let parts = plain_parts(out, node.place, case, selector)?;
        out.add(node.form, &[], node.place, parts, 0)
    }

    /// The assignment of a selector to its variable, in front of a statement.
    fn assigned(
        &self,
        out: &mut Store<Noted>,
        place: Place,
        name: u32,
        selector: u32,
        next: u32,
    ) -> Result<u32, AllocError>
        requires name_in { name ≤ length out.old }
        requires selector_in { selector ≤ length out.old }
        requires next_in { next ≤ length out.old }
        ensures within { IfOk result (λ made. made ≤ length out.new) }
        ensures extends { Extends out.old out.new }
    {
        let value = out.relink(selector, 0)?;
        let parts = in_front(out, name, value)?;
        out.add(bare(Form::VariableAssignment), &[], place, parts, next)
    }

    /// A `case` statement over a variable that has the selector's value.
    fn over_variable(
        &self,
        out: &mut Store<Noted>,
        node: &Opened<'_, Noted>,
        case: Case,
        name: u32,
    ) -> Result<u32, AllocError>
        requires name_in { name ≤ length out.old }
        requires selector_in { case.selector ≤ length out.old }
        requires alternatives_in { case.alternatives ≤ length out.old }
        requires case_name_in { case.name ≤ length out.old }
        ensures within { IfOk result (λ made. made ≤ length out.new) }
        ensures extends { Extends out.old out.new }
    {
        let statement = self.plain(out, node, case, name)?;
        self.assigned(out, node.place, name, case.selector, statement)
    }

    /// The branch of an alternative, which begins with its choices.
    fn branch(&self, out: &mut Store<Noted>, test: &Test, choices: u32) -> Result<u32, AllocError>
        requires left_in { test.now.left ≤ length out.old }
        requires choices_in { choices ≤ length out.old }
        ensures within { IfOk result (λ made. made ≤ length out.new) }
        ensures extends { Extends out.old out.new }
    {
        let statements = behind(out, choices);
        let condition = self.meets_any(out, test, parts_at(out, choices))?;
        if condition == 0 {
            return Ok(0);
        }
        let made = out.relink(condition, statements)?;
        Ok(made)
    }

    /// The branches so far, and that of an alternative, which begins with its choices.
    fn with_choices(
        &self,
        out: &mut Store<Noted>,
        test: &Test,
        branches: Branches,
        place: Place,
        choices: u32,
    ) -> Result<Branches, AllocError>
        requires left_in { test.now.left ≤ length out.old }
        requires first_in { branches.first ≤ length out.old }
        requires further_in { branches.further ≤ length out.old }
        requires other_in { branches.other ≤ length out.old }
        requires choices_in { choices ≤ length out.old }
        ensures first { IfOk result (λ made. made.first ≤ length out.new) }
        ensures further { IfOk result (λ made. made.further ≤ length out.new) }
        ensures other { IfOk result (λ made. made.other ≤ length out.new) }
        ensures extends { Extends out.old out.new }
    {
        let branch = self.branch(out, test, choices)?;
        if branch == 0 {
            return Ok(branches);
        }
        with_branch(out, branches, place, branch)
    }

    /// The branches so far, and that of the first of some alternatives.
    fn with_alternative(
        &self,
        out: &mut Store<Noted>,
        test: &Test,
        branches: Branches,
        alternative: u32,
    ) -> Result<Branches, AllocError>
        requires left_in { test.now.left ≤ length out.old }
        requires first_in { branches.first ≤ length out.old }
        requires further_in { branches.further ≤ length out.old }
        requires other_in { branches.other ≤ length out.old }
        requires alternative_in { alternative ≤ length out.old }
        ensures first { IfOk result (λ made. made.first ≤ length out.new) }
        ensures further { IfOk result (λ made. made.further ≤ length out.new) }
        ensures other { IfOk result (λ made. made.other ≤ length out.new) }
        ensures extends { Extends out.old out.new }
    {
        let place = place_or(out, alternative, test.place);
        let choices = parts_at(out, alternative);
        if matches!(form_at(out, choices), Form::Others) {
            let statements = parts_at(out, behind(out, choices));
            with_other(out, branches, place, statements)
        } else {
            self.with_choices(out, test, branches, place, choices)
        }
    }

    /// The branches so far, and those of all alternatives.
    fn with_alternatives(
        &self,
        out: &mut Store<Noted>,
        test: &Test,
        branches: Branches,
        alternatives: u32,
    ) -> Result<Branches, AllocError>
        requires left_in { test.now.left ≤ length out.old }
        requires first_in { branches.first ≤ length out.old }
        requires further_in { branches.further ≤ length out.old }
        requires other_in { branches.other ≤ length out.old }
        requires alternatives_in { alternatives ≤ length out.old }
        ensures first { IfOk result (λ made. made.first ≤ length out.new) }
        ensures further { IfOk result (λ made. made.further ≤ length out.new) }
        ensures other { IfOk result (λ made. made.other ≤ length out.new) }
        ensures extends { Extends out.old out.new }
    {
        let mut left = alternatives;
        let mut made = branches;
        while left > 0 {
            made = self.with_alternative(out, test, made, left)?;
            left = out.after(left);
        }
        Ok(made)
    }

    /// Where no choice but `others` stands: its statements, as the branch of the comparison of the selector with itself.
    fn alone(&self, out: &mut Store<Noted>, test: &Test, other: u32) -> Result<Branches, AllocError>
        requires left_in { test.now.left ≤ length out.old }
        requires other_in { other ≤ length out.old }
        ensures first { IfOk result (λ made. made.first ≤ length out.new) }
        ensures further { IfOk result (λ made. made.further ≤ length out.new) }
        ensures other { IfOk result (λ made. made.other ≤ length out.new) }
        ensures extends { Extends out.old out.new }
    {
        let statements = parts_at(out, other);
        let statements = out.add(bare(Form::Statements), &[], test.place, statements, 0)?;
        let second = out.relink(test.left, 0)?;
        let operands = out.relink(test.left, second)?;
        let condition = self.equal(out, test.place, operands)?;
        let branch = in_front(out, condition, statements)?;
        with_branch(out, no_branches(), test.place, branch)
    }

    /// A `case` statement as comparisons of the selector.
    fn compared(&self, out: &mut Store<Noted>, place: Place, case: Case) -> Result<u32, AllocError>
        requires selector_in { case.selector ≤ length out.old }
        requires alternatives_in { case.alternatives ≤ length out.old }
        ensures within { IfOk result (λ made. made ≤ length out.new) }
        ensures extends { Extends out.old out.new }
    {
        let test = Test {
            left: case.selector,
            function: None,
            place,
        };
        let alternatives = parts_at(out, case.alternatives);
        let branches = self.with_alternatives(out, &test, no_branches(), alternatives)?;
        if branches.first != 0 {
            return if_statement(out, branches, place);
        }
        let branches = self.alone(out, &test, branches.other)?;
        if_statement(out, branches, place)
    }

    /// The report of a selector that holds '-', as the statements of a branch.
    fn report(&self, out: &mut Store<Noted>, place: Place) -> Result<u32, AllocError>
        ensures within { IfOk result (λ made. made ≤ length out.new) }
        ensures extends { Extends out.old out.new }
    {
        let severity = self.literal(out, SEVERITY_LEVEL, FAILURE, place, 0)?;
        let node = node_of(Form::Quoted, None, Some(TypeId::of(STRING)));
        let text = out.add(node, HOLDS_DASH, place, 0, severity)?;
        let report = out.add(bare(Form::ReportStatement), &[], place, text, 0)?;
        let made = out.add(bare(Form::Statements), &[], place, report, 0)?;
        Ok(made)
    }

    /// Whether a variable with this name holds '-'.
    fn holds_dash(
        &self,
        out: &mut Store<Noted>,
        place: Place,
        is_scalar: bool,
        name: u32,
    ) -> Result<u32, AllocError>
        requires { name ≤ length out.old }
        ensures within { IfOk result (λ made. made ≤ length out.new) }
        ensures extends { Extends out.old out.new }
    {
        if is_scalar {
            let dash = self.literal(out, STD_ULOGIC, DASH, place, 0)?;
            let operands = in_front(out, name, dash)?;
            return self.equal(out, place, operands);
        }
        match self.support.find(Function::Dash) {
            Some(function) => self.call(out, function, place, name, 0),
            None => Ok(name),
        }
    }

    /// The first branch of a matching statement: a report where the variable holds '-'.
    fn reporting(
        &self,
        out: &mut Store<Noted>,
        place: Place,
        is_scalar: bool,
        name: u32,
    ) -> Result<Branches, AllocError>
        requires { name ≤ length out.old }
        ensures first { IfOk result (λ made. made.first ≤ length out.new) }
        ensures further { IfOk result (λ made. made.further ≤ length out.new) }
        ensures other { IfOk result (λ made. made.other ≤ length out.new) }
        ensures extends { Extends out.old out.new }
    {
        let report = self.report(out, place)?;
        let condition = self.holds_dash(out, place, is_scalar, name)?;
        let branch = in_front(out, condition, report)?;
        with_branch(out, no_branches(), place, branch)
    }

    /// A `case` statement as matches of a variable that has the selector's value.
    fn matching(
        &self,
        out: &mut Store<Noted>,
        place: Place,
        case: Case,
        name: u32,
    ) -> Result<u32, AllocError>
        requires name_in { name ≤ length out.old }
        requires selector_in { case.selector ≤ length out.old }
        requires alternatives_in { case.alternatives ≤ length out.old }
        ensures within { IfOk result (λ made. made ≤ length out.new) }
        ensures extends { Extends out.old out.new }
    {
        let of = type_at(out, name);
        let is_scalar = is_scalar(&of);
        let test = Test {
            left: name,
            function: self.support.find(matching_function(is_scalar)),
            place,
        };
        let branches = self.reporting(out, place, is_scalar, name)?;
        let alternatives = parts_at(out, case.alternatives);
        let branches = self.with_alternatives(out, &test, branches, alternatives)?;
        let statement = if_statement(out, branches, place)?;
        self.assigned(out, place, name, case.selector, statement)
    }

    /// A `case` statement that has a variable of this name.
    fn with_variable(
        &self,
        out: &mut Store<Noted>,
        node: &Opened<'_, Noted>,
        form: CaseForm,
        case: Case,
        name: u32,
    ) -> Result<u32, AllocError>
        requires name_in { name ≤ length out.old }
        requires selector_in { case.selector ≤ length out.old }
        requires alternatives_in { case.alternatives ≤ length out.old }
        requires case_name_in { case.name ≤ length out.old }
        ensures within { IfOk result (λ made. made ≤ length out.new) }
        ensures extends { Extends out.old out.new }
    {
        match form {
            CaseForm::Match => self.matching(out, node.place, case, name),
            _ => self.over_variable(out, node, case, name),
        }
    }

    /// A `case` statement as its note says it.
    fn written(
        &self,
        out: &mut Store<Noted>,
        node: &Opened<'_, Noted>,
        form: CaseForm,
        variable: u32,
        parts: u32,
    ) -> Result<u32, AllocError>
        requires { parts ≤ length out.old }
        ensures within { IfOk result (λ made. made ≤ length out.new) }
        ensures extends { Extends out.old out.new }
    {
        let case = case_of(out, parts);
        match form {
            CaseForm::Plain => return self.plain(out, node, case, case.selector),
            CaseForm::Compare => return self.compared(out, node.place, case),
            _ => {}
        }
        let Some(declaration) = self.declarations.get(variable as usize) else {
            return out.add(node.form, node.text, node.place, parts, 0);
        };
        let name = name_of(out, DeclId::of(variable), declaration, node.place, 0)?;
        self.with_variable(out, node, form, case, name)
    }

    /// Whether a statement that is written so can be: matches want functions of the support package.
    fn can_write(&self, form: CaseForm) -> bool {
        match form {
            CaseForm::Match => {
                self.support.find(Function::Match).is_some()
                    && self.support.find(Function::MatchVectors).is_some()
                    && self.support.find(Function::Dash).is_some()
            }
            _ => true,
        }
    }

    /// What a `case` statement becomes.
    fn case(
        &self,
        out: &mut Store<Noted>,
        node: &Opened<'_, Noted>,
        parts: u32,
    ) -> Result<u32, AllocError>
        requires { parts ≤ length out.old }
        ensures within { IfOk result (λ made. made ≤ length out.new) }
        ensures extends { Extends out.old out.new }
    {
        match node.form.note {
            Note::Selecting { form, variable, .. } if self.can_write(form) => {
                self.written(out, node, form, variable, parts)
            }
            _ => out.add(node.form, node.text, node.place, parts, 0),
        }
    }

    /// What a tree becomes.
    fn trees(
        &self,
        alloc: Global,
        out: &mut Store<Noted>,
        node: &Opened<'_, Noted>,
        parts: u32,
    ) -> Result<u32, AllocError>
        requires { parts ≤ length out.old }
        ensures within { IfOk result (λ made. made ≤ length out.new) }
        ensures extends { Extends out.old out.new }
    {
        match node.form.node.form {
            Form::CaseStatement => self.case(out, node, parts),
            Form::SelectedSignalAssignment => plain_selection(out, node, parts),
            Form::LabelledStatement => labelled(out, node, parts),
            Form::ProcessStatement => self.body(alloc, out, node, 2, parts),
            Form::FunctionBody => self.body(alloc, out, node, 6, parts),
            _ => out.add(node.form, node.text, node.place, parts, 0),
        }
    }
}

/// Whether a type is STD_ULOGIC.
fn is_scalar(of: &Option<TypeId>) -> bool {
    match of {
        Some(of) => of.number() == STD_ULOGIC,
        None => false,
    }
}

/// The function that matches scalars or vectors.
fn matching_function(is_scalar: bool) -> Function {
    if is_scalar {
        Function::Match
    } else {
        Function::MatchVectors
    }
}

impl<'a, 'd, 's> Touring<'a, Noted, Noted> for Choosing<'d, 's> {
    ghost knows = { λ _ _ _. Unit {0} };

    ghost Frame = { Unit {0} };

    ghost frame = { λ _. tt };

    ghost replaces = { λ _ _ _ _. Unit {0} };

    ghost becomes = { λ _ _ _ _ _. Unit {0} };

    fn enter(
        &mut self,
        _alloc: Global,
        _out: &mut Store<Noted>,
        _node: &Opened<'a, Noted>,
    ) -> Result<Entry, AllocError> {
        Ok(Entry::Inside)
    }

    fn leave(
        &mut self,
        alloc: Global,
        out: &mut Store<Noted>,
        node: &Opened<'a, Noted>,
        parts: u32,
    ) -> Result<u32, AllocError> {
        self.trees(alloc, out, node, parts)
    }
}

/// Writes statements with choices as revision 1993 has them, by their notes. There are no selected assignments among sequential statements any more. The
/// only error is that memory ran out.
#[tactic(auto, using(crate::proofs::TourLemmas::at_start))]
pub fn lower_choices(
    alloc: Global,
    declarations: &[Declaration],
    support: &Support,
    from: &Cursor<'_, Noted>,
    out: &mut Store<Noted>,
) -> Result<u32, AllocError>
    ensures within { IfOk result (λ made. made ≤ length out.new) }
    ensures extends { Extends out.old out.new }
{
    let mut pass = Choosing::of(alloc, declarations, support, from)?;
    tour(alloc, from, out, &mut pass)
}
