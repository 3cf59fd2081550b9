//! Generates without alternatives: one generate for each alternative of another one.

ghost use Rattle.std.specs.Prelude.{◌≡◌, ◌≤◌, ◌<◌, IfOk, length};
ghost use Rattle.vd_forest.specs.Forest.{joined, next_of, nothing, text_of};
ghost use Rattle.vd_forest.specs.Store.{at, Holds, Extends};
ghost use Rattle.vd_lowering.specs.Conditions.{alone};
ghost use Rattle.vd_lowering.specs.Generates.{AreGenerates, all_branches, all_generates, always, branch, branches, branches_by, case_branch, case_branches, chosen, empty_body, ending, first_branch, from_first, generate, generates_by, if_branches, label_by, last_branch, not_taken, not_there, one_generate, present, split_by, taken, with_condition};

use crate::conditions::{behind, inside, node_of};
use crate::operators::Operators;
use std::alloc::{AllocError, Global};
use vd_bytes::Place;
use vd_declarations::{DeclId, Declaration};
use vd_forest::{Cursor, Opened, Store};
use vd_forms::Form;
use vd_notes::{Note, Noted};
use vd_rewriting::{Rewriting, rewrite};

/// The pass over a design with these operators.
#[derive(Drop)]
pub struct Generates {
    pub operators: Operators,
}

/// What may stand here and doesn't.
fn not_there(out: &mut Store<Noted>, place: Place, next: u32) -> Result<u32, AllocError>
    requires { next ≤ length out.old }
    ensures holds { IfOk result (λ made. Holds out.new made (not_there place (at out.old next))) }
    ensures extends { Extends out.old out.new }
{
    out.add(node_of(Form::Absent, None, None), &[], place, 0, next)
}

/// A branch of a generate.
#[tactic(auto, using(vd_forest::proofs::StoreLemmas::growing))]
fn branch(
    out: &mut Store<Noted>,
    note: Note,
    place: Place,
    condition: u32,
    body: u32,
    rest: u32,
) -> Result<u32, AllocError>
    requires condition_in { condition ≤ length out.old }
    requires body_in { body ≤ length out.old }
    requires rest_in { rest ≤ length out.old }
    ensures holds { IfOk result (λ made. Holds out.new made (branch note place (at out.old condition) (at out.old body) (at out.old rest))) }
    ensures extends { Extends out.old out.new }
{
    let body = out.relink(body, 0)?;
    let parts = out.relink(condition, body)?;
    let node = Noted {
        node: node_of(Form::ElsifGenerate, None, None).node,
        note,
    };
    let made = out.add(node, &[], place, parts, rest)?;
    Ok(made)
}

/// The branch behind all conditions, where there is one.
#[tactic(auto, using(vd_forest::proofs::StoreLemmas::growing))]
fn last_branch(out: &mut Store<Noted>, place: Place, body: u32) -> Result<u32, AllocError>
    requires { body ≤ length out.old }
    ensures holds { IfOk result (λ made. Holds out.new made (last_branch place (at out.old body))) }
    ensures extends { Extends out.old out.new }
{
    let Some(head) = out.head(body) else {
        return Ok(0);
    };
    let (form, note) = (head.form.node.form, head.form.note);
    if matches!(form, Form::Absent) {
        return Ok(0);
    }
    let condition = not_there(out, place, 0)?;
    branch(out, note, place, condition, body, 0)
}

/// The first branch, where there are others behind it.
fn first_branch(
    out: &mut Store<Noted>,
    place: Place,
    parts: u32,
    rest: u32,
) -> Result<u32, AllocError>
    requires parts_in { parts ≤ length out.old }
    requires rest_in { rest ≤ length out.old }
    ensures holds { IfOk result (λ made. Holds out.new made (first_branch place (at out.old parts) (at out.old rest))) }
    ensures extends { Extends out.old out.new }
{
    let Some(_) = out.head(rest) else {
        return Ok(0);
    };
    let body = behind(out, parts);
    branch(out, Note::Nothing, place, parts, body, rest)
}

/// Some trees in front of others.
#[tactic(auto, using(crate::proofs::GenerateLemmas::joining))]
fn joined(out: &mut Store<Noted>, front: u32, rest: u32) -> Result<u32, AllocError>
    requires front_in { front ≤ length out.old }
    requires rest_in { rest ≤ length out.old }
    ensures holds { IfOk result (λ made. Holds out.new made (joined (at out.old front) (at out.old rest))) }
    ensures extends { Extends out.old out.new }
{
    let turned = out.turn(front, 0)?;
    let made = out.turn(turned, rest)?;
    Ok(made)
}

/// The branches of an `if` generate, where there are several.
#[tactic(auto, using(vd_forest::proofs::StoreLemmas::growing))]
fn if_branches(out: &mut Store<Noted>, place: Place, parts: u32) -> Result<u32, AllocError>
    requires { parts ≤ length out.old }
    ensures holds { IfOk result (λ made. Holds out.new made (if_branches place (at out.old parts))) }
    ensures extends { Extends out.old out.new }
{
    let conditions = behind(out, behind(out, parts));
    let elsifs = inside(out, conditions);
    let body = behind(out, conditions);
    let last = last_branch(out, place, body)?;
    let rest = joined(out, elsifs, last)?;
    first_branch(out, place, parts, rest)
}

/// The condition of a branch, where it has one.
fn present(out: &mut Store<Noted>, parts: u32) -> Result<u32, AllocError>
    requires { parts ≤ length out.old }
    ensures holds { IfOk result (λ made. Holds out.new made (present (at out.old parts))) }
    ensures extends { Extends out.old out.new }
{
    let Some(head) = out.head(parts) else {
        return Ok(0);
    };
    let form = head.form.node.form;
    if matches!(form, Form::Absent) {
        return Ok(0);
    }
    out.relink(parts, 0)
}

/// The label of the generate of a branch.
fn label_by(
    out: &mut Store<Noted>,
    note: Note,
    name: &[u8],
    place: Place,
    label: u32,
) -> Result<u32, AllocError>
    requires { label ≤ length out.old }
    ensures holds { IfOk result (λ made. Holds out.new made (label_by note name.now place (at out.old label))) }
    ensures extends { Extends out.old out.new }
{
    match note {
        Note::Alternative { label: number } => {
            let node = node_of(Form::Identifier, Some(DeclId::of(number)), None);
            out.add(node, name, place, 0, 0)
        }
        _ => Ok(label),
    }
}

/// What stands behind the body of a generate.
#[tactic(auto, using(vd_forest::proofs::StoreLemmas::growing))]
fn ending(out: &mut Store<Noted>, place: Place) -> Result<u32, AllocError>
    ensures holds { IfOk result (λ made. Holds out.new made (ending place)) }
    ensures extends { Extends out.old out.new }
{
    let name = not_there(out, place, 0)?;
    let body = not_there(out, place, name)?;
    let made = out.add(
        node_of(Form::ElsifGenerates, None, None),
        &[],
        place,
        0,
        body,
    )?;
    Ok(made)
}

/// A generate with a condition and a body.
#[tactic(auto, using(vd_forest::proofs::StoreLemmas::growing))]
fn generate(
    out: &mut Store<Noted>,
    place: Place,
    condition: u32,
    body: u32,
) -> Result<u32, AllocError>
    requires condition_in { condition ≤ length out.old }
    requires body_in { body ≤ length out.old }
    ensures holds { IfOk result (λ made. Holds out.new made (generate place (at out.old condition) (at out.old body))) }
    ensures extends { Extends out.old out.new }
{
    let ending = ending(out, place)?;
    let body = out.relink(body, ending)?;
    let parts = out.relink(condition, body)?;
    let made = out.add(node_of(Form::IfGenerate, None, None), &[], place, parts, 0)?;
    Ok(made)
}

impl Operators {
    /// What the choices of an alternative say.
    fn chosen(
        &self,
        out: &mut Store<Noted>,
        place: Place,
        selector: u32,
        parts: u32,
    ) -> Result<u32, AllocError>
        requires selector_in { selector ≤ length out.old }
        requires parts_in { parts ≤ length out.old }
        ensures holds { IfOk result (λ made. Holds out.new made (chosen self.now.rows.items place (at out.old selector) (at out.old parts))) }
        ensures extends { Extends out.old out.new }
    {
        let Some(head) = out.head(parts) else {
            return Ok(0);
        };
        let (form, choices) = (head.form.node.form, head.parts);
        if matches!(form, Form::Others) {
            not_there(out, place, 0)
        } else {
            self.any_choice(out, place, selector, choices)
        }
    }

    /// The branch of the first of some alternatives.
    #[tactic(auto, using(vd_forest::proofs::StoreLemmas::growing))]
    fn case_branch(
        &self,
        out: &mut Store<Noted>,
        place: Place,
        selector: u32,
        alternative: u32,
        rest: u32,
    ) -> Result<u32, AllocError>
        requires selector_in { selector ≤ length out.old }
        requires alternative_in { alternative ≤ length out.old }
        requires rest_in { rest ≤ length out.old }
        ensures holds { IfOk result (λ made. Holds out.new made
            (case_branch self.now.rows.items place (at out.old selector) (at out.old alternative) (at out.old rest))) }
        ensures extends { Extends out.old out.new }
    {
        let Some(head) = out.head(alternative) else {
            return Ok(rest);
        };
        let (note, parts) = (head.form.note, head.parts);
        let body = behind(out, parts);
        let condition = self.chosen(out, place, selector, parts)?;
        branch(out, note, place, condition, body, rest)
    }

    /// The branches of alternatives.
    #[tactic(auto, using(crate::proofs::GenerateLemmas::branching))]
    fn all_branches(
        &self,
        out: &mut Store<Noted>,
        place: Place,
        selector: u32,
        alternatives: u32,
    ) -> Result<u32, AllocError>
        requires selector_in { selector ≤ length out.old }
        requires alternatives_in { alternatives ≤ length out.old }
        ensures holds { IfOk result (λ made. Holds out.new made
            (all_branches self.now.rows.items place (at out.old selector) (at out.old alternatives))) }
        ensures extends { Extends out.old out.new }
    {
        let mut left = alternatives;
        let mut made = 0;
        while left > 0 {
            let next = out.node(left).next;
            made = self.case_branch(out, place, selector, left, made)?;
            left = next;
        }
        let all = out.turn(made, 0)?;
        Ok(all)
    }

    /// A condition that always holds.
    fn always(&self, out: &mut Store<Noted>, place: Place, selector: u32) -> Result<u32, AllocError>
        requires { selector ≤ length out.old }
        ensures holds { IfOk result (λ made. Holds out.new made (always self.now.rows.items place (at out.old selector))) }
        ensures extends { Extends out.old out.new }
    {
        self.compared(out, Form::Equal, place, selector, selector)
    }

    /// The parts of a branch that has a condition in any case.
    #[tactic(auto, using(vd_forest::proofs::StoreLemmas::growing))]
    fn with_condition(
        &self,
        out: &mut Store<Noted>,
        place: Place,
        selector: u32,
        parts: u32,
    ) -> Result<u32, AllocError>
        requires selector_in { selector ≤ length out.old }
        requires parts_in { parts ≤ length out.old }
        ensures holds { IfOk result (λ made. Holds out.new made
            (with_condition self.now.rows.items place (at out.old selector) (at out.old parts))) }
        ensures extends { Extends out.old out.new }
    {
        let Some(head) = out.head(parts) else {
            return Ok(0);
        };
        let (form, body) = (head.form.node.form, head.next);
        if matches!(form, Form::Absent) {
            let condition = self.always(out, place, selector)?;
            out.relink(condition, body)
        } else {
            Ok(parts)
        }
    }

    /// The one branch of a generate without alternatives.
    #[tactic(auto, using(vd_forest::proofs::StoreLemmas::growing))]
    fn no_branch(
        &self,
        out: &mut Store<Noted>,
        place: Place,
        selector: u32,
    ) -> Result<u32, AllocError>
        requires { selector ≤ length out.old }
        ensures holds { IfOk result (λ made. Holds out.new made (from_first self.now.rows.items place (at out.old selector) nothing)) }
        ensures extends { Extends out.old out.new }
    {
        let condition = self.always(out, place, selector)?;
        let absent = not_there(out, place, 0)?;
        let body = out.add(
            node_of(Form::GenerateBody, None, None),
            &[],
            place,
            absent,
            0,
        )?;
        branch(out, Note::Nothing, place, condition, body, 0)
    }

    /// The branches, of which the first one has a condition in any case.
    #[tactic(auto, using(vd_forest::proofs::StoreLemmas::growing))]
    fn from_first(
        &self,
        out: &mut Store<Noted>,
        place: Place,
        selector: u32,
        branches: u32,
    ) -> Result<u32, AllocError>
        requires selector_in { selector ≤ length out.old }
        requires branches_in { branches ≤ length out.old }
        ensures holds { IfOk result (λ made. Holds out.new made
            (from_first self.now.rows.items place (at out.old selector) (at out.old branches))) }
        ensures extends { Extends out.old out.new }
    {
        let Some(head) = out.head(branches) else {
            return self.no_branch(out, place, selector);
        };
        let (node, own, parts, next) = (head.form, head.place, head.parts, head.next);
        let parts = self.with_condition(out, place, selector, parts)?;
        let made = out.add(node, &[], own, parts, next)?;
        Ok(made)
    }

    /// The branches of a `case` generate.
    #[tactic(auto, using(vd_forest::proofs::StoreLemmas::growing))]
    fn case_branches(
        &self,
        out: &mut Store<Noted>,
        place: Place,
        parts: u32,
    ) -> Result<u32, AllocError>
        requires { parts ≤ length out.old }
        ensures holds { IfOk result (λ made. Holds out.new made (case_branches self.now.rows.items place (at out.old parts))) }
        ensures extends { Extends out.old out.new }
    {
        let alternatives = inside(out, behind(out, parts));
        let selector = out.relink(parts, 0)?;
        let branches = self.all_branches(out, place, selector, alternatives)?;
        self.from_first(out, place, selector, branches)
    }

    /// The branches of a statement, and none of what stays.
    fn branches(
        &self,
        out: &mut Store<Noted>,
        place: Place,
        statement: u32,
    ) -> Result<u32, AllocError>
        requires { statement ≤ length out.old }
        ensures holds { IfOk result (λ made. Holds out.new made (branches self.now.rows.items place (at out.old statement))) }
        ensures extends { Extends out.old out.new }
    {
        let Some(head) = out.head(statement) else {
            return Ok(0);
        };
        let (form, parts) = (head.form.node.form, head.parts);
        match form {
            Form::IfGenerate => if_branches(out, place, parts),
            Form::CaseGenerate => self.case_branches(out, place, parts),
            _ => Ok(0),
        }
    }

    /// The condition of the generate of a branch.
    #[tactic(auto, using(vd_forest::proofs::StoreLemmas::growing))]
    fn taken(
        &self,
        out: &mut Store<Noted>,
        place: Place,
        earlier: u32,
        parts: u32,
    ) -> Result<u32, AllocError>
        requires earlier_in { earlier ≤ length out.old }
        requires parts_in { parts ≤ length out.old }
        ensures holds { IfOk result (λ made. Holds out.new made (taken self.now.rows.items place (at out.old earlier) (at out.old parts))) }
        ensures extends { Extends out.old out.new }
    {
        let own = present(out, parts)?;
        self.paired(out, Form::And, place, earlier, own)
    }

    /// The condition under which this branch isn't taken either.
    #[tactic(auto, using(vd_forest::proofs::StoreLemmas::growing))]
    fn not_taken(
        &self,
        out: &mut Store<Noted>,
        place: Place,
        earlier: u32,
        branch: u32,
    ) -> Result<u32, AllocError>
        requires earlier_in { earlier ≤ length out.old }
        requires branch_in { branch ≤ length out.old }
        ensures holds { IfOk result (λ made. Holds out.new made
            (not_taken self.now.rows.items place (at out.old earlier) (at out.old branch))) }
        ensures extends { Extends out.old out.new }
    {
        let Some(head) = out.head(branch) else {
            return Ok(earlier);
        };
        let parts = head.parts;
        let own = present(out, parts)?;
        let other = self.negated(out, place, own)?;
        self.paired(out, Form::And, place, earlier, other)
    }

    /// The generate of the first of some branches, in front of others.
    #[tactic(auto, using(vd_forest::proofs::StoreLemmas::growing))]
    fn one_generate(
        &self,
        out: &mut Store<Noted>,
        node: &Opened<'_, Noted>,
        label: u32,
        earlier: u32,
        branch: u32,
        next: u32,
    ) -> Result<u32, AllocError>
        requires label_in { label ≤ length out.old }
        requires earlier_in { earlier ≤ length out.old }
        requires branch_in { branch ≤ length out.old }
        requires next_in { next ≤ length out.old }
        ensures holds { IfOk result (λ made. Holds out.new made (one_generate self.now.rows.items node.now.form node.now.text.now node.now.place
            (text_of node.now.parts) (at out.old label) (at out.old earlier) (at out.old branch) (at out.old next))) }
        ensures extends { Extends out.old out.new }
    {
        let Some(head) = out.head(branch) else {
            return Ok(next);
        };
        let (note, parts) = (head.form.note, head.parts);
        let body = behind(out, parts);
        let own = label_by(out, note, node.parts.text(), node.place, label)?;
        let condition = self.taken(out, node.place, earlier, parts)?;
        let generate = generate(out, node.place, condition, body)?;
        let labelled = out.relink(own, generate)?;
        let made = out.add(node.form, node.text, node.place, labelled, next)?;
        Ok(made)
    }

    /// A generate for each of some branches.
    #[tactic(auto, using(crate::proofs::GenerateLemmas::generating))]
    fn all_generates(
        &self,
        out: &mut Store<Noted>,
        node: &Opened<'_, Noted>,
        label: u32,
        branches: u32,
        next: u32,
    ) -> Result<u32, AllocError>
        requires label_in { label ≤ length out.old }
        requires branches_in { branches ≤ length out.old }
        requires next_in { next ≤ length out.old }
        ensures holds { IfOk result (λ made. Holds out.new made (all_generates self.now.rows.items node.now.form node.now.text.now node.now.place
            (text_of node.now.parts) (at out.old label) nothing (at out.old branches) (at out.old next))) }
        ensures extends { Extends out.old out.new }
    {
        let mut left = branches;
        let mut earlier = 0;
        let mut made = 0;
        while left > 0 {
            let rest = out.node(left).next;
            made = self.one_generate(out, node, label, earlier, left, made)?;
            earlier = self.not_taken(out, node.place, earlier, left)?;
            left = rest;
        }
        let all = out.turn(made, next)?;
        Ok(all)
    }

    /// A statement with a label.
    #[tactic(auto, using(vd_forest::proofs::StoreLemmas::growing))]
    fn split(
        &self,
        out: &mut Store<Noted>,
        node: &Opened<'_, Noted>,
        parts: u32,
        next: u32,
    ) -> Result<u32, AllocError>
        requires parts_in { parts ≤ length out.old }
        requires next_in { next ≤ length out.old }
        ensures holds { IfOk result (λ made. Holds out.new made (split_by self.now.rows.items node.now.form node.now.text.now node.now.place
            (text_of node.now.parts) (at out.old parts) (branches self.now.rows.items node.now.place (next_of (at out.old parts))) (at out.old next))) }
        ensures extends { Extends out.old out.new }
    {
        let statement = behind(out, parts);
        let branches = self.branches(out, node.place, statement)?;
        self.split_by(out, node, parts, branches, next)
    }

    /// The same, with these branches.
    fn split_by(
        &self,
        out: &mut Store<Noted>,
        node: &Opened<'_, Noted>,
        parts: u32,
        branches: u32,
        next: u32,
    ) -> Result<u32, AllocError>
        requires parts_in { parts ≤ length out.old }
        requires branches_in { branches ≤ length out.old }
        requires next_in { next ≤ length out.old }
        ensures holds { IfOk result (λ made. Holds out.new made (split_by self.now.rows.items node.now.form node.now.text.now node.now.place
            (text_of node.now.parts) (at out.old parts) (at out.old branches) (at out.old next))) }
        ensures extends { Extends out.old out.new }
    {
        let Some(_) = out.head(branches) else {
            return out.add(node.form, node.text, node.place, parts, next);
        };
        self.all_generates(out, node, parts, branches, next)
    }
}

impl Rewriting<Noted, Noted> for Generates {
    ghost use Rattle.vd_lowering.specs.Generates.{generates};

    ghost pass = { λ by. generates by.operators.rows.items };

    fn make(
        &mut self,
        out: &mut Store<Noted>,
        node: &Opened<'_, Noted>,
        parts: u32,
        next: u32,
    ) -> Result<u32, AllocError> {
        match node.form.node.form {
            Form::LabelledConcurrent => self.operators.split(out, node, parts, next),
            _ => out.add(node.form, node.text, node.place, parts, next),
        }
    }
}

/// A design with a generate of its own for each alternative of a generate. Each has a condition: those in front of it aren't taken, and its own condition
/// or choices hold.
pub fn lower_generates(
    alloc: Global,
    declarations: &[Declaration],
    from: &Cursor<'_, Noted>,
    out: &mut Store<Noted>,
) -> Result<u32, AllocError>
    ensures holds { IfOk result (λ made. AreGenerates out.new made from.now) }
    ensures extends { Extends out.old out.new }
{
    let operators = Operators::of(alloc, declarations)?;
    rewrite(alloc, from, out, &mut Generates { operators })
}
