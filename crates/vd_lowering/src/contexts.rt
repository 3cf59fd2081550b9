//! The clauses of contexts in place of references to them.
//!
//! A context comes before what refers to it, so that one walk in the order of the text suffices: it knows of each context the clauses that it stands for,
//! those of the contexts that it refers to among them.

ghost use Rattle.std.specs.Prelude.{◌≤◌, ℕ, IfOk, length};
ghost use Rattle.vd_forest.specs.Store.{Extends};
ghost use Rattle.vd_statements.specs.Lists.{AreWithin};

use crate::conditions::{behind, inside};
use std::alloc::{AllocError, Global};
use vd_declarations::{DeclId, Declaration};
use vd_forest::{Cursor, Opened, Store};
use vd_forms::Form;
use vd_notes::Noted;
use vd_tours::{Entry, Touring, tour};

/// The table of the walk: of each context that has been met, by its number, its clauses in the store that is made.
#[derive(Drop)]
pub struct Contexts {
    clauses: Vec<u32>,
}

/// What the first of some names names.
fn first_named(names: &Cursor<'_, Noted>) -> Option<DeclId> {
    match names.open() {
        Some(first) => first.form.node.declaration,
        None => None,
    }
}

/// Some trees in front of others.
#[tactic(auto, using(vd_forest::proofs::StoreLemmas::growing))]
fn in_front(out: &mut Store<Noted>, front: u32, rest: u32) -> Result<u32, AllocError>
    requires front_in { front ≤ length out.old }
    requires rest_in { rest ≤ length out.old }
    ensures within { IfOk result (λ made. made ≤ length out.new) }
    ensures extends { Extends out.old out.new }
{
    let turned = out.turn(front, 0)?;
    let made = out.turn(turned, rest)?;
    Ok(made)
}

/// The first tree with these parts, in front of others.
#[tactic(auto, using(vd_forest::proofs::StoreLemmas::growing))]
fn with_parts(out: &mut Store<Noted>, tree: u32, parts: u32, next: u32) -> Result<u32, AllocError>
    requires tree_in { tree ≤ length out.old }
    requires parts_in { parts ≤ length out.old }
    requires next_in { next ≤ length out.old }
    ensures within { IfOk result (λ made. made ≤ length out.new) }
    ensures extends { Extends out.old out.new }
{
    let Some(head) = out.head(tree) else {
        return Ok(next);
    };
    let (form, place) = (head.form, head.place);
    let made = out.add(form, &[], place, parts, next)?;
    Ok(made)
}

/// The form of the first tree.
fn form_of(out: &Store<Noted>, number: u32) -> Option<Form>
    requires { number ≤ length out.now }
{
    match out.head(number) {
        Some(head) => Some(head.form.node.form),
        None => None,
    }
}

/// Two context clauses as one, the second in front of what stands behind it.
#[tactic(auto, using(vd_forest::proofs::StoreLemmas::growing))]
fn merged(out: &mut Store<Noted>, first: u32, second: u32) -> Result<u32, AllocError>
    requires first_in { first ≤ length out.old }
    requires second_in { second ≤ length out.old }
    ensures within { IfOk result (λ made. made ≤ length out.new) }
    ensures extends { Extends out.old out.new }
{
    let front = inside(out, first);
    let rest = inside(out, second);
    let next = behind(out, second);
    let clauses = in_front(out, front, rest)?;
    with_parts(out, first, clauses, next)
}

/// The parts of a unit whose context refers to others: one context clause with all clauses, and what the unit declares. There is nothing where that is a
/// context.
#[tactic(auto, using(vd_forest::proofs::StoreLemmas::growing))]
fn unit_parts(out: &mut Store<Noted>, parts: u32) -> Result<u32, AllocError>
    requires { parts ≤ length out.old }
    ensures within { IfOk result (λ made. made ≤ length out.new) }
    ensures extends { Extends out.old out.new }
{
    let main = behind(out, parts);
    match form_of(out, main) {
        None => Ok(0),
        Some(Form::ContextClause) => merged(out, parts, main),
        Some(_) => Ok(parts),
    }
}

impl Contexts {
    /// No context has been met in a design with these declarations.
    fn of(alloc: Global, declarations: &[Declaration]) -> Result<Contexts, AllocError>
        ensures { IfOk result (λ contexts. (size : ℕ) → AreWithin size contexts.clauses.items) }
    {
        let clauses = vec![in alloc; 0; declarations.len()]?;
        Ok(Contexts { clauses })
    }

    /// The clauses of a context.
    fn clauses_of(&self, out: &Store<Noted>, context: Option<DeclId>) -> u32
        requires { AreWithin (length out.now) self.now.clauses.items }
        ensures { result ≤ length out.now }
    {
        let Some(id) = context else {
            return 0;
        };
        let place = id.number() as usize;
        if place < self.clauses.len() {
            self.clauses[place]
        } else {
            0
        }
    }

    /// A context has these clauses.
    fn note(&mut self, out: &Store<Noted>, context: Option<DeclId>, clauses: u32)
        requires own_in { AreWithin (length out.now) self.old.clauses.items }
        requires clauses_in { clauses ≤ length out.now }
        ensures { AreWithin (length out.now) self.new.clauses.items }
    {
        if let Some(id) = context {
            let place = id.number() as usize;
            if place < self.clauses.len() {
                self.clauses[place] = clauses;
            }
        }
    }

    /// The clauses of the contexts that some names name, one after the other.
    #[tactic(auto, using(vd_statements::proofs::TourLemmas::next_smaller, vd_statements::proofs::TourLemmas::within_grown, vd_forest::proofs::StoreLemmas::growing))]
    fn all_clauses(
        &self,
        out: &mut Store<Noted>,
        names: &Cursor<'_, Noted>,
    ) -> Result<u32, AllocError>
        requires { AreWithin (length out.old) self.now.clauses.items }
        ensures within { IfOk result (λ made. made ≤ length out.new) }
        ensures extends { Extends out.old out.new }
    {
        let mut made = 0;
        let mut left = names.fork();
        while let Some(first) = left.open() {
            let clauses = self.clauses_of(out, first.form.node.declaration);
            made = out.turn(clauses, made)?;
            left = first.next;
        }
        out.turn(made, 0)
    }

    /// A reference to contexts, as a context clause.
    #[tactic(auto, using(vd_forest::proofs::StoreLemmas::growing))]
    fn reference(&self, out: &mut Store<Noted>, node: &Opened<'_, Noted>) -> Result<u32, AllocError>
        requires { AreWithin (length out.old) self.now.clauses.items }
        ensures within { IfOk result (λ made. made ≤ length out.new) }
        ensures extends { Extends out.old out.new }
    {
        let clauses = self.all_clauses(out, &node.parts)?;
        let mut form = node.form;
        form.node.form = Form::ContextClause;
        let made = out.add(form, &[], node.place, clauses, 0)?;
        Ok(made)
    }

    /// A unit behind a reference to contexts: one context clause, and what the unit declares.
    #[tactic(auto, using(vd_forest::proofs::StoreLemmas::growing))]
    fn referring(out: &mut Store<Noted>, parts: u32) -> Result<u32, AllocError>
        requires { parts ≤ length out.old }
        ensures within { IfOk result (λ made. made ≤ length out.new) }
        ensures extends { Extends out.old out.new }
    {
        let unit = behind(out, parts);
        if form_of(out, unit).is_none() {
            return Ok(0);
        }
        let inner = inside(out, unit);
        merged(out, parts, inner)
    }

    /// A unit, which is left out where it is a context.
    #[tactic(auto, using(vd_forest::proofs::StoreLemmas::growing))]
    fn unit(out: &mut Store<Noted>, node: &Opened<'_, Noted>, parts: u32) -> Result<u32, AllocError>
        requires { parts ≤ length out.old }
        ensures within { IfOk result (λ made. made ≤ length out.new) }
        ensures extends { Extends out.old out.new }
    {
        let parts = unit_parts(out, parts)?;
        if form_of(out, parts).is_none() {
            return Ok(0);
        }
        let made = out.add(node.form, node.text, node.place, parts, 0)?;
        Ok(made)
    }

    /// What a node becomes.
    fn made(
        &self,
        out: &mut Store<Noted>,
        node: &Opened<'_, Noted>,
        parts: u32,
    ) -> Result<u32, AllocError>
        requires parts_in { parts ≤ length out.old }
        requires clauses_in { AreWithin (length out.old) self.now.clauses.items }
        ensures within { IfOk result (λ made. made ≤ length out.new) }
        ensures extends { Extends out.old out.new }
    {
        match node.form.node.form {
            Form::DesignUnit => Contexts::unit(out, node, parts),
            Form::ReferringUnit => Contexts::referring(out, parts),
            Form::ContextReference => self.reference(out, node),
            Form::NestedReference => Ok(self.clauses_of(out, first_named(&node.parts))),
            Form::ContextDeclaration => Ok(0),
            _ => {
                let made = out.add(node.form, node.text, node.place, parts, 0)?;
                Ok(made)
            }
        }
    }
}

impl<'a> Touring<'a, Noted, Noted> for Contexts {
    ghost use Rattle.std.specs.Prelude.{length};
    ghost use Rattle.vd_statements.specs.Lists.{AreWithin};

    ghost knows = { λ by before _. AreWithin (length before) by.clauses.items };

    ghost Frame = { Unit {0} };

    ghost frame = { λ _. tt };

    ghost replaces = { λ _ _ _ _. Unit {0} };

    ghost becomes = { λ _ _ _ _ _. Unit {0} };

    #[tactic(auto, using(vd_statements::proofs::TourLemmas::touring))]
    fn enter(
        &mut self,
        _alloc: Global,
        _out: &mut Store<Noted>,
        _node: &Opened<'a, Noted>,
    ) -> Result<Entry, AllocError> {
        Ok(Entry::Inside)
    }

    #[tactic(auto, using(vd_statements::proofs::TourLemmas::touring))]
    fn leave(
        &mut self,
        _alloc: Global,
        out: &mut Store<Noted>,
        node: &Opened<'a, Noted>,
        parts: u32,
    ) -> Result<u32, AllocError> {
        if matches!(node.form.node.form, Form::ContextDeclaration) {
            let items = inside(out, behind(out, parts));
            self.note(out, node.form.node.declaration, items);
        }
        self.made(out, node, parts)
    }
}

/// A design without contexts: where a unit refers to some, it has their clauses, and no unit declares one.
#[tactic(auto, using(vd_statements::proofs::TourLemmas::at_start_within))]
pub fn lower_contexts(
    alloc: Global,
    declarations: &[Declaration],
    from: &Cursor<'_, Noted>,
    out: &mut Store<Noted>,
) -> Result<u32, AllocError>
    ensures within { IfOk result (λ made. made ≤ length out.new) }
    ensures extends { Extends out.old out.new }
{
    let mut pass = Contexts::of(alloc, declarations)?;
    tour(alloc, from, out, &mut pass)
}
