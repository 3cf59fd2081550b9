//! The walk over the units of a design.

ghost use Rattle.std.specs.Prelude.{◌≡◌, false, IfOk};
ghost use Rattle.vd_forest.specs.Store.{Extends};
ghost use Rattle.vd_naming.specs.Naming.{done, naming};
ghost use Rattle.vd_name_resolution.specs.Done.{IsDone};
ghost use Rattle.vd_name_resolution.specs.Kinds.{goes_inside as walks_parts};

use crate::clauses::read_clause;
use crate::expressions::read_expression;
use crate::inside::{go_inside, leave_tree};
use crate::kept::Kept;
use crate::kinds::{Kind, goes_inside, kind_of};
use crate::maps::read_map;
use crate::steps::take_step;
use crate::words::read_word;
use std::alloc::{AllocError, Global};
use vd_forest::{Opened, Store};
use vd_forms::Form;
use vd_name_entering::{Made, Units};
use vd_name_rows::{At, Names, Step};
use vd_resolved::Resolved;
use vd_walks::{Entry, Outcome, Walking};

/// What is done with each tree of a design whose units these are.
#[derive(Drop)]
pub struct Naming<'u> {
    units: Units<'u>,
}

impl<'u> Naming<'u> {
    /// Of these units.
    pub fn of(units: Units<'u>) -> Naming<'u>
        ensures { result.units ≡ units.entry }
    {
        Naming { units }
    }

    /// A tree that a step makes by itself.
    #[tactic(auto, using(crate::proofs::StepLemmas::inside_goes))]
    fn make<'a>(
        &self,
        alloc: Global,
        names: &mut Names,
        at: &mut At<'a>,
        step: Step,
        node: &Opened<'a, Form>,
        out: &mut Store<Resolved>,
    ) -> Result<Made, AllocError>
        ensures is { walks_parts step node.now.form ≡ false → IfOk result (λ made. IsDone out.new names.new at.new made
            (done self.now.units step node.now.form node.now.text.now node.now.place node.now.parts at.old names.old)) }
        ensures extends { Extends out.old out.new }
    {
        match kind_of(step) {
            Kind::Word => read_word(alloc, names, at, step, node, out),
            Kind::Expression => read_expression(alloc, names, at, step, node, out),
            Kind::Clause => read_clause(alloc, names, &self.units, at, step, node, out),
            Kind::Map => read_map(alloc, names, at, step, node, out),
            Kind::Inside => read_word(alloc, names, at, Step::Skip, node, out),
        }
    }
}

impl<'u, 'a> Walking<'a, Form, Resolved, At<'a>, Names, Kept<'a>> for Naming<'u> {
    ghost use Rattle.vd_naming.specs.Naming.{naming};

    ghost walker = { λ w. naming w.units };

    #[tactic(auto, using(crate::proofs::StepLemmas::made_entry))]
    fn enter(
        &self,
        alloc: Global,
        node: &Opened<'a, Form>,
        at: At<'a>,
        design: &mut Names,
        out: &mut Store<Resolved>,
    ) -> Result<Entry<At<'a>, Kept<'a>>, AllocError> {
        let mut at = at;
        let step = take_step(&mut at);
        if goes_inside(step, node.form) {
            return go_inside(alloc, design, at, step, node, out);
        }
        let made = self.make(alloc, design, &mut at, step, node, out)?;
        Ok(Entry::Done(Outcome {
            tree: made.tree,
            at,
            first: made.first,
        }))
    }

    fn leave(
        &self,
        alloc: Global,
        kept: Kept<'a>,
        node: &Opened<'a, Form>,
        outcome: &mut Outcome<At<'a>>,
        design: &mut Names,
        out: &mut Store<Resolved>,
    ) -> Result<(), AllocError> {
        leave_tree(alloc, design, &self.units, &kept, node, outcome, out)
    }
}
