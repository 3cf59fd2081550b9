//! Largest expressions.
#![tactic(auto, using(vd_forest::proofs::StoreLemmas::growing))]

ghost use Rattle.std.specs.Prelude.{◌≡◌, ◌≤◌, IfOk, length};
ghost use Rattle.vd_forest.specs.Store.{Extends};

use crate::levels::Root;
use crate::writer::Writer;
use std::alloc::AllocError;
use vd_declarations::Class;
use vd_forest::{Opened, Store};
use vd_forms::Form;
use vd_name_rows::{Step, Want};
use vd_resolved::Resolved;

/// What a step wants of an expression.
fn want_of(step: Step) -> Want {
    match step {
        Step::Expression(want) => want,
        Step::Chosen => Want::AtHand,
        Step::Parameter(_) | Step::ArrayIndex => Want::AnyRange,
        Step::Surplus => Want::Index,
        _ => Want::Free,
    }
}

/// A largest expression, by its step.
pub(crate) fn root_of(step: Step) -> Root {
    let parameter = match step {
        Step::Parameter(object) => Some(object),
        _ => None,
    };
    Root {
        want: want_of(step),
        parameter,
    }
}

impl<'a> Writer<'a> {
    /// Declares the parameter of a loop or generate, behind its range.
    fn enter_parameter(&mut self, class: Class) -> Result<(), AllocError> {
        let number = match self.levels.last() {
            Some(level) => level.number,
            None => None,
        };
        let Some(number) = number else {
            return Ok(());
        };
        let mark = self.type_of(number);
        let region = self.at.region;
        self.enter_plain(number, region, class, mark)?;
        Ok(())
    }

    /// A largest expression that is written, and whose parts are qualified where they have to be.
    fn finish_root(
        &mut self,
        out: &mut Store<Form>,
        root: &Root,
        node: &Opened<'a, Resolved>,
        trees: u32,
    ) -> Result<u32, AllocError>
        requires { trees ≤ length out.old }
        ensures within { IfOk result (λ made. made ≤ length out.new) }
        ensures extends { Extends out.old out.new }
    {
        let made = self.qualify(out, root, node, trees)?;
        self.begin_candidates();
        if let Some(object) = root.parameter {
            self.enter_parameter(object.class())?;
        }
        Ok(made)
    }

    /// An expression that is written, which may be a largest one.
    pub(crate) fn finish(
        &mut self,
        out: &mut Store<Form>,
        root: &Option<Root>,
        node: &Opened<'a, Resolved>,
        trees: u32,
    ) -> Result<u32, AllocError>
        requires { trees ≤ length out.old }
        ensures within { IfOk result (λ made. made ≤ length out.new) }
        ensures extends { Extends out.old out.new }
    {
        match root {
            Some(root) => self.finish_root(out, root, node, trees),
            None => Ok(trees),
        }
    }
}
