//! Whether a selector is met by choices: comparisons by `=`, and matches by the functions of the support package.
#![tactic(auto, using(vd_forest::proofs::StoreLemmas::growing))]

ghost use Rattle.std.specs.Prelude.{◌≤◌, IfOk, length};
ghost use Rattle.vd_forest.specs.Store.{Extends};

use crate::choosing::Choosing;
use crate::trees::{node_of, note_at, place_or, type_at};
use std::alloc::AllocError;
use vd_bytes::Place;
use vd_declarations::{DeclId, TypeId};
use vd_forest::Store;
use vd_forms::Form;
use vd_notes::{Note, Noted, call_of};
use vd_predefined::numbers::{BOOLEAN, STD_ULOGIC};

/// The positions of the literals '1' and '-' of STD_ULOGIC.
const ONE: u32 = 3;

pub(crate) const DASH: u32 = 8;

/// How a selector is compared with choices.
#[derive(Drop)]
pub(crate) struct Test {
    /// The tree of the selector.
    pub(crate) left: u32,
    /// The function that matches it, or none where it is compared by `=`.
    pub(crate) function: Option<DeclId>,
    pub(crate) place: Place,
}

impl<'d, 's> Choosing<'d, 's> {
    /// An operator whose result is BOOLEAN, with operands of a type.
    fn operation(
        &self,
        out: &mut Store<Noted>,
        form: Form,
        of: Option<TypeId>,
        place: Place,
        operands: u32,
    ) -> Result<u32, AllocError>
        requires { operands ≤ length out.old }
        ensures within { IfOk result (λ made. made ≤ length out.new) }
        ensures extends { Extends out.old out.new }
    {
        let operator = self.operators.operator(form, of);
        let node = node_of(form, operator, Some(TypeId::of(BOOLEAN)));
        out.add(node, &[], place, operands, 0)
    }

    /// Whether the first of two operands equals the second one.
    pub(crate) fn equal(
        &self,
        out: &mut Store<Noted>,
        place: Place,
        operands: u32,
    ) -> Result<u32, AllocError>
        requires { operands ≤ length out.old }
        ensures within { IfOk result (λ made. made ≤ length out.new) }
        ensures extends { Extends out.old out.new }
    {
        let of = type_at(out, operands);
        self.operation(out, Form::Equal, of, place, operands)
    }

    /// One of two conditions, of which the first may not be there.
    fn either(
        &self,
        out: &mut Store<Noted>,
        place: Place,
        found: u32,
        condition: u32,
    ) -> Result<u32, AllocError>
        requires found_in { found ≤ length out.old }
        requires condition_in { condition ≤ length out.old }
        ensures within { IfOk result (λ made. made ≤ length out.new) }
        ensures extends { Extends out.old out.new }
    {
        if found == 0 {
            return Ok(condition);
        }
        let operands = out.relink(found, condition)?;
        self.operation(out, Form::Or, Some(TypeId::of(BOOLEAN)), place, operands)
    }

    /// A call of a function of the support package, in front of another tree.
    pub(crate) fn call(
        &self,
        out: &mut Store<Noted>,
        function: DeclId,
        place: Place,
        operands: u32,
        next: u32,
    ) -> Result<u32, AllocError>
        requires operands_in { operands ≤ length out.old }
        requires next_in { next ≤ length out.old }
        ensures within { IfOk result (λ made. made ≤ length out.new) }
        ensures extends { Extends out.old out.new }
    {
        match self.declarations.get(function.number() as usize) {
            Some(declaration) => call_of(out, function, declaration, operands, place, next),
            None => Ok(next),
        }
    }

    /// Whether a function that matches gives '1' for two operands.
    fn matched(
        &self,
        out: &mut Store<Noted>,
        function: DeclId,
        place: Place,
        operands: u32,
    ) -> Result<u32, AllocError>
        requires { operands ≤ length out.old }
        ensures within { IfOk result (λ made. made ≤ length out.new) }
        ensures extends { Extends out.old out.new }
    {
        let one = self.literal(out, STD_ULOGIC, ONE, place, 0)?;
        let call = self.call(out, function, place, operands, one)?;
        self.equal(out, place, call)
    }

    /// Whether a selector is met by a value.
    fn meets(
        &self,
        out: &mut Store<Noted>,
        test: &Test,
        place: Place,
        value: u32,
    ) -> Result<u32, AllocError>
        requires left_in { test.now.left ≤ length out.old }
        requires value_in { value ≤ length out.old }
        ensures within { IfOk result (λ made. made ≤ length out.new) }
        ensures extends { Extends out.old out.new }
    {
        let operands = out.relink(test.left, value)?;
        match &test.function {
            Some(function) => self.matched(out, *function, place, operands),
            None => self.equal(out, place, operands),
        }
    }

    /// What was found so far, or the literal of STD_ULOGIC at a position.
    fn or_literal(
        &self,
        out: &mut Store<Noted>,
        test: &Test,
        place: Place,
        found: u32,
        position: u32,
    ) -> Result<u32, AllocError>
        requires left_in { test.now.left ≤ length out.old }
        requires found_in { found ≤ length out.old }
        ensures within { IfOk result (λ made. made ≤ length out.new) }
        ensures extends { Extends out.old out.new }
    {
        let value = self.literal(out, STD_ULOGIC, position, place, 0)?;
        let condition = self.meets(out, test, place, value)?;
        self.either(out, test.place, found, condition)
    }

    /// What was found so far, or one of the literals of STD_ULOGIC between two positions.
    fn or_literals(
        &self,
        out: &mut Store<Noted>,
        test: &Test,
        place: Place,
        found: u32,
        low: u32,
        high: u32,
    ) -> Result<u32, AllocError>
        requires left_in { test.now.left ≤ length out.old }
        requires found_in { found ≤ length out.old }
        ensures within { IfOk result (λ made. made ≤ length out.new) }
        ensures extends { Extends out.old out.new }
    {
        let mut made = found;
        let mut position = low;
        let end = high.min(DASH).saturating_add(1);
        let mut left = end.saturating_sub(low);
        while left > 0 {
            made = self.or_literal(out, test, place, made, position)?;
            position = position.saturating_add(1);
            left -= 1;
        }
        Ok(made)
    }

    /// What was found so far, or a value.
    fn or_value(
        &self,
        out: &mut Store<Noted>,
        test: &Test,
        place: Place,
        found: u32,
        choice: u32,
    ) -> Result<u32, AllocError>
        requires left_in { test.now.left ≤ length out.old }
        requires found_in { found ≤ length out.old }
        requires choice_in { choice ≤ length out.old }
        ensures within { IfOk result (λ made. made ≤ length out.new) }
        ensures extends { Extends out.old out.new }
    {
        let value = out.relink(choice, 0)?;
        let condition = self.meets(out, test, place, value)?;
        self.either(out, test.place, found, condition)
    }

    /// What was found so far, or the first of some choices.
    fn or_choice(
        &self,
        out: &mut Store<Noted>,
        test: &Test,
        found: u32,
        choice: u32,
    ) -> Result<u32, AllocError>
        requires left_in { test.now.left ≤ length out.old }
        requires found_in { found ≤ length out.old }
        requires choice_in { choice ≤ length out.old }
        ensures within { IfOk result (λ made. made ≤ length out.new) }
        ensures extends { Extends out.old out.new }
    {
        let place = place_or(out, choice, test.place);
        match note_at(out, choice) {
            Note::Values { low, high } => self.or_literals(out, test, place, found, low, high),
            _ => self.or_value(out, test, place, found, choice),
        }
    }

    /// Whether a selector is met by one of some choices. It is no tree where they stand for no value.
    pub(crate) fn meets_any(
        &self,
        out: &mut Store<Noted>,
        test: &Test,
        choices: u32,
    ) -> Result<u32, AllocError>
        requires left_in { test.now.left ≤ length out.old }
        requires choices_in { choices ≤ length out.old }
        ensures within { IfOk result (λ made. made ≤ length out.new) }
        ensures extends { Extends out.old out.new }
    {
        let mut left = choices;
        let mut found = 0;
        while left > 0 {
            found = self.or_choice(out, test, found, left)?;
            left = out.after(left);
        }
        Ok(found)
    }
}
