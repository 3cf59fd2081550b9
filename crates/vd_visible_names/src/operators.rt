//! Operators: the types that bring them, and their nodes.
#![tactic(auto, using(vd_forest::proofs::StoreLemmas::growing))]

ghost use Rattle.std.specs.Prelude.{◌≡◌, ◌≤◌, IfOk, length};
ghost use Rattle.vd_forest.specs.Store.{Extends};

use crate::levels::Level;
use crate::qualified::Candidate;
use crate::writer::Writer;
use std::alloc::AllocError;
use vd_declarations::{Class, DeclId, Declaration, TypeId};
use vd_forest::{Opened, Store};
use vd_forms::Form;
use vd_resolved::Resolved;
use vd_visible::kinds::symbol_of;

/// An operator that is written as a call.
const NOT_WRITTEN: Candidate = Candidate {
    mark: None,
    own: None,
    is_written: false,
};

impl<'a> Writer<'a> {
    /// Whether a type is an array type.
    fn is_array(&self, mark: TypeId) -> bool {
        matches!(self.class_of(mark.number()), Class::ArrayType { .. })
    }

    /// The type of an operand.
    fn operand(&self, operands: &[DeclId], place: usize) -> Option<TypeId> {
        let operand = operands.get(place)?;
        self.declaration(operand.number())?.mark
    }

    /// The type whose operator has such operands: an array type where there is one.
    fn owner_by(&self, left: TypeId, right: Option<TypeId>) -> TypeId {
        match right {
            Some(right) if !self.is_array(left) && self.is_array(right) => right,
            _ => left,
        }
    }

    /// The type that brings an operator with it, or in whose package a given function stands. The operator `&` is that of its result.
    pub(crate) fn owner_of(&self, number: u32) -> Option<u32> {
        let function: &Declaration = self.declaration(number)?;
        if !matches!(function.class, Class::PredefinedOperator | Class::Function) {
            return None;
        }
        if function.name.as_slice() == b"\"&\"".as_slice() {
            return Some(function.mark?.number());
        }
        let operands = function.parameters.as_slice();
        let left = self.operand(operands, 0)?;
        let own = self.owner_by(left, self.operand(operands, 1));
        Some(own.number())
    }

    /// Whether an operator is written as such: its own name is its symbol, which is visible.
    fn is_written(&self, number: u32, form: Form) -> Result<bool, AllocError> {
        let symbol = symbol_of(form).as_bytes();
        if self.name_of(number) != symbol {
            return Ok(false);
        }
        self.is_visible(number, symbol)
    }

    /// A call of an operator with these operands.
    fn call(
        &mut self,
        out: &mut Store<Form>,
        number: u32,
        node: &Opened<'a, Resolved>,
        operands: u32,
    ) -> Result<u32, AllocError>
        requires { operands ≤ length out.old }
        ensures within { IfOk result (λ made. made ≤ length out.new) }
        ensures extends { Extends out.old out.new }
    {
        let brackets = out.add(Form::Arguments, &[], node.place, operands, 0)?;
        self.name_node(out, number, node.place, brackets)
    }

    /// An operator, whose operands are written.
    pub(crate) fn leave_operator(
        &mut self,
        out: &mut Store<Form>,
        level: &Level,
        node: &Opened<'a, Resolved>,
        operands: u32,
    ) -> Result<u32, AllocError>
        requires { operands ≤ length out.old }
        ensures within { IfOk result (λ made. made ≤ length out.new) }
        ensures extends { Extends out.old out.new }
    {
        let form = node.form.form;
        match node.form.declaration {
            Some(id) if !self.is_written(id.number(), form)? => {
                self.put_candidate(level.candidate, NOT_WRITTEN);
                self.call(out, id.number(), node, operands)
            }
            _ => out.add(form, &[], node.place, operands, 0),
        }
    }
}
