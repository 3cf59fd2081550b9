//! Literals and values of discrete types.
#![tactic(auto, using(vd_forest::proofs::StoreLemmas::growing))]

ghost use Rattle.std.specs.Prelude.{◌≤◌, IfOk, length};
ghost use Rattle.vd_forest.specs.Store.{Extends};

use crate::choosing::Choosing;
use crate::trees::node_of;
use std::alloc::{AllocError, Global};
use vd_bytes::Place;
use vd_declarations::{DeclId, TypeId};
use vd_forest::Store;
use vd_forms::Form;
use vd_notes::{Note, Noted, number};
use vd_operations::tables::name_of;
use vd_predefined::numbers::INTEGER;
use vd_resolved::Resolved;

/// The character of a literal with apostrophes, or nothing.
fn character_of(name: &[u8]) -> Option<&[u8]> {
    if name.len() == 3 && name[0] == b'\'' {
        Some(&name[1..2])
    } else {
        None
    }
}

/// The node of a literal at a position of its type.
fn literal_node(form: Form, literal: u32, of: u32, position: u32) -> Noted {
    Noted {
        node: Resolved {
            form,
            declaration: Some(DeclId::of(literal)),
            mark: Some(TypeId::of(of)),
            position,
        },
        note: Note::Nothing,
    }
}

impl<'d, 's> Choosing<'d, 's> {
    /// The literal at a position of an enumeration type. The literals of a type stand right behind it.
    pub(crate) fn literal(
        &self,
        out: &mut Store<Noted>,
        of: u32,
        position: u32,
        place: Place,
        next: u32,
    ) -> Result<u32, AllocError>
        requires { next ≤ length out.old }
        ensures within { IfOk result (λ made. made ≤ length out.new) }
        ensures extends { Extends out.old out.new }
    {
        let number = of.saturating_add(1).saturating_add(position);
        let name = name_of(self.declarations, number);
        match character_of(name) {
            Some(character) => {
                let node = literal_node(Form::Letter, number, of, position);
                out.add(node, character, place, 0, next)
            }
            None => {
                let node = literal_node(Form::Identifier, number, of, position);
                let word = out.add(node, name, place, 0, 0)?;
                let node = node_of(Form::Name, None, Some(TypeId::of(of)));
                out.add(node, &[], place, word, next)
            }
        }
    }

    /// A value of INTEGER.
    fn integer(
        &self,
        alloc: Global,
        out: &mut Store<Noted>,
        value: i32,
        place: Place,
        next: u32,
    ) -> Result<u32, AllocError>
        requires { next ≤ length out.old }
        ensures within { IfOk result (λ made. made ≤ length out.new) }
        ensures extends { Extends out.old out.new }
    {
        let size = value.unsigned_abs();
        let digits = format!(in alloc; "{size}")?;
        let of = TypeId::of(INTEGER);
        if value >= 0 {
            return number(out, digits.as_bytes(), of, place, next);
        }
        let operand = number(out, digits.as_bytes(), of, place, 0)?;
        let node = node_of(Form::Negation, self.negation, Some(of));
        out.add(node, &[], place, operand, next)
    }

    /// A value of a discrete type. Those of an enumeration type stand by their positions.
    pub(crate) fn value(
        &self,
        alloc: Global,
        out: &mut Store<Noted>,
        of: u32,
        value: i32,
        place: Place,
        next: u32,
    ) -> Result<u32, AllocError>
        requires { next ≤ length out.old }
        ensures within { IfOk result (λ made. made ≤ length out.new) }
        ensures extends { Extends out.old out.new }
    {
        if of == INTEGER {
            return self.integer(alloc, out, value, place, next);
        }
        self.literal(out, of, value.unsigned_abs(), place, next)
    }
}
