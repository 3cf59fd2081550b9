//! Time literals.
#![tactic(auto, using(vd_forest::proofs::StoreLemmas::growing))]

ghost use Rattle.std.specs.Prelude.{◌≡◌, ◌≤◌, IfOk, length};
ghost use Rattle.vd_forest.specs.Store.{Extends};

use crate::nodes::number_in_brackets;
use crate::writer::Writer;
use std::alloc::AllocError;
use vd_bytes::Place;
use vd_forest::{Opened, Store};
use vd_forms::Form;
use vd_predefined::numbers::TIME;
use vd_resolved::Resolved;

/// By which numbers the femtoseconds of a unit are multiplied, one after the other. The units stand behind TIME, from fs to hr.
fn factors(unit: u32) -> &'static [&'static [u8]] {
    match unit.saturating_sub(TIME) {
        2 => &[b"1000"],
        3 => &[b"1000000"],
        4 => &[b"1000000000"],
        5 => &[b"1000000", b"1000000"],
        6 => &[b"1000000000", b"1000000"],
        7 => &[b"1000000000", b"60000000"],
        8 => &[b"1000000000", b"1000000", b"3600"],
        _ => &[],
    }
}

/// A tree times these numbers.
fn multiplied(
    out: &mut Store<Form>,
    value: u32,
    by: &[&[u8]],
    place: Place,
) -> Result<u32, AllocError>
    requires { value ≤ length out.old }
    ensures within { IfOk result (λ made. made ≤ length out.new) }
    ensures extends { Extends out.old out.new }
{
    let mut made = value;
    for factor in by {
        let number = out.add(Form::Number, *factor, place, 0, 0)?;
        let operands = out.relink(made, number)?;
        made = out.add(Form::Multiply, &[], place, operands, 0)?;
    }
    Ok(made)
}

impl<'a> Writer<'a> {
    /// So many femtoseconds.
    fn femtoseconds(
        &mut self,
        out: &mut Store<Form>,
        digits: &[u8],
        place: Place,
    ) -> Result<u32, AllocError>
        ensures within { IfOk result (λ made. made ≤ length out.new) }
        ensures extends { Extends out.old out.new }
    {
        let brackets = number_in_brackets(out, digits, place)?;
        let pieces = self.attribute_pieces(out, TIME, b"val", place, brackets)?;
        out.add(Form::Name, &[], place, pieces, 0)
    }

    /// A time literal: as it stands where its unit is visible, and else a number of femtoseconds times those of the unit.
    pub(crate) fn write_time(
        &mut self,
        out: &mut Store<Form>,
        node: &Opened<'a, Resolved>,
    ) -> Result<u32, AllocError>
        ensures within { IfOk result (λ made. made ≤ length out.new) }
        ensures extends { Extends out.old out.new }
    {
        let unit = node.parts.next();
        match unit.form() {
            Some(
                Resolved {
                    declaration: Some(id),
                    ..
                },
            ) if !self.is_visible(id.number(), unit.text())? => {
                let value = self.femtoseconds(out, node.parts.text(), node.place)?;
                multiplied(out, value, factors(id.number()), node.place)
            }
            _ => self.copied(out, node),
        }
    }
}
