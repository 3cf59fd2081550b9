//! Tables of the units of a design.

ghost use Rattle.std.specs.Prelude.{◌≡◌, suc, IfOk};
ghost use Rattle.vd_naming.specs.Ports.{last_architecture};
ghost use Rattle.vd_naming.specs.Units.{has_body_in};

use crate::architectures::Architectures;
use crate::bodies::Bodies;
use crate::round::main_of;
use std::alloc::{AllocError, Global};
use std::marker::Model;
use vd_forest::Cursor;
use vd_forms::Form;
use vd_region_tables::Name;

/// The units of a design, with tables in which package bodies and architectures are found by names. Contracts see the units.
#[derive(Drop)]
pub struct Units<'a> {
    alloc: Global,
    units: Cursor<'a, Form>,
    bodies: Bodies,
    architectures: Architectures,
}

impl<'a> Model for Units<'a> {
    ghost use Rattle.vd_forest.specs.Forest.{Forest};
    ghost use Rattle.vd_forest.specs.Code.{coded_forest};
    ghost use Rattle.vd_forms.specs.declared.form.Form.{Form};
    ghost use Rattle.vd_forms.specs.contracts.form.Form as forms;
    ghost use Rattle.vd_name_entering.specs.Tables.{AreTablesOf};

    ghost Value = { Forest Form };

    ghost coded = { coded_forest forms.the_row.coded };

    ghost view = { λ a. a.units };

    ghost invariant = { λ a. AreTablesOf a.units a.bodies a.architectures };
}

impl<'a> Units<'a> {
    /// The tables of these units. Where a number of a unit would pass 32 bits, it ends as where memory does.
    pub fn of(alloc: Global, units: &Cursor<'a, Form>) -> Result<Units<'a>, AllocError>
        ensures { IfOk result (λ made. made ≡ units.now) }
    {
        let mut bodies = Bodies::new(alloc);
        let mut architectures = Architectures::new(alloc);
        let mut number = 0;
        let mut left = units.fork();
        while let Some(first) = left.open() {
            let unit = main_of(&first.parts);
            bodies.add(alloc, &unit)?;
            architectures.add(alloc, number, &unit)?;
            number = number_behind(number)?;
            left = first.next;
        }
        Ok(Units {
            alloc,
            units: units.fork(),
            bodies,
            architectures,
        })
    }

    /// Whether a body of the package of this name stands somewhere among the units.
    pub fn has_body(&self, name: &[u8]) -> Result<bool, AllocError>
        ensures { IfOk result (λ has. has ≡ has_body_in name.now self.now) }
    {
        let bytes = Vec::from_slice(self.alloc, name)?;
        Ok(self.bodies.has(&Name { bytes }))
    }

    /// The number of the last unit that is an architecture of the entity of this name.
    pub fn last_architecture(&self, entity: &[u8]) -> Result<Option<u32>, AllocError>
        ensures { IfOk result (λ last. last ≡ last_architecture entity.now 0 self.now) }
    {
        let bytes = Vec::from_slice(self.alloc, entity)?;
        Ok(self.architectures.last(&Name { bytes }))
    }
}

/// The next number, where there is one.
fn number_behind(number: u32) -> Result<u32, AllocError>
    ensures { IfOk result (λ next. next ≡ suc number) }
{
    match number.checked_add(1) {
        Some(next) => Ok(next),
        None => Err(AllocError),
    }
}
