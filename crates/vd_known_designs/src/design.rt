//! A design with what is known of its declarations.

ghost use Rattle.std.specs.Prelude.{◌≡◌, ◌∷◌, [], IfOk};
ghost use Rattle.vd_known_designs.specs.Designs.{Knows};
ghost use Rattle.vd_meaning.specs.Tables.{table as table_of_design};
ghost use Rattle.vd_value_rules.specs.Designs.{Design};
ghost use Rattle.vd_value_rules.specs.Knowledge.{nothing_known};

use crate::KnownTable;
use crate::marks::given_table;
use std::alloc::{AllocError, Global};
use vd_declarations::Declaration;
use vd_static_names::FieldTable;
use vd_trees::Revision;

/// A design with what is known of its declarations at a place, and at the places that the table is to go back to.
#[derive(Drop)]
pub struct KnownDesign<'a, 'd> {
    pub revision: Revision,
    pub declarations: &'d [Declaration],
    pub table: KnownTable<'a>,
    /// What was found of the fields of record subtypes.
    pub fields: FieldTable,
}

impl<'a, 'd> KnownDesign<'a, 'd> {
    /// What is known where a design begins.
    pub fn new(
        alloc: Global,
        revision: Revision,
        declarations: &'d [Declaration],
    ) -> Result<Self, AllocError>
        ensures { (d : Design) → d.table ≡ table_of_design revision declarations.now → IfOk result (λ x. Knows d x (nothing_known ∷ [])) }
    {
        let table = given_table(alloc)?;
        Ok(KnownDesign {
            revision,
            declarations,
            table,
            fields: FieldTable::new(alloc),
        })
    }
}
