//! What stands in a region.

ghost use Rattle.std.specs.Prelude.{◌≡◌};

use crate::clauses::UseClauses;
use vd_declarations::Declaration;
use vd_region_tables::{Key, Sort, Table};

/// A declaration and the region that it stands in.
#[derive(Drop)]
pub struct Entered {
    pub region: u32,
    pub declaration: Declaration,
}

/// A declaration and the one before it in the table of its region and name.
#[derive(Drop)]
pub(crate) struct Link {
    pub(crate) entered: Entered,
    pub(crate) before: u32,
}

impl Link {
    pub(crate) fn new(entered: Entered, before: u32) -> Link
        ensures { result ≡ record { entered = entered; before = before } }
    {
        Link { entered, before }
    }
}

/// What is noted of a declaration before it is entered: its number, whether each one stands behind its parameters then, its sort, where
/// it is overloadable, and its table, as it is and with it.
#[derive(Drop)]
pub(crate) struct Note {
    pub(crate) id: u32,
    pub(crate) settled: bool,
    pub(crate) sort: Option<Sort>,
    pub(crate) key: Key,
    pub(crate) table: Table,
    pub(crate) grown: Table,
}

/// A region: the one round it, the one that it continues, whether its end is reached, and its use clauses; and where its run begins. In a
/// run each region but the first stands in the one before it and continues none, as where units nest behind references to contexts.
#[derive(Drop)]
pub(crate) struct Space {
    pub(crate) outer: u32,
    pub(crate) continues: Option<u32>,
    pub(crate) closed: bool,
    pub(crate) uses: UseClauses,
    pub(crate) run: u32,
}
