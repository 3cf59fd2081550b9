//! The first assignment of a design that does nothing.

ghost use Rattle.std.specs.Prelude.{◌≡◌, IfOk};
ghost use Rattle.vd_value_rules.specs.Groups.{assignments, firsts_by};

use crate::looking::{Looked, Looking, first_among};
use std::alloc::{AllocError, Global};
use vd_resolved::Tree;
use vd_rewriting::fold;
use vd_trees::Revision;
use vd_value_rules::Firsts;

/// The first refusal of a signal assignment that does nothing, whatever its conditions are. Each tree of the design is looked at once.
pub fn assignment_refusals(
    alloc: Global,
    tree: &Tree,
    revision: Revision,
) -> Result<Firsts, AllocError>
    ensures { IfOk result (λ found. found ≡ firsts_by assignments revision tree.now) }
{
    let units = tree.cursor();
    let mut looking = Looking;
    let looks: Vec<Looked> = fold(alloc, &units, &mut looking)?;
    let of_rules = first_among(looks.as_slice());
    Ok(Firsts {
        of_names: None,
        of_rules,
    })
}
