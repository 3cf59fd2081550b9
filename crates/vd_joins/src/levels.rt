//! Levels that rows join, one by one.

ghost use Rattle.std.specs.Prelude.{◌≡◌, [], option_map};
ghost use Rattle.vd_joins.specs.Joins.{level_joins as does_level_join, levels_join as do_levels_join, map_of};
ghost use Rattle.vd_joins.specs.Levels.{unit_above};

use crate::labels::labels_join;
use vd_trees::{Level, Row};

/// Whether the same entity and architecture is reached by labels that join.
fn level_joins(rows: &[Row], above: Option<&Level>, one: &Level, other: &Level) -> bool
    ensures { result ≡ does_level_join (map_of rows.now) (unit_above (option_map (λ l. l.now) above.entry)) one.now other.now }
{
    one.entity.as_slice() == other.entity.as_slice()
        && one.architecture.as_slice() == other.architecture.as_slice()
        && labels_join(rows, above, one.labels.as_slice(), other.labels.as_slice())
}

/// Whether levels join, one by one, the first of them at the top.
pub(crate) fn levels_join(rows: &[Row], levels: &[Level], others: &[Level]) -> bool
    ensures { result ≡ do_levels_join (map_of rows.now) [] levels.now others.now }
{
    let mut above = None;
    let mut left = levels;
    let mut right = others;
    loop {
        match (left.split_first(), right.split_first()) {
            (None, None) => return true,
            (Some((one, behind)), Some((other, beyond))) => {
                if !level_joins(rows, above, one, other) {
                    return false;
                }
                above = Some(one);
                left = behind;
                right = beyond;
            }
            _ => return false,
        }
    }
}
