//! Paths that the rows of a map join.

ghost use Rattle.std.specs.Prelude.{◌≡◌};
ghost use Rattle.vd_joins.specs.Joins.{joins, map_of};

use crate::levels::levels_join;
use crate::objects::some_gives;
use crate::steps::same_indexes;
use vd_first_names::NameMap;
use vd_trees::Path;

/// Whether a map joins a path of the source and one of the text that is written. It takes no memory.
#[tactic(auto, using(crate::proofs::JoinLemmas::paths_of_map))]
pub fn join(map: &NameMap, path19: &Path, path93: &Path) -> bool
    ensures { result ≡ joins (map_of map.now.rows) path19.now path93.now }
{
    let rows = map.rows.as_slice();
    levels_join(rows, path19.levels.as_slice(), path93.levels.as_slice())
        && same_indexes(path19.generates.as_slice(), path93.generates.as_slice())
        && some_gives(rows, path19, path93)
}
