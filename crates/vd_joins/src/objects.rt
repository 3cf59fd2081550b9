//! Objects that rows join.

ghost use Rattle.std.specs.Prelude.{◌≡◌, option_map};
ghost use Rattle.std.specs.List.{list_any};
ghost use Rattle.vd_joins.specs.Joins.{gives_objects as gives_both, is_object as is_object_kind, last_level as last_of, stands_at as does_stand_at};

use crate::names::names_architecture;
use crate::steps::{left_by, same_steps};
use vd_trees::{Level, Path, Row, RowKind};

fn is_object(kind: RowKind) -> bool
    ensures { result ≡ is_object_kind kind }
{
    matches!(kind, RowKind::Port | RowKind::Signal | RowKind::Implicit)
}

/// Whether a row stands in the unit of an object: a port's in its entity, that of another signal in its architecture.
fn stands_at(row: &Row, level: Option<&Level>) -> bool
    ensures { result ≡ does_stand_at row.now (option_map (λ l. l.now) level.entry) }
{
    match (level, row.kind) {
        (None, _) => false,
        (Some(level), RowKind::Port) => row.unit.as_slice() == level.entity.as_slice(),
        (Some(level), _) => names_architecture(row.unit.as_slice(), level),
    }
}

/// The level at which something is declared.
#[tactic(auto, using(crate::proofs::JoinLemmas::last_is_last))]
fn last_level(levels: &[Level]) -> Option<&Level>
    ensures { option_map (λ l. l.now) result ≡ last_of levels.now }
{
    let (last, _) = levels.split_last()?;
    Some(last)
}

/// Whether a row gives the objects of two paths, and what it leaves of them is equal.
#[tactic(auto, using(crate::proofs::JoinLemmas::both_given))]
fn gives_objects(path19: &Path, path93: &Path, row: &Row) -> bool
    ensures { result ≡ gives_both path19.now path93.now row.now }
{
    if !is_object(row.kind) || !stands_at(row, last_level(path19.levels.as_slice())) {
        return false;
    }
    match (
        left_by(row.name19.as_slice(), path19),
        left_by(row.name93.as_slice(), path93),
    ) {
        (Some(left), Some(other)) => same_steps(left, other),
        _ => false,
    }
}

/// Whether one of some rows does.
pub(crate) fn some_gives(rows: &[Row], path19: &Path, path93: &Path) -> bool
    ensures { result ≡ list_any (gives_both path19.now path93.now) rows.now }
{
    for row in rows {
        if gives_objects(path19, path93, row) {
            return true;
        }
    }
    false
}
