//! What a place is to the node above it, and what surrounds it.

ghost use Rattle.std.specs.Prelude.{◌≡◌, ◌||◌, drop};
ghost use Rattle.vd_known_indications.specs.Places.{IsAround};
ghost use Rattle.vd_contexts.specs.Standing.{standing_of, standings_in};
ghost use Rattle.vd_value_rules.specs.Designs.{Design};
ghost use Rattle.vd_value_rules.specs.Standings.{State, further_standings, standing as standing_in};
ghost use Rattle.vd_accepting.specs.Levels.{IsBehind, IsLevel};

use vd_bytes::Place;
use vd_contexts::Standing;
use vd_contexts::lists::is_bounded;
use vd_known_indications::Surroundings;

/// A place, beside what is known there.
#[derive(Drop)]
pub struct Level {
    /// What the trees from the first one of their node on are to it. The last one stands for all that follow.
    pub coming: Vec<Standing>,
    /// The number of the tree at the place, or of the last one that there is.
    pub at: usize,
    /// The label in front of a statement.
    pub label: Option<Place>,
    /// Whether it is inside a package or a function with generics, whose text is written out at its instances.
    pub is_copied: bool,
}

/// What the tree at the place is to the node above it.
pub(crate) fn standing(level: &Level) -> Standing
    ensures { (d : Design) (s : State) → IsLevel d level.now s → standing_of d result ≡ standing_in s }
{
    match level.coming.get(level.at) {
        Some(standing) => *standing,
        None => Standing::Evaluated { is_bounded: false },
    }
}

/// Whether a tree itself stands in text that is written out again elsewhere.
fn is_copied_itself(standing: &Standing) -> bool
    ensures { (d : Design) → result ≡ Rattle.vd_value_rules.specs.Standings.is_copied_itself (standing_of d standing.now) }
{
    matches!(standing, Standing::Copied { .. })
}

/// Whether one of two things holds.
pub(crate) fn either(one: bool, other: bool) -> bool
    ensures { result ≡ (one || other) }
{
    one || other
}

/// What surrounds the tree at the place.
pub(crate) fn surroundings(level: &Level) -> Surroundings
    ensures { (d : Design) (s : State) → IsLevel d level.now s → IsAround result s }
{
    let standing = standing(level);
    let is_copied = either(level.is_copied, is_copied_itself(&standing));
    Surroundings {
        is_bounded: is_bounded(standing),
        is_copied,
        label: level.label,
    }
}

/// The number of the tree behind one with a number. The last one stands for all that follow.
fn next_tree(coming: &[Standing], at: usize) -> usize
    ensures { (d : Design) → standings_in d (drop result coming.now) ≡ further_standings (standings_in d (drop at coming.now)) }
{
    let left = coming.len().saturating_sub(at);
    if left > 1 { at + 1 } else { at }
}

/// Goes behind the tree at a place.
pub(crate) fn go_on(level: &mut Level)
    ensures { (d : Design) (s : State) → IsLevel d level.old s → IsBehind d level.new s }
{
    level.at = next_tree(&level.coming, level.at);
}
