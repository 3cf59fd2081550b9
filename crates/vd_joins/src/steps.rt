//! Indexes and steps that are equal on both sides, and the steps that a name leaves.

ghost use Rattle.std.specs.Prelude.{◌≡◌, Some, option_map};
ghost use Rattle.vd_joins.specs.Behind.{left_behind};
ghost use Rattle.vd_joins.specs.Joins.{left_by, object_names, same_index as are_same_index, same_label_index as are_same_label_index, same_indexes as are_same_indexes, same_step as are_same_step, same_steps as are_same_steps};

use crate::names::{behind, behind_dot, behind_labels};
use vd_trees::{Label, Path, PathIndex, PathStep};

/// Whether two indexes are equal.
fn same_index(one: &PathIndex, other: &PathIndex) -> bool
    ensures { result ≡ are_same_index one.now other.now }
{
    one.position == other.position && one.text.as_slice() == other.text.as_slice()
}

/// Whether two labels have equal indexes, or none.
fn same_label_index(one: &Option<PathIndex>, other: &Option<PathIndex>) -> bool
    ensures { result ≡ are_same_label_index one.now other.now }
{
    match (one, other) {
        (None, None) => true,
        (Some(one), Some(other)) => same_index(one, other),
        _ => false,
    }
}

/// Whether the indexes of labels are equal, one by one.
pub(crate) fn same_indexes(labels: &[Label], others: &[Label]) -> bool
    ensures { result ≡ are_same_indexes labels.now others.now }
{
    let mut left = labels;
    let mut right = others;
    loop {
        match (left.split_first(), right.split_first()) {
            (None, None) => return true,
            (Some((one, behind)), Some((other, beyond))) => {
                if !same_label_index(&one.index, &other.index) {
                    return false;
                }
                left = behind;
                right = beyond;
            }
            _ => return false,
        }
    }
}

/// Whether two steps are equal.
fn same_step(one: &PathStep, other: &PathStep) -> bool
    ensures { result ≡ are_same_step one.now other.now }
{
    match (one, other) {
        (PathStep::Field(one), PathStep::Field(other)) => one.as_slice() == other.as_slice(),
        (PathStep::Index(one), PathStep::Index(other)) => same_index(one, other),
        _ => false,
    }
}

/// Whether steps are equal, one by one.
pub(crate) fn same_steps(steps: &[PathStep], others: &[PathStep]) -> bool
    ensures { result ≡ are_same_steps steps.now others.now }
{
    let mut left = steps;
    let mut right = others;
    loop {
        match (left.split_first(), right.split_first()) {
            (None, None) => return true,
            (Some((one, behind)), Some((other, beyond))) => {
                if !same_step(one, other) {
                    return false;
                }
                left = behind;
                right = beyond;
            }
            _ => return false,
        }
    }
}

/// What a text leaves of some steps that it goes on with, the first of which are fields.
#[tactic(auto, using(crate::proofs::LeftLemmas::left_steps))]
fn left_behind<'p>(text: &[u8], steps: &'p [PathStep]) -> Option<&'p [PathStep]>
    ensures { option_map (λ s. s.now) result ≡ left_behind (Some text.now) steps.now }
{
    let mut rest = text;
    let mut left = steps;
    loop {
        let Some(_) = rest.split_first() else {
            return Some(left);
        };
        let (first, others) = left.split_first()?;
        match first {
            PathStep::Field(name) => rest = behind_dot(rest, name.as_slice())?,
            PathStep::Index(_) => return None,
        }
        left = others;
    }
}

/// What a name leaves of the steps of a path: it is made of the labels round the object, the object, and as many fields as it takes.
#[tactic(auto, using(crate::proofs::LeftLemmas::left_by_labels))]
pub(crate) fn left_by<'p>(name: &[u8], path: &'p Path) -> Option<&'p [PathStep]>
    ensures { option_map (λ s. s.now) result ≡ left_by name.now (object_names path.now) path.now.rest }
{
    let rest = behind_labels(name, path.generates.as_slice())?;
    let rest = behind(rest, path.object.as_slice())?;
    left_behind(rest, path.rest.as_slice())
}
