//! Ways of nodes that are wanted as ranges and choices, and all ways of one node as it is wanted.

ghost use Rattle.std.specs.Prelude.{◌≡◌, IfOk};
ghost use Rattle.vd_visible.specs.Kinds.{kind_of as kind_at};
ghost use Rattle.vd_visible.specs.Sights.{sight_from};
ghost use Rattle.vd_ways.specs.Ways.{range_ways, discrete_range_ways, choice_ways, wanted_ways};

use crate::making::{one, typed, where_true};
use crate::values::{bounds_way, mark_ways, value_ways};
use std::alloc::{AllocError, Global};
use vd_declarations::TypeId;
use vd_forest::Opened;
use vd_forms::Form;
use vd_states::{State, Want, Way};
use vd_visible::Surroundings;
use vd_visible::kinds::{Kind, kind_of};
use vd_visible::types::{is_discrete, is_scalar};

/// The ways of a node that is wanted as a range of a type.
fn range_ways(
    at: &Surroundings<'_>,
    alloc: Global,
    mark: TypeId,
    after: &State,
    kind: Kind,
) -> Result<Vec<Way>, AllocError>
    ensures { IfOk result (λ ways. ways.items ≡ range_ways kind (sight_from at.now) mark after.now) }
{
    match kind {
        Kind::Bounds => {
            let holds = is_scalar(at.class_of_type(mark));
            where_true(alloc, holds, &bounds_way(mark, after))
        }
        Kind::Name => {
            let goal = Want::Range(mark);
            one(alloc, &typed(mark, &State::Head { goal }, after))
        }
        _ => Ok(Vec::new(alloc)),
    }
}

/// The ways of a node that is wanted as a discrete range of a type.
fn discrete_range_ways(
    at: &Surroundings<'_>,
    alloc: Global,
    mark: TypeId,
    after: &State,
    kind: Kind,
) -> Result<Vec<Way>, AllocError>
    ensures { IfOk result (λ ways. ways.items ≡ discrete_range_ways kind (sight_from at.now) mark after.now) }
{
    match kind {
        Kind::Bounds => {
            let holds = is_discrete(at.class_of_type(mark));
            where_true(alloc, holds, &bounds_way(mark, after))
        }
        Kind::DiscreteSubtype => {
            let holds = is_discrete(at.class_of_type(mark));
            let way = typed(mark, &State::ConstrainedMark(mark), after);
            where_true(alloc, holds, &way)
        }
        Kind::Name => {
            let goal = Want::DiscreteRange(mark);
            one(alloc, &typed(mark, &State::Head { goal }, after))
        }
        _ => Ok(Vec::new(alloc)),
    }
}

/// The ways of a node that is wanted as a choice of a type.
fn choice_ways(
    at: &Surroundings<'_>,
    alloc: Global,
    mark: TypeId,
    after: &State,
    node: &Opened<'_, Form>,
) -> Result<Vec<Way>, AllocError>
    ensures { IfOk result (λ ways. ways.items ≡ choice_ways (kind_at node.now.form) (sight_from at.now) mark after.now node.now.form node.now.text.now node.now.parts) }
{
    match kind_of(node.form) {
        Kind::Name => {
            let goal = Want::Choice(mark);
            one(alloc, &typed(mark, &State::Head { goal }, after))
        }
        Kind::Bounds => discrete_range_ways(at, alloc, mark, after, Kind::Bounds),
        Kind::DiscreteSubtype => {
            discrete_range_ways(at, alloc, mark, after, Kind::DiscreteSubtype)
        }
        _ => value_ways(at, alloc, mark, after, node),
    }
}

/// The ways of a node as it is wanted.
pub fn wanted_ways(
    at: &Surroundings<'_>,
    alloc: Global,
    want: &Want,
    after: &State,
    node: &Opened<'_, Form>,
) -> Result<Vec<Way>, AllocError>
    ensures { IfOk result (λ ways. ways.items ≡ wanted_ways want.now (sight_from at.now) after.now node.now.form node.now.text.now node.now.parts) }
{
    let kind = kind_of(node.form);
    match want {
        Want::Value(mark) => value_ways(at, alloc, *mark, after, node),
        Want::Range(mark) => range_ways(at, alloc, *mark, after, kind),
        Want::DiscreteRange(mark) => discrete_range_ways(at, alloc, *mark, after, kind),
        Want::Choice(mark) => choice_ways(at, alloc, *mark, after, node),
        Want::Mark(mark) => mark_ways(alloc, *mark, after, node),
    }
}
