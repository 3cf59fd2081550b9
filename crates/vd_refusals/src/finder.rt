//! The first refusal of an expression.

ghost use Rattle.std.specs.Prelude.{◌≡◌, IfOk};
ghost use Rattle.vd_walks.specs.Finding.{Finder};
ghost use Rattle.vd_visible.specs.Kinds.{kind_of as kind_at};
ghost use Rattle.vd_visible.specs.Sights.{sight_from};
ghost use Rattle.vd_refusals.specs.Refusals.{argument_need as need_of_argument, inside_brackets as within_brackets, inside_name as within_name, inside as spot_inside, behind as spot_behind, finder, need_of as need_of_want, first_refusal as refused_first};

use crate::naming::{need_at, refused_node};
use crate::pieces::{head_seen, piece_seen};
use crate::seen::Seen;
use crate::spots::{Need, Spot};
use std::alloc::{AllocError, Global};
use vd_bytes::Refused;
use vd_forest::{Cursor, Opened};
use vd_forms::Form;
use vd_states::Want;
use vd_visible::Surroundings;
use vd_visible::kinds::{Kind, kind_of};
use vd_walks::{Finding, find_first};

/// What is needed of an index or an argument.
fn argument_need(seen: &Seen) -> Need
    ensures { result ≡ need_of_argument seen.now }
{
    match seen {
        Seen::Mark(_) | Seen::Awaiting => Need::Value,
        _ => Need::Choice,
    }
}

/// What stands in brackets behind a name.
fn inside_brackets(spot: &Spot) -> Spot
    ensures { result ≡ within_brackets spot.now }
{
    match spot {
        Spot::Pieces(seen) => Spot::Listed(argument_need(seen)),
        _ => Spot::Skipped,
    }
}

/// What stands in a name, where it is one.
fn inside_name(need: Option<Need>) -> Spot
    ensures { result ≡ within_name need }
{
    match need {
        None => Spot::Skipped,
        Some(_) => Spot::Head,
    }
}

/// What the parts of a node are.
fn inside(spot: &Spot, form: Form, parts: &Cursor<'_, Form>) -> Spot
    ensures { result ≡ spot_inside (kind_at form) spot.now form parts.now }
{
    match kind_of(form) {
        Kind::Name | Kind::OperatorName => inside_name(need_at(spot, form, parts)),
        Kind::PhysicalLiteral => Spot::PhysicalValue,
        Kind::Aggregate | Kind::Qualification => Spot::Listed(Need::Value),
        Kind::Operator | Kind::Bounds => Spot::Each(Need::Value),
        Kind::DiscreteSubtype => Spot::ConstrainedMark,
        Kind::Association => Spot::Association,
        Kind::OthersAssociation => Spot::Only(Need::Value),
        Kind::AssociationChoices => Spot::Choices,
        Kind::Arguments => inside_brackets(spot),
        _ => Spot::Skipped,
    }
}

/// What stands behind a node.
fn behind(
    at: &Surroundings<'_>,
    alloc: Global,
    spot: &Spot,
    node: &Opened<'_, Form>,
) -> Result<Spot, AllocError>
    ensures { IfOk result (λ found. found ≡ spot_behind spot.now (sight_from at.now) node.now.form node.now.text.now node.now.parts) }
{
    match spot {
        Spot::Skipped | Spot::Only(_) | Spot::Unit => Ok(Spot::Skipped),
        Spot::Each(need) => Ok(Spot::Each(*need)),
        Spot::ConstrainedMark => Ok(Spot::Only(Need::Range)),
        Spot::Listed(need) => Ok(Spot::Listed(*need)),
        Spot::Association => Ok(Spot::Only(Need::Value)),
        Spot::Choices => Ok(Spot::Choices),
        Spot::PhysicalValue => Ok(Spot::Unit),
        Spot::Head => {
            let seen = head_seen(at, alloc, kind_of(node.form), node.text)?;
            Ok(Spot::Pieces(seen))
        }
        Spot::Pieces(prefix) => {
            let seen = piece_seen(at, alloc, kind_of(node.form), prefix, &node.parts)?;
            Ok(Spot::Pieces(seen))
        }
    }
}

/// What a want needs, whatever the type.
fn need_of(want: &Want) -> Need
    ensures { result ≡ need_of_want want.now }
{
    match want {
        Want::Value(_) => Need::Value,
        Want::Range(_) => Need::Range,
        Want::DiscreteRange(_) => Need::DiscreteRange,
        Want::Choice(_) => Need::Choice,
        Want::Mark(_) => Need::Mark,
    }
}

/// Names at a place of a design.
#[derive(Clone, Copy)]
struct Names<'a, 'b> {
    at: &'a Surroundings<'b>,
}

impl<'a, 'b> Finding<Form, Spot, Refused> for Names<'a, 'b> {
    ghost finder = { λ names. finder (sight_from names.at.now) };

    fn answer(
        &self,
        alloc: Global,
        spot: &Spot,
        node: &Opened<'_, Form>,
    ) -> Result<Option<Refused>, AllocError> {
        refused_node(self.at, alloc, spot, node)
    }

    fn down(
        &self,
        alloc: Global,
        spot: &Spot,
        node: &Opened<'_, Form>,
    ) -> Result<Spot, AllocError> {
        Ok(inside(spot, node.form, &node.parts))
    }

    fn along(
        &self,
        alloc: Global,
        spot: &Spot,
        node: &Opened<'_, Form>,
    ) -> Result<Spot, AllocError> {
        behind(self.at, alloc, spot, node)
    }
}

/// The first name of an expression that is refused where it is wanted so. The type that is wanted doesn't count.
pub fn first_refusal(
    at: &Surroundings<'_>,
    alloc: Global,
    want: &Want,
    tree: &Cursor<'_, Form>,
) -> Result<Option<Refused>, AllocError>
    ensures { IfOk result (λ refused. refused ≡ refused_first (sight_from at.now) want.now tree.now) }
{
    let names = Names { at };
    let refused = find_first(alloc, tree, Spot::Only(need_of(want)), &names)?;
    Ok(refused)
}
