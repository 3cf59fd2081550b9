//! Choices. (IEEE 1076, aggregates; case statements; association lists.)

ghost use Rattle.std.specs.Prelude.{◌≡◌, IfOk, List};
ghost use Rattle.vd_forest.specs.Forest.{Forest};
ghost use Rattle.vd_value_rules.specs.Indicated.{static_of};
ghost use Rattle.vd_value_rules.specs.declared.forms.IndicatedForm.{IndicatedForm};
ghost use Rattle.vd_meaning.specs.Kinds.{AnyChoice, ChoiceList};
ghost use Rattle.vd_static_values.specs.declared.entries.Ground.{Ground};
ghost use Rattle.vd_static_values.specs.declared.nodes.Node.{Node as ListedNode};
ghost use Rattle.vd_static_nodes.specs.Choices.{known_among, known_with, named_among};
ghost use Rattle.vd_static_parts.specs.Made.{IsMade, IsSound};

use std::alloc::{AllocError, Global};
use vd_declarations::DeclId;
use vd_resolved::Resolved;
use vd_static_parts::nodes::{expression, plain};
use vd_static_values::{Node, Sense};
use vd_value_rules::StaticSort;

/// How static a choice is. One without a type is no expression and no range, and makes nothing less static.
fn choice_known(choice: &Node<'_>) -> StaticSort
    ensures { static_of result ≡ known_with choice.now.sense.mark (static_of choice.now.sense.known) }
{
    match choice.sense.mark {
        Some(_) => choice.sense.known,
        None => StaticSort::always(),
    }
}

/// How static some choices are.
fn choices_known(choices: &[Node<'_>]) -> StaticSort
    ensures { static_of result ≡ known_among choices.now }
{
    let mut known = StaticSort::always();
    for choice in choices {
        known = known.both(choice_known(choice));
    }
    known
}

/// What each of some choices names.
fn choices_named(alloc: Global, choices: &[Node<'_>]) -> Result<Vec<Option<DeclId>>, AllocError>
    ensures { IfOk result (λ v. v.items ≡ named_among choices.now) }
{
    let mut named: Vec<Option<DeclId>> = Vec::new(alloc);
    for choice in choices {
        named.push(choice.sense.declaration)?;
    }
    Ok(named)
}

/// Several choices.
pub fn choice_list<'a>(
    alloc: Global,
    node: Resolved,
    text: &'a [u8],
    parts: &[Node<'a>],
) -> Result<Node<'a>, AllocError>
    ensures sound { (subtypes : List (Forest IndicatedForm)) → IfOk result (IsSound subtypes) }
    ensures node { (g : Ground) → IfOk result (IsMade ChoiceList g node text.now parts.now) }
{
    let choices = choices_named(alloc, parts)?;
    let known = choices_known(parts);
    let Node { sense, piece } = expression(alloc, node, text, None, known);
    let sense = Sense { choices, ..sense };
    Ok(Node { sense, piece })
}

/// The choice `others`.
pub fn any_choice<'a>(alloc: Global, node: Resolved, text: &'a [u8]) -> Result<Node<'a>, AllocError>
    ensures sound { (subtypes : List (Forest IndicatedForm)) → IfOk result (IsSound subtypes) }
    ensures node { (g : Ground) (parts : List ListedNode) → IfOk result (IsMade AnyChoice g node text.now parts) }
{
    Ok(plain(alloc, node, text))
}
