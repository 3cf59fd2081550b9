//! Elements of lists in brackets: with choices in front of `=>`, for `others`, and the actual `open`. (IEEE 1076, aggregates; association lists.)

ghost use Rattle.std.specs.List.{All};
ghost use Rattle.std.specs.Prelude.{◌≡◌, IfOk, List, ℕ};
ghost use Rattle.vd_environments.specs.Environments.{Env};
ghost use Rattle.vd_forest.specs.Forest.{Forest};
ghost use Rattle.vd_value_rules.specs.declared.forms.IndicatedForm.{IndicatedForm};
ghost use Rattle.vd_meaning.specs.Facets.{Meaning, no_meaning, nth};
ghost use Rattle.vd_meaning.specs.Kinds.{Associated, AssociatedOthers, OpenActual};
ghost use Rattle.vd_resolved.specs.declared.node.Resolved.{Resolved as ResolvedNode};
ghost use Rattle.vd_static_values.specs.Nodes.{AreNodes};
ghost use Rattle.vd_static_values.specs.declared.entries.Ground.{Ground};
ghost use Rattle.vd_static_values.specs.declared.nodes.Node.{Node as ListedNode};
ghost use Rattle.vd_static_nodes.specs.Elements.{IsExpression, choices_in};
ghost use Rattle.vd_static_parts.specs.Made.{IsMade, IsSound};

use std::alloc::{AllocError, Global};
use vd_declarations::DeclId;
use vd_resolved::Resolved;
use vd_static_parts::copies::{first_again, node_again};
use vd_static_parts::nodes::{absent, plain};
use vd_static_parts::parts::known_of;
use vd_static_values::{Association, Node, Ranging, Sense};

/// An expression that isn't there: it stops, however static all else is.
fn no_expression<'a>(alloc: Global) -> Node<'a>
    ensures sound { (subtypes : List (Forest IndicatedForm)) → IsSound subtypes result }
    ensures expression { (subtypes : List (Forest IndicatedForm)) (e : Env) (ms : List Meaning) → nth 1 ms ≡ no_meaning → IsExpression subtypes e ms result }
{
    let Node { sense, piece } = absent(alloc);
    let sense = Sense {
        value: None,
        range: Ranging::NoRange,
        ..sense
    };
    Node { sense, piece }
}

/// The expression of an element, which is part 1, once more.
fn expression_again<'a>(alloc: Global, parts: &[Node<'a>]) -> Result<Node<'a>, AllocError>
    ensures sound { (subtypes : List (Forest IndicatedForm)) → All (IsSound subtypes) parts.now → IfOk result (IsSound subtypes) }
    ensures expression { (subtypes : List (Forest IndicatedForm)) (e : Env) (ms : List Meaning) → AreNodes subtypes e parts.now ms
        → IfOk result (IsExpression subtypes e ms) }
{
    match parts.get(1) {
        Some(part) => node_again(alloc, part),
        None => Ok(no_expression(alloc)),
    }
}

/// What each choice names that the first part has.
fn first_choices(alloc: Global, parts: &[Node<'_>]) -> Result<Vec<Option<DeclId>>, AllocError>
    ensures { IfOk result (λ v. v.items ≡ choices_in parts.now) }
{
    match parts.first() {
        Some(part) => Vec::from_slice(alloc, &part.sense.choices),
        None => Ok(Vec::new(alloc)),
    }
}

/// An element with choices, which are part 0: its expression, part 1, for these.
pub fn association<'a>(alloc: Global, parts: &[Node<'a>]) -> Result<Node<'a>, AllocError>
    ensures sound { (subtypes : List (Forest IndicatedForm)) → All (IsSound subtypes) parts.now → IfOk result (IsSound subtypes) }
    ensures node { (g : Ground) (node : ResolvedNode) (text : List ℕ) → IfOk result (IsMade Associated g node text parts.now) }
{
    let Node { sense, piece } = expression_again(alloc, parts)?;
    let choices = first_choices(alloc, parts)?;
    let sense = Sense {
        known: known_of(parts),
        association: Association::ByChoices,
        choices,
        ..sense
    };
    Ok(Node { sense, piece })
}

/// An element for `others`.
pub fn others_association<'a>(alloc: Global, parts: &[Node<'a>]) -> Result<Node<'a>, AllocError>
    ensures sound { (subtypes : List (Forest IndicatedForm)) → All (IsSound subtypes) parts.now → IfOk result (IsSound subtypes) }
    ensures node { (g : Ground) (node : ResolvedNode) (text : List ℕ) → IfOk result (IsMade AssociatedOthers g node text parts.now) }
{
    let Node { sense, piece } = first_again(alloc, parts)?;
    let sense = Sense {
        association: Association::ForOthers,
        ..sense
    };
    Ok(Node { sense, piece })
}

/// The actual `open`.
pub fn open_actual<'a>(
    alloc: Global,
    node: Resolved,
    text: &'a [u8],
) -> Result<Node<'a>, AllocError>
    ensures sound { (subtypes : List (Forest IndicatedForm)) → IfOk result (IsSound subtypes) }
    ensures node { (g : Ground) (parts : List ListedNode) → IfOk result (IsMade OpenActual g node text.now parts) }
{
    let Node { sense, piece } = plain(alloc, node, text);
    let sense = Sense {
        is_open: true,
        ..sense
    };
    Ok(Node { sense, piece })
}
