//! Nodes by what they are.

ghost use Rattle.std.specs.Prelude.{◌≡◌, IfOk, List, true};
ghost use Rattle.vd_composites.specs.Composites.{Value as AnyValue};
ghost use Rattle.vd_composites.specs.Subtypes.{Subtype};
ghost use Rattle.vd_environments.specs.Environments.{Env, Static};
ghost use Rattle.vd_environments.specs.Got.{Got};
ghost use Rattle.vd_forest.specs.Forest.{Forest};
ghost use Rattle.vd_value_rules.specs.Indicated.{static_of};
ghost use Rattle.vd_value_rules.specs.declared.forms.IndicatedForm.{IndicatedForm};
ghost use Rattle.vd_meaning.specs.Facets.{Meaning, expression as expression_meant, no_meaning, of_node};
ghost use Rattle.vd_meaning.specs.Meanings.{piece_of, whole_name};
ghost use Rattle.vd_meaning.specs.Names.{Named};
ghost use Rattle.vd_static_values.specs.Entries.{IsFound};
ghost use Rattle.vd_static_values.specs.Names.{IsName};
ghost use Rattle.vd_static_values.specs.Nodes.{IsNode, IsPiece};
ghost use Rattle.vd_static_names.specs.Known.{IsWithin};
ghost use Rattle.vd_static_parts.specs.Made.{IsSound, IsSoundPiece};
ghost use Rattle.vd_values.specs.declared.scalar.Scalar.{Scalar};

use std::alloc::{AllocError, Global};
use vd_composites::Value;
use vd_resolved::Resolved;
use vd_static_names::copies::value_again;
use vd_static_names::values::no_name;
use vd_static_values::{Association, KnownName, Node, Piece, Ranging, Sense};
use vd_value_rules::StaticSort;

/// A node of which nothing is known but what it says itself.
pub fn plain<'a>(alloc: Global, node: Resolved, text: &'a [u8]) -> Node<'a>
    ensures sound { (subtypes : List (Forest IndicatedForm)) → IsSound subtypes result }
    ensures node { (subtypes : List (Forest IndicatedForm)) (e : Env) (ms : List Meaning) → IsNode subtypes e result (of_node node text.now ms) }
{
    expression(alloc, node, text, None, StaticSort::never())
}

/// No node.
pub fn absent<'a>(alloc: Global) -> Node<'a>
    ensures sound { (subtypes : List (Forest IndicatedForm)) → IsSound subtypes result }
    ensures node { (subtypes : List (Forest IndicatedForm)) (e : Env) → IsNode subtypes e result no_meaning }
{
    Node {
        sense: Sense {
            text: &[],
            declaration: None,
            mark: None,
            position: 0,
            is_present: false,
            value: None,
            known: StaticSort::never(),
            range: Ranging::NoRange,
            name: no_name(),
            association: Association::Positional,
            choices: Vec::new(alloc),
            is_open: false,
        },
        piece: Piece::NoPiece,
    }
}

/// An expression that is so static, and its value where it is locally static and doesn't stop.
pub fn expression<'a>(
    alloc: Global,
    node: Resolved,
    text: &'a [u8],
    value: Option<Value>,
    known: StaticSort,
) -> Node<'a>
    ensures sound { (subtypes : List (Forest IndicatedForm)) → IsSound subtypes result }
    ensures node { (subtypes : List (Forest IndicatedForm)) (e : Env) (ms : List Meaning) (v : Got Subtype → Env → Got (AnyValue Scalar)) (kn : Env → Static) →
        static_of known ≡ kn e → ((kn e).is_local ≡ true → (given : Got Subtype) → IsFound value (v given e))
        → IsNode subtypes e result (expression_meant node text.now ms v kn) }
{
    Node {
        sense: Sense {
            text,
            declaration: node.declaration,
            mark: node.mark,
            position: node.position,
            is_present: true,
            value,
            known,
            range: Ranging::NoRange,
            name: no_name(),
            association: Association::Positional,
            choices: Vec::new(alloc),
            is_open: false,
        },
        piece: Piece::NoPiece,
    }
}

/// The same node, with a name.
pub fn with_name<'a>(node: Node<'a>, name: KnownName) -> Node<'a>
    ensures sound { (subtypes : List (Forest IndicatedForm)) → IsSound subtypes node.entry → IsWithin subtypes name → IsSound subtypes result }
    ensures node { (subtypes : List (Forest IndicatedForm)) (e : Env) (m : Meaning) (p : Named) → IsNode subtypes e node.entry m → IsName subtypes e name p
        → IsNode subtypes e result (record m { name = p }) }
{
    let Node { sense, piece } = node;
    Node {
        sense: Sense { name, ..sense },
        piece,
    }
}

/// A name with all its pieces.
pub fn named<'a>(
    alloc: Global,
    node: Resolved,
    text: &'a [u8],
    name: KnownName,
) -> Result<Node<'a>, AllocError>
    ensures sound { (subtypes : List (Forest IndicatedForm)) → IsWithin subtypes name → IfOk result (IsSound subtypes) }
    ensures node { (subtypes : List (Forest IndicatedForm)) (e : Env) (p : Named) → IsName subtypes e name p → IfOk result (λ x. IsNode subtypes e x (whole_name node text.now p)) }
{
    let value = value_again(alloc, &name.value)?;
    let range = name.range;
    let made = expression(alloc, node, text, value, name.known);
    let Node { sense, piece } = with_name(made, name);
    Ok(Node {
        sense: Sense { range, ..sense },
        piece,
    })
}

/// A further piece of a name.
pub fn piece<'a>(alloc: Global, node: Resolved, text: &'a [u8], piece: Piece<'a>) -> Node<'a>
    ensures sound { (subtypes : List (Forest IndicatedForm)) → IsSoundPiece subtypes piece.entry → IsSound subtypes result }
    ensures node { (subtypes : List (Forest IndicatedForm)) (e : Env) (ms : List Meaning) (f : Named → Named) → IsPiece subtypes e piece.entry f
        → IsNode subtypes e result (piece_of node text.now ms f) }
{
    let Node { sense, .. } = plain(alloc, node, text);
    Node { sense, piece }
}
