//! Nodes once more.

ghost use Rattle.std.specs.List.{All};
ghost use Rattle.std.specs.Prelude.{◌≡◌, IfOk, List};
ghost use Rattle.vd_environments.specs.Environments.{Env};
ghost use Rattle.vd_forest.specs.Forest.{Forest};
ghost use Rattle.vd_value_rules.specs.declared.forms.IndicatedForm.{IndicatedForm};
ghost use Rattle.vd_meaning.specs.Facets.{Meaning, nth};
ghost use Rattle.vd_static_values.specs.Nodes.{AreNodes, IsNode};
ghost use Rattle.vd_static_values.specs.Senses.{IsSense};
ghost use Rattle.vd_static_parts.specs.Made.{IsSound};

use crate::nodes::absent;
use std::alloc::{AllocError, Global};
use vd_declarations::DeclId;
use vd_static_names::copies::{again, value_again};
use vd_static_values::{Arguments, Bracketed, Node, Piece, Sense};

/// The same list once more.
fn choices_again(
    alloc: Global,
    choices: &[Option<DeclId>],
) -> Result<Vec<Option<DeclId>>, AllocError>
    ensures { IfOk result (λ v. v.items ≡ choices.now) }
{
    let mut made: Vec<Option<DeclId>> = Vec::new(alloc);
    for choice in choices {
        made.push(*choice)?;
    }
    Ok(made)
}

/// The same sense once more.
pub fn sense_again<'a>(alloc: Global, sense: &Sense<'a>) -> Result<Sense<'a>, AllocError>
    ensures sense { (subtypes : List (Forest IndicatedForm)) (e : Env) (m : Meaning) → IsSense subtypes e sense.now m → IfOk result (λ x. IsSense subtypes e x m) }
    ensures name { IfOk result (λ x. x.name ≡ sense.now.name) }
    ensures known { IfOk result (λ x. x.known ≡ sense.now.known) }
{
    let value = value_again(alloc, &sense.value)?;
    let name = again(alloc, &sense.name)?;
    let choices = choices_again(alloc, &sense.choices)?;
    Ok(Sense {
        text: sense.text,
        declaration: sense.declaration,
        mark: sense.mark,
        position: sense.position,
        is_present: sense.is_present,
        value,
        known: sense.known,
        range: sense.range,
        name,
        association: sense.association,
        choices,
        is_open: sense.is_open,
    })
}

/// What a list in brackets is, once more.
fn bracketed_again(alloc: Global, bracketed: &Bracketed) -> Result<Bracketed, AllocError>
    ensures { IfOk result (λ x. x ≡ bracketed.now) }
{
    match bracketed {
        Bracketed::Own(name) => {
            let copy = again(alloc, name)?;
            Ok(Bracketed::Own(copy))
        }
        Bracketed::Element => Ok(Bracketed::Element),
        Bracketed::Slice(bounds) => Ok(Bracketed::Slice(*bounds)),
    }
}

/// The same arguments once more.
fn arguments_again(alloc: Global, arguments: &Arguments) -> Result<Arguments, AllocError>
    ensures { IfOk result (λ x. x ≡ arguments.now) }
{
    let value = value_again(alloc, &arguments.value)?;
    let otherwise = bracketed_again(alloc, &arguments.otherwise)?;
    Ok(Arguments {
        value,
        known: arguments.known,
        otherwise,
    })
}

/// The same piece once more.
pub fn piece_again<'a>(alloc: Global, piece: &Piece<'a>) -> Result<Piece<'a>, AllocError>
    ensures { IfOk result (λ x. x ≡ piece.now) }
{
    match piece {
        Piece::NoPiece => Ok(Piece::NoPiece),
        Piece::Field(number) => Ok(Piece::Field(*number)),
        Piece::Own(name) => {
            let copy = again(alloc, name)?;
            Ok(Piece::Own(copy))
        }
        Piece::Attribute { name, mark } => Ok(Piece::Attribute { name, mark: *mark }),
        Piece::RangeAttribute { mark } => Ok(Piece::RangeAttribute { mark: *mark }),
        Piece::Arguments(arguments) => {
            let copy = arguments_again(alloc, arguments)?;
            Ok(Piece::Arguments(copy))
        }
    }
}

/// The same node once more.
pub fn node_again<'a>(alloc: Global, node: &Node<'a>) -> Result<Node<'a>, AllocError>
    ensures node { (subtypes : List (Forest IndicatedForm)) (e : Env) (m : Meaning) → IsNode subtypes e node.now m → IfOk result (λ x. IsNode subtypes e x m) }
    ensures sound { (subtypes : List (Forest IndicatedForm)) → IsSound subtypes node.now → IfOk result (IsSound subtypes) }
{
    let sense = sense_again(alloc, &node.sense)?;
    let piece = piece_again(alloc, &node.piece)?;
    Ok(Node { sense, piece })
}

/// The first part once more, or none where there is none.
pub fn first_again<'a>(alloc: Global, parts: &[Node<'a>]) -> Result<Node<'a>, AllocError>
    ensures sound { (subtypes : List (Forest IndicatedForm)) → All (IsSound subtypes) parts.now → IfOk result (IsSound subtypes) }
    ensures node { (subtypes : List (Forest IndicatedForm)) (e : Env) (ms : List Meaning) → AreNodes subtypes e parts.now ms
        → IfOk result (λ x. IsNode subtypes e x (nth 0 ms)) }
{
    match parts.first() {
        Some(part) => node_again(alloc, part),
        None => Ok(absent(alloc)),
    }
}
