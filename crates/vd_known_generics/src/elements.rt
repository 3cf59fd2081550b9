//! The elements of generic maps, by what they come to. (IEEE 1076, generic map aspects)

ghost use Rattle.std.specs.Prelude.{◌≡◌, IfOk, Some, option_copied, slice_get};
ghost use Rattle.vd_known_generics.specs.Elements.{either, element_for as for_generic, element_placed as at_place, formal_in, given_by as given_of, naming, unless_named as if_unnamed, unless_open as if_there};
ghost use Rattle.vd_meaning.specs.Tables.{same_type};

use std::alloc::{AllocError, Global};
use vd_composites::Value;
use vd_declarations::DeclId;
use vd_static_names::copies::value_again;
use vd_static_values::{Association, Node, Sense};
use vd_value_rules::StaticSort;

/// What a map gives for a generic that is a constant.
#[derive(Drop)]
pub struct Given {
    /// The value, where it is locally static and doesn't stop.
    pub value: Option<Value>,
    pub known: StaticSort,
}

/// What an element names in front of `=>`.
fn formal_of(sense: &Sense<'_>) -> Option<DeclId>
    ensures { result ≡ formal_in sense.now.association sense.now.choices.items }
{
    match sense.association {
        Association::ByChoices => match sense.choices.as_slice() {
            [first, ..] => *first,
            [] => None,
        },
        _ => None,
    }
}

/// Whether an element names a generic.
fn names(node: &Node<'_>, generic: DeclId) -> bool
    ensures { result ≡ same_type (formal_in node.now.sense.association node.now.sense.choices.items) (Some generic) }
{
    match formal_of(&node.sense) {
        Some(named) => named.number() == generic.number(),
        None => false,
    }
}

/// The first element that names a generic.
fn element_naming<'p, 'a>(nodes: &'p [Node<'a>], generic: DeclId) -> Option<&'p Node<'a>>
    ensures { option_copied result ≡ naming generic nodes.now }
{
    nodes.iter().find(|node| names(node, generic))
}

/// An element, if it names nothing.
fn unless_named<'p, 'a>(element: &'p Node<'a>) -> Option<&'p Node<'a>>
    ensures { option_copied result ≡ if_unnamed element.now }
{
    match formal_of(&element.sense) {
        None => Some(element),
        Some(_) => None,
    }
}

/// The element at a place, if it names nothing.
fn element_placed<'p, 'a>(nodes: &'p [Node<'a>], place: usize) -> Option<&'p Node<'a>>
    ensures { option_copied result ≡ at_place place nodes.now }
{
    match nodes.get(place) {
        Some(element) => unless_named(element),
        None => None,
    }
}

/// The element for a generic, which may be `open`.
fn element_at<'p, 'a>(nodes: &'p [Node<'a>], place: usize, generic: DeclId) -> Option<&'p Node<'a>>
    ensures { option_copied result ≡ either (naming generic nodes.now) (at_place place nodes.now) }
{
    match element_naming(nodes, generic) {
        Some(named) => Some(named),
        None => element_placed(nodes, place),
    }
}

/// An element, if it isn't `open`.
fn unless_open<'p, 'a>(element: Option<&'p Node<'a>>) -> Option<&'p Node<'a>>
    ensures { option_copied result ≡ if_there (option_copied element.entry) }
{
    match element {
        Some(found) => {
            if found.sense.is_open {
                None
            } else {
                Some(found)
            }
        }
        None => None,
    }
}

/// The element for a generic with a place among the generics: the one that names it, or the one at its place.
pub(crate) fn element_for<'p, 'a>(
    nodes: &'p [Node<'a>],
    place: usize,
    generic: DeclId,
) -> Option<&'p Node<'a>>
    ensures { option_copied result ≡ for_generic place generic nodes.now }
{
    unless_open(element_at(nodes, place, generic))
}

/// What an element gives.
pub(crate) fn given_by(
    alloc: Global,
    element: Option<&Node<'_>>,
) -> Result<Option<Given>, AllocError>
    ensures { IfOk result (λ given. given ≡ given_of (option_copied element.entry)) }
{
    match element {
        Some(element) => {
            let value = value_again(alloc, &element.sense.value)?;
            Ok(Some(Given {
                value,
                known: element.sense.known,
            }))
        }
        None => Ok(None),
    }
}
