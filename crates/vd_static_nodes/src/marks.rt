//! Names of subtypes, and indexes of any bounds. (IEEE 1076, subtype declarations; array types.)

ghost use Rattle.std.specs.List.{All};
ghost use Rattle.std.specs.Prelude.{◌≡◌, IfOk, List, ℕ};
ghost use Rattle.vd_environments.specs.Environments.{Env};
ghost use Rattle.vd_forest.specs.Forest.{Forest};
ghost use Rattle.vd_value_rules.specs.declared.forms.IndicatedForm.{IndicatedForm};
ghost use Rattle.vd_meaning.specs.Brackets.{or_else};
ghost use Rattle.vd_meaning.specs.Facets.{Meaning, last_of};
ghost use Rattle.vd_meaning.specs.Kinds.{MarkName, OpenIndex};
ghost use Rattle.vd_resolved.specs.declared.node.Resolved.{Resolved as ResolvedNode};
ghost use Rattle.vd_static_values.specs.Nodes.{AreNodes};
ghost use Rattle.vd_static_values.specs.declared.entries.Ground.{Ground};
ghost use Rattle.vd_static_parts.specs.Made.{IsMade, IsSound};

use std::alloc::{AllocError, Global};
use vd_declarations::DeclId;
use vd_resolved::Resolved;
use vd_static_parts::copies::first_again;
use vd_static_parts::nodes::plain;
use vd_static_values::{Node, Sense};

/// The index of an array type of any bounds.
pub fn open_index<'a>(alloc: Global, parts: &[Node<'a>]) -> Result<Node<'a>, AllocError>
    ensures sound { (subtypes : List (Forest IndicatedForm)) → All (IsSound subtypes) parts.now → IfOk result (IsSound subtypes) }
    ensures node { (g : Ground) (node : ResolvedNode) (text : List ℕ) → IfOk result (IsMade OpenIndex g node text parts.now) }
{
    let Node { sense, piece } = first_again(alloc, parts)?;
    let sense = Sense {
        is_open: true,
        ..sense
    };
    Ok(Node { sense, piece })
}

/// What the last part names.
fn last_named(parts: &[Node<'_>]) -> Option<DeclId>
    ensures { (subtypes : List (Forest IndicatedForm)) (e : Env) (ms : List Meaning) → AreNodes subtypes e parts.now ms
        → result ≡ (last_of ms).declaration }
{
    let last = parts.last()?;
    last.sense.declaration
}

/// What a node names itself, or else its last part.
fn named(own: Option<DeclId>, parts: &[Node<'_>]) -> Option<DeclId>
    ensures { (subtypes : List (Forest IndicatedForm)) (e : Env) (ms : List Meaning) → AreNodes subtypes e parts.now ms
        → result ≡ or_else own (last_of ms).declaration }
{
    match own {
        Some(declaration) => Some(declaration),
        None => last_named(parts),
    }
}

/// The name of a subtype.
pub fn mark_name<'a>(
    alloc: Global,
    node: Resolved,
    text: &'a [u8],
    parts: &[Node<'a>],
) -> Result<Node<'a>, AllocError>
    ensures sound { (subtypes : List (Forest IndicatedForm)) → IfOk result (IsSound subtypes) }
    ensures node { (g : Ground) → IfOk result (IsMade MarkName g node text.now parts.now) }
{
    let declaration = named(node.declaration, parts);
    let Node { sense, piece } = plain(alloc, node, text);
    let sense = Sense {
        declaration,
        ..sense
    };
    Ok(Node { sense, piece })
}
