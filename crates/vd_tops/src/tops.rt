//! The units of a top.

ghost use Rattle.std.specs.Prelude.{◌≡◌, ◌↔◌, None, option_and_then, IfSome};
ghost use Rattle.std.specs.Option.{option_copied};
ghost use Rattle.vd_tops.specs.TopNames.{closed_name, name_told};
ghost use Rattle.vd_tops.specs.Tops.{top_among, top_named, Breaks311, IsNamed};

use crate::names::{is_closed, opening};
use crate::units::{find_architecture, find_entity, have_defaults};
use vd_forest::Cursor;
use vd_resolved::{Resolved, Tree};

/// The numbers of two design units, from 0, in the order of the design.
#[derive(Clone, Copy, PartialEq, Eq, Debug)]
pub struct TopId {
    pub entity: u32,
    pub architecture: u32,
}

// The top of this entity and of this architecture, or of the last one that is analysed.
fn top_of(units: &Cursor<'_, Resolved>, entity: &[u8], architecture: Option<&[u8]>) -> Option<TopId>
    ensures { result ≡ top_among units.now (record { entity = entity.now; architecture = option_copied architecture.entry }) }
{
    let entity_at = find_entity(units, entity)?;
    let architecture_at = find_architecture(units, entity, architecture)?;
    if have_defaults(units, entity_at) {
        Some(TopId {
            entity: entity_at,
            architecture: architecture_at,
        })
    } else {
        None
    }
}

// The top of this entity, where this stands behind an opening bracket.
fn closed_top(units: &Cursor<'_, Resolved>, entity: &[u8], rest: &[u8]) -> Option<TopId>
    ensures { result ≡ option_and_then (top_among units.now) (closed_name entity.now rest.now) }
{
    if is_closed(rest) {
        top_of(units, entity, Some(&rest[..rest.len() - 1]))
    } else {
        None
    }
}

// The top of that name.
fn read_top(units: &Cursor<'_, Resolved>, name: &[u8]) -> Option<TopId>
    ensures { result ≡ option_and_then (top_among units.now) (name_told name.now) }
{
    match opening(name) {
        None => top_of(units, name, None),
        Some(i) => closed_top(units, &name[..i], &name[i + 1..]),
    }
}

/// The top of that name: `entity` or `entity(architecture)`, in letters of either case. There is none exactly where rule 311 is broken.
pub fn top(design: &Tree, name: &str) -> Option<TopId>
    ensures exact { result ≡ top_named design.now name.now }
    ensures none { result ≡ None ↔ Breaks311 design.now name.now }
    ensures named { IfSome result (IsNamed design.now name.now) }
{
    read_top(&design.cursor(), name.as_bytes())
}
