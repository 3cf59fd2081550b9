//! Making ways.

ghost use Rattle.std.specs.Prelude.{◌≡◌, ◌∷◌, [], IfOk};
ghost use Rattle.std.specs.Option.{option_to_list};
ghost use Rattle.vd_ways.specs.Ways.{plain as plain_way, typed as typed_way, naming as naming_way, chosen as chosen_way, placed as placed_way, where_true as ways_where};

use std::alloc::{AllocError, Global};
use vd_declarations::{DeclId, TypeId};
use vd_states::{State, Way};

/// The node gets nothing.
pub fn plain(inside: &State, after: &State) -> Way
    ensures { result ≡ plain_way inside.now after.now }
{
    Way {
        declaration: None,
        mark: None,
        position: 0,
        inside: *inside,
        after: *after,
    }
}

/// A type.
pub fn typed(mark: TypeId, inside: &State, after: &State) -> Way
    ensures { result ≡ typed_way mark inside.now after.now }
{
    Way {
        declaration: None,
        mark: Some(mark),
        position: 0,
        inside: *inside,
        after: *after,
    }
}

/// A declaration.
pub fn naming(id: DeclId, inside: &State, after: &State) -> Way
    ensures { result ≡ naming_way id inside.now after.now }
{
    Way {
        declaration: Some(id),
        mark: None,
        position: 0,
        inside: *inside,
        after: *after,
    }
}

/// A declaration and a type.
pub fn chosen(id: DeclId, mark: TypeId, inside: &State, after: &State) -> Way
    ensures { result ≡ chosen_way id mark inside.now after.now }
{
    Way {
        declaration: Some(id),
        mark: Some(mark),
        position: 0,
        inside: *inside,
        after: *after,
    }
}

/// An enumeration literal or a record element.
pub fn placed(id: DeclId, mark: Option<TypeId>, position: u32, inside: &State, after: &State) -> Way
    ensures { result ≡ placed_way id mark position inside.now after.now }
{
    Way {
        declaration: Some(id),
        mark,
        position,
        inside: *inside,
        after: *after,
    }
}

/// A list of one.
fn listed<T: Copy + Drop>(alloc: Global, item: &T) -> Result<Vec<T>, AllocError>
    ensures { IfOk result (λ items. items.items ≡ item.now ∷ []) }
{
    let mut items = Vec::new(alloc);
    items.push(*item)?;
    Ok(items)
}

/// One way.
pub fn one(alloc: Global, way: &Way) -> Result<Vec<Way>, AllocError>
    ensures { IfOk result (λ ways. ways.items ≡ way.now ∷ []) }
{
    listed(alloc, way)
}

/// A list of two.
fn listed_two<T: Copy + Drop>(alloc: Global, one: &T, other: &T) -> Result<Vec<T>, AllocError>
    ensures { IfOk result (λ items. items.items ≡ one.now ∷ other.now ∷ []) }
{
    let mut items = Vec::new(alloc);
    items.push(*one)?;
    items.push(*other)?;
    Ok(items)
}

/// Two ways.
pub fn two(alloc: Global, one: &Way, other: &Way) -> Result<Vec<Way>, AllocError>
    ensures { IfOk result (λ ways. ways.items ≡ one.now ∷ other.now ∷ []) }
{
    listed_two(alloc, one, other)
}

/// A way where a condition holds.
pub fn where_true(alloc: Global, holds: bool, way: &Way) -> Result<Vec<Way>, AllocError>
    ensures { IfOk result (λ ways. ways.items ≡ ways_where holds way.now) }
{
    if holds {
        one(alloc, way)
    } else {
        Ok(Vec::new(alloc))
    }
}
