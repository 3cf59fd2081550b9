//! Names that have to mean something that fits.

ghost use Rattle.std.specs.Prelude.{◌≡◌, IfOk};
ghost use Rattle.vd_forest.specs.Store.{Holds, Extends};
ghost use Rattle.vd_visible.specs.Sights.{sight_from};
ghost use Rattle.vd_name_rows.specs.Refusals.{lesser as lesser_refusal, broken_if as refused_where};
ghost use Rattle.vd_naming.specs.Paths.{named_path as node_named, refused_path as path_refused, mark_meant as mark_of_named, with_named};
ghost use Rattle.vd_naming.specs.Nodes.{named_to_fit};

use crate::fit::Fit;
use crate::meant::{Meant, one_that, path_meant, refused_path};
use crate::nodes::named_path;
use crate::outside::path_outside;
use crate::refusing::broken_if;
use std::alloc::{AllocError, Global};
use vd_bytes::{Place, Refused};
use vd_declarations::{DeclId, TypeId};
use vd_forest::{Cursor, Store};
use vd_forms::Form;
use vd_name_rows::{At, Names};
use vd_resolved::Resolved;
use vd_visible::Surroundings;
use vd_walks::lesser;

/// What a name comes to.
#[derive(Clone, Copy)]
pub struct Named {
    /// The number of its tree in the store that is made.
    pub tree: u32,
    /// The declaration that it names, and the type that this means, where it is a mark.
    pub named: Option<DeclId>,
    pub mark: Option<TypeId>,
    /// The first rule that is broken.
    pub first: Option<Refused>,
}

/// What is found of a name, without its tree.
fn found_of(
    place: &Surroundings<'_>,
    named: Option<DeclId>,
    meant: &Meant,
    outside: bool,
    first: Place,
) -> Named
    ensures named { result.named ≡ named }
    ensures mark { result.mark ≡ mark_of_named (sight_from place.now) named }
    ensures first { result.first ≡ lesser_refusal (path_refused named meant.now first) (refused_where outside 307 first) }
{
    let refused = broken_if(outside, 307, first);
    match named {
        None => Named {
            tree: 0,
            named: None,
            mark: None,
            first: lesser(refused_path(None, meant, first), refused),
        },
        Some(id) => Named {
            tree: 0,
            named: Some(id),
            mark: place.type_meant(id),
            first: refused,
        },
    }
}

/// Makes the tree of a name, with what it names.
fn with_tree(
    alloc: Global,
    found: Named,
    tree: &Cursor<'_, Form>,
    out: &mut Store<Resolved>,
) -> Result<Named, AllocError>
    ensures holds { IfOk result (λ made. Holds out.new made.tree (node_named found.named tree.now)) }
    ensures named { IfOk result (λ made. made.named ≡ found.named) }
    ensures mark { IfOk result (λ made. made.mark ≡ found.mark) }
    ensures first { IfOk result (λ made. made.first ≡ found.first) }
    ensures extends { Extends out.old out.new }
{
    let made = named_path(alloc, found.named, tree, out)?;
    Ok(Named {
        tree: made,
        ..found
    })
}

/// A name that has to mean one declaration that fits, given the place where it is refused.
pub fn named_as(
    alloc: Global,
    names: &Names,
    at: &At<'_>,
    fit: Fit,
    first: Place,
    tree: &Cursor<'_, Form>,
    out: &mut Store<Resolved>,
) -> Result<Named, AllocError>
    ensures tree { IfOk result (λ found. Holds out.new found.tree (named_to_fit fit at.now names.now first tree.now).tree) }
    ensures at { IfOk result (λ found. with_named found.named found.mark at.now ≡ (named_to_fit fit at.now names.now first tree.now).at) }
    ensures first { IfOk result (λ found. found.first ≡ (named_to_fit fit at.now names.now first tree.now).first) }
    ensures extends { Extends out.old out.new }
{
    let place = names.surroundings(at)?;
    let pieces = tree.parts();
    let meant = path_meant(alloc, &place, &pieces)?;
    let outside = path_outside(alloc, names, &place, at.region, &pieces)?;
    let named = one_that(names, &place, fit, &meant);
    let found = found_of(&place, named, &meant, outside, first);
    let made = with_tree(alloc, found, tree, out)?;
    Ok(made)
}
