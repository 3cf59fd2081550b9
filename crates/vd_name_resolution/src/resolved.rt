//! The resolved design of units.

ghost use Rattle.std.specs.Prelude.{◌≡◌, ◌≤◌, IfOk, length};
ghost use Rattle.vd_forest.specs.Store.{at};
ghost use Rattle.vd_naming.specs.Naming.{names_of};
ghost use Rattle.vd_naming.specs.Settled.{resolved_tree};
ghost use Rattle.vd_name_resolution.specs.Designs.{settled_from};

use crate::{Settling, given_names, settle_tree, settled_declarations, walk_units};
use std::alloc::{AllocError, Global};
use vd_bytes::Refused;
use vd_forest::{Cursor, Store};
use vd_forms::Form;
use vd_name_rows::Names;
use vd_resolved::{Resolved, Tree};
use vd_trees::Revision;

/// A resolved design, and the first rule on names that it breaks. Where it breaks one, a name may have no declaration, and an expression no type.
#[derive(Drop)]
pub struct NamedDesign {
    pub tree: Tree,
    pub first: Option<Refused>,
}

/// The design of the trees that a walk came to, where the headers of bodies are settled.
pub fn settled_design(
    alloc: Global,
    names: &Names,
    units: &Cursor<'_, Resolved>,
) -> Result<Tree, AllocError>
    ensures { IfOk result (λ tree. tree ≡ settled_from names.now units.now) }
{
    let settling = Settling::of(alloc, names.taken())?;
    let mut store = Store::new(alloc);
    let number = settle_tree(alloc, &settling, units, &mut store)?;
    let declarations = settled_declarations(alloc, &settling, names)?;
    Ok(Tree::of(store, number, declarations))
}

/// Resolves the names of a design's units, in their order: each name gets its declaration, and each expression its type.
///
/// `first` is the rule below 400 that is broken at the first place, by the names that units declare and use. Rules that the words of a text break alone, and
/// those on modes of ports, aren't asked here.
#[tactic(auto, using(crate::proofs::DesignLemmas::design_is, crate::proofs::DesignLemmas::first_is))]
pub fn resolve_names(
    alloc: Global,
    revision: Revision,
    units: &Cursor<'_, Form>,
) -> Result<NamedDesign, AllocError>
    ensures tree { IfOk result (λ design. design.tree ≡ resolved_tree (names_of revision units.now)) }
    ensures first { IfOk result (λ design. design.first ≡ (names_of revision units.now).first) }
{
    let mut names = given_names(alloc, revision)?;
    let mut made = Store::new(alloc);
    let outcome = walk_units(alloc, revision, units, &mut names, &mut made)?;
    let tree = settled_design(alloc, &names, &made.cursor(outcome.tree))?;
    Ok(NamedDesign {
        tree,
        first: outcome.first,
    })
}
