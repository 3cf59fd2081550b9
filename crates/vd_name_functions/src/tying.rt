//! Bodies that name another declaration of the region round them.

ghost use Rattle.std.specs.Prelude.{◌≡◌, ◌≤◌, IfOk, is_some, length};
ghost use Rattle.vd_walks.specs.Finding.{first_found};
ghost use Rattle.vd_forest.specs.Store.{at as tree_at};
ghost use Rattle.vd_regions.specs.Scopes.{entered_at};
ghost use Rattle.vd_name_entering.specs.Ended.{seen_ended};
ghost use Rattle.vd_naming.specs.Functions.{is_tied, is_uninstantiated_function};
ghost use Rattle.vd_name_functions.specs.Tying.{stands_beside, tied_by, tying_finder};

use std::alloc::{AllocError, Global};
use vd_declarations::{Class, DeclId, RegionId};
use vd_forest::{Cursor, Opened, Store};
use vd_name_entering::Ended;
use vd_name_rows::Names;
use vd_resolved::Resolved;
use vd_walks::{Finding, find_first};

/// The region of a declaration. That of a number that isn't given out is the one of the libraries.
fn region_of(names: &Names, id: DeclId) -> u32
    ensures { result ≡ (entered_at names.now.scopes id).region }
{
    let regions = names.regions();
    if regions.is_declaration(id) {
        regions.region_of(id).number()
    } else {
        0
    }
}

/// Whether a declaration stands in a region and is not this one.
fn stands_beside(names: &Names, region: RegionId, own: DeclId, named: Option<DeclId>) -> bool
    ensures { result ≡ stands_beside names.now.scopes region own named }
{
    match named {
        None => false,
        Some(id) => region_of(names, id) == region.number() && id.number() != own.number(),
    }
}

/// A node that names such a declaration.
#[derive(Clone, Copy)]
struct Tying<'a> {
    names: &'a Names,
    region: RegionId,
    own: DeclId,
}

impl<'a> Finding<Resolved, (), ()> for Tying<'a> {
    ghost finder = { λ search. tying_finder search.names.now.scopes search.region search.own };

    fn answer(
        &self,
        _alloc: Global,
        _state: &(),
        node: &Opened<'_, Resolved>,
    ) -> Result<Option<()>, AllocError> {
        if stands_beside(self.names, self.region, self.own, node.form.declaration) {
            Ok(Some(()))
        } else {
            Ok(None)
        }
    }

    fn down(
        &self,
        _alloc: Global,
        _state: &(),
        _node: &Opened<'_, Resolved>,
    ) -> Result<(), AllocError> {
        Ok(())
    }

    fn along(
        &self,
        _alloc: Global,
        _state: &(),
        _node: &Opened<'_, Resolved>,
    ) -> Result<(), AllocError> {
        Ok(())
    }
}

/// Whether some trees name a declaration of a region that is not this one.
fn name_round(
    alloc: Global,
    names: &Names,
    region: RegionId,
    own: DeclId,
    trees: &Cursor<'_, Resolved>,
) -> Result<bool, AllocError>
    ensures { IfOk result (λ some. some ≡ is_some (first_found (tying_finder names.now.scopes region own) tt trees.now)) }
{
    let search = Tying { names, region, own };
    let found = find_first(alloc, trees, (), &search)?;
    Ok(found.is_some())
}

/// Whether a class is that of functions with generics.
fn is_uninstantiated_function(class: Class) -> bool
    ensures { result ≡ is_uninstantiated_function class }
{
    matches!(class, Class::UninstantiatedFunction)
}

/// Whether the body of a function of this class and number has generics and names another declaration of the region round it.
pub(crate) fn is_tied(
    alloc: Global,
    names: &Names,
    ended: &Ended<'_, '_>,
    class: Class,
    id: DeclId,
    out: &Store<Resolved>,
) -> Result<bool, AllocError>
    requires { ended.now.inner.now.tree ≤ length out.now }
    ensures { IfOk result (λ tied. tied ≡ is_tied (seen_ended out.now names.now ended.now) class id) }
{
    if !is_uninstantiated_function(class) {
        return Ok(false);
    }
    let body = out.cursor(ended.inner.tree);
    let outer = ended.outer;
    let tied = name_round(alloc, names, outer.region, id, &body)?;
    Ok(tied)
}
