//! Lists of all types.

ghost use Rattle.std.specs.Prelude.{◌≡◌, ◌≤◌, ◌<◌, ◌++◌, IfOk, OnOk, length};
ghost use Rattle.vd_visible.specs.TypeLists.{types_below, type_at, TypesStay};

use std::alloc::{AllocError, Global};
use vd_declarations::{DeclId, TypeId};
use vd_regions::Regions;

/// Adds the type that a declaration declares, if it declares one.
fn add_type(regions: &Regions, number: u32, types: &mut Vec<TypeId>) -> Result<(), AllocError>
    requires { number < length regions.now.entered }
    ensures { OnOk result (types.new.items ≡ types.old.items ++ type_at regions.now number) }
{
    if regions.declaration(DeclId::of(number)).class.is_type() {
        types.push(TypeId::of(number))?;
    }
    Ok(())
}

/// Adds the types that were declared since so many declarations, and says how many there are now.
#[tactic(auto, using(crate::proofs::TypeListLemmas::types_one_more))]
pub fn add_types(
    regions: &Regions,
    counted: u32,
    types: &mut Vec<TypeId>,
) -> Result<u32, AllocError>
    requires before { types.old.items ≡ types_below regions.now counted }
    requires within { counted ≤ length regions.now.entered }
    ensures all { OnOk result (types.new.items ≡ types_below regions.now (length regions.now.entered)) }
    ensures count { IfOk result (λ count. count ≡ length regions.now.entered) }
{
    let mut next = counted;
    while regions.is_declaration(DeclId::of(next)) {
        add_type(regions, next, types)?;
        let Some(more) = next.checked_add(1) else {
            return Err(AllocError);
        };
        next = more;
    }
    Ok(next)
}

/// All types that are declared so far, in the order of their declarations.
pub fn all_types(alloc: Global, regions: &Regions) -> Result<Vec<TypeId>, AllocError>
    ensures { IfOk result (λ types. types.items ≡ types_below regions.now (length regions.now.entered)) }
{
    let mut types = Vec::new(alloc);
    add_types(regions, 0, &mut types)?;
    Ok(types)
}

/// What is entered later changes none of the types that were declared before.
pub fn types_stay()
    ensures { TypesStay }
{}
