//! Whether the actuals of all types and functions are known.

ghost use Rattle.std.specs.Prelude.{◌≡◌, IfOk};
ghost use Rattle.vd_regions.specs.Scopes.{declaration_at};
ghost use Rattle.vd_naming.specs.Actuals.{actual_of};
ghost use Rattle.vd_naming.specs.Instances.{is_settled as has_its_actual, are_settled as have_their_actuals};

use std::alloc::{AllocError, Global};
use vd_declarations::{Class, DeclId};
use vd_name_actuals::StandIns;
use vd_name_rows::{Actual, Names};

/// Whether a generic of a class has the actual that it needs. A constant needs none here.
fn is_settled(class: &Class, actual: Option<DeclId>) -> bool
    ensures { result ≡ has_its_actual class.now actual }
{
    match *class {
        Class::GenericType | Class::GenericFunction => actual.is_some(),
        _ => true,
    }
}

/// Whether each of these generics has the actual that it needs.
fn all_settled(names: &Names, actuals: &StandIns, generics: &[DeclId]) -> bool
    ensures { result ≡ have_their_actuals names.now actuals.now.actuals generics.now }
{
    for generic in generics {
        if !is_settled(&names.class_of(*generic), actuals.actual_of(*generic)) {
            return false;
        }
    }
    true
}

/// Whether each generic of a package or function has the actual that it needs.
pub(crate) fn are_settled(
    alloc: Global,
    names: &Names,
    actuals: &[Actual],
    id: DeclId,
) -> Result<bool, AllocError>
    ensures { IfOk result (λ settled. settled ≡ have_their_actuals names.now actuals.now (declaration_at names.now.scopes id).generics) }
{
    let generics = names.generics_of(id);
    let table = StandIns::of(alloc, generics, actuals)?;
    Ok(all_settled(names, &table, generics))
}
