//! What is known of the generics of an instance.

ghost use Rattle.std.specs.Prelude.{◌≡◌};
ghost use Rattle.vd_visible.specs.Sights.{sight_from};
ghost use Rattle.vd_naming.specs.Expressions.{type_declared as type_of_declared};
ghost use Rattle.vd_naming.specs.Actuals.{type_in, mark_in};
ghost use Rattle.vd_name_actuals.specs.Seen.{seen_known};

use crate::stand_ins::StandIns;
use vd_declarations::{DeclId, TypeId};
use vd_name_rows::Names;
use vd_visible::Surroundings;

/// What is known of the generics of an instance: the design, the place, and the generics with the actuals of those that are types.
#[derive(Clone, Copy)]
pub struct Known<'a, 'b> {
    pub names: &'a Names,
    pub place: &'a Surroundings<'b>,
    pub stand_ins: &'a StandIns,
}

/// The type that a declaration means, where there is one and it is a mark.
fn type_declared(place: &Surroundings<'_>, declared: Option<DeclId>) -> Option<TypeId>
    ensures { result ≡ type_of_declared (sight_from place.now) declared }
{
    match declared {
        None => None,
        Some(id) => place.type_meant(id),
    }
}

impl<'a, 'b> Known<'a, 'b> {
    /// A type as it is in the instance: that of its actual where it is a generic, if that is known.
    pub fn type_in(&self, mark: TypeId) -> Option<TypeId>
        ensures { result ≡ type_in (seen_known self.now) mark }
    {
        let id = DeclId::of(mark.number());
        if self.stand_ins.has(id) {
            return type_declared(self.place, self.stand_ins.actual_of(id));
        }
        Some(mark)
    }

    /// The same where there may be no type.
    pub fn mark_in(&self, mark: Option<TypeId>) -> Option<TypeId>
        ensures { result ≡ mark_in (seen_known self.now) mark }
    {
        match mark {
            None => None,
            Some(mark) => self.type_in(mark),
        }
    }
}
