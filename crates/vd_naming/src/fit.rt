//! What a name has to mean.

ghost use Rattle.std.specs.Prelude.{◌≡◌};
ghost use Rattle.vd_visible.specs.Sights.{sight_from};
ghost use Rattle.vd_naming.specs.Fits.{fits};

use vd_declarations::{Class, DeclId};
use vd_name_rows::Names;
use vd_visible::Surroundings;

/// What the one declaration has to be that a name means.
#[derive(Clone, Copy)]
pub enum Fit {
    /// A type or subtype.
    Mark,
    /// A package, with generics or without, or an instance of one.
    Package,
    Context,
    Entity,
    View,
    /// The label of a loop.
    LoopLabel,
    Any,
}

impl Fit {
    /// Whether a declaration is such a one.
    pub fn has(self, names: &Names, place: &Surroundings<'_>, id: DeclId) -> bool
        ensures { result ≡ fits self (sight_from place.now) names.now id }
    {
        match self {
            Fit::Mark => place.type_meant(id).is_some(),
            Fit::Package => matches!(
                names.class_of(id),
                Class::Package | Class::PackageInstance | Class::UninstantiatedPackage
            ),
            Fit::Context => matches!(names.class_of(id), Class::Context),
            Fit::Entity => matches!(names.class_of(id), Class::Entity),
            Fit::View => matches!(names.class_of(id), Class::View),
            Fit::LoopLabel => names.note(id).is_loop,
            Fit::Any => true,
        }
    }
}
