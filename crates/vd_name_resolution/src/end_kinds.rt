//! What kinds of things forms declare at their ends.

ghost use Rattle.std.specs.Prelude.{◌≡◌};
ghost use Rattle.vd_name_resolution.specs.EndKinds.{kind_of as ending_kind};

use vd_name_rows::Ending;

/// What a form declares at its end.
#[derive(Clone, Copy)]
pub enum Kind {
    /// Nothing: its node ends.
    Node,
    /// Objects, a type or a subtype.
    Object,
    /// A mode view.
    View,
    /// A function, or a generic that may be one.
    Function,
    /// A unit.
    Unit,
    /// An instance of a function or a package.
    Instance,
}

/// What a form with this ending declares.
pub fn kind_of(ending: Ending) -> Kind
    ensures { result ≡ ending_kind ending }
{
    match ending {
        Ending::Nothing
        | Ending::First
        | Ending::Typed
        | Ending::Indicated
        | Ending::ClauseEnds
        | Ending::UnitEnds => Kind::Node,
        Ending::Objects { .. } | Ending::AllPorts | Ending::NewType | Ending::NewSubtype =>
            Kind::Object,
        Ending::NewView => Kind::View,
        Ending::NewGenericType
        | Ending::NewGenericFunction
        | Ending::NewFunction
        | Ending::BodyEnds => Kind::Function,
        Ending::NewEntity
        | Ending::NewArchitecture
        | Ending::NewPackage
        | Ending::PackageBodyEnds
        | Ending::NewContext => Kind::Unit,
        Ending::NewFunctionInstance | Ending::NewPackageInstance => Kind::Instance,
    }
}
