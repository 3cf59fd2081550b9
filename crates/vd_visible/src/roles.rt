//! What a declaration can be in a name.

ghost use Rattle.std.specs.Prelude.{◌≡◌};
ghost use Rattle.vd_visible.specs.Kinds.{role_of as role};

use vd_declarations::Class;

/// What a declaration can be in a name. (IEEE 1076, names)
#[derive(Clone, Copy, PartialEq, Eq, Debug)]
pub enum Role {
    /// A library or a unit, whose declarations can be selected.
    Unit,
    /// An object that is no signal.
    Object,
    Signal,
    Literal,
    /// A function or an operator that can be called.
    Function,
    /// A type or a subtype.
    Mark,
    Other,
}

/// What a declaration of the class can be in a name.
pub fn role_of(class: Class) -> Role
    ensures { result ≡ role class }
{
    match class {
        Class::Library
        | Class::Entity
        | Class::Package
        | Class::UninstantiatedPackage
        | Class::PackageInstance => Role::Unit,
        Class::Constant
        | Class::Variable
        | Class::GenericConstant
        | Class::Parameter
        | Class::LoopParameter
        | Class::GenerateParameter => Role::Object,
        Class::Signal | Class::Port => Role::Signal,
        Class::EnumerationLiteral => Role::Literal,
        Class::Function
        | Class::GenericFunction
        | Class::InstanceFunction
        | Class::PredefinedOperator => Role::Function,
        Class::EnumerationType
        | Class::IntegerType
        | Class::PhysicalType
        | Class::ArrayType { .. }
        | Class::RecordType
        | Class::GenericType
        | Class::Subtype { .. } => Role::Mark,
        _ => Role::Other,
    }
}
