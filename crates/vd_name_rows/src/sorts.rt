//! Sorts of declarations that are looked for in a region.

ghost use Rattle.std.specs.Prelude.{◌≡◌};
ghost use Rattle.vd_name_rows.specs.Members.{is_of};

use vd_declarations::Class;

/// A sort of declarations.
#[derive(Clone, Copy)]
pub enum Sort {
    Any,
    /// A generic constant, type or function.
    Generic,
    /// A parameter of a function.
    Parameter,
    Port,
    /// An element of a record type.
    Element,
    /// A function without generics.
    PlainFunction,
    /// A function with generics or without.
    WrittenFunction,
    /// A package with generics or without, and no instance.
    WrittenPackage,
    Entity,
}

impl Sort {
    /// Whether declarations of a class are of this sort.
    pub fn has(self, class: Class) -> bool
        ensures { result ≡ is_of self class }
    {
        match self {
            Sort::Any => true,
            Sort::Generic => matches!(
                class,
                Class::GenericConstant | Class::GenericType | Class::GenericFunction
            ),
            Sort::Parameter => matches!(class, Class::Parameter),
            Sort::Port => matches!(class, Class::Port),
            Sort::Element => matches!(class, Class::RecordElement),
            Sort::PlainFunction => matches!(class, Class::Function),
            Sort::WrittenFunction => {
                matches!(class, Class::Function | Class::UninstantiatedFunction)
            }
            Sort::WrittenPackage => matches!(class, Class::Package | Class::UninstantiatedPackage),
            Sort::Entity => matches!(class, Class::Entity),
        }
    }
}
