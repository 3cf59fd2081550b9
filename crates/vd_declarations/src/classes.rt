//! Kinds of declarations.

ghost use Rattle.std.specs.Prelude.{◌≡◌};

use crate::ids::{DeclId, TypeId};

/// What a declaration declares. (IEEE 1076, declarations; design units; scope and visibility)
#[derive(Clone, Copy, PartialEq, Eq, Debug)]
pub enum Class {
    /// A design library.
    Library,
    /// The name that a library clause declares, which is that of a library. Another clause of the same context may repeat it.
    LibraryName {
        library: DeclId,
    },
    Entity,
    Architecture,
    /// A package without generics.
    Package,
    /// A package with generics.
    UninstantiatedPackage,
    /// An instance of a package with generics.
    PackageInstance,
    /// A context declaration.
    Context,
    Constant,
    Signal,
    Variable,
    Port,
    /// A generic constant of an entity, a package or a function.
    GenericConstant,
    /// A parameter of a function.
    Parameter,
    /// The parameter of a loop.
    LoopParameter,
    /// The parameter of a generate statement.
    GenerateParameter,
    EnumerationType,
    IntegerType,
    /// TIME, the one physical type.
    PhysicalType,
    /// An array type of one dimension: the types of its index and of its elements, and the type or subtype that the mark of its
    /// elements names.
    ArrayType {
        index: TypeId,
        element: TypeId,
        element_mark: DeclId,
    },
    RecordType,
    /// A type that is a generic.
    GenericType,
    /// A subtype, or the type that is the actual of a generic: the type or subtype that its mark names.
    Subtype {
        mark: DeclId,
    },
    /// A literal of an enumeration type.
    EnumerationLiteral,
    /// An element of a record type.
    RecordElement,
    /// A unit of TIME.
    PhysicalUnit,
    /// A mode view.
    View,
    /// A function that is written, without generics, or an instance of one with generics.
    Function,
    /// A function with generics.
    UninstantiatedFunction,
    /// A function that is a generic.
    GenericFunction,
    /// A function that an instance of a package declares.
    InstanceFunction,
    /// What a function that is a generic is in an instance: the function or operator that is its actual.
    ActualFunction {
        actual: DeclId,
    },
    /// An operator that a type brings with it.
    PredefinedOperator,
    Label,
}

impl Class {
    ghost use Rattle.vd_declarations.specs.Classes.{is_overloadable as overloadable, is_function as function, is_predefined as predefined, is_copy as copy, is_type as type_of_its_own, meaning as meaning_of, library_of};

    /// Whether several declarations of this class may have one name.
    pub fn is_overloadable(self) -> bool
        ensures { result ≡ overloadable self }
    {
        matches!(
            self,
            Class::EnumerationLiteral
                | Class::Function
                | Class::UninstantiatedFunction
                | Class::GenericFunction
                | Class::InstanceFunction
                | Class::ActualFunction { .. }
                | Class::PredefinedOperator
        )
    }

    /// Whether it is a function that somebody wrote.
    pub fn is_function(self) -> bool
        ensures { result ≡ function self }
    {
        matches!(
            self,
            Class::Function
                | Class::UninstantiatedFunction
                | Class::GenericFunction
                | Class::InstanceFunction
                | Class::ActualFunction { .. }
        )
    }

    /// Whether it is an operator that a type brought with it.
    pub fn is_predefined(self) -> bool
        ensures { result ≡ predefined self }
    {
        matches!(self, Class::PredefinedOperator)
    }

    /// Whether it is a function that an instance of a package declares.
    pub fn is_copy(self) -> bool
        ensures { result ≡ copy self }
    {
        matches!(self, Class::InstanceFunction | Class::ActualFunction { .. })
    }

    /// Whether it is a type. A subtype is none.
    pub fn is_type(self) -> bool
        ensures { result ≡ type_of_its_own self }
    {
        matches!(
            self,
            Class::EnumerationType
                | Class::IntegerType
                | Class::PhysicalType
                | Class::ArrayType { .. }
                | Class::RecordType
                | Class::GenericType
        )
    }

    /// The declaration that a name means where that isn't the one that stands under it.
    pub fn meaning(self) -> Option<DeclId>
        ensures { result ≡ meaning_of self }
    {
        match self {
            Class::LibraryName { library } => Some(library),
            Class::ActualFunction { actual } => Some(actual),
            _ => None,
        }
    }

    /// The library that a library clause names.
    pub fn library(self) -> Option<DeclId>
        ensures { result ≡ library_of self }
    {
        match self {
            Class::LibraryName { library } => Some(library),
            _ => None,
        }
    }
}

/// How a declaration came into the design.
#[derive(Clone, Copy, PartialEq, Eq, Debug)]
pub enum Made {
    /// It is written, or takes the place of what is written.
    Written,
    /// An element of a port with a view; with its place where the view is one of an array.
    Element(Option<u32>),
    /// The signal that stands for the expression of an association.
    Implicit,
    /// The label of a second or later alternative of a generate statement.
    Alternative,
    /// A generic of an instance.
    Generic,
}
