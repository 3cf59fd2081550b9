//! What names name.

ghost use Rattle.std.specs.Prelude.{◌≡◌};
ghost use Rattle.vd_operations.specs.Roles.{read_role};
ghost use Rattle.vd_meaning.specs.Tables.{role, role_of as role_in, table};
ghost use Rattle.vd_trees.specs.declared.revision.Revision.{Revision};

use crate::class_of;
use vd_declarations::{Class, DeclId, Declaration};

/// What a name names.
#[derive(Clone, Copy)]
pub enum Role {
    Constant,
    Variable,
    Signal,
    Literal,
    Function,
    Mark,
    Element,
    Nothing,
}

/// What declarations of a class are to a name.
fn role_by_class(class: Class) -> Role
    ensures { read_role result ≡ role class }
{
    match class {
        Class::Constant
        | Class::GenericConstant
        | Class::Parameter
        | Class::LoopParameter
        | Class::GenerateParameter => Role::Constant,
        Class::Variable => Role::Variable,
        Class::Signal | Class::Port => Role::Signal,
        Class::EnumerationLiteral => Role::Literal,
        Class::Function
        | Class::GenericFunction
        | Class::InstanceFunction
        | Class::ActualFunction { .. }
        | Class::PredefinedOperator => Role::Function,
        Class::EnumerationType
        | Class::IntegerType
        | Class::PhysicalType
        | Class::ArrayType { .. }
        | Class::RecordType
        | Class::GenericType
        | Class::Subtype { .. } => Role::Mark,
        Class::RecordElement => Role::Element,
        _ => Role::Nothing,
    }
}

/// What a declaration is to a name, where there is one.
pub fn role_of(declarations: &[Declaration], number: Option<DeclId>) -> Role
    ensures { (revision : Revision) → read_role result ≡ role_in (table revision declarations.now) number }
{
    match number {
        None => Role::Nothing,
        Some(id) => role_by_class(class_of(declarations, id.number())),
    }
}
