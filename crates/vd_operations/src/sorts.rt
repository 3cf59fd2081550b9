//! Sorts of types, as operators tell them apart.

ghost use Rattle.std.specs.Prelude.{◌≡◌};
ghost use Rattle.vd_meaning.specs.Tables.{logic_type as logic_type_of, sort_of as sort_of_type, sort_of_composite, sort_of_scalar, table};
ghost use Rattle.vd_trees.specs.declared.revision.Revision.{Revision};
ghost use Rattle.vd_operations.specs.Readings.{read_sort};

use crate::tables::class_of;
use vd_declarations::{Class, Declaration, TypeId};
use vd_predefined::numbers::{BIT, BOOLEAN, INTEGER, STD_ULOGIC, TIME};
use vd_vectors::LogicType;

/// What a type is to an operator.
#[derive(Clone, Copy, PartialEq, Eq, Debug)]
pub enum Sort {
    Integers,
    Times,
    /// BIT, BOOLEAN and STD_ULOGIC, and arrays of them.
    Logic(LogicType),
    Logics(LogicType),
    Others,
}

/// The logical type of a number.
fn logic_type(number: u32) -> Option<LogicType>
    ensures { result ≡ logic_type_of number }
{
    if number == BIT || number == BOOLEAN {
        Some(LogicType::TwoValued)
    } else if number == STD_ULOGIC {
        Some(LogicType::NineValued)
    } else {
        None
    }
}

/// The sort of an array type.
fn sort_of_class(class: Class) -> Sort
    ensures { read_sort result ≡ sort_of_composite class }
{
    match class {
        Class::ArrayType { element, .. } => match logic_type(element.number()) {
            Some(of) => Sort::Logics(of),
            None => Sort::Others,
        },
        _ => Sort::Others,
    }
}

/// The sort of a type.
pub fn sort_of(declarations: &[Declaration], mark: Option<TypeId>) -> Sort
    ensures { (revision : Revision) → read_sort result ≡ sort_of_type (table revision declarations.now) mark }
{
    let Some(mark) = mark else {
        return Sort::Others;
    };
    let number = mark.number();
    if let Some(of) = logic_type(number) {
        return Sort::Logic(of);
    }
    if number == INTEGER {
        Sort::Integers
    } else if number == TIME {
        Sort::Times
    } else {
        sort_of_class(class_of(declarations, number))
    }
}
