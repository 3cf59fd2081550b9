//! Operators that a locally static expression may have. (IEEE 1076, static expressions.)

ghost use Rattle.std.specs.Prelude.{◌≡◌};
ghost use Rattle.vd_meaning.specs.Operators.{is_local_of, is_local_of_one, is_local_of_two, is_local_operator as is_local, is_local_text as is_text_local, symbol};
ghost use Rattle.vd_meaning.specs.Tables.{operand_types, same_type as are_same, table};
ghost use Rattle.vd_operations.specs.Readings.{read_sort, read_symbol};
ghost use Rattle.vd_trees.specs.declared.revision.Revision.{Revision};

use vd_declarations::{Class, Declaration, TypeId};
use vd_operations::tables::{name_of, parameters_of};
use vd_operations::{Sort, Symbol, class_of, mark_of, sort_of, symbol_named};
use vd_vectors::LogicType;

/// `to_string`: of INTEGER and BOOLEAN alone.
fn is_local_text(sort: Sort) -> bool
    ensures { result ≡ is_text_local (read_sort sort) }
{
    matches!(sort, Sort::Integers | Sort::Logic(LogicType::TwoValued))
}

/// With one operand. Reductions never are.
fn is_local_on_one(symbol: Symbol, sort: Sort) -> bool
    ensures { result ≡ is_local_of_one (read_symbol symbol) (read_sort sort) }
{
    match symbol {
        Symbol::Logical(_) => false,
        Symbol::Text => is_local_text(sort),
        Symbol::Edge(_) => false,
        _ => true,
    }
}

/// Whether two operands are of one type.
fn same_type(left: Option<TypeId>, right: Option<TypeId>) -> bool
    ensures { result ≡ are_same left right }
{
    match (left, right) {
        (Some(left), Some(right)) => left.number() == right.number(),
        _ => false,
    }
}

/// With two operands: logical operators on operands of one type, no matching ones.
fn is_local_on_two(symbol: Symbol, left: Option<TypeId>, right: Option<TypeId>) -> bool
    ensures { result ≡ is_local_of_two (read_symbol symbol) left right }
{
    match symbol {
        Symbol::Logical(_) => same_type(left, right),
        Symbol::Match(_) => false,
        Symbol::MatchOrder(_) => false,
        _ => true,
    }
}

/// An operator that a type brings with it, with these operands.
fn is_local_on_operands(declarations: &[Declaration], number: u32) -> bool
    ensures { (revision : Revision) → let t = table revision declarations.now in
        result ≡ is_local_of t (symbol (t.declared number).name) (operand_types t number) }
{
    let symbol = symbol_named(name_of(declarations, number));
    let parameters = parameters_of(declarations, number);
    if parameters.len() == 1 {
        let one = parameters[0];
        let operand = mark_of(declarations, one.number());
        is_local_on_one(symbol, sort_of(declarations, operand))
    } else if parameters.len() == 2 {
        let left = parameters[0];
        let right = parameters[1];
        let l = mark_of(declarations, left.number());
        let r = mark_of(declarations, right.number());
        is_local_on_two(symbol, l, r)
    } else {
        false
    }
}

/// Whether it is an operator that a locally static expression may have.
pub fn is_local_operator(declarations: &[Declaration], number: u32) -> bool
    ensures { (revision : Revision) → result ≡ is_local (table revision declarations.now) number }
{
    matches!(class_of(declarations, number), Class::PredefinedOperator)
        && is_local_on_operands(declarations, number)
}
