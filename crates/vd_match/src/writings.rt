//! How the operators that revision 2019 has alone are written in the text of 1993: one table for all of them, whatever form calls them.

ghost use Rattle.std.specs.Prelude.{◌≡◌};
ghost use Rattle.vd_meaning.specs.Tables.{table};
ghost use Rattle.vd_operations.specs.Readings.{read_sort, read_symbol};
ghost use Rattle.vd_trees.specs.declared.revision.Revision.TheVariants.{V2019};
ghost use Rattle.vd_match.specs.Writings.{by_one, by_two, called_by, is_negated, logical_by, matched_by, matching, mixed, ordered, reducing, shifted, text_by, writing_at, writing_by, writing_of};

use crate::support::Function;
use vd_declarations::{DeclId, Declaration};
use vd_operations::sorts::{Sort, sort_of};
use vd_operations::symbols::{Symbol, symbol_named};
use vd_operations::tables::{is_predefined, mark_of, name_of, parameters_of};
use vd_trees::Revision;
use vd_vectors::{LogicType, LogicalOperator, Relation, ShiftOperator};

/// How the call of an operator is written.
#[derive(Clone, Copy, PartialEq, Eq, Debug)]
pub enum Writing {
    /// As it is.
    Kept,
    /// As a call of a function of the support package.
    Call(Function),
    /// As `not` of such a call.
    NegatedCall(Function),
    /// As `not` of `xor`.
    NegatedXor,
    /// As a comparison with the literal '1' of BIT.
    IsOne,
    /// As `integer'image` and `boolean'image`.
    IntegerImage,
    TruthImage,
}

/// Whether a logical operator is `not` of another one.
fn is_negated(operator: LogicalOperator) -> bool
    ensures { result ≡ is_negated operator }
{
    matches!(
        operator,
        LogicalOperator::Nand | LogicalOperator::Nor | LogicalOperator::Xnor
    )
}

/// The call of a function, or `not` of it.
fn called_by(operator: LogicalOperator, function: Function) -> Writing
    ensures { result ≡ called_by operator function }
{
    if is_negated(operator) {
        Writing::NegatedCall(function)
    } else {
        Writing::Call(function)
    }
}

/// The function for a logical operator that reduces an array, or for the one that it is `not` of.
fn reducing(operator: LogicalOperator, of: LogicType) -> Function
    ensures { result ≡ reducing operator of }
{
    match (operator, of) {
        (LogicalOperator::And | LogicalOperator::Nand, LogicType::NineValued) => Function::AndAll,
        (LogicalOperator::Or | LogicalOperator::Nor, LogicType::NineValued) => Function::OrAll,
        (LogicalOperator::Xor | LogicalOperator::Xnor, LogicType::NineValued) => Function::XorAll,
        (LogicalOperator::And | LogicalOperator::Nand, LogicType::TwoValued) => {
            Function::AndAllBits
        }
        (LogicalOperator::Or | LogicalOperator::Nor, LogicType::TwoValued) => Function::OrAllBits,
        (LogicalOperator::Xor | LogicalOperator::Xnor, LogicType::TwoValued) => {
            Function::XorAllBits
        }
    }
}

/// The function for a logical operator between an array and a scalar of STD_ULOGIC.
fn mixed_nine(operator: LogicalOperator, is_left: bool) -> Function
    ensures { result ≡ mixed operator LogicType.NineValued is_left }
{
    match (operator, is_left) {
        (LogicalOperator::And | LogicalOperator::Nand, true) => Function::AndVectorScalar,
        (LogicalOperator::Or | LogicalOperator::Nor, true) => Function::OrVectorScalar,
        (LogicalOperator::Xor | LogicalOperator::Xnor, true) => Function::XorVectorScalar,
        (LogicalOperator::And | LogicalOperator::Nand, false) => Function::AndScalarVector,
        (LogicalOperator::Or | LogicalOperator::Nor, false) => Function::OrScalarVector,
        (LogicalOperator::Xor | LogicalOperator::Xnor, false) => Function::XorScalarVector,
    }
}

/// The same of BIT.
fn mixed_two(operator: LogicalOperator, is_left: bool) -> Function
    ensures { result ≡ mixed operator LogicType.TwoValued is_left }
{
    match (operator, is_left) {
        (LogicalOperator::And | LogicalOperator::Nand, true) => Function::AndBitVectorBit,
        (LogicalOperator::Or | LogicalOperator::Nor, true) => Function::OrBitVectorBit,
        (LogicalOperator::Xor | LogicalOperator::Xnor, true) => Function::XorBitVectorBit,
        (LogicalOperator::And | LogicalOperator::Nand, false) => Function::AndBitBitVector,
        (LogicalOperator::Or | LogicalOperator::Nor, false) => Function::OrBitBitVector,
        (LogicalOperator::Xor | LogicalOperator::Xnor, false) => Function::XorBitBitVector,
    }
}

/// The function for a logical operator between an array and a scalar, of which the array is the left one or not.
fn mixed(operator: LogicalOperator, of: LogicType, is_left: bool) -> Function
    ensures { result ≡ mixed operator of is_left }
{
    match of {
        LogicType::NineValued => mixed_nine(operator, is_left),
        LogicType::TwoValued => mixed_two(operator, is_left),
    }
}

/// A logical operator with two operands. Revision 1993 has all on BIT and BOOLEAN and arrays of them, and all but `xnor` of IEEE 1164.
fn logical_by(operator: LogicalOperator, left: Sort, right: Sort) -> Writing
    ensures { result ≡ logical_by operator (read_sort left) (read_sort right) }
{
    match (left, right) {
        (Sort::Logics(of), Sort::Logic(_)) => called_by(operator, mixed(operator, of, true)),
        (Sort::Logic(of), Sort::Logics(_)) => called_by(operator, mixed(operator, of, false)),
        (Sort::Logic(LogicType::NineValued) | Sort::Logics(LogicType::NineValued), _) => {
            match operator {
                LogicalOperator::Xnor => Writing::NegatedXor,
                _ => Writing::Kept,
            }
        }
        _ => Writing::Kept,
    }
}

/// The function for `?=`.
fn matching(of: LogicType, is_array: bool) -> Function
    ensures { result ≡ matching of is_array }
{
    match (of, is_array) {
        (LogicType::NineValued, false) => Function::Match,
        (LogicType::NineValued, true) => Function::MatchVectors,
        (LogicType::TwoValued, false) => Function::MatchBits,
        (LogicType::TwoValued, true) => Function::MatchBitVectors,
    }
}

/// `?=`, or `?/=`.
fn matched_by(is_equal: bool, function: Function) -> Writing
    ensures { result ≡ matched_by is_equal function }
{
    if is_equal {
        Writing::Call(function)
    } else {
        Writing::NegatedCall(function)
    }
}

/// A shift of an array of IEEE 1164.
fn shifted(operator: ShiftOperator) -> Writing
    ensures { result ≡ shifted operator }
{
    match operator {
        ShiftOperator::LogicalLeft => Writing::Call(Function::ShiftLeft),
        ShiftOperator::LogicalRight => Writing::Call(Function::ShiftRight),
        ShiftOperator::RotateLeft => Writing::Call(Function::RotateLeft),
        ShiftOperator::RotateRight => Writing::Call(Function::RotateRight),
        _ => Writing::Kept,
    }
}

/// A matching order of BIT.
fn ordered(relation: Relation) -> Writing
    ensures { result ≡ ordered relation }
{
    match relation {
        Relation::IsLess => Writing::Call(Function::BitLess),
        Relation::IsAtMost => Writing::Call(Function::BitAtMost),
        Relation::IsGreater => Writing::Call(Function::BitGreater),
        Relation::IsAtLeast => Writing::Call(Function::BitAtLeast),
    }
}

/// `to_string`.
fn text_by(sort: Sort) -> Writing
    ensures { result ≡ text_by (read_sort sort) }
{
    match sort {
        Sort::Integers => Writing::IntegerImage,
        Sort::Logic(LogicType::TwoValued) => Writing::TruthImage,
        Sort::Logic(LogicType::NineValued) => Writing::Call(Function::Text),
        Sort::Logics(LogicType::NineValued) => Writing::Call(Function::VectorText),
        _ => Writing::Kept,
    }
}

/// How an operator with one operand is written.
fn by_one(symbol: Symbol, sort: Sort) -> Writing
    ensures { result ≡ by_one (read_symbol symbol) (read_sort sort) }
{
    match (symbol, sort) {
        (Symbol::Condition, Sort::Logic(LogicType::NineValued)) => {
            Writing::Call(Function::Condition)
        }
        (Symbol::Condition, Sort::Logic(LogicType::TwoValued)) => Writing::IsOne,
        (Symbol::Logical(operator), Sort::Logics(of)) => {
            called_by(operator, reducing(operator, of))
        }
        (Symbol::Text, _) => text_by(sort),
        _ => Writing::Kept,
    }
}

/// How an operator with two operands is written.
fn by_two(symbol: Symbol, left: Sort, right: Sort) -> Writing
    ensures { result ≡ by_two (read_symbol symbol) (read_sort left) (read_sort right) }
{
    match (symbol, left) {
        (Symbol::Logical(operator), _) => logical_by(operator, left, right),
        (Symbol::Shift(operator), Sort::Logics(LogicType::NineValued)) => shifted(operator),
        (Symbol::Match(is_equal), Sort::Logic(of)) => matched_by(is_equal, matching(of, false)),
        (Symbol::Match(is_equal), Sort::Logics(of)) => matched_by(is_equal, matching(of, true)),
        (Symbol::MatchOrder(relation), Sort::Logic(LogicType::TwoValued)) => ordered(relation),
        _ => Writing::Kept,
    }
}

/// How an operator is written that has its meaning from the language.
fn writing_of(declarations: &[Declaration], number: u32) -> Writing
    ensures { result ≡ writing_of (table V2019 declarations.now) number }
{
    let symbol = symbol_named(name_of(declarations, number));
    let parameters = parameters_of(declarations, number);
    if parameters.len() == 1 {
        let one = parameters[0];
        let operand = mark_of(declarations, one.number());
        by_one(symbol, sort_of(declarations, operand))
    } else if parameters.len() == 2 {
        let left = parameters[0];
        let right = parameters[1];
        let l = mark_of(declarations, left.number());
        let r = mark_of(declarations, right.number());
        by_two(symbol, sort_of(declarations, l), sort_of(declarations, r))
    } else {
        Writing::Kept
    }
}

/// How a call of a function or operator is written: that of a user's function as it is.
fn writing_by(declarations: &[Declaration], number: u32) -> Writing
    ensures { result ≡ writing_by (table V2019 declarations.now) number }
{
    if is_predefined(Revision::V2019, declarations, number) {
        writing_of(declarations, number)
    } else {
        Writing::Kept
    }
}

/// How a call of what is declared so is written.
pub fn writing_at(declarations: &[Declaration], called: Option<DeclId>) -> Writing
    ensures { result ≡ writing_at (table V2019 declarations.now) called }
{
    match called {
        Some(number) => writing_by(declarations, number.number()),
        None => Writing::Kept,
    }
}
