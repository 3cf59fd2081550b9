//! What an operator or a given function does, by its symbol and the types of its operands. (IEEE 1076, operators; IEEE 1164.)

ghost use Rattle.std.specs.Prelude.{◌≡◌, ◌∷◌, []};
ghost use Rattle.vd_meaning.specs.Operators.{difference_of, logical_of, of_one, of_pair, of_two, operation as operation_meant, operand_kind as kind_of_operand, product_of, quotient_of, sum_of};
ghost use Rattle.vd_meaning.specs.Tables.{table, same_type as are_same};
ghost use Rattle.vd_operations.specs.Readings.{read_operation, read_sort, read_symbol};

use crate::sorts::{Sort, sort_of};
use crate::symbols::{Symbol, symbol_named};
use crate::tables::{mark_of, name_of, parameters_of};
use vd_declarations::{Declaration, TypeId};
use vd_operators::{
    BinaryOp, IntegerOperator, Op, SignOperator, TextOperator, TimeOperator, UnaryOp,
};
use vd_subtypes::OperandKind;
use vd_trees::Revision;
use vd_vectors::{LogicType, LogicalOperator};

/// What is done with the operands.
#[derive(Drop)]
pub enum Operation {
    /// All are evaluated, from the left.
    Apply(Op),
    /// The right one is evaluated only where the left one doesn't decide.
    Lazily(LogicalOperator),
    /// `&` of arrays and elements.
    Join(OperandKind, OperandKind),
    /// `to_string` of BOOLEAN.
    TruthText,
    /// Of a signal.
    Edge(bool),
    Nothing,
}

/// An operator on one operand.
fn with_one(operator: UnaryOp) -> Operation
    ensures { result ≡ Operation.Apply (Op.Unary operator) }
{
    Operation::Apply(Op::Unary(operator))
}

/// An operator on two operands.
fn with_two(operator: BinaryOp) -> Operation
    ensures { result ≡ Operation.Apply (Op.Binary operator) }
{
    Operation::Apply(Op::Binary(operator))
}

/// A logical operator with one operand, an array.
fn reduced_by(operator: LogicalOperator, sort: Sort) -> Operation
    ensures { read_operation result ≡ Rattle.vd_meaning.specs.Operators.reduced_by operator (read_sort sort) }
{
    match sort {
        Sort::Logics(of) => with_one(UnaryOp::Reduction(operator, of)),
        _ => Operation::Nothing,
    }
}

/// `not`.
fn negated_by(sort: Sort) -> Operation
    ensures { read_operation result ≡ Rattle.vd_meaning.specs.Operators.negated_by (read_sort sort) }
{
    match sort {
        Sort::Logic(of) | Sort::Logics(of) => with_one(UnaryOp::Not(of)),
        _ => Operation::Nothing,
    }
}

/// `??`.
fn condition_of(sort: Sort) -> Operation
    ensures { read_operation result ≡ Rattle.vd_meaning.specs.Operators.condition_of (read_sort sort) }
{
    match sort {
        Sort::Logic(of) => with_one(UnaryOp::Condition(of)),
        _ => Operation::Nothing,
    }
}

/// `to_string`.
fn text_of(sort: Sort) -> Operation
    ensures { read_operation result ≡ Rattle.vd_meaning.specs.Operators.text_of (read_sort sort) }
{
    match sort {
        Sort::Integers => with_one(UnaryOp::Text(TextOperator::IntegerText)),
        Sort::Logic(LogicType::TwoValued) => Operation::TruthText,
        Sort::Logic(LogicType::NineValued) => with_one(UnaryOp::Text(TextOperator::LogicText)),
        Sort::Logics(LogicType::NineValued) => with_one(UnaryOp::Text(TextOperator::LogicsText)),
        _ => Operation::Nothing,
    }
}

/// With one operand.
fn on_one(symbol: Symbol, sort: Sort) -> Operation
    ensures { read_operation result ≡ of_one (read_symbol symbol) (read_sort sort) }
{
    match symbol {
        Symbol::Plus => with_one(UnaryOp::Sign(SignOperator::Identity)),
        Symbol::Minus => with_one(UnaryOp::Sign(SignOperator::Negation)),
        Symbol::Absolute => with_one(UnaryOp::Sign(SignOperator::Absolute)),
        Symbol::Negation => negated_by(sort),
        Symbol::Logical(operator) => reduced_by(operator, sort),
        Symbol::Condition => condition_of(sort),
        Symbol::Text => text_of(sort),
        Symbol::Edge(rising) => Operation::Edge(rising),
        _ => Operation::Nothing,
    }
}

/// Whether the right operand is evaluated only where it is needed, on BIT and BOOLEAN.
fn is_lazy(operator: LogicalOperator) -> bool
    ensures { result ≡ Rattle.vd_meaning.specs.Operators.is_lazy operator }
{
    !matches!(operator, LogicalOperator::Xor | LogicalOperator::Xnor)
}

/// A logical operator with two operands.
fn logical(operator: LogicalOperator, left: Sort, right: Sort) -> Operation
    ensures { read_operation result ≡ logical_of operator (read_sort left) (read_sort right) }
{
    match (left, right) {
        (Sort::Logic(LogicType::TwoValued), Sort::Logic(LogicType::TwoValued)) => {
            if is_lazy(operator) {
                Operation::Lazily(operator)
            } else {
                with_two(BinaryOp::Logical(operator, LogicType::TwoValued))
            }
        }
        (Sort::Logic(of) | Sort::Logics(of), _) => with_two(BinaryOp::Logical(operator, of)),
        _ => Operation::Nothing,
    }
}

/// `+`.
fn sum(left: Sort) -> Operation
    ensures { read_operation result ≡ sum_of (read_sort left) }
{
    match left {
        Sort::Times => with_two(BinaryOp::Time(TimeOperator::TimeAdd)),
        _ => with_two(BinaryOp::Integer(IntegerOperator::Add)),
    }
}

/// `-`.
fn difference(left: Sort) -> Operation
    ensures { read_operation result ≡ difference_of (read_sort left) }
{
    match left {
        Sort::Times => with_two(BinaryOp::Time(TimeOperator::TimeSubtract)),
        _ => with_two(BinaryOp::Integer(IntegerOperator::Subtract)),
    }
}

/// `*`.
fn product(left: Sort, right: Sort) -> Operation
    ensures { read_operation result ≡ product_of (read_sort left) (read_sort right) }
{
    match (left, right) {
        (Sort::Times, _) => with_two(BinaryOp::Time(TimeOperator::TimesInteger)),
        (_, Sort::Times) => with_two(BinaryOp::Time(TimeOperator::IntegerTimes)),
        _ => with_two(BinaryOp::Integer(IntegerOperator::Multiply)),
    }
}

/// `/`.
fn quotient(left: Sort) -> Operation
    ensures { read_operation result ≡ quotient_of (read_sort left) }
{
    match left {
        Sort::Times => with_two(BinaryOp::Time(TimeOperator::DividedByInteger)),
        _ => with_two(BinaryOp::Integer(IntegerOperator::Divide)),
    }
}

/// A shift of an array, or a matching operator on scalars or arrays.
fn on_logics(symbol: Symbol, left: Sort) -> Operation
    ensures { read_operation result ≡ Rattle.vd_operations.specs.Readings.on_logics (read_symbol symbol) (read_sort left) }
{
    match (symbol, left) {
        (Symbol::Shift(operator), Sort::Logics(of)) => with_two(BinaryOp::Shift(operator, of)),
        (Symbol::Match(equal), Sort::Logic(of) | Sort::Logics(of)) => {
            with_two(BinaryOp::Matching(equal, of))
        }
        _ => Operation::Nothing,
    }
}

/// The operators on numbers with two operands.
fn on_numbers(symbol: Symbol, left: Sort, right: Sort) -> Operation
    ensures { read_operation result ≡ Rattle.vd_operations.specs.Readings.on_numbers (read_symbol symbol) (read_sort left) (read_sort right) }
{
    match symbol {
        Symbol::Plus => sum(left),
        Symbol::Minus => difference(left),
        Symbol::Times => product(left, right),
        Symbol::Over => quotient(left),
        Symbol::Modulus => with_two(BinaryOp::Integer(IntegerOperator::Modulus)),
        Symbol::Remainder => with_two(BinaryOp::Integer(IntegerOperator::Remainder)),
        Symbol::Power => with_two(BinaryOp::Integer(IntegerOperator::Power)),
        _ => on_logics(symbol, left),
    }
}

/// With two operands, but for `&`.
fn on_two(symbol: Symbol, left: Sort, right: Sort) -> Operation
    ensures { read_operation result ≡ of_two (read_symbol symbol) (read_sort left) (read_sort right) }
{
    match symbol {
        Symbol::Logical(operator) => logical(operator, left, right),
        Symbol::Equality(equal) => with_two(BinaryOp::Equality(equal)),
        Symbol::Order(relation) => with_two(BinaryOp::Order(relation)),
        Symbol::MatchOrder(relation) => with_two(BinaryOp::MatchingOrder(relation)),
        _ => on_numbers(symbol, left, right),
    }
}

/// Whether an operand of `&` is of the type of the result, or an element.
fn operand_kind(of_result: &Option<TypeId>, operand: &Option<TypeId>) -> OperandKind
    ensures { result ≡ kind_of_operand of_result.now operand.now }
{
    match (of_result, operand) {
        (Some(m), Some(n)) if m.number() == n.number() => OperandKind::WholeArray,
        _ => OperandKind::OneElement,
    }
}

/// With two operands, of which `&` asks what they are.
fn on_kinds(symbol: Symbol, kinds: (OperandKind, OperandKind), left: Sort, right: Sort) -> Operation
    ensures { read_operation result ≡ of_pair (read_symbol symbol) kinds.0 kinds.1 (read_sort left) (read_sort right) }
{
    match symbol {
        Symbol::Join => Operation::Join(kinds.0, kinds.1),
        _ => on_two(symbol, left, right),
    }
}

/// What an operator or a given function does.
pub fn operation_of(declarations: &[Declaration], number: u32) -> Operation
    ensures { (revision : Revision) → read_operation result ≡ operation_meant (table revision declarations.now) number }
{
    let symbol = symbol_named(name_of(declarations, number));
    let parameters = parameters_of(declarations, number);
    if parameters.len() == 1 {
        let one = parameters[0];
        let operand = mark_of(declarations, one.number());
        on_one(symbol, sort_of(declarations, operand))
    } else if parameters.len() == 2 {
        let left = parameters[0];
        let right = parameters[1];
        let of_result = mark_of(declarations, number);
        let l = mark_of(declarations, left.number());
        let r = mark_of(declarations, right.number());
        let kinds = (operand_kind(&of_result, &l), operand_kind(&of_result, &r));
        on_kinds(
            symbol,
            kinds,
            sort_of(declarations, l),
            sort_of(declarations, r),
        )
    } else {
        Operation::Nothing
    }
}
