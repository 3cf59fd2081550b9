//! Operator symbols, and the names of given functions. (IEEE 1076, operators; IEEE 1164.)

ghost use Rattle.std.specs.Prelude.{◌≡◌, drop};
ghost use Rattle.vd_meaning.specs.Operators.{symbol as symbol_meant, symbol_in, symbols};
ghost use Rattle.vd_operations.specs.Readings.{read_symbol};

use vd_vectors::{LogicalOperator, Relation, ShiftOperator};

/// What an operator or a given function is named by.
#[derive(Clone, Copy, PartialEq, Eq, Debug)]
pub enum Symbol {
    Logical(LogicalOperator),
    /// `not`.
    Negation,
    /// `=`, and `/=` where it isn't equality that is asked for.
    Equality(bool),
    Order(Relation),
    Shift(ShiftOperator),
    Plus,
    Minus,
    /// `&`.
    Join,
    Times,
    Over,
    Modulus,
    Remainder,
    Power,
    Absolute,
    /// `??`.
    Condition,
    /// `?=`, and `?/=` where it isn't equality that is asked for.
    Match(bool),
    MatchOrder(Relation),
    /// `to_string`.
    Text,
    /// `rising_edge`, and `falling_edge` where it isn't a rise that is asked for.
    Edge(bool),
    NoSymbol,
}

/// The matching operators, `??`, and the functions.
fn last_symbol(name: &[u8]) -> Symbol
    ensures { read_symbol result ≡ symbol_in (drop 28 symbols) name.now }
{
    if b"\"??\"".as_slice() == name {
        Symbol::Condition
    } else if b"\"?=\"".as_slice() == name {
        Symbol::Match(true)
    } else if b"\"?/=\"".as_slice() == name {
        Symbol::Match(false)
    } else if b"\"?<\"".as_slice() == name {
        Symbol::MatchOrder(Relation::IsLess)
    } else if b"\"?<=\"".as_slice() == name {
        Symbol::MatchOrder(Relation::IsAtMost)
    } else if b"\"?>\"".as_slice() == name {
        Symbol::MatchOrder(Relation::IsGreater)
    } else if b"\"?>=\"".as_slice() == name {
        Symbol::MatchOrder(Relation::IsAtLeast)
    } else if b"to_string".as_slice() == name {
        Symbol::Text
    } else if b"rising_edge".as_slice() == name {
        Symbol::Edge(true)
    } else if b"falling_edge".as_slice() == name {
        Symbol::Edge(false)
    } else {
        Symbol::NoSymbol
    }
}

/// The operators on numbers, and what comes behind them.
fn number_symbol(name: &[u8]) -> Symbol
    ensures { read_symbol result ≡ symbol_in (drop 19 symbols) name.now }
{
    if b"\"+\"".as_slice() == name {
        Symbol::Plus
    } else if b"\"-\"".as_slice() == name {
        Symbol::Minus
    } else if b"\"&\"".as_slice() == name {
        Symbol::Join
    } else if b"\"*\"".as_slice() == name {
        Symbol::Times
    } else if b"\"/\"".as_slice() == name {
        Symbol::Over
    } else if b"\"mod\"".as_slice() == name {
        Symbol::Modulus
    } else if b"\"rem\"".as_slice() == name {
        Symbol::Remainder
    } else if b"\"**\"".as_slice() == name {
        Symbol::Power
    } else if b"\"abs\"".as_slice() == name {
        Symbol::Absolute
    } else {
        last_symbol(name)
    }
}

/// The orders and shifts, and what comes behind them.
fn order_symbol(name: &[u8]) -> Symbol
    ensures { read_symbol result ≡ symbol_in (drop 9 symbols) name.now }
{
    if b"\"<\"".as_slice() == name {
        Symbol::Order(Relation::IsLess)
    } else if b"\"<=\"".as_slice() == name {
        Symbol::Order(Relation::IsAtMost)
    } else if b"\">\"".as_slice() == name {
        Symbol::Order(Relation::IsGreater)
    } else if b"\">=\"".as_slice() == name {
        Symbol::Order(Relation::IsAtLeast)
    } else if b"\"sll\"".as_slice() == name {
        Symbol::Shift(ShiftOperator::LogicalLeft)
    } else if b"\"srl\"".as_slice() == name {
        Symbol::Shift(ShiftOperator::LogicalRight)
    } else if b"\"sla\"".as_slice() == name {
        Symbol::Shift(ShiftOperator::ArithmeticLeft)
    } else if b"\"sra\"".as_slice() == name {
        Symbol::Shift(ShiftOperator::ArithmeticRight)
    } else if b"\"rol\"".as_slice() == name {
        Symbol::Shift(ShiftOperator::RotateLeft)
    } else if b"\"ror\"".as_slice() == name {
        Symbol::Shift(ShiftOperator::RotateRight)
    } else {
        number_symbol(name)
    }
}

/// The symbol under which an operator or a given function is declared.
pub fn symbol_named(name: &[u8]) -> Symbol
    ensures { read_symbol result ≡ symbol_meant name.now }
{
    if b"\"and\"".as_slice() == name {
        Symbol::Logical(LogicalOperator::And)
    } else if b"\"or\"".as_slice() == name {
        Symbol::Logical(LogicalOperator::Or)
    } else if b"\"nand\"".as_slice() == name {
        Symbol::Logical(LogicalOperator::Nand)
    } else if b"\"nor\"".as_slice() == name {
        Symbol::Logical(LogicalOperator::Nor)
    } else if b"\"xor\"".as_slice() == name {
        Symbol::Logical(LogicalOperator::Xor)
    } else if b"\"xnor\"".as_slice() == name {
        Symbol::Logical(LogicalOperator::Xnor)
    } else if b"\"not\"".as_slice() == name {
        Symbol::Negation
    } else if b"\"=\"".as_slice() == name {
        Symbol::Equality(true)
    } else if b"\"/=\"".as_slice() == name {
        Symbol::Equality(false)
    } else {
        order_symbol(name)
    }
}
