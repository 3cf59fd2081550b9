//! Types and operators by the names that the table has for them.

use std::alloc::{AllocError, Global};
use vd_composites::{Bounds, ScalarSubtype, ScalarType};
use vd_operators::{IntegerOperator, LiteralName, Side, SignOperator};
use vd_vectors::{LogicType, LogicalOperator, Relation, ShiftOperator};

/// The logical type of a scalar or of an array's elements.
pub fn logic_type(kind: &str) -> LogicType {
    match kind {
        "ulogic" | "ulogics" => LogicType::NineValued,
        _ => LogicType::TwoValued,
    }
}

/// A scalar type, or that of an array's elements.
pub fn scalar_type(kind: &str) -> ScalarType {
    match kind {
        "time" => ScalarType::Times,
        "bit" | "bits" | "boolean" | "booleans" => ScalarType::Enumeration(2),
        "colour" | "colours" => ScalarType::Enumeration(4),
        "ulogic" | "ulogics" => ScalarType::Enumeration(9),
        "character" | "string" => ScalarType::Enumeration(256),
        _ => ScalarType::Integers,
    }
}

/// The subtype of all values of a type.
pub fn whole(of_type: ScalarType) -> ScalarSubtype {
    let (left, right) = match of_type {
        ScalarType::Integers => (-2147483647, 2147483647),
        ScalarType::Enumeration(count) => (0, i64::from(count) - 1),
        ScalarType::Times => (0, i64::MAX),
    };
    ScalarSubtype {
        of_type,
        range: Bounds {
            left,
            right,
            down: false,
        },
    }
}

/// The index subtype of an array type.
pub fn index_of(kind: &str) -> ScalarSubtype {
    let (left, right) = match kind {
        "integers" => (-2147483647, 2147483647),
        "string" => (1, 2147483647),
        "few" => (5, 7),
        _ => (0, 2147483647),
    };
    ScalarSubtype {
        of_type: ScalarType::Integers,
        range: Bounds {
            left,
            right,
            down: false,
        },
    }
}

pub fn integer_operator(word: &str) -> Option<IntegerOperator> {
    match word {
        "+" => Some(IntegerOperator::Add),
        "-" => Some(IntegerOperator::Subtract),
        "*" => Some(IntegerOperator::Multiply),
        "/" => Some(IntegerOperator::Divide),
        "rem" => Some(IntegerOperator::Remainder),
        "mod" => Some(IntegerOperator::Modulus),
        "**" => Some(IntegerOperator::Power),
        _ => None,
    }
}

pub fn sign_operator(word: &str) -> Option<SignOperator> {
    match word {
        "identity" => Some(SignOperator::Identity),
        "negate" => Some(SignOperator::Negation),
        "abs" => Some(SignOperator::Absolute),
        _ => None,
    }
}

pub fn logical_operator(word: &str) -> Option<LogicalOperator> {
    match word {
        "and" => Some(LogicalOperator::And),
        "or" => Some(LogicalOperator::Or),
        "nand" => Some(LogicalOperator::Nand),
        "nor" => Some(LogicalOperator::Nor),
        "xor" => Some(LogicalOperator::Xor),
        "xnor" => Some(LogicalOperator::Xnor),
        _ => None,
    }
}

pub fn shift_operator(word: &str) -> Option<ShiftOperator> {
    match word {
        "sll" => Some(ShiftOperator::LogicalLeft),
        "srl" => Some(ShiftOperator::LogicalRight),
        "sla" => Some(ShiftOperator::ArithmeticLeft),
        "sra" => Some(ShiftOperator::ArithmeticRight),
        "rol" => Some(ShiftOperator::RotateLeft),
        "ror" => Some(ShiftOperator::RotateRight),
        _ => None,
    }
}

pub fn relation(word: &str) -> Option<Relation> {
    match word {
        "<" => Some(Relation::IsLess),
        "<=" => Some(Relation::IsAtMost),
        ">" => Some(Relation::IsGreater),
        ">=" => Some(Relation::IsAtLeast),
        _ => None,
    }
}

pub fn side(word: &str) -> Option<Side> {
    match word {
        "'left" => Some(Side::LeftSide),
        "'right" => Some(Side::RightSide),
        "'high" => Some(Side::HighSide),
        "'low" => Some(Side::LowSide),
        _ => None,
    }
}

/// Character literals.
fn characters(alloc: Global, codes: &[u8]) -> Result<Vec<LiteralName>, AllocError> {
    let mut names = Vec::new(alloc);
    for code in codes {
        names.push(LiteralName::Character(*code))?;
    }
    Ok(names)
}

/// Identifiers.
fn words(alloc: Global, texts: &[&str]) -> Result<Vec<LiteralName>, AllocError> {
    let mut names = Vec::new(alloc);
    for text in texts {
        names.push(LiteralName::Word(Vec::from_slice(alloc, text.as_bytes())?))?;
    }
    Ok(names)
}

/// The first 128 literals of CHARACTER, of whose control characters only NUL and DEL have their names here.
fn ascii(alloc: Global) -> Result<Vec<LiteralName>, AllocError> {
    let mut names = words(alloc, &["NUL"])?;
    for code in 1..127 {
        names.push(LiteralName::Character(code))?;
    }
    names.push(LiteralName::Word(Vec::from_slice(alloc, b"Del")?))?;
    Ok(names)
}

/// The literals of a type, identifiers with letters of both cases.
pub fn literals(alloc: Global, kind: &str) -> Result<Vec<LiteralName>, AllocError> {
    match kind {
        "boolean" => words(alloc, &["FALSE", "True"]),
        "bit" => characters(alloc, b"01"),
        "ulogic" => characters(alloc, b"UX01ZWLH-"),
        "character" => ascii(alloc),
        _ => {
            let mut names = words(alloc, &["red", "Green", "BLUE"])?;
            names.push(LiteralName::Character(b'x'))?;
            Ok(names)
        }
    }
}
