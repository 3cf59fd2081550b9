//! What 'image and `to_string` write.

ghost use Rattle.std.specs.Prelude.{◌≡◌, IfOk, map, Vec};
ghost use Rattle.std.specs.Global.{Global};
ghost use Rattle.vd_composites.specs.Answers.{Answers};
ghost use Rattle.vd_operators.specs.Texts.{character_of, image_of, small, text as text_value, written};

use crate::arithmetic::as_integer;
use std::alloc::{AllocError, Global};
use vd_composites::{Value, ValueEnd};
use vd_values::{Logic, Scalar, StopKind};
use vd_vectors::LogicType;
use vd_vectors::logics::{as_logic, as_logics, bounds_from_one};

/// A literal of an enumeration type.
#[derive(Drop)]
pub enum LiteralName {
    Character(u8),
    /// An identifier.
    Word(Vec<u8>),
}

/// What is written.
#[derive(Drop)]
pub enum TextOperator {
    /// 'image or `to_string` of INTEGER.
    IntegerText,
    /// 'image of an enumeration type with these literals, or `to_string` of BOOLEAN.
    LiteralText(Vec<LiteralName>),
    /// `to_string` of STD_ULOGIC.
    LogicText,
    /// `to_string` of STD_ULOGIC_VECTOR.
    LogicsText,
}

/// A text as a value of STRING.
fn text(alloc: Global, codes: &[u8]) -> Result<Value, ValueEnd>
    ensures { Answers result (text_value codes.now) }
{
    match bounds_from_one(codes.len()) {
        Ok(bounds) => Value::of_literals(alloc, bounds, codes),
        Err(kind) => Err(ValueEnd::Stop(kind)),
    }
}

/// The digits of an integer.
fn integer_text(alloc: Global, value: &Value) -> Result<Value, ValueEnd>
    ensures { Answers result (written TextOperator.IntegerText value.now) }
{
    let x = match as_integer(value) {
        Ok(x) => x,
        Err(kind) => return Err(ValueEnd::Stop(kind)),
    };
    match format!(in alloc; "{x}") {
        Ok(digits) => text(alloc, digits.as_bytes()),
        Err(_) => Err(ValueEnd::Memory),
    }
}

/// A letter of ASCII as a small one.
fn small_letter(code: u8) -> u8
    ensures { result ≡ small code }
{
    if code >= b'A' && code <= b'Z' {
        code + 32
    } else {
        code
    }
}

/// A word in small letters.
fn small_word(alloc: Global, word: &[u8]) -> Result<Vec<u8>, AllocError>
    ensures { IfOk result (λ made. made.items ≡ map small word.now) }
{
    word.iter().map(|code| small_letter(*code)).collect(alloc)
}

/// A literal as it is written.
fn image(alloc: Global, name: &LiteralName) -> Result<Vec<u8>, AllocError>
    ensures { IfOk result (λ made. made.items ≡ image_of name.now) }
{
    match name {
        LiteralName::Character(code) => Vec::from_slice(alloc, &[b'\'', *code, b'\'']),
        LiteralName::Word(word) => small_word(alloc, word),
    }
}

/// A literal by its position among some.
fn literal_text(alloc: Global, names: &[LiteralName], value: &Value) -> Result<Value, ValueEnd>
    ensures { (ns : Vec LiteralName Global) → ns.items ≡ names.now → Answers result (written (TextOperator.LiteralText ns) value.now) }
{
    let Some(Scalar::Literal(position)) = value.as_scalar() else {
        return Err(ValueEnd::Stop(StopKind::Range));
    };
    let Some(name) = names.get(position as usize) else {
        return Err(ValueEnd::Stop(StopKind::Range));
    };
    match image(alloc, name) {
        Ok(codes) => text(alloc, &codes),
        Err(_) => Err(ValueEnd::Memory),
    }
}

/// The character of a value of STD_ULOGIC.
fn character(value: Logic) -> u8
    ensures { result ≡ character_of value }
{
    match value {
        Logic::U => b'U',
        Logic::X => b'X',
        Logic::Zero => b'0',
        Logic::One => b'1',
        Logic::Z => b'Z',
        Logic::W => b'W',
        Logic::L => b'L',
        Logic::H => b'H',
        Logic::Dash => b'-',
    }
}

/// The character of a value.
fn logic_text(alloc: Global, value: &Value) -> Result<Value, ValueEnd>
    ensures { Answers result (written TextOperator.LogicText value.now) }
{
    match as_logic(LogicType::NineValued, value) {
        Ok(a) => text(alloc, &[character(a)]),
        Err(kind) => Err(ValueEnd::Stop(kind)),
    }
}

/// The characters of some values.
fn characters(alloc: Global, values: &[Logic]) -> Result<Vec<u8>, AllocError>
    ensures { IfOk result (λ made. made.items ≡ map character_of values.now) }
{
    values.iter().map(|value| character(*value)).collect(alloc)
}

/// The characters of a vector.
fn logics_text(alloc: Global, value: &Value) -> Result<Value, ValueEnd>
    ensures { Answers result (written TextOperator.LogicsText value.now) }
{
    let values = as_logics(alloc, LogicType::NineValued, value)?;
    match characters(alloc, &values) {
        Ok(codes) => text(alloc, &codes),
        Err(_) => Err(ValueEnd::Memory),
    }
}

/// What 'image and `to_string` write of a value.
pub fn write_text(alloc: Global, operator: &TextOperator, value: &Value) -> Result<Value, ValueEnd>
    ensures { Answers result (written operator.now value.now) }
{
    match operator {
        TextOperator::IntegerText => integer_text(alloc, value),
        TextOperator::LiteralText(names) => literal_text(alloc, names, value),
        TextOperator::LogicText => logic_text(alloc, value),
        TextOperator::LogicsText => logics_text(alloc, value),
    }
}
