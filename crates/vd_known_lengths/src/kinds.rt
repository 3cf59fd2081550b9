//! Kinds of expressions.

ghost use Rattle.std.specs.Prelude.{◌≡◌};
ghost use Rattle.vd_meaning.specs.Kinds.{kind};
ghost use Rattle.vd_known_lengths.specs.Kinds.{read_kind};
ghost use Rattle.vd_value_rules.specs.Lengths.{is_operator as is_of_operators, length_kind};

use vd_forms::Form;

/// What the length of an expression hangs on.
#[derive(Clone, Copy, PartialEq, Eq, Debug)]
pub(crate) enum Kind {
    Literal,
    Name,
    FirstPiece,
    Selection,
    Arguments,
    Attribute,
    Qualification,
    Joining,
    OfOperand,
    Brackets,
    Other,
}

/// The kind of a form.
pub(crate) fn kind_of(form: Form) -> Kind
    ensures { read_kind result ≡ length_kind form }
{
    match form {
        Form::Quoted | Form::Bits => Kind::Literal,
        Form::Name | Form::OperatorName => Kind::Name,
        Form::Identifier => Kind::FirstPiece,
        Form::Selection => Kind::Selection,
        Form::Arguments => Kind::Arguments,
        Form::Attribute => Kind::Attribute,
        Form::Qualification => Kind::Qualification,
        Form::Concatenate => Kind::Joining,
        Form::And | Form::Or | Form::Nand | Form::Nor | Form::Xor | Form::Xnor => Kind::OfOperand,
        Form::Not | Form::ShiftLeftLogical | Form::ShiftRightLogical => Kind::OfOperand,
        Form::ShiftLeftArithmetic | Form::ShiftRightArithmetic => Kind::OfOperand,
        Form::RotateLeft | Form::RotateRight => Kind::OfOperand,
        Form::Aggregate => Kind::Brackets,
        _ => Kind::Other,
    }
}

/// Whether nodes of a form are operators.
pub(crate) fn is_operator(form: Form) -> bool
    ensures { result ≡ is_of_operators (kind form) }
{
    match form {
        Form::Condition | Form::Nand | Form::Nor | Form::And | Form::Or | Form::Xor => true,
        Form::Xnor | Form::Equal | Form::Unequal | Form::Less | Form::AtMost => true,
        Form::Greater | Form::AtLeast | Form::MatchEqual | Form::MatchUnequal => true,
        Form::MatchLess | Form::MatchAtMost | Form::MatchGreater => true,
        Form::MatchAtLeast | Form::ShiftLeftLogical | Form::ShiftRightLogical => true,
        Form::ShiftLeftArithmetic | Form::ShiftRightArithmetic | Form::RotateLeft => true,
        Form::RotateRight | Form::Identity | Form::Negation | Form::Add => true,
        Form::Subtract | Form::Concatenate | Form::Multiply | Form::Divide => true,
        Form::Modulo | Form::Remainder | Form::Absolute | Form::Not => true,
        Form::AndReduction | Form::OrReduction | Form::XorReduction => true,
        Form::XnorReduction | Form::NandReduction | Form::NorReduction | Form::Power => true,
        _ => false,
    }
}
