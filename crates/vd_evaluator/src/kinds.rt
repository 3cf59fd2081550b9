//! Kinds of nodes that are taken.

ghost use Rattle.std.specs.Prelude.{◌≡◌};
ghost use Rattle.vd_meaning.specs.Kinds.{kind};
ghost use Rattle.vd_evaluator.specs.Taken.{taken};

use vd_forms::Form;

/// The kind of a node.
#[derive(Clone, Copy, PartialEq, Eq, Debug)]
pub enum TakenKind {
    Word,
    CharacterLiteral,
    StringLiteral,
    NumberLiteral,
    TimeLiteral,
    WholeName,
    SelectionPiece,
    ArgumentsPiece,
    QualificationPiece,
    Ascending,
    Descending,
    Operator,
    Brackets,
    /// None of these.
    Other,
}

/// The kind of a form.
pub(crate) fn kind_of(form: Form) -> TakenKind
    ensures { result ≡ taken (kind form) }
{
    match form {
        Form::Identifier => TakenKind::Word,
        Form::Letter => TakenKind::CharacterLiteral,
        Form::Quoted | Form::Bits => TakenKind::StringLiteral,
        Form::Number => TakenKind::NumberLiteral,
        Form::PhysicalLiteral => TakenKind::TimeLiteral,
        Form::Name | Form::OperatorName => TakenKind::WholeName,
        Form::Selection => TakenKind::SelectionPiece,
        Form::Arguments => TakenKind::ArgumentsPiece,
        Form::Qualification => TakenKind::QualificationPiece,
        Form::Ascending => TakenKind::Ascending,
        Form::Descending => TakenKind::Descending,
        Form::Condition => TakenKind::Operator,
        Form::Nand | Form::Nor | Form::And | Form::Or | Form::Xor | Form::Xnor => {
            TakenKind::Operator
        }
        Form::Equal | Form::Unequal | Form::Less | Form::AtMost | Form::Greater | Form::AtLeast => {
            TakenKind::Operator
        }
        Form::MatchEqual
        | Form::MatchUnequal
        | Form::MatchLess
        | Form::MatchAtMost
        | Form::MatchGreater
        | Form::MatchAtLeast => TakenKind::Operator,
        Form::ShiftLeftLogical
        | Form::ShiftRightLogical
        | Form::ShiftLeftArithmetic
        | Form::ShiftRightArithmetic
        | Form::RotateLeft
        | Form::RotateRight => TakenKind::Operator,
        Form::Identity | Form::Negation | Form::Add | Form::Subtract | Form::Concatenate => {
            TakenKind::Operator
        }
        Form::Multiply | Form::Divide | Form::Modulo | Form::Remainder => TakenKind::Operator,
        Form::Absolute | Form::Not | Form::Power => TakenKind::Operator,
        Form::AndReduction
        | Form::OrReduction
        | Form::XorReduction
        | Form::XnorReduction
        | Form::NandReduction
        | Form::NorReduction => TakenKind::Operator,
        Form::Aggregate => TakenKind::Brackets,
        _ => TakenKind::Other,
    }
}
