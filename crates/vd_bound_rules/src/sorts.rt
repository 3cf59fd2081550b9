//! Forms, by which of their parts need bounds, and which are operands.

ghost use Rattle.std.specs.Prelude.{◌≡◌};
ghost use Rattle.vd_bound_rules.specs.Sorts.{indication_of as indication_in, number_in, operands_in};
ghost use Rattle.vd_meaning.specs.Kinds.{kind};
ghost use Rattle.vd_value_rules.specs.Standings.{is_operator_kind};

use vd_forms::Form;

/// What has a subtype indication that needs bounds.
#[derive(Clone, Copy, PartialEq, Eq, Debug)]
pub(crate) enum Indication {
    /// A signal or a variable.
    Object,
    Port,
    /// An element of a record.
    Element,
    /// An array type, for its elements.
    Array,
    Other,
}

/// What a form has.
pub(crate) fn indication_of(form: Form) -> Indication
    ensures { result ≡ indication_in form }
{
    match form {
        Form::SignalDeclaration | Form::VariableDeclaration => Indication::Object,
        Form::PortDeclaration => Indication::Port,
        Form::RecordElement => Indication::Element,
        Form::ArrayType => Indication::Array,
        _ => Indication::Other,
    }
}

/// The number of its subtype indication among its parts.
pub(crate) fn number_of(indication: Indication) -> Option<u32>
    ensures { result ≡ number_in indication }
{
    match indication {
        Indication::Object | Indication::Element | Indication::Array => Some(1),
        Indication::Port => Some(3),
        Indication::Other => None,
    }
}

/// Operands and selectors among the parts of a node.
#[derive(Clone, Copy, PartialEq, Eq, Debug)]
pub(crate) enum Operands {
    FirstPart,
    SecondPart,
    TwoParts,
    /// Those of a list in brackets, where an operator is called.
    InBrackets,
    NoPart,
}

/// Operators.
fn is_operator(form: Form) -> bool
    ensures { result ≡ is_operator_kind (kind form) }
{
    match form {
        Form::Condition | Form::Nand | Form::Nor | Form::And | Form::Or | Form::Xor => true,
        Form::Xnor | Form::Equal | Form::Unequal | Form::Less | Form::AtMost => true,
        Form::Greater | Form::AtLeast | Form::MatchEqual | Form::MatchUnequal => true,
        Form::MatchLess | Form::MatchAtMost | Form::MatchGreater => true,
        Form::MatchAtLeast | Form::ShiftLeftLogical | Form::ShiftRightLogical => true,
        Form::ShiftLeftArithmetic | Form::ShiftRightArithmetic | Form::RotateLeft => true,
        Form::RotateRight | Form::Identity | Form::Negation | Form::Add => true,
        Form::Subtract | Form::Concatenate | Form::Multiply | Form::Divide => true,
        Form::Modulo | Form::Remainder | Form::Absolute | Form::Not => true,
        Form::AndReduction | Form::OrReduction | Form::XorReduction => true,
        Form::XnorReduction | Form::NandReduction | Form::NorReduction | Form::Power => true,
        _ => false,
    }
}

/// The operands of an operator, and the selector of a statement.
#[tactic(auto, using(crate::proofs::SortLemmas::operands_of_other))]
pub(crate) fn operands_of(form: Form) -> Operands
    ensures { result ≡ operands_in form }
{
    match form {
        Form::CaseStatement => Operands::SecondPart,
        Form::SelectedSignalAssignment | Form::SelectedVariableAssignment | Form::CaseGenerate => {
            Operands::FirstPart
        }
        Form::Arguments => Operands::InBrackets,
        _ => {
            if is_operator(form) {
                Operands::TwoParts
            } else {
                Operands::NoPart
            }
        }
    }
}
