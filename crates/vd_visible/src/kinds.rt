//! Kinds of forms.

ghost use Rattle.std.specs.Prelude.{◌≡◌};
ghost use Rattle.vd_visible.specs.Kinds.{kind_of as kind, symbol_of as symbol};

use vd_forms::Form;

/// What a form is in an expression.
#[derive(Clone, Copy, PartialEq, Eq, Debug)]
pub enum Kind {
    Number,
    PhysicalLiteral,
    Letter,
    /// A literal in quotation marks, or an operator symbol.
    Quoted,
    Bits,
    /// An aggregate, or brackets round one expression.
    Aggregate,
    Name,
    OperatorName,
    /// An operator in front of its operand, or between its operands.
    Operator,
    /// Two bounds.
    Bounds,
    /// A mark with a range.
    DiscreteSubtype,
    Association,
    OthersAssociation,
    AssociationChoices,
    Identifier,
    Selection,
    Arguments,
    Attribute,
    RangeAttribute,
    Qualification,
    /// What is no part of an expression, or nothing that has an interpretation.
    Other,
}

/// The kind of a form.
pub fn kind_of(form: Form) -> Kind
    ensures { result ≡ kind form }
{
    match form {
        Form::Number => Kind::Number,
        Form::PhysicalLiteral => Kind::PhysicalLiteral,
        Form::Letter => Kind::Letter,
        Form::Quoted => Kind::Quoted,
        Form::Bits => Kind::Bits,
        Form::Aggregate => Kind::Aggregate,
        Form::Name => Kind::Name,
        Form::OperatorName => Kind::OperatorName,
        Form::Ascending | Form::Descending => Kind::Bounds,
        Form::DiscreteSubtype => Kind::DiscreteSubtype,
        Form::Association => Kind::Association,
        Form::OthersAssociation => Kind::OthersAssociation,
        Form::AssociationChoices => Kind::AssociationChoices,
        Form::Identifier => Kind::Identifier,
        Form::Selection => Kind::Selection,
        Form::Arguments => Kind::Arguments,
        Form::Attribute => Kind::Attribute,
        Form::RangeAttribute => Kind::RangeAttribute,
        Form::Qualification => Kind::Qualification,
        Form::Condition => Kind::Operator,
        Form::Nand | Form::Nor | Form::And | Form::Or | Form::Xor | Form::Xnor => Kind::Operator,
        Form::Equal | Form::Unequal | Form::Less | Form::AtMost | Form::Greater | Form::AtLeast =>
            Kind::Operator,
        Form::MatchEqual
        | Form::MatchUnequal
        | Form::MatchLess
        | Form::MatchAtMost
        | Form::MatchGreater
        | Form::MatchAtLeast => Kind::Operator,
        Form::ShiftLeftLogical
        | Form::ShiftRightLogical
        | Form::ShiftLeftArithmetic
        | Form::ShiftRightArithmetic
        | Form::RotateLeft
        | Form::RotateRight => Kind::Operator,
        Form::Identity | Form::Negation | Form::Add | Form::Subtract | Form::Concatenate =>
            Kind::Operator,
        Form::Multiply | Form::Divide | Form::Modulo | Form::Remainder => Kind::Operator,
        Form::Absolute | Form::Not | Form::Power => Kind::Operator,
        Form::AndReduction
        | Form::OrReduction
        | Form::XorReduction
        | Form::XnorReduction
        | Form::NandReduction
        | Form::NorReduction => Kind::Operator,
        _ => Kind::Other,
    }
}

/// The operator symbol of a form, with its quotation marks. Any other form has none.
pub fn symbol_of(form: Form) -> &'static str
    ensures { result.now ≡ symbol form }
{
    match form {
        Form::Condition => "\"??\"",
        Form::Nand | Form::NandReduction => "\"nand\"",
        Form::Nor | Form::NorReduction => "\"nor\"",
        Form::And | Form::AndReduction => "\"and\"",
        Form::Or | Form::OrReduction => "\"or\"",
        Form::Xor | Form::XorReduction => "\"xor\"",
        Form::Xnor | Form::XnorReduction => "\"xnor\"",
        Form::Equal => "\"=\"",
        Form::Unequal => "\"/=\"",
        Form::Less => "\"<\"",
        Form::AtMost => "\"<=\"",
        Form::Greater => "\">\"",
        Form::AtLeast => "\">=\"",
        Form::MatchEqual => "\"?=\"",
        Form::MatchUnequal => "\"?/=\"",
        Form::MatchLess => "\"?<\"",
        Form::MatchAtMost => "\"?<=\"",
        Form::MatchGreater => "\"?>\"",
        Form::MatchAtLeast => "\"?>=\"",
        Form::ShiftLeftLogical => "\"sll\"",
        Form::ShiftRightLogical => "\"srl\"",
        Form::ShiftLeftArithmetic => "\"sla\"",
        Form::ShiftRightArithmetic => "\"sra\"",
        Form::RotateLeft => "\"rol\"",
        Form::RotateRight => "\"ror\"",
        Form::Identity | Form::Add => "\"+\"",
        Form::Negation | Form::Subtract => "\"-\"",
        Form::Concatenate => "\"&\"",
        Form::Multiply => "\"*\"",
        Form::Divide => "\"/\"",
        Form::Modulo => "\"mod\"",
        Form::Remainder => "\"rem\"",
        Form::Absolute => "\"abs\"",
        Form::Not => "\"not\"",
        Form::Power => "\"**\"",
        _ => "",
    }
}
