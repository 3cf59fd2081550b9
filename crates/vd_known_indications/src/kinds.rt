//! Kinds of nodes.

ghost use Rattle.std.specs.Prelude.{◌≡◌};
ghost use Rattle.vd_meaning.specs.Kinds.{kind};
ghost use Rattle.vd_known_indications.specs.Kinds.{common, node_kind};

use vd_forms::Form;

/// Words and literals.
#[derive(Clone, Copy, PartialEq, Eq, Debug)]
pub enum Leaf {
    Word,
    CharacterLiteral,
    StringLiteral,
    NumberLiteral,
    TimeLiteral,
}

/// Operators, lists in brackets, and what stands in these.
#[derive(Clone, Copy, PartialEq, Eq, Debug)]
pub enum Listing {
    Operator,
    Brackets,
    Association,
    OthersAssociation,
    Choices,
    Others,
    Open,
}

/// Ranges, and what stands for them.
#[derive(Clone, Copy, PartialEq, Eq, Debug)]
pub enum RangeKind {
    Ascending,
    Descending,
    OfMark,
    OpenIndex,
    MarkName,
    Constraint,
}

/// Names and their pieces.
#[derive(Clone, Copy, PartialEq, Eq, Debug)]
pub enum PieceKind {
    WholeName,
    Selection,
    Arguments,
    Attribute,
    Range,
    Qualification,
}

/// What is made of a node.
#[derive(Clone, Copy, PartialEq, Eq, Debug)]
pub enum NodeKind {
    Absent,
    /// Nothing but what the node itself says.
    Plain,
    /// The same without the text.
    Silent,
    Leaf(Leaf),
    Listing(Listing),
    Range(RangeKind),
    Piece(PieceKind),
}

/// The kind of a form of which nothing has a function of its own but operators.
fn common_kind(form: Form) -> NodeKind
    ensures { result ≡ common (node_kind (kind form)) }
{
    let operator = NodeKind::Listing(Listing::Operator);
    match form {
        Form::Condition | Form::Nand | Form::Nor | Form::And | Form::Or | Form::Xor => operator,
        Form::Xnor | Form::Equal | Form::Unequal | Form::Less | Form::AtMost => operator,
        Form::Greater | Form::AtLeast | Form::MatchEqual | Form::MatchUnequal => operator,
        Form::MatchLess | Form::MatchAtMost | Form::MatchGreater => operator,
        Form::MatchAtLeast | Form::ShiftLeftLogical | Form::ShiftRightLogical => operator,
        Form::ShiftLeftArithmetic | Form::ShiftRightArithmetic | Form::RotateLeft => operator,
        Form::RotateRight | Form::Identity | Form::Negation | Form::Add => operator,
        Form::Subtract | Form::Concatenate | Form::Multiply | Form::Divide => operator,
        Form::Modulo | Form::Remainder | Form::Absolute | Form::Not => operator,
        Form::AndReduction | Form::OrReduction | Form::XorReduction => operator,
        Form::XnorReduction | Form::NandReduction | Form::NorReduction => operator,
        Form::Power => operator,
        Form::TypeDeclaration | Form::SubtypeDeclaration => NodeKind::Silent,
        Form::ConstantDeclaration | Form::VariableDeclaration => NodeKind::Silent,
        Form::FunctionBody | Form::FunctionInstantiation | Form::Statements => NodeKind::Silent,
        Form::ElseBranch | Form::LabelledStatement | Form::SignalAssignment => NodeKind::Silent,
        Form::VariableAssignment | Form::SelectedSignalAssignment => NodeKind::Silent,
        Form::SelectedVariableAssignment | Form::IfStatement => NodeKind::Silent,
        Form::CaseStatement | Form::WaitStatement | Form::AssertStatement => NodeKind::Silent,
        Form::ReportStatement | Form::ReturnStatement | Form::ExitStatement => NodeKind::Silent,
        Form::NextStatement | Form::ConcurrentAssignment => NodeKind::Silent,
        _ => NodeKind::Plain,
    }
}

/// The kind of a form.
pub(crate) fn kind_of(form: Form) -> NodeKind
    ensures { result ≡ node_kind (kind form) }
{
    match form {
        Form::Absent => NodeKind::Absent,
        Form::Identifier => NodeKind::Leaf(Leaf::Word),
        Form::Letter => NodeKind::Leaf(Leaf::CharacterLiteral),
        Form::Quoted | Form::Bits => NodeKind::Leaf(Leaf::StringLiteral),
        Form::Number => NodeKind::Leaf(Leaf::NumberLiteral),
        Form::PhysicalLiteral => NodeKind::Leaf(Leaf::TimeLiteral),
        Form::Name | Form::OperatorName => NodeKind::Piece(PieceKind::WholeName),
        Form::Selection => NodeKind::Piece(PieceKind::Selection),
        Form::Arguments => NodeKind::Piece(PieceKind::Arguments),
        Form::Attribute => NodeKind::Piece(PieceKind::Attribute),
        Form::RangeAttribute => NodeKind::Piece(PieceKind::Range),
        Form::Qualification => NodeKind::Piece(PieceKind::Qualification),
        Form::Aggregate => NodeKind::Listing(Listing::Brackets),
        Form::Association => NodeKind::Listing(Listing::Association),
        Form::OthersAssociation => NodeKind::Listing(Listing::OthersAssociation),
        Form::AssociationChoices | Form::Choices => NodeKind::Listing(Listing::Choices),
        Form::Others => NodeKind::Listing(Listing::Others),
        Form::Open => NodeKind::Listing(Listing::Open),
        Form::Ascending => NodeKind::Range(RangeKind::Ascending),
        Form::Descending => NodeKind::Range(RangeKind::Descending),
        Form::DiscreteSubtype => NodeKind::Range(RangeKind::OfMark),
        Form::UnconstrainedIndex => NodeKind::Range(RangeKind::OpenIndex),
        Form::SelectedName => NodeKind::Range(RangeKind::MarkName),
        Form::IndexConstraint | Form::RangeConstraint => NodeKind::Range(RangeKind::Constraint),
        _ => common_kind(form),
    }
}
