//! Tests of a form.

ghost use Rattle.std.specs.Prelude.{◌≡◌};
ghost use Rattle.vd_forms.specs.Forms.{is_among, expressions, leaves, lists, all_sequential_statements, all_concurrent_statements, is_weighed, is_marked};

use crate::form::Form;

/// Whether nodes of the form are expressions.
pub fn is_expression(form: Form) -> bool
    ensures { result ≡ is_among expressions form }
{
    matches!(
        form,
        Form::Letter
            | Form::Quoted
            | Form::Name
            | Form::Condition
            | Form::Nand
            | Form::Nor
            | Form::And
            | Form::Or
            | Form::Xor
            | Form::Xnor
            | Form::Equal
            | Form::Unequal
            | Form::Less
            | Form::AtMost
            | Form::Greater
            | Form::AtLeast
            | Form::MatchEqual
            | Form::MatchUnequal
            | Form::MatchLess
            | Form::MatchAtMost
            | Form::MatchGreater
            | Form::MatchAtLeast
            | Form::ShiftLeftLogical
            | Form::ShiftRightLogical
            | Form::ShiftLeftArithmetic
            | Form::ShiftRightArithmetic
            | Form::RotateLeft
            | Form::RotateRight
            | Form::Identity
            | Form::Negation
            | Form::Add
            | Form::Subtract
            | Form::Concatenate
            | Form::Multiply
            | Form::Divide
            | Form::Modulo
            | Form::Remainder
            | Form::Absolute
            | Form::Not
            | Form::AndReduction
            | Form::OrReduction
            | Form::XorReduction
            | Form::XnorReduction
            | Form::NandReduction
            | Form::NorReduction
            | Form::Power
            | Form::Number
            | Form::Bits
            | Form::Aggregate
            | Form::PhysicalLiteral
            | Form::OperatorName
    )
}

/// Whether nodes of the form have a text, and no parts.
pub fn is_leaf(form: Form) -> bool
    ensures { result ≡ is_among leaves form }
{
    matches!(
        form,
        Form::Identifier | Form::Letter | Form::Quoted | Form::Number | Form::Bits
    )
}

/// Whether nodes of the form stand for a list of parts and nothing else.
pub fn is_list(form: Form) -> bool
    ensures { result ≡ is_among lists form }
{
    matches!(
        form,
        Form::ContextClause
            | Form::ContextItems
            | Form::IdentifierList
            | Form::DeclarativePart
            | Form::StatementPart
            | Form::ViewElements
            | Form::RecordElements
            | Form::Statements
            | Form::ElsifBranches
            | Form::CaseAlternatives
            | Form::SensitivityList
            | Form::ElsifGenerates
            | Form::GenerateAlternatives
            | Form::Choices
            | Form::AssociationChoices
    )
}

/// Whether nodes of the form are sequential statements, in one revision at least.
pub fn is_sequential_statement(form: Form) -> bool
    ensures { result ≡ is_among all_sequential_statements form }
{
    matches!(
        form,
        Form::SelectedSignalAssignment
            | Form::LabelledStatement
            | Form::SignalAssignment
            | Form::VariableAssignment
            | Form::IfStatement
            | Form::CaseStatement
            | Form::ForLoop
            | Form::WhileLoop
            | Form::LoopStatement
            | Form::WaitStatement
            | Form::ReportStatement
            | Form::ReturnStatement
            | Form::NextStatement
            | Form::ExitStatement
            | Form::NullStatement
            | Form::SelectedVariableAssignment
            | Form::AssertStatement
    )
}

/// Whether nodes of the form are concurrent statements, a label in front or not.
pub fn is_concurrent_statement(form: Form) -> bool
    ensures { result ≡ is_among all_concurrent_statements form }
{
    matches!(
        form,
        Form::LabelledConcurrent
            | Form::SelectedSignalAssignment
            | Form::AssertStatement
            | Form::ConcurrentAssignment
            | Form::ProcessStatement
            | Form::EntityInstantiation
            | Form::IfGenerate
            | Form::ForGenerate
            | Form::CaseGenerate
    )
}

/// Whether nodes of the form count for the weight of a design: those that are neither a leaf nor a
/// list.
pub fn is_weighed(form: Form) -> bool
    ensures { result ≡ is_weighed form }
{
    !is_leaf(form) && !is_list(form)
}

/// Whether the grammar counts nodes of the form for its depth, where they stand as a whole: expressions and statements.
pub fn is_marked(form: Form) -> bool
    ensures { result ≡ is_marked form }
{
    is_expression(form) || is_sequential_statement(form) || is_concurrent_statement(form)
}
