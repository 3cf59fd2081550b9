//! Forms, by what they are to vectors.

ghost use Rattle.std.specs.Prelude.{◌≡◌};
ghost use Rattle.vd_vector_conversions.specs.Sorts.{sort_of};

use vd_forms::Form;

/// What a form is to vectors.
#[derive(Clone, Copy, PartialEq, Eq, Debug)]
pub enum Sort {
    /// A whole name.
    Whole,
    /// What names a declaration: a piece of a name, or a mark.
    Named,
    /// The last piece of a qualified expression.
    Qualified,
    /// A list in brackets behind a name.
    Bracketed,
    Operator,
    /// An aggregate, or brackets round one expression.
    Aggregated,
    /// A subtype indication, which begins with a mark.
    Indicated,
    /// An element with what it stands for.
    Element,
    /// An element that stands for all others.
    Others,
    /// What an element stands for.
    Formals,
    /// A port map.
    Ports,
    /// Whose parts want what the part behind so many others is.
    Like(u32),
    /// An assignment that selects its values.
    Selected,
    /// A value of it, and for which choices it is taken.
    Alternative,
    /// Whose parts want what it is wanted as itself.
    Passing,
    /// Whose parts want what the function gives.
    Returning,
    /// The body of a function.
    Body,
    Other,
}

/// What a form is to vectors.
pub fn sort_of(form: Form) -> Sort
    ensures { result ≡ sort_of form }
{
    match form {
        // Expressions and their pieces.
        Form::Name | Form::OperatorName => Sort::Whole,
        Form::Identifier | Form::Selection | Form::Quoted | Form::SelectedName => Sort::Named,
        Form::Qualification => Sort::Qualified,
        Form::Arguments => Sort::Bracketed,
        Form::Aggregate => Sort::Aggregated,
        Form::Condition | Form::Nand | Form::Nor | Form::And | Form::Or => Sort::Operator,
        Form::Xor | Form::Xnor | Form::Equal | Form::Unequal | Form::Less => Sort::Operator,
        Form::AtMost | Form::Greater | Form::AtLeast | Form::MatchEqual => Sort::Operator,
        Form::MatchUnequal | Form::MatchLess | Form::MatchAtMost => Sort::Operator,
        Form::MatchGreater | Form::MatchAtLeast | Form::ShiftLeftLogical => Sort::Operator,
        Form::ShiftRightLogical | Form::ShiftLeftArithmetic => Sort::Operator,
        Form::ShiftRightArithmetic | Form::RotateLeft | Form::RotateRight => Sort::Operator,
        Form::Identity | Form::Negation | Form::Add | Form::Subtract => Sort::Operator,
        Form::Concatenate | Form::Multiply | Form::Divide | Form::Modulo => Sort::Operator,
        Form::Remainder | Form::Absolute | Form::Not | Form::AndReduction => Sort::Operator,
        Form::OrReduction | Form::XorReduction | Form::XnorReduction => Sort::Operator,
        Form::NandReduction | Form::NorReduction | Form::Power => Sort::Operator,
        // Elements in brackets.
        Form::Association => Sort::Element,
        Form::OthersAssociation => Sort::Others,
        Form::AssociationChoices => Sort::Formals,
        Form::PortMap => Sort::Ports,
        // Declarations: their default is of their mark.
        Form::SubtypeIndication => Sort::Indicated,
        Form::ConstantDeclaration | Form::SignalDeclaration => Sort::Like(1),
        Form::VariableDeclaration => Sort::Like(1),
        Form::PortDeclaration | Form::GenericConstant => Sort::Like(3),
        Form::FunctionBody => Sort::Body,
        // Statements: values are of the target, and choices of the selector.
        Form::SignalAssignment | Form::ConcurrentAssignment => Sort::Like(0),
        Form::VariableAssignment | Form::CaseGenerate => Sort::Like(0),
        Form::CaseStatement => Sort::Like(1),
        Form::SelectedSignalAssignment | Form::SelectedVariableAssignment => Sort::Selected,
        Form::SelectedWaveform | Form::SelectedValue => Sort::Alternative,
        Form::ReturnStatement => Sort::Returning,
        Form::DelayedWaveform | Form::ConditionalWaveform | Form::GuardedWaveform => Sort::Passing,
        Form::ConditionalValue | Form::GuardedValue | Form::ConditionalReturn => Sort::Passing,
        Form::Choices | Form::CaseAlternatives | Form::CaseAlternative => Sort::Passing,
        Form::GenerateAlternatives | Form::GenerateAlternative => Sort::Passing,
        _ => Sort::Other,
    }
}
