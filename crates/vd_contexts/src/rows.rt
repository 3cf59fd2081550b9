//! Forms, by what their parts are to them.

ghost use Rattle.std.specs.Prelude.{◌≡◌};
ghost use Rattle.vd_contexts.specs.Rows.{row_of as row_of_form, row_of_operator, sort};

use vd_forms::Form;

/// What the parts of a node are to it.
#[derive(Clone, Copy)]
pub enum Row {
    /// All are evaluated, without bounds from their place.
    Reading,
    /// A constant with its value.
    ConstantValue,
    /// A generic constant with its default.
    GenericDefault,
    /// A signal or variable with its initial value.
    InitialValue,
    /// A port with its default.
    PortDefault,
    ToSignal,
    ToVariable,
    SelectedToSignal,
    SelectedToVariable,
    /// The value of a function.
    Returned,
    /// A waveform or value, its condition, and what stands behind `else`.
    Branches,
    /// A waveform or value in front of something else.
    Guarded,
    /// The elements of an aggregate.
    Elements,
    Qualified,
    /// An element with `=>`.
    Choosing,
    /// An element for all others.
    Remaining,
    /// Pieces of a name, or choices.
    Naming,
    Brackets,
    Generics,
    Ports,
    EntityInstance,
    PackageInstance,
    FunctionInstance,
    Operands,
}

/// What a row hangs on.
#[derive(Clone, Copy)]
pub enum Sort {
    /// What the node is itself.
    Fixed,
    /// The unit whose generics a map is for.
    Mapped,
    /// The formals of its elements.
    Passed,
    /// Whether what is known has bounds.
    Bounded,
}

pub fn sort_of(row: Row) -> Sort
    ensures { result ≡ sort row }
{
    match row {
        Row::ConstantValue | Row::GenericDefault | Row::Returned | Row::Elements | Row::Qualified =>
            Sort::Bounded,
        Row::Brackets | Row::Generics | Row::Operands => Sort::Passed,
        Row::EntityInstance | Row::PackageInstance | Row::FunctionInstance => Sort::Mapped,
        _ => Sort::Fixed,
    }
}

/// Operators.
fn operands(form: Form) -> Row
    ensures { result ≡ row_of_operator form }
{
    match form {
        Form::Condition => Row::Operands,
        Form::And | Form::Or | Form::Nand | Form::Nor | Form::Xor | Form::Xnor => Row::Operands,
        Form::Equal | Form::Unequal | Form::MatchEqual | Form::MatchUnequal => Row::Operands,
        Form::Less | Form::AtMost | Form::Greater | Form::AtLeast => Row::Operands,
        Form::MatchLess | Form::MatchAtMost => Row::Operands,
        Form::MatchGreater | Form::MatchAtLeast => Row::Operands,
        Form::ShiftLeftLogical | Form::ShiftRightLogical => Row::Operands,
        Form::ShiftLeftArithmetic | Form::ShiftRightArithmetic => Row::Operands,
        Form::RotateLeft | Form::RotateRight => Row::Operands,
        Form::Identity | Form::Negation => Row::Operands,
        Form::Add | Form::Subtract | Form::Concatenate => Row::Operands,
        Form::Multiply | Form::Divide | Form::Modulo | Form::Remainder => Row::Operands,
        Form::Absolute | Form::Not | Form::Power => Row::Operands,
        Form::AndReduction | Form::OrReduction | Form::XorReduction => Row::Operands,
        Form::NandReduction | Form::NorReduction | Form::XnorReduction => Row::Operands,
        _ => Row::Reading,
    }
}

pub fn row_of(form: Form) -> Row
    ensures { result ≡ row_of_form form }
{
    match form {
        Form::ConstantDeclaration => Row::ConstantValue,
        Form::GenericConstant => Row::GenericDefault,
        Form::SignalDeclaration | Form::VariableDeclaration => Row::InitialValue,
        Form::PortDeclaration => Row::PortDefault,
        Form::SignalAssignment | Form::ConcurrentAssignment => Row::ToSignal,
        Form::VariableAssignment => Row::ToVariable,
        Form::SelectedSignalAssignment => Row::SelectedToSignal,
        Form::SelectedVariableAssignment => Row::SelectedToVariable,
        Form::ReturnStatement => Row::Returned,
        Form::ConditionalWaveform | Form::ConditionalValue | Form::ConditionalReturn => {
            Row::Branches
        }
        Form::GuardedWaveform
        | Form::GuardedValue
        | Form::DelayedWaveform
        | Form::SelectedWaveform
        | Form::SelectedValue => Row::Guarded,
        Form::Aggregate => Row::Elements,
        Form::Qualification => Row::Qualified,
        Form::Association => Row::Choosing,
        Form::OthersAssociation => Row::Remaining,
        Form::AssociationChoices | Form::Name | Form::OperatorName => Row::Naming,
        Form::Arguments => Row::Brackets,
        Form::GenericMap => Row::Generics,
        Form::PortMap => Row::Ports,
        Form::EntityInstantiation => Row::EntityInstance,
        Form::PackageInstantiation => Row::PackageInstance,
        Form::FunctionInstantiation => Row::FunctionInstance,
        _ => operands(form),
    }
}
