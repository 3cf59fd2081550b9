//! Forms, by what their parts are to them.

ghost use Rattle.std.specs.Prelude.{◌≡◌};
ghost use Rattle.vd_name_rules.specs.Rows.{row_of as row_of_form, row_of_operator};

use vd_forms::Form;

/// What the parts of a node are to it.
#[derive(Clone, Copy)]
pub enum Row {
    /// All are evaluated, or no names are used in them.
    Reading,
    ToSignal,
    ToVariable,
    SelectedToSignal,
    SelectedToVariable,
    /// A waveform or value, its condition, and what stands behind `else`.
    Branches,
    Guarded,
    /// An element with `=>`.
    Choosing,
    /// Pieces of a name, or choices.
    Naming,
    Brackets,
    Generics,
    Ports,
    EntityInstance,
    PackageInstance,
    FunctionInstance,
    Operands,
}

/// Operators.
fn operands(form: Form) -> Row
    ensures { result ≡ row_of_operator form }
{
    match form {
        Form::Condition => Row::Operands,
        Form::And | Form::Or | Form::Nand | Form::Nor | Form::Xor | Form::Xnor => Row::Operands,
        Form::Equal | Form::Unequal | Form::MatchEqual | Form::MatchUnequal => Row::Operands,
        Form::Less | Form::AtMost | Form::Greater | Form::AtLeast => Row::Operands,
        Form::MatchLess | Form::MatchAtMost => Row::Operands,
        Form::MatchGreater | Form::MatchAtLeast => Row::Operands,
        Form::ShiftLeftLogical | Form::ShiftRightLogical => Row::Operands,
        Form::ShiftLeftArithmetic | Form::ShiftRightArithmetic => Row::Operands,
        Form::RotateLeft | Form::RotateRight => Row::Operands,
        Form::Identity | Form::Negation => Row::Operands,
        Form::Add | Form::Subtract | Form::Concatenate => Row::Operands,
        Form::Multiply | Form::Divide | Form::Modulo | Form::Remainder => Row::Operands,
        Form::Absolute | Form::Not | Form::Power => Row::Operands,
        Form::AndReduction | Form::OrReduction | Form::XorReduction => Row::Operands,
        Form::NandReduction | Form::NorReduction | Form::XnorReduction => Row::Operands,
        _ => Row::Reading,
    }
}

pub fn row_of(form: Form) -> Row
    ensures { result ≡ row_of_form form }
{
    match form {
        Form::SignalAssignment | Form::ConcurrentAssignment => Row::ToSignal,
        Form::VariableAssignment => Row::ToVariable,
        Form::SelectedSignalAssignment => Row::SelectedToSignal,
        Form::SelectedVariableAssignment => Row::SelectedToVariable,
        Form::ConditionalWaveform | Form::ConditionalValue | Form::ConditionalReturn => {
            Row::Branches
        }
        Form::GuardedWaveform
        | Form::GuardedValue
        | Form::DelayedWaveform
        | Form::SelectedWaveform
        | Form::SelectedValue => Row::Guarded,
        Form::Association => Row::Choosing,
        Form::AssociationChoices | Form::Name | Form::OperatorName => Row::Naming,
        Form::Arguments => Row::Brackets,
        Form::GenericMap => Row::Generics,
        Form::PortMap => Row::Ports,
        Form::EntityInstantiation => Row::EntityInstance,
        Form::PackageInstantiation => Row::PackageInstance,
        Form::FunctionInstantiation => Row::FunctionInstance,
        _ => operands(form),
    }
}
