//! What of a node is read, and in which order. (IEEE 1076, wait statement; process statement.)

ghost use Rattle.std.specs.Prelude.{◌≡◌, ◌||◌, not};
ghost use Rattle.vd_sensitivity.specs.Orders.{is_value, order_of, static_by};

use vd_forms::Form;
use vd_notes::Note;

/// What of some trees is to be read.
#[derive(Clone, Copy, PartialEq, Eq, Debug)]
pub enum What {
    /// All of them.
    All,
    /// The first one.
    First,
    /// What is in the brackets of the first one, which is the target of an assignment.
    Inside,
}

/// How a node is read.
#[derive(Clone, Copy, PartialEq, Eq, Debug)]
pub enum Order {
    /// All its parts, one after the other.
    Parts,
    /// As a name.
    Name,
    /// What is in the brackets of its first part, a target, and then its other parts.
    Assignment,
    /// Its first part, a selector; what is in the brackets of its third part, a target; and then the parts behind that.
    Selection,
    /// All parts but the first, the mark in front of a range.
    Range,
}

/// Whether an index or bounds are static.
#[derive(Clone, Copy, PartialEq, Eq, Debug)]
pub enum Staticness {
    /// No note says it.
    Unnoted,
    /// They aren't, or what they are isn't known where it must be.
    Never,
    /// They are, and mean the same outside of the process.
    AsWritten,
    /// They are, and name something that the process declares, so that they are written as their values.
    AsValues,
}

/// How nodes of a form are read.
pub fn order_of(form: Form) -> Order
    ensures { result ≡ order_of form }
{
    match form {
        Form::Name | Form::OperatorName => Order::Name,
        Form::SignalAssignment | Form::VariableAssignment | Form::ConcurrentAssignment => {
            Order::Assignment
        }
        Form::SelectedSignalAssignment | Form::SelectedVariableAssignment => Order::Selection,
        Form::DiscreteSubtype => Order::Range,
        _ => Order::Parts,
    }
}

/// Whether the signal that a name names is read: as a value it is, and as a target it isn't.
pub fn is_value(what: What) -> bool
    ensures { result ≡ is_value what }
{
    !matches!(what, What::Inside)
}

/// Whether a signal is read in front of an attribute. A port of mode `out` counts in front of `event` alone.
pub fn counts(is_event: bool, is_out: bool) -> bool
    ensures { result ≡ is_event || not is_out }
{
    is_event || !is_out
}

/// What a note says of an index or bounds.
pub fn static_by(note: Note) -> Staticness
    ensures { result ≡ static_by note }
{
    match note {
        Note::Index {
            is_local,
            is_global,
            is_known,
            ..
        } => {
            if is_global {
                Staticness::AsWritten
            } else if is_local && is_known {
                Staticness::AsValues
            } else {
                Staticness::Never
            }
        }
        _ => Staticness::Unnoted,
    }
}
