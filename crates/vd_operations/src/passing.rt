//! Nodes that mean what a part of theirs means.

ghost use Rattle.std.specs.Prelude.{◌≡◌};
ghost use Rattle.vd_meaning.specs.Kinds.{kind};
ghost use Rattle.vd_operations.specs.Passing.{passing};

use vd_forms::Form;

/// What a node takes over from its parts.
#[derive(Clone, Copy)]
pub enum Passing {
    /// Nothing stands there.
    Nothing,
    /// What its first part means, perhaps as what stands for all others.
    First,
    OpenFirst,
    /// What its second part means, with the choices of the first.
    Second,
    /// What its last part names, where it names nothing itself.
    Last,
    /// Its parts as choices.
    Choices,
    /// Its parts as elements of a map.
    Map,
    /// Nothing, and it is `open`.
    Open,
    /// Nothing.
    Own,
}

/// What nodes of a form take over.
pub(crate) fn passing_of(form: Form) -> Passing
    ensures { result ≡ passing (kind form) }
{
    match form {
        Form::Absent => Passing::Nothing,
        Form::OthersAssociation => Passing::First,
        Form::UnconstrainedIndex => Passing::OpenFirst,
        Form::Association => Passing::Second,
        Form::SelectedName => Passing::Last,
        Form::AssociationChoices | Form::Choices => Passing::Choices,
        Form::GenericMap => Passing::Map,
        Form::Open => Passing::Open,
        _ => Passing::Own,
    }
}
