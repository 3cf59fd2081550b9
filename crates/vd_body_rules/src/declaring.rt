//! What nodes declare of the texts of functions.

ghost use Rattle.std.specs.Prelude.{◌≡◌};
ghost use Rattle.vd_body_rules.specs.Texts.{texted};
ghost use Rattle.vd_value_rules.specs.Declaring.{declaring};

use vd_forms::Form;

/// What a node declares of the texts of functions for what stands behind it.
#[derive(Clone, Copy)]
pub enum Declares {
    /// What its parts declare.
    Inside,
    /// That, and its own text.
    Function,
    Nothing,
}

/// What nodes of the form declare.
pub(crate) fn declared_by(form: Form) -> Declares
    ensures { result ≡ texted (declaring form) }
{
    match form {
        Form::DesignUnit
        | Form::ReferringUnit
        | Form::EntityDeclaration
        | Form::GenericClause
        | Form::PortClause
        | Form::ParameterList
        | Form::DeclarativePart
        | Form::PackageDeclaration => Declares::Inside,
        Form::FunctionDeclaration | Form::FunctionBody => Declares::Function,
        _ => Declares::Nothing,
    }
}
