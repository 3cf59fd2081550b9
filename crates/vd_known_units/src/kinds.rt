//! What nodes declare, by their forms.

ghost use Rattle.std.specs.Prelude.{◌≡◌};
ghost use Rattle.vd_known_units.specs.Kinds.{alone_as, declaring_as};
ghost use Rattle.vd_value_rules.specs.Declaring.{declaring};

use vd_forms::Form;

/// Objects that are declared together.
#[derive(Clone, Copy)]
pub enum Objects {
    Constants,
    Variables,
    Signals,
    Ports,
    /// Ports with a view in place of a mode.
    ViewPorts,
    GenericConstants,
    Parameters,
}

/// What is declared where the parts of the node declare nothing for the text behind it.
#[derive(Clone, Copy)]
pub enum Alone {
    Nothing,
    Type,
    Subtype,
    GenericFunction,
    FunctionInstance,
    Objects(Objects),
}

/// What is declared beside what the parts of the node declare.
#[derive(Clone, Copy)]
pub enum Kept {
    /// Nothing else.
    InOrder,
    Package,
    Function,
}

/// What a node declares for the text behind it.
#[derive(Clone, Copy)]
pub enum Declaring {
    Alone(Alone),
    Kept(Kept),
    /// What the package declares, where its generics stand for the actuals, if the instance is a unit of the design.
    PackageInstance,
}

/// What nodes of a form declare.
pub fn declaring_of(form: Form) -> Declaring
    ensures { result ≡ declaring_as (declaring form) }
{
    match form {
        Form::DesignUnit
        | Form::ReferringUnit
        | Form::EntityDeclaration
        | Form::GenericClause
        | Form::PortClause
        | Form::ParameterList
        | Form::DeclarativePart => Declaring::Kept(Kept::InOrder),
        Form::PackageDeclaration => Declaring::Kept(Kept::Package),
        Form::FunctionDeclaration | Form::FunctionBody => Declaring::Kept(Kept::Function),
        Form::PackageInstantiation => Declaring::PackageInstance,
        form => Declaring::Alone(alone_by_form(form)),
    }
}

/// What nodes of another form declare.
fn alone_by_form(form: Form) -> Alone
    ensures { result ≡ alone_as (declaring form) }
{
    match form {
        Form::TypeDeclaration => Alone::Type,
        Form::SubtypeDeclaration => Alone::Subtype,
        Form::GenericFunction => Alone::GenericFunction,
        Form::FunctionInstantiation => Alone::FunctionInstance,
        Form::ConstantDeclaration => Alone::Objects(Objects::Constants),
        Form::VariableDeclaration => Alone::Objects(Objects::Variables),
        Form::SignalDeclaration => Alone::Objects(Objects::Signals),
        Form::PortDeclaration => Alone::Objects(Objects::Ports),
        Form::ViewPort => Alone::Objects(Objects::ViewPorts),
        Form::GenericConstant => Alone::Objects(Objects::GenericConstants),
        Form::ParameterDeclaration => Alone::Objects(Objects::Parameters),
        _ => Alone::Nothing,
    }
}
