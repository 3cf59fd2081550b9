//! Which part of which node a tree is, and what may stand there.

ghost use Rattle.std.specs.Prelude.{◌≡◌};
ghost use Rattle.vd_forms.specs.Forms.{form_number};
ghost use Rattle.vd_statements.specs.Slots.{all_rows, change_at, change_for, change_in, change_of, is_unit};

use vd_declarations::DeclId;
use vd_forms::Form;

/// Where a tree stands.
#[derive(Clone, Copy, PartialEq, Eq, Debug)]
pub struct Slot {
    /// The form of the node that it is a part of.
    pub round: Option<Form>,
    /// Behind how many other parts.
    pub at: u32,
    /// The unit that ends there.
    pub unit: Option<DeclId>,
}

/// What is done with a tree.
#[derive(Clone, Copy, PartialEq, Eq, Debug)]
pub enum Change {
    /// It stays.
    Kept,
    /// It is left out.
    Left,
    /// It is written with this word, where it isn't there.
    Given(Form),
    /// It is the name of the unit.
    Named,
    /// It becomes a declaration for each name of a list, which is that many parts behind its first one.
    Each(u32),
}

/// What is done with a part of nodes of a form.
#[derive(Clone, Copy, PartialEq, Eq, Debug)]
pub struct Row {
    pub round: Form,
    pub at: u32,
    pub change: Change,
}

macro_rules! rows {
    ($($round:ident $at:literal: $change:expr;)*) => {
        &[$(Row { round: Form::$round, at: $at, change: $change },)*]
    };
}

/// What is done with each part of a node. A part without a row stays.
const ROWS: &[Row] = rows! {
    // Words that may be left out are left out.
    PortDeclaration 0: Change::Left;
    GenericConstant 0: Change::Left;
    GenericConstant 2: Change::Left;
    ParameterDeclaration 0: Change::Left;
    ParameterDeclaration 2: Change::Left;
    FunctionDeclaration 0: Change::Left;
    FunctionDeclaration 3: Change::Left;
    FunctionBody 0: Change::Left;
    FunctionBody 3: Change::Left;

    // But for modes of ports, `is` of processes, and `begin` of the bodies of generate statements.
    PortDeclaration 2: Change::Given(Form::In);
    ProcessStatement 1: Change::Given(Form::Is);
    GenerateBody 0: Change::Given(Form::DeclarativePart);

    // The ends of units have the word and the name.
    Closing 0: Change::Given(Form::ClosingWord);
    Closing 1: Change::Named;

    // Other ends have the word alone.
    FunctionClosing 0: Change::Given(Form::ClosingWord);
    FunctionClosing 1: Change::Left;
    ProcessStatement 4: Change::Left;
    IfStatement 4: Change::Left;
    CaseStatement 4: Change::Left;
    ForLoop 3: Change::Left;
    WhileLoop 2: Change::Left;
    LoopStatement 1: Change::Left;
    IfGenerate 4: Change::Left;
    ForGenerate 3: Change::Left;
    CaseGenerate 2: Change::Left;
    RecordType 1: Change::Left;
};

/// The number of a form.
fn number_of(form: Form) -> u16
    ensures { result ≡ form_number form }
{
    form as u16
}

/// All rows.
fn all_rows() -> &'static [Row]
    ensures { result.now ≡ all_rows }
{
    ROWS
}

/// What is done with a part of nodes of a form, by some rows.
fn change_in(rows: &[Row], round: Form, at: u32) -> Change
    ensures { result ≡ change_in round at rows.now }
{
    for row in rows {
        if number_of(row.round) == number_of(round) && row.at == at {
            return row.change;
        }
    }
    Change::Kept
}

/// What is done with a part of a node, or with what is part of none.
fn change_at(round: Option<Form>, at: u32) -> Change
    ensures { result ≡ change_at round at }
{
    match round {
        Some(round) => change_in(all_rows(), round, at),
        None => Change::Kept,
    }
}

/// What is done with trees of a form, wherever they stand.
fn change_of(form: Form) -> Change
    ensures { result ≡ change_of form }
{
    match form {
        // The delay that is meant without the word.
        Form::Inertial => Change::Left,
        Form::ConstantDeclaration
        | Form::SignalDeclaration
        | Form::VariableDeclaration
        | Form::RecordElement => Change::Each(0),
        Form::PortDeclaration
        | Form::ViewPort
        | Form::GenericConstant
        | Form::ParameterDeclaration => Change::Each(1),
        _ => Change::Kept,
    }
}

/// What is done with a tree of a form that is such a part.
pub fn change_for(round: Option<Form>, at: u32, form: Form) -> Change
    ensures { result ≡ change_for round at form }
{
    match change_at(round, at) {
        Change::Kept => change_of(form),
        other => other,
    }
}

/// Whether nodes of a form are units, whose first part is their name.
pub fn is_unit(form: Form) -> bool
    ensures { result ≡ is_unit form }
{
    matches!(
        form,
        Form::EntityDeclaration
            | Form::ArchitectureBody
            | Form::PackageDeclaration
            | Form::PackageBody
    )
}
