//! Which parts of a node hold the declarations that it makes.

ghost use Rattle.std.specs.Prelude.{◌≡◌};
ghost use Rattle.vd_forms.specs.Forms.{form_number};
ghost use Rattle.vd_notes.specs.Rows.{all_rows, row_in, row_of};

use crate::declares::Names::*;
use vd_forms::Form;

/// Where the numbers stand of what a node declares.
#[derive(Clone, Copy, PartialEq, Eq, Debug)]
pub enum Names {
    Nowhere,
    /// At the node, or at the first of its parts.
    Itself,
    /// At the first of its parts.
    First,
    /// At the parts of one of its parts, which is behind so many others.
    List(u32),
    /// At all of its parts.
    All,
}

/// What nodes of a form declare.
#[derive(Clone, Copy, PartialEq, Eq, Debug)]
pub struct Row {
    pub form: Form,
    pub names: Names,
    /// Behind how many parts the one stands that has the mark of what is declared, or that names the entity of an architecture.
    pub mark: Option<u32>,
    /// Whether it is a unit, in which all stands that is declared in its parts.
    pub is_unit: bool,
}

macro_rules! rows {
    ($($form:ident: $names:expr, $mark:expr, $is_unit:expr;)*) => {
        &[$(Row { form: Form::$form, names: $names, mark: $mark, is_unit: $is_unit },)*]
    };
}

/// What each form declares. A form that declares nothing, and is no unit, has no row.
const ROWS: &[Row] = rows! {
    // Units. An architecture has its entity where others have a mark. The body of a package declares nothing that the package doesn't.
    EntityDeclaration: Itself, None, true;
    ArchitectureBody: Itself, Some(1), true;
    PackageDeclaration: Itself, None, true;
    PackageBody: Nowhere, None, true;
    PackageInstantiation: Itself, None, true;
    ContextDeclaration: Itself, None, true;

    // Interfaces.
    GenericConstant: List(1), Some(3), false;
    GenericType: Itself, None, false;
    GenericFunction: Itself, Some(3), false;
    PortDeclaration: List(1), Some(3), false;
    ViewPort: List(1), None, false;
    ParameterDeclaration: List(1), Some(3), false;

    // Declarations.
    ConstantDeclaration: List(0), Some(1), false;
    SignalDeclaration: List(0), Some(1), false;
    VariableDeclaration: List(0), Some(1), false;
    TypeDeclaration: Itself, None, false;
    SubtypeDeclaration: Itself, Some(1), false;
    EnumerationType: All, None, false;
    RecordElement: List(0), Some(1), false;
    ViewDeclaration: Itself, None, false;
    FunctionInstantiation: Itself, None, false;
    FunctionDeclaration: Itself, Some(5), false;
    FunctionBody: Itself, Some(5), false;

    // Statements.
    LabelledStatement: First, None, false;
    ForLoop: Itself, None, false;
    LabelledConcurrent: First, None, false;
    ForGenerate: Itself, None, false;
};

// The rows of all forms that have one.
fn all_rows() -> &'static [Row]
    ensures { result.now ≡ all_rows }
{
    ROWS
}

// The number of a form.
fn number_of(form: Form) -> u16
    ensures { result ≡ form_number form }
{
    form as u16
}

// What a form declares, by the first of some rows that is its own.
fn row_in(form: Form, rows: &[Row]) -> Row
    ensures { result ≡ row_in form rows.now }
{
    for row in rows {
        if number_of(row.form) == number_of(form) {
            return *row;
        }
    }
    Row {
        form,
        names: Names::Nowhere,
        mark: None,
        is_unit: false,
    }
}

/// What nodes of a form declare.
pub fn row_of(form: Form) -> Row
    ensures { result ≡ row_of form }
{
    row_in(form, all_rows())
}
