//! What stands around a node.

ghost use Rattle.std.specs.Prelude.{◌≡◌};
ghost use Rattle.vd_structure_rules.specs.Statements.{body_in as body_inside, label_in as label_inside, statement_place as place_of_statement, is_listed as is_of_listed, is_in_function as is_of_function};
ghost use Rattle.vd_structure_rules.specs.Loops.{closing_label_part as part_of_label, is_endless as is_without_range, innermost_in as innermost_inside};
ghost use Rattle.vd_structure_rules.specs.Names.{naming_of_list as naming_of_identifiers, naming_in as naming_inside};
ghost use Rattle.vd_structure_rules.specs.StructureRules.{around_in as around_inside};

use crate::loops::EnclosingLoop;
use crate::statements::begins_with_absent;
use vd_bytes::Place;
use vd_forest::{Cursor, Opened};
use vd_forms::Form;
use vd_resolved::Resolved;

/// The body in which statements stand.
#[derive(Clone, Copy)]
pub enum Body {
    Outside,
    /// A process with a sensitivity list or `all`.
    ListedProcess,
    /// A process without.
    Process,
    Function,
}

/// What identifiers are, or those in the lists of a declaration.
#[derive(Clone, Copy)]
pub enum Naming {
    Used,
    Declared,
    /// An element of a record.
    Element,
    ListsDeclared,
    ListsElements,
}

/// What stands around a node.
#[derive(Clone, Copy)]
pub struct Around {
    /// The place of the label in front of a statement.
    pub label: Option<Place>,
    pub body: Body,
    pub innermost: Option<EnclosingLoop>,
    pub naming: Naming,
}

/// The body of what stands inside a node.
fn body_in(form: Form, parts: &Cursor<'_, Resolved>, around: Body) -> Body
    ensures { result ≡ body_inside form parts.now around }
{
    match form {
        Form::ProcessStatement => {
            if begins_with_absent(parts) {
                Body::Process
            } else {
                Body::ListedProcess
            }
        }
        Form::FunctionBody => Body::Function,
        _ => around,
    }
}

/// Whether it is a process with a list or `all`.
pub fn is_listed(body: Body) -> bool
    ensures { result ≡ is_of_listed body }
{
    matches!(body, Body::ListedProcess)
}

pub fn is_in_function(body: Body) -> bool
    ensures { result ≡ is_of_function body }
{
    matches!(body, Body::Function)
}

/// The label in front of what stands inside a node.
fn label_in(form: Form, place: Place) -> Option<Place>
    ensures { result ≡ label_inside form place }
{
    match form {
        Form::LabelledStatement | Form::LabelledConcurrent => Some(place),
        _ => None,
    }
}

/// Where a statement is refused: at its label, where it has one.
pub fn statement_place(label: Option<Place>, place: Place) -> Place
    ensures { result ≡ place_of_statement label place }
{
    label.unwrap_or(place)
}

/// The part of a loop in which its label may stand again.
pub fn closing_label_part(form: Form) -> Option<u32>
    ensures { result ≡ part_of_label form }
{
    match form {
        Form::ForLoop => Some(3),
        Form::WhileLoop => Some(2),
        Form::LoopStatement => Some(1),
        _ => None,
    }
}

/// Whether a loop has no range.
pub fn is_endless(form: Form) -> bool
    ensures { result ≡ is_without_range form }
{
    matches!(form, Form::WhileLoop | Form::LoopStatement)
}

/// The innermost loop of what stands inside a node.
fn innermost_in(form: Form, place: Place, around: Option<EnclosingLoop>) -> Option<EnclosingLoop>
    ensures { result ≡ innermost_inside form place around }
{
    match form {
        Form::ProcessStatement | Form::FunctionBody => None,
        Form::ForLoop | Form::WhileLoop | Form::LoopStatement => Some(EnclosingLoop {
            place,
            endless: is_endless(form),
        }),
        _ => around,
    }
}

/// What the identifiers of a list are.
fn naming_of_list(around: Naming) -> Naming
    ensures { result ≡ naming_of_identifiers around }
{
    match around {
        Naming::ListsDeclared => Naming::Declared,
        Naming::ListsElements => Naming::Element,
        _ => Naming::Used,
    }
}

/// What the identifiers inside a node are.
fn naming_in(form: Form, around: Naming) -> Naming
    ensures { result ≡ naming_inside form around }
{
    match form {
        Form::IdentifierList => naming_of_list(around),
        Form::EnumerationType => Naming::Declared,
        Form::RecordElement => Naming::ListsElements,
        Form::PortDeclaration
        | Form::ViewPort
        | Form::GenericConstant
        | Form::ParameterDeclaration
        | Form::ConstantDeclaration
        | Form::SignalDeclaration
        | Form::VariableDeclaration => Naming::ListsDeclared,
        _ => Naming::Used,
    }
}

/// What stands around the parts of a node.
pub fn around_in(around: &Around, node: &Opened<'_, Resolved>) -> Around
    ensures { result ≡ around_inside around.now node.now.form node.now.place node.now.parts }
{
    let form = node.form.form;
    Around {
        label: label_in(form, node.place),
        body: body_in(form, &node.parts, around.body),
        innermost: innermost_in(
            form,
            statement_place(around.label, node.place),
            around.innermost,
        ),
        naming: naming_in(form, around.naming),
    }
}
