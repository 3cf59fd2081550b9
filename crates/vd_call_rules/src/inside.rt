//! What a node is inside of.

ghost use Rattle.std.specs.Prelude.{◌≡◌};
ghost use Rattle.vd_call_rules.specs.Calls.{package_in as package_around, function_in as function_around, name_in as name_around, inside_of as is_inside};

use vd_bytes::Place;
use vd_declarations::DeclId;
use vd_forest::{Cursor, Opened};
use vd_forms::Form;
use vd_resolved::Resolved;
use vd_structure_rules::functions::or_designator;
use vd_structure_rules::loops::number_at;

/// What a node is inside of.
#[derive(Clone, Copy)]
pub struct Inside {
    /// The package in whose declaration it stands directly.
    pub home: Option<DeclId>,
    /// The function whose body it is directly a part of.
    pub function: Option<DeclId>,
    /// The place of the name of which it is a piece.
    pub name: Option<Place>,
}

fn package_in(form: Form, parts: &Cursor<'_, Resolved>, around: Option<DeclId>) -> Option<DeclId>
    ensures { result ≡ package_around form parts.now around }
{
    match form {
        Form::PackageDeclaration => number_at(parts),
        Form::DeclarativePart => around,
        _ => None,
    }
}

fn function_in(form: Form, number: Option<DeclId>, parts: &Cursor<'_, Resolved>) -> Option<DeclId>
    ensures { result ≡ function_around form number parts.now }
{
    match form {
        Form::FunctionBody => or_designator(number, &parts.skip(1)),
        _ => None,
    }
}

fn name_in(form: Form, place: Place) -> Option<Place>
    ensures { result ≡ name_around form place }
{
    match form {
        Form::Name | Form::OperatorName => Some(place),
        _ => None,
    }
}

/// What the parts of a node are inside of.
pub fn inside_of(around: &Inside, node: &Opened<'_, Resolved>) -> Inside
    ensures { result ≡ is_inside around.now node.now.form node.now.place node.now.parts }
{
    let form = node.form.form;
    Inside {
        home: package_in(form, &node.parts, around.home),
        function: function_in(form, node.form.declaration, &node.parts),
        name: name_in(form, node.place),
    }
}
