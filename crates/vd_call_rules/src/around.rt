//! What a node stands in.

ghost use Rattle.std.specs.Prelude.{◌≡◌};
ghost use Rattle.vd_call_rules.specs.Calls.{name_in as name_around, place_of_call as call_stands};
ghost use Rattle.vd_call_rules.specs.Chains.{function_in as function_around, around_in as is_around, outside as outside_of_all};

use vd_bytes::Place;
use vd_declarations::DeclId;
use vd_forest::{Cursor, Opened};
use vd_forms::Form;
use vd_resolved::Resolved;
use vd_structure_rules::functions::or_designator;

/// What a node stands in.
#[derive(Clone, Copy)]
pub struct Around {
    /// The innermost function in whose body it stands.
    pub function: Option<DeclId>,
    /// The place of the name of which it is a piece.
    pub name: Option<Place>,
}

/// What design units stand in.
pub fn outside() -> Around
    ensures { result ≡ outside_of_all }
{
    Around {
        function: None,
        name: None,
    }
}

fn function_in(
    form: Form,
    number: Option<DeclId>,
    parts: &Cursor<'_, Resolved>,
    around: Option<DeclId>,
) -> Option<DeclId>
    ensures { result ≡ function_around form number parts.now around }
{
    match form {
        Form::FunctionBody => or_designator(number, &parts.skip(1)),
        _ => around,
    }
}

/// What the parts of a node stand in.
pub fn around_in(around: &Around, node: &Opened<'_, Resolved>) -> Around
    ensures { result ≡ is_around around.now node.now.form node.now.place node.now.parts }
{
    let form = node.form.form;
    Around {
        function: function_in(form, node.form.declaration, &node.parts, around.function),
        name: name_in(form, node.place),
    }
}

fn name_in(form: Form, place: Place) -> Option<Place>
    ensures { result ≡ name_around form place }
{
    match form {
        Form::Name | Form::OperatorName => Some(place),
        _ => None,
    }
}

/// A piece of a name stands for the whole name.
pub fn place_of_call(name: Option<Place>, place: Place) -> Place
    ensures { result ≡ call_stands name place }
{
    name.unwrap_or(place)
}
