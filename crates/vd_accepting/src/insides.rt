//! What the parts of a node stand in.

ghost use Rattle.std.specs.Prelude.{◌≡◌};
ghost use Rattle.vd_port_modes.specs.Source.{design_in};
ghost use Rattle.vd_value_rules.specs.Designs;
ghost use Rattle.vd_value_rules.specs.Standings.{is_copied_down, label_down};

use vd_bytes::Place;
use vd_declarations::{Class, DeclId};
use vd_forest::Cursor;
use vd_forms::Form;
use vd_operations::tables::class_of;
use vd_operations::{is_present, number_made};
use vd_port_modes::Interfaces;
use vd_resolved::Resolved;

/// The label in front of the parts of a node at a place.
pub fn label_of_parts(form: Form, place: Place) -> Option<Place>
    ensures { result ≡ label_down form place }
{
    match form {
        Form::LabelledStatement | Form::LabelledConcurrent => Some(place),
        _ => None,
    }
}

/// Whether a declaration is a package with generics.
fn is_generic_package(interfaces: &Interfaces<'_>, number: DeclId) -> bool
    ensures { result ≡ Rattle.vd_value_rules.specs.Standings.is_generic_package (Designs.class_of (design_in interfaces.now) number) }
{
    matches!(
        class_of(interfaces.declarations(), number.number()),
        Class::UninstantiatedPackage
    )
}

/// Whether the parts of a node are the text of a package or a function with generics.
pub fn are_parts_copied(
    interfaces: &Interfaces<'_>,
    form: &Resolved,
    parts: &Cursor<'_, Resolved>,
) -> bool
    ensures { result ≡ is_copied_down form.now.form (design_in interfaces.now) form.now parts.now }
{
    match form.form {
        Form::PackageDeclaration => is_present(&parts.skip(1)),
        Form::PackageBody => is_generic_package(interfaces, number_made(form, parts)),
        Form::FunctionDeclaration | Form::FunctionBody => is_present(&parts.skip(2)),
        _ => false,
    }
}
