//! The declarations of variables that have the values of selectors.

use std::alloc::{AllocError, Global};
use vd_bytes::{Place, Text};
use vd_declarations::{Class, Declaration, Declarations, Made, TypeId};
use vd_forest::Opened;
use vd_forms::Form;
use vd_notes::CaseForm;
use vd_predefined::numbers::{STD_ULOGIC, STD_ULOGIC_VECTOR};
use vd_resolved::Resolved;

/// The name that such a variable wants.
const NAME: &[u8] = b"sel";

/// Whether a statement that is written so has a variable.
pub(crate) fn has_variable(form: CaseForm) -> bool {
    matches!(form, CaseForm::Variable | CaseForm::Match)
}

/// Whether a node is a statement with choices, where `case` generates are none.
pub(crate) fn has_choices(form: Form) -> bool {
    matches!(
        form,
        Form::CaseStatement | Form::SelectedSignalAssignment | Form::SelectedVariableAssignment
    )
}

/// The type of the selector of a statement with choices.
fn type_of(node: &Opened<'_, Resolved>) -> Option<TypeId> {
    let behind = match node.form.form {
        Form::CaseStatement => 1,
        _ => 0,
    };
    match node.parts.skip(behind).form() {
        Some(selector) => selector.mark,
        None => None,
    }
}

/// Whether a type is STD_ULOGIC, where there is one.
fn is_scalar(of: &Option<TypeId>) -> bool {
    match of {
        Some(of) => of.number() == STD_ULOGIC,
        None => true,
    }
}

/// The type of the variable for a selector of this type. What is matched is one logic value, or a vector of some.
fn type_for(form: CaseForm, of: Option<TypeId>) -> Option<TypeId> {
    if matches!(form, CaseForm::Match) && !is_scalar(&of) {
        Some(TypeId::of(STD_ULOGIC_VECTOR))
    } else {
        of
    }
}

/// The variable of a type for a selector at a place.
fn variable(alloc: Global, mark: Option<TypeId>, place: Place) -> Result<Declaration, AllocError> {
    Ok(Declaration {
        class: Class::Variable,
        name: Text::from_slice(alloc, NAME)?,
        mark,
        parameters: Declarations::of(Vec::new(alloc)),
        generics: Declarations::of(Vec::new(alloc)),
        inside: None,
        place,
        made: Made::Written,
        wanted: Text::from_slice(alloc, NAME)?,
    })
}

/// The variable for the selector of a statement that is written so.
pub(crate) fn selector_variable(
    alloc: Global,
    form: CaseForm,
    node: &Opened<'_, Resolved>,
) -> Result<Declaration, AllocError> {
    variable(alloc, type_for(form, type_of(node)), node.place)
}
