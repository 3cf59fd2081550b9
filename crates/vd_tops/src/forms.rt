//! Tests of a form.

ghost use Rattle.std.specs.Prelude.{◌≡◌};
ghost use Rattle.vd_forms.specs.Forms.{same_form};
ghost use Rattle.vd_tops.specs.Tops.{is_ahead as ahead, is_round as round};

use vd_forms::Form;

/// Whether such a node stands ahead of a library unit.
pub(crate) fn is_ahead(form: Form) -> bool
    ensures { result ≡ ahead form }
{
    matches!(form, Form::ContextClause | Form::ContextReference)
}

/// Whether such a node stands round a library unit.
pub(crate) fn is_round(form: Form) -> bool
    ensures { result ≡ round form }
{
    matches!(form, Form::DesignUnit | Form::ReferringUnit)
}

pub(crate) fn is_entity(form: Form) -> bool
    ensures { result ≡ same_form form Form.EntityDeclaration }
{
    matches!(form, Form::EntityDeclaration)
}

pub(crate) fn is_architecture(form: Form) -> bool
    ensures { result ≡ same_form form Form.ArchitectureBody }
{
    matches!(form, Form::ArchitectureBody)
}

pub(crate) fn is_constant(form: Form) -> bool
    ensures { result ≡ same_form form Form.GenericConstant }
{
    matches!(form, Form::GenericConstant)
}

pub(crate) fn is_absent(form: Form) -> bool
    ensures { result ≡ same_form form Form.Absent }
{
    matches!(form, Form::Absent)
}
