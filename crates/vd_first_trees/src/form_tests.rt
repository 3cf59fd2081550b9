//! Tests of a form.

ghost use Rattle.std.specs.Prelude.{◌≡◌};
ghost use Rattle.vd_first_trees.specs.Forms.{same_form};

use crate::form::Form;

pub fn is_name(form: Form) -> bool
    ensures { result ≡ same_form form Form.Name }
{
    matches!(form, Form::Name)
}

pub fn is_all(form: Form) -> bool
    ensures { result ≡ same_form form Form.All }
{
    matches!(form, Form::All)
}

pub fn is_process(form: Form) -> bool
    ensures { result ≡ same_form form Form.ProcessStatement }
{
    matches!(form, Form::ProcessStatement)
}

pub fn is_port_clause(form: Form) -> bool
    ensures { result ≡ same_form form Form.PortClause }
{
    matches!(form, Form::PortClause)
}

pub fn is_entity(form: Form) -> bool
    ensures { result ≡ same_form form Form.EntityDeclaration }
{
    matches!(form, Form::EntityDeclaration)
}

pub fn is_architecture(form: Form) -> bool
    ensures { result ≡ same_form form Form.ArchitectureBody }
{
    matches!(form, Form::ArchitectureBody)
}

pub fn is_closing(form: Form) -> bool
    ensures { result ≡ same_form form Form.Closing }
{
    matches!(form, Form::Closing)
}

pub fn is_absent(form: Form) -> bool
    ensures { result ≡ same_form form Form.Absent }
{
    matches!(form, Form::Absent)
}

pub fn is_out(form: Form) -> bool
    ensures { result ≡ same_form form Form.Out }
{
    matches!(form, Form::Out)
}

pub fn is_identifier_list(form: Form) -> bool
    ensures { result ≡ same_form form Form.IdentifierList }
{
    matches!(form, Form::IdentifierList)
}
