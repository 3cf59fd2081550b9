//! What nodes name and declare, and which of them have generics.

ghost use Rattle.std.specs.Prelude.{◌≡◌};
ghost use Rattle.vd_forms.specs.Forms.{same_form};
ghost use Rattle.vd_weighing.specs.Weights.{declared_at as declaration_at, form_is, declares as declares_at, name_in as name_within, has_generics as with_generics, declared_by as members_of};

use vd_declarations::{DeclId, Declaration};
use vd_forest::{Cursor, Opened};
use vd_forms::Form;
use vd_resolved::Resolved;

/// The declaration at the first tree.
pub(crate) fn declared_at(trees: &Cursor<'_, Resolved>) -> Option<DeclId>
    ensures { result ≡ declaration_at trees.now }
{
    match trees.form() {
        None => None,
        Some(first) => first.declaration,
    }
}

/// What a node declares: at itself, or at the name that it has.
pub(crate) fn declares(node: &Resolved, name: &Cursor<'_, Resolved>) -> Option<DeclId>
    ensures { result ≡ declares_at node.now name.now }
{
    match node.declaration {
        Some(id) => Some(id),
        None => declared_at(name),
    }
}

/// Where the name of what is declared stands.
pub(crate) fn name_in<'a>(node: &Opened<'a, Resolved>) -> Cursor<'a, Resolved>
    ensures { result ≡ name_within node.now.form.form node.now.parts }
{
    match node.form.form {
        Form::FunctionDeclaration | Form::FunctionBody | Form::FunctionInstantiation => {
            node.parts.skip(1)
        }
        _ => node.parts.fork(),
    }
}

/// Whether nodes of the form are generic clauses.
fn is_generic_clause(form: Form) -> bool
    ensures { result ≡ same_form Form.GenericClause form }
{
    matches!(form, Form::GenericClause)
}

/// Whether the first tree is a generic clause.
fn starts_generics(trees: &Cursor<'_, Resolved>) -> bool
    ensures { result ≡ form_is Form.GenericClause trees.now }
{
    match trees.form() {
        None => false,
        Some(first) => is_generic_clause(first.form),
    }
}

/// Whether a node is a declaration or body with a generic clause.
pub(crate) fn has_generics(node: &Opened<'_, Resolved>) -> bool
    ensures { result ≡ with_generics node.now.form.form node.now.parts }
{
    match node.form.form {
        Form::PackageDeclaration => starts_generics(&node.parts.skip(1)),
        Form::FunctionDeclaration | Form::FunctionBody => starts_generics(&node.parts.skip(2)),
        _ => false,
    }
}

/// What a declaration has inside: the ports of an entity, and what a package with generics and an instance of it declare.
pub(crate) fn members<'a>(declarations: &'a [Declaration], id: &Option<DeclId>) -> &'a [DeclId]
    ensures { result.now ≡ members_of declarations.now id.now }
{
    let Some(known) = id else {
        return &[];
    };
    match declarations.get(known.number() as usize) {
        None => &[],
        Some(declaration) => declaration.parameters.as_slice(),
    }
}
