//! What the first of some trees is called by.

ghost use Rattle.std.specs.Prelude.{◌≡◌};
ghost use Rattle.vd_body_rules.specs.Words.{said};
ghost use Rattle.vd_meaning.specs.Facets.{nth};
ghost use Rattle.vd_meaning.specs.Kinds.{kind};
ghost use Rattle.vd_meaning.specs.Meanings.{meanings};
ghost use Rattle.vd_meaning.specs.Tables.{Table};

use vd_forest::Cursor;
use vd_forms::Form;
use vd_resolved::Resolved;

/// Which node says what a tree is called by.
#[derive(Clone, Copy)]
pub enum Saying {
    Itself,
    FirstPart,
    SecondPart,
    Nothing,
}

/// Which node says it at nodes of the form.
fn saying_of(form: Form) -> Saying
    ensures { result ≡ said (kind form) }
{
    match form {
        Form::Association => Saying::SecondPart,
        Form::OthersAssociation | Form::UnconstrainedIndex => Saying::FirstPart,
        Form::Absent
        | Form::TypeDeclaration
        | Form::SubtypeDeclaration
        | Form::ConstantDeclaration
        | Form::VariableDeclaration
        | Form::FunctionBody
        | Form::FunctionInstantiation => Saying::Nothing,
        Form::Statements | Form::ElseBranch | Form::LabelledStatement => Saying::Nothing,
        Form::SignalAssignment
        | Form::VariableAssignment
        | Form::SelectedSignalAssignment
        | Form::SelectedVariableAssignment
        | Form::ConcurrentAssignment => Saying::Nothing,
        Form::IfStatement | Form::CaseStatement | Form::WaitStatement => Saying::Nothing,
        Form::AssertStatement
        | Form::ReportStatement
        | Form::ReturnStatement
        | Form::ExitStatement
        | Form::NextStatement => Saying::Nothing,
        _ => Saying::Itself,
    }
}

/// What the first tree is called by.
pub fn text_of_first<'a>(trees: &Cursor<'a, Resolved>) -> &'a [u8]
    ensures { (t : Table) → result.now ≡ (nth 0 (meanings t trees.now)).text }
{
    let mut rest = trees.fork();
    while let Some(first) = rest.open() {
        let text = first.text;
        let parts = first.parts;
        match saying_of(first.form.form) {
            Saying::Itself => return text,
            Saying::FirstPart => rest = parts,
            Saying::SecondPart => rest = parts.skip(1),
            Saying::Nothing => return &[],
        }
    }
    &[]
}
