//! Statements that their process, loop or function may not have.

ghost use Rattle.std.specs.Prelude.{◌≡◌, ◌||◌};
ghost use Rattle.vd_structure_rules.specs.Statements.{refused_if as refused, is_wait as is_wait_form, is_absent as is_absent_form, begins_with_wait as first_is_wait, begins_with_absent as first_is_absent, is_wait_statement as is_statement_of_wait, has_wait as have_wait, wait_in_listed as waits_in_listed, process_without_wait as process_never_waits, loop_without_wait as loop_never_waits, return_outside as returns_outside};

use crate::around::{Body, is_in_function, is_listed};
use vd_bytes::{Place, Refused};
use vd_forest::Cursor;
use vd_forms::Form;
use vd_resolved::Resolved;

/// A refusal, where something is wrong.
pub fn refused_if(wrong: bool, place: Place, rule: u16) -> Option<Refused>
    ensures { result ≡ refused wrong place rule }
{
    if wrong {
        Some(Refused { place, rule })
    } else {
        None
    }
}

pub fn is_wait(form: Form) -> bool
    ensures { result ≡ is_wait_form form }
{
    matches!(form, Form::WaitStatement)
}

fn is_absent(form: Form) -> bool
    ensures { result ≡ is_absent_form form }
{
    matches!(form, Form::Absent)
}

/// Whether the first tree is a wait.
fn begins_with_wait(trees: &Cursor<'_, Resolved>) -> bool
    ensures { result ≡ first_is_wait trees.now }
{
    match trees.open() {
        None => false,
        Some(first) => is_wait(first.form.form),
    }
}

/// Whether the first tree stands for something that isn't there.
pub fn begins_with_absent(trees: &Cursor<'_, Resolved>) -> bool
    ensures { result ≡ first_is_absent trees.now }
{
    match trees.open() {
        None => false,
        Some(first) => is_absent(first.form.form),
    }
}

/// Whether a statement is a wait, perhaps behind a label.
fn is_wait_statement(form: Form, parts: &Cursor<'_, Resolved>) -> bool
    ensures { result ≡ is_statement_of_wait form parts.now }
{
    match form {
        Form::LabelledStatement => begins_with_wait(&parts.skip(1)),
        _ => is_wait(form),
    }
}

/// Whether one of the statements of a list is a wait.
fn has_wait(statements: &Cursor<'_, Resolved>) -> bool
    ensures { result ≡ have_wait statements.now }
{
    let mut rest = statements.fork();
    while let Some(first) = rest.open() {
        if is_wait_statement(first.form.form, &first.parts) {
            return true;
        }
        rest = first.next;
    }
    false
}

/// The refusal of a wait in a process with a list or `all`.
pub fn wait_in_listed(body: Body, form: Form, place: Place) -> Option<Refused>
    ensures { result ≡ waits_in_listed body form place }
{
    refused_if(is_listed(body) && is_wait(form), place, 407)
}

/// The refusal of a process without list that has no wait in its list of statements.
pub fn process_without_wait(
    form: Form,
    place: Place,
    parts: &Cursor<'_, Resolved>,
) -> Option<Refused>
    ensures { result ≡ process_never_waits form place parts.now }
{
    match form {
        Form::ProcessStatement => refused_if(
            begins_with_absent(parts) && !has_wait(&parts.skip(3).parts()),
            place,
            407,
        ),
        _ => None,
    }
}

/// The refusal of a `while` or plain loop that has no wait in its list of statements.
pub fn loop_without_wait(form: Form, place: Place, parts: &Cursor<'_, Resolved>) -> Option<Refused>
    ensures { result ≡ loop_never_waits form place parts.now }
{
    match form {
        Form::WhileLoop => refused_if(!has_wait(&parts.skip(1).parts()), place, 408),
        Form::LoopStatement => refused_if(!has_wait(&parts.parts()), place, 408),
        _ => None,
    }
}

/// The refusal of a return outside a function.
pub fn return_outside(body: Body, form: Form, place: Place) -> Option<Refused>
    ensures { result ≡ returns_outside body form place }
{
    match form {
        Form::ReturnStatement => refused_if(!is_in_function(body), place, 408),
        _ => None,
    }
}
