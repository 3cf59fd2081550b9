//! What stands in functions, and which of them have bodies.

ghost use Rattle.std.specs.Prelude.{◌≡◌, ℕ, None, IfOk, is_some, slice_index_or};
ghost use Rattle.vd_walks.specs.Finding.{Finder};
ghost use Rattle.vd_structure_rules.specs.Functions.{return_of as return_at, has_return as have_return, return_finder, is_failure as is_failure_number, last_behind, is_failure_name as is_name_of_failure, names_failure as first_names_failure, or_designator as or_that_of_designator, body_of_node as body_at_node, body_finder, bodies as all_bodies, suspends_or_drives as is_left_to_processes, in_function as stands_in_function, goes_on as is_no_failure, report_goes_on as reports_in_function, without_return as never_returns, has_no_body as lacks_body, without_body as is_without_body, is_function as is_function_form, is_equality as is_equality_symbol, begins_with_equality as first_is_equality, is_2019 as is_of_2019, equality_function as is_equality_function};

use crate::around::{Body, is_in_function};
use crate::statements::refused_if;
use crate::tables::entry;
use std::alloc::{AllocError, Global};
use vd_bytes::{Place, Refused};
use vd_declarations::DeclId;
use vd_forest::{Cursor, Opened};
use vd_forms::Form;
use vd_resolved::Resolved;
use vd_trees::Revision;
use vd_walks::{Finding, find_all, find_first};

/// The number of the literal `failure` of SEVERITY_LEVEL, which is the fourth declared behind its type.
pub const FAILURE: u32 = 144;

fn return_of(form: Form) -> Option<u8>
    ensures { result ≡ return_at form }
{
    match form {
        Form::ReturnStatement => Some(0),
        _ => None,
    }
}

/// Return statements.
#[derive(Clone, Copy)]
struct Returns;

impl Finding<Resolved, u8, u8> for Returns {
    ghost finder = { λ _. return_finder };

    fn answer(
        &self,
        _alloc: Global,
        _state: &u8,
        node: &Opened<'_, Resolved>,
    ) -> Result<Option<u8>, AllocError> {
        Ok(return_of(node.form.form))
    }

    fn down(
        &self,
        _alloc: Global,
        state: &u8,
        _node: &Opened<'_, Resolved>,
    ) -> Result<u8, AllocError> {
        Ok(*state)
    }

    fn along(
        &self,
        _alloc: Global,
        state: &u8,
        _node: &Opened<'_, Resolved>,
    ) -> Result<u8, AllocError> {
        Ok(*state)
    }
}

/// Whether a return stands among some statements or inside them.
#[tactic(auto, using(crate::proofs::RuleLemmas::return_found))]
fn has_return(alloc: Global, statements: &Cursor<'_, Resolved>) -> Result<bool, AllocError>
    ensures { IfOk result (λ found. found ≡ have_return statements.now) }
{
    let found = find_first(alloc, statements, 0, &Returns)?;
    Ok(found.is_some())
}

fn is_failure(number: Option<DeclId>) -> bool
    ensures { result ≡ is_failure_number number }
{
    match number {
        None => false,
        Some(declaration) => declaration.number() == FAILURE,
    }
}

/// The declaration of the last of some pieces.
fn last_number(pieces: &Cursor<'_, Resolved>) -> Option<DeclId>
    ensures { result ≡ last_behind None pieces.now }
{
    let mut last = None;
    let mut rest = pieces.fork();
    while let Some(first) = rest.open() {
        last = first.form.declaration;
        rest = first.next;
    }
    last
}

/// Whether a node is a name that means `failure`.
fn is_failure_name(form: Form, pieces: &Cursor<'_, Resolved>) -> bool
    ensures { result ≡ is_name_of_failure form pieces.now }
{
    match form {
        Form::Name => is_failure(last_number(pieces)),
        _ => false,
    }
}

/// Whether the first tree is such a name.
fn names_failure(trees: &Cursor<'_, Resolved>) -> bool
    ensures { result ≡ first_names_failure trees.now }
{
    match trees.open() {
        None => false,
        Some(first) => is_failure_name(first.form.form, &first.parts),
    }
}

/// The number of a function, which its node carries, or its designator.
pub fn or_designator(number: Option<DeclId>, designator: &Cursor<'_, Resolved>) -> Option<DeclId>
    ensures { result ≡ or_that_of_designator number designator.now }
{
    match number {
        Some(declaration) => Some(declaration),
        None => match designator.open() {
            None => None,
            Some(first) => first.form.declaration,
        },
    }
}

/// The number of the function whose body a node is.
fn body_of_node(form: Form, number: Option<DeclId>, parts: &Cursor<'_, Resolved>) -> Option<DeclId>
    ensures { result ≡ body_at_node form number parts.now }
{
    match form {
        Form::FunctionBody => or_designator(number, &parts.skip(1)),
        _ => None,
    }
}

/// The bodies of functions.
#[derive(Clone, Copy)]
struct FunctionBodies;

impl Finding<Resolved, u8, DeclId> for FunctionBodies {
    ghost finder = { λ _. body_finder };

    fn answer(
        &self,
        _alloc: Global,
        _state: &u8,
        node: &Opened<'_, Resolved>,
    ) -> Result<Option<DeclId>, AllocError> {
        Ok(body_of_node(node.form.form, node.form.declaration, &node.parts))
    }

    fn down(
        &self,
        _alloc: Global,
        state: &u8,
        _node: &Opened<'_, Resolved>,
    ) -> Result<u8, AllocError> {
        Ok(*state)
    }

    fn along(
        &self,
        _alloc: Global,
        state: &u8,
        _node: &Opened<'_, Resolved>,
    ) -> Result<u8, AllocError> {
        Ok(*state)
    }
}

/// The functions that have bodies, in the order of the text.
pub fn bodies(alloc: Global, units: &Cursor<'_, Resolved>) -> Result<Vec<DeclId>, AllocError>
    ensures { IfOk result (λ found. found.items ≡ all_bodies units.now) }
{
    find_all(alloc, units, 0, &FunctionBodies)
}

fn suspends_or_drives(form: Form) -> bool
    ensures { result ≡ is_left_to_processes form }
{
    matches!(
        form,
        Form::WaitStatement | Form::SignalAssignment | Form::SelectedSignalAssignment
    )
}

/// The refusal of a wait or a signal assignment in a function.
pub fn in_function(body: Body, form: Form, place: Place) -> Option<Refused>
    ensures { result ≡ stands_in_function body form place }
{
    refused_if(is_in_function(body) && suspends_or_drives(form), place, 409)
}

/// Whether a report or assertion may be none of a failure.
fn goes_on(form: Form, parts: &Cursor<'_, Resolved>) -> bool
    ensures { result ≡ is_no_failure form parts.now }
{
    match form {
        Form::ReportStatement => !names_failure(&parts.skip(1)),
        Form::AssertStatement => !names_failure(&parts.skip(2)),
        _ => false,
    }
}

/// The refusal of such a report or assertion in a function.
pub fn report_goes_on(
    body: Body,
    form: Form,
    place: Place,
    parts: &Cursor<'_, Resolved>,
) -> Option<Refused>
    ensures { result ≡ reports_in_function body form place parts.now }
{
    refused_if(is_in_function(body) && goes_on(form, parts), place, 409)
}

/// The refusal of a function without return.
pub fn without_return(
    alloc: Global,
    form: Form,
    place: Place,
    parts: &Cursor<'_, Resolved>,
) -> Result<Option<Refused>, AllocError>
    ensures { IfOk result (λ refused. refused ≡ never_returns form place parts.now) }
{
    match form {
        Form::FunctionBody => {
            let found = has_return(alloc, &parts.skip(7).parts())?;
            Ok(refused_if(!found, place, 409))
        }
        _ => Ok(None),
    }
}

/// Whether a table of functions lacks one.
fn has_no_body(bodies: &[Option<DeclId>], number: Option<DeclId>) -> bool
    ensures { result ≡ lacks_body (λ k. is_some (slice_index_or bodies.now k None)) number }
{
    match number {
        None => true,
        Some(declaration) => !entry(bodies, declaration.number()).is_some(),
    }
}

/// The refusal of a function that is declared and has no body.
pub fn without_body(
    bodies: &[Option<DeclId>],
    form: Form,
    number: Option<DeclId>,
    place: Place,
    parts: &Cursor<'_, Resolved>,
) -> Option<Refused>
    ensures { result ≡ is_without_body (λ k. is_some (slice_index_or bodies.now k None)) form number place parts.now }
{
    match form {
        Form::FunctionDeclaration => {
            let declared = or_designator(number, &parts.skip(1));
            refused_if(has_no_body(bodies, declared), place, 409)
        }
        _ => None,
    }
}

fn is_function(form: Form) -> bool
    ensures { result ≡ is_function_form form }
{
    matches!(
        form,
        Form::FunctionDeclaration
            | Form::FunctionBody
            | Form::FunctionInstantiation
            | Form::GenericFunction
    )
}

/// Whether a designator is one of the operators that users don't declare.
fn is_equality(form: Form, text: &[u8]) -> bool
    ensures { result ≡ is_equality_symbol form text.now }
{
    match form {
        Form::Quoted => {
            text == b"=".as_slice() || (text == b"/=".as_slice() || text == b"??".as_slice())
        }
        _ => false,
    }
}

/// Whether the first tree is such a designator.
fn begins_with_equality(trees: &Cursor<'_, Resolved>) -> bool
    ensures { result ≡ first_is_equality trees.now }
{
    match trees.open() {
        None => false,
        Some(first) => is_equality(first.form.form, first.text),
    }
}

pub fn is_2019(revision: Revision) -> bool
    ensures { result ≡ is_of_2019 revision }
{
    matches!(revision, Revision::V2019)
}

/// The refusal of a function "=", "/=" or "??".
pub fn equality_function(
    revision: Revision,
    form: Form,
    place: Place,
    parts: &Cursor<'_, Resolved>,
) -> Option<Refused>
    ensures { result ≡ is_equality_function revision form place parts.now }
{
    let wrong = is_2019(revision) && (is_function(form) && begins_with_equality(&parts.skip(1)));
    refused_if(wrong, place, 413)
}
