//! Calls of `rising_edge` and `falling_edge`, whose argument has to be the name of a signal.

ghost use Rattle.std.specs.Prelude.{◌≡◌, IfOk};
ghost use Rattle.vd_walks.specs.Finding.{Finder};
ghost use Rattle.vd_regions.specs.Scopes.{entered_at};
ghost use Rattle.vd_naming.specs.Edges.{is_edge_name as names_edge, is_edge_function as calls_edge, is_signal as names_signal, is_part as is_part_of_signal, are_parts as are_parts_of_signal, is_signal_path as is_path_of_signal, is_signal_name as is_name_of_signal, first_is_signal as first_names_signal, argument_is_signal as argument_names_signal, arguments_are_signals as arguments_name_signals, has_wrong_call as some_call_wrong, wrong_at as wrong_name_at, edge_finder, edge_of_no_signal as first_edge_of_no_signal};

use std::alloc::{AllocError, Global};
use vd_bytes::{Place, Refused};
use vd_declarations::DeclId;
use vd_forest::{Cursor, Opened};
use vd_forms::Form;
use vd_name_rows::Names;
use vd_predefined::numbers::REGION_OF_1164;
use vd_resolved::Resolved;
use vd_visible::roles::{Role, role_of};
use vd_walks::{Finding, find_first};

/// Whether it is the name of one of the two functions.
fn is_edge_name(name: &[u8]) -> bool
    ensures { result ≡ names_edge name.now }
{
    name == b"rising_edge".as_slice() || name == b"falling_edge".as_slice()
}

/// The region of a declaration. That of a number that isn't given out is the one of the libraries.
fn region_of(names: &Names, id: DeclId) -> u32
    ensures { result ≡ (entered_at names.now.scopes id).region }
{
    let regions = names.regions();
    if regions.is_declaration(id) {
        regions.region_of(id).number()
    } else {
        0
    }
}

/// Whether it is one of the two functions.
pub fn is_edge_function(names: &Names, function: Option<DeclId>) -> bool
    ensures { result ≡ calls_edge names.now.scopes function }
{
    match function {
        None => false,
        Some(id) => region_of(names, id) == REGION_OF_1164 && is_edge_name(names.name_of(id)),
    }
}

/// Whether it is a signal.
fn is_signal(names: &Names, named: Option<DeclId>) -> bool
    ensures { result ≡ names_signal names.now.scopes named }
{
    match named {
        None => false,
        Some(id) => matches!(role_of(names.class_of(id)), Role::Signal),
    }
}

/// Whether a piece is a field, an index or a slice.
fn is_part(form: Form, called: Option<DeclId>) -> bool
    ensures { result ≡ is_part_of_signal form called }
{
    match form {
        Form::Selection => true,
        Form::Arguments => called.is_none(),
        _ => false,
    }
}

/// Whether all pieces are fields, indexes or slices.
fn are_parts(pieces: &Cursor<'_, Resolved>) -> bool
    ensures { result ≡ are_parts_of_signal pieces.now }
{
    let mut left = pieces.fork();
    while let Some(piece) = left.form() {
        if !is_part(piece.form, piece.declaration) {
            return false;
        }
        left = left.next();
    }
    true
}

/// Whether the pieces of a name are a signal, and parts of it.
fn is_signal_path(names: &Names, pieces: &Cursor<'_, Resolved>) -> bool
    ensures { result ≡ is_path_of_signal names.now.scopes pieces.now }
{
    match pieces.form() {
        None => false,
        Some(head) => is_signal(names, head.declaration) && are_parts(&pieces.next()),
    }
}

/// Whether a tree of this form and with these parts is the name of a signal.
fn is_signal_name(names: &Names, form: Form, parts: &Cursor<'_, Resolved>) -> bool
    ensures { result ≡ is_name_of_signal names.now.scopes form parts.now }
{
    match form {
        Form::Name => is_signal_path(names, parts),
        _ => false,
    }
}

/// Whether the first tree is the name of a signal.
fn first_is_signal(names: &Names, trees: &Cursor<'_, Resolved>) -> bool
    ensures { result ≡ first_names_signal names.now.scopes trees.now }
{
    match trees.form() {
        None => false,
        Some(first) => is_signal_name(names, first.form, &trees.parts()),
    }
}

/// Whether an argument is the name of a signal, by position or behind the name of the parameter.
fn argument_is_signal(
    names: &Names,
    form: Form,
    parts: &Cursor<'_, Resolved>,
    arguments: &Cursor<'_, Resolved>,
) -> bool
    ensures { result ≡ argument_names_signal names.now.scopes form parts.now arguments.now }
{
    match form {
        Form::Association => first_is_signal(names, &parts.next()),
        _ => first_is_signal(names, arguments),
    }
}

/// Whether the one argument of a call is the name of a signal. Without an argument nothing is wrong.
fn arguments_are_signals(names: &Names, arguments: &Cursor<'_, Resolved>) -> bool
    ensures { result ≡ arguments_name_signals names.now.scopes arguments.now }
{
    match arguments.open() {
        None => true,
        Some(first) => argument_is_signal(names, first.form.form, &first.parts, arguments),
    }
}

/// Whether one of the pieces calls such a function with another argument.
fn has_wrong_call(names: &Names, pieces: &Cursor<'_, Resolved>) -> bool
    ensures { result ≡ some_call_wrong names.now.scopes pieces.now }
{
    let mut left = pieces.fork();
    while let Some(piece) = left.form() {
        let wrong = is_edge_function(names, piece.declaration)
            && !arguments_are_signals(names, &left.parts());
        if wrong {
            return true;
        }
        left = left.next();
    }
    false
}

/// What is refused of a node.
fn wrong_at(
    names: &Names,
    form: Form,
    place: Place,
    parts: &Cursor<'_, Resolved>,
) -> Option<Refused>
    ensures { result ≡ wrong_name_at form names.now.scopes place parts.now }
{
    match form {
        Form::Name => {
            if has_wrong_call(names, parts) {
                Some(Refused { place, rule: 307 })
            } else {
                None
            }
        }
        _ => None,
    }
}

/// Names of the two functions, where it is known what is declared.
#[derive(Clone, Copy)]
struct Edges<'a> {
    names: &'a Names,
}

impl<'a> Finding<Resolved, (), Refused> for Edges<'a> {
    ghost finder = { λ edges. edge_finder edges.names.now.scopes };

    fn answer(
        &self,
        _alloc: Global,
        _state: &(),
        node: &Opened<'_, Resolved>,
    ) -> Result<Option<Refused>, AllocError> {
        Ok(wrong_at(self.names, node.form.form, node.place, &node.parts))
    }

    fn down(
        &self,
        _alloc: Global,
        _state: &(),
        _node: &Opened<'_, Resolved>,
    ) -> Result<(), AllocError> {
        Ok(())
    }

    fn along(
        &self,
        _alloc: Global,
        _state: &(),
        _node: &Opened<'_, Resolved>,
    ) -> Result<(), AllocError> {
        Ok(())
    }
}

/// The first call of `rising_edge` or `falling_edge` in a resolved tree whose argument is no name of a signal.
pub fn edge_of_no_signal(
    alloc: Global,
    names: &Names,
    tree: &Cursor<'_, Resolved>,
) -> Result<Option<Refused>, AllocError>
    ensures { IfOk result (λ found. found ≡ first_edge_of_no_signal names.now.scopes tree.now) }
{
    let search = Edges { names };
    find_first(alloc, tree, (), &search)
}
