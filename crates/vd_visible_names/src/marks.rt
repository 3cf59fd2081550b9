//! Names of declarations, as they are written at a place.
#![tactic(auto, using(vd_forest::proofs::StoreLemmas::growing))]

ghost use Rattle.std.specs.Prelude.{◌≡◌, ◌≤◌, IfOk, length};
ghost use Rattle.vd_forest.specs.Store.{Extends};

use crate::levels::Head;
use crate::nodes::{attribute, identifier, leaf, selection};
use crate::spellings::{Home, Spelling};
use crate::writer::Writer;
use std::alloc::AllocError;
use vd_bytes::Place;
use vd_forest::{Opened, Store};
use vd_forms::Form;
use vd_resolved::Resolved;

/// What the first piece of a name is that stands alone.
fn head_of(name: &[u8]) -> Head {
    match name {
        [b'"', ..] => Head::Symbol,
        [b'\'', ..] => Head::Letter,
        _ => Head::Word,
    }
}

/// What the first piece of a name is.
pub(crate) fn head_by(spelling: &Spelling<'_>, name: &[u8]) -> Head {
    match spelling {
        Spelling::Alone => head_of(name),
        _ => Head::Word,
    }
}

/// The form of a name with such a first piece.
pub(crate) fn form_by(head: Head) -> Form {
    match head {
        Head::Symbol => Form::OperatorName,
        _ => Form::Name,
    }
}

/// A library, and what it has behind a point, in front of other pieces.
fn behind_library(
    out: &mut Store<Form>,
    home: &Home<'_>,
    place: Place,
    rest: u32,
) -> Result<u32, AllocError>
    requires { rest ≤ length out.old }
    ensures within { IfOk result (λ made. made ≤ length out.new) }
    ensures extends { Extends out.old out.new }
{
    let behind = match home.unit {
        Some(unit) => selection(out, unit, place, rest)?,
        None => rest,
    };
    identifier(out, home.library, place, behind)
}

/// The pieces of a name behind a library and a unit, in front of suffixes.
fn selected_pieces(
    out: &mut Store<Form>,
    home: &Home<'_>,
    name: &[u8],
    place: Place,
    rest: u32,
) -> Result<u32, AllocError>
    requires { rest ≤ length out.old }
    ensures within { IfOk result (λ made. made ≤ length out.new) }
    ensures extends { Extends out.old out.new }
{
    let last = selection(out, name, place, rest)?;
    behind_library(out, home, place, last)
}

/// The pieces of a name that isn't that of a value, in front of suffixes.
pub(crate) fn plain_pieces(
    out: &mut Store<Form>,
    spelling: &Spelling<'_>,
    name: &[u8],
    place: Place,
    rest: u32,
) -> Result<u32, AllocError>
    requires { rest ≤ length out.old }
    ensures within { IfOk result (λ made. made ≤ length out.new) }
    ensures extends { Extends out.old out.new }
{
    match spelling {
        Spelling::Selected(home) => selected_pieces(out, home, name, place, rest),
        _ => leaf(out, name, place, rest),
    }
}

/// The trees of a name where the grammar has a selected name.
fn selected_words(
    out: &mut Store<Form>,
    home: &Home<'_>,
    name: &[u8],
    place: Place,
) -> Result<u32, AllocError>
    ensures within { IfOk result (λ made. made ≤ length out.new) }
    ensures extends { Extends out.old out.new }
{
    let last = leaf(out, name, place, 0)?;
    let behind = match home.unit {
        Some(unit) => identifier(out, unit, place, last)?,
        None => last,
    };
    identifier(out, home.library, place, behind)
}

/// The digits of a number.
fn digits(alloc: std::alloc::Global, number: u32) -> Result<Vec<u8>, AllocError> {
    let text = format!(in alloc; "{number}")?;
    Vec::from_slice(alloc, text.as_bytes())
}

impl<'a> Writer<'a> {
    /// The pieces of the literal of a type by its position, in front of suffixes.
    fn value_pieces(
        &mut self,
        out: &mut Store<Form>,
        mark: u32,
        position: u32,
        place: Place,
        rest: u32,
    ) -> Result<u32, AllocError>
        requires { rest ≤ length out.old }
        ensures within { IfOk result (λ made. made ≤ length out.new) }
        ensures extends { Extends out.old out.new }
    {
        let text = digits(self.alloc, position)?;
        let inside = out.add(Form::Number, text.as_slice(), place, 0, 0)?;
        let brackets = out.add(Form::Arguments, &[], place, inside, rest)?;
        self.attribute_pieces(out, mark, b"val", place, brackets)
    }

    /// The pieces of an attribute of a type, in front of suffixes.
    pub(crate) fn attribute_pieces(
        &mut self,
        out: &mut Store<Form>,
        mark: u32,
        word: &[u8],
        place: Place,
        rest: u32,
    ) -> Result<u32, AllocError>
        requires { rest ≤ length out.old }
        ensures within { IfOk result (λ made. made ≤ length out.new) }
        ensures extends { Extends out.old out.new }
    {
        let own = self.spell(mark)?;
        let name = self.name_of(mark);
        let behind = attribute(out, word, place, rest)?;
        plain_pieces(out, &own, name, place, behind)
    }

    /// The pieces of a name, in front of suffixes.
    pub(crate) fn pieces(
        &mut self,
        out: &mut Store<Form>,
        number: u32,
        spelling: &Spelling<'a>,
        place: Place,
        rest: u32,
    ) -> Result<u32, AllocError>
        requires { rest ≤ length out.old }
        ensures within { IfOk result (λ made. made ≤ length out.new) }
        ensures extends { Extends out.old out.new }
    {
        match spelling {
            Spelling::Value { mark, position } => {
                self.value_pieces(out, *mark, *position, place, rest)
            }
            _ => {
                let name = self.name_of(number);
                plain_pieces(out, spelling, name, place, rest)
            }
        }
    }

    /// The name of a declaration as an expression, with these suffixes.
    pub(crate) fn name_node(
        &mut self,
        out: &mut Store<Form>,
        number: u32,
        place: Place,
        suffixes: u32,
    ) -> Result<u32, AllocError>
        requires { suffixes ≤ length out.old }
        ensures within { IfOk result (λ made. made ≤ length out.new) }
        ensures extends { Extends out.old out.new }
    {
        let spelling = self.spell(number)?;
        let pieces = self.pieces(out, number, &spelling, place, suffixes)?;
        let form = form_by(head_by(&spelling, self.name_of(number)));
        out.add(form, &[], place, pieces, 0)
    }

    /// The mark of a type or subtype, or the name of an entity, where the grammar has a selected name.
    pub(crate) fn mark_node(
        &mut self,
        out: &mut Store<Form>,
        number: u32,
        place: Place,
    ) -> Result<u32, AllocError>
        ensures within { IfOk result (λ made. made ≤ length out.new) }
        ensures extends { Extends out.old out.new }
    {
        let spelling = self.spell(number)?;
        let name = self.name_of(number);
        let words = match &spelling {
            Spelling::Selected(home) => selected_words(out, home, name, place)?,
            _ => leaf(out, name, place, 0)?,
        };
        out.add(Form::SelectedName, &[], place, words, 0)
    }

    /// A mark, where the tree has one.
    pub(crate) fn write_mark(
        &mut self,
        out: &mut Store<Form>,
        node: &Opened<'a, Resolved>,
    ) -> Result<u32, AllocError>
        ensures within { IfOk result (λ made. made ≤ length out.new) }
        ensures extends { Extends out.old out.new }
    {
        match node.form.declaration {
            Some(id) => self.mark_node(out, id.number(), node.place),
            None => self.copied(out, node),
        }
    }
}
