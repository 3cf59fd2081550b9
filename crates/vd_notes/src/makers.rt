//! Nodes that passes make.

ghost use Rattle.std.specs.Prelude.{◌≡◌, ◌≤◌, IfOk, length};
ghost use Rattle.vd_forest.specs.Store.{at, Holds, Extends};
ghost use Rattle.vd_resolved.specs.declared.node.Resolved.{Resolved as ResolvedNode};
ghost use Rattle.vd_notes.specs.Makers.{absent as no_tree, call as call_made, letter as letter_made, mark_name as mark_made, name as name_made, noted, number as number_made, word as word_made};

use crate::noted::{Note, Noted};
use std::alloc::AllocError;
use vd_bytes::Place;
use vd_declarations::{DeclId, Declaration, TypeId};
use vd_forest::Store;
use vd_forms::Form;
use vd_resolved::Resolved;

/// A node that a pass makes, of either sort: of a resolved tree, or with a note.
pub trait Bare: Sized + Copy + Drop {
    ghost bare: { ResolvedNode → Self };

    /// A node that needs no note.
    fn bare(node: Resolved) -> Self
        ensures { result ≡ bare node };
}

impl Bare for Resolved {
    ghost bare = { λ node. node };

    fn bare(node: Resolved) -> Self {
        node
    }
}

impl Bare for Noted {
    ghost bare = { noted };

    fn bare(node: Resolved) -> Self {
        Noted {
            node,
            note: Note::Nothing,
        }
    }
}

/// What may stand here and doesn't.
pub fn absent<G: Bare>(out: &mut Store<G>, place: Place, next: u32) -> Result<u32, AllocError>
    requires { next ≤ length out.old }
    ensures holds { IfOk result (λ made. Holds out.new made (no_tree G.bare place (at out.old next))) }
    ensures extends { Extends out.old out.new }
{
    let node = G::bare(Resolved {
        form: Form::Absent,
        declaration: None,
        mark: None,
        position: 0,
    });
    out.add(node, &[], place, 0, next)
}

/// An identifier.
pub fn word<G: Bare>(
    out: &mut Store<G>,
    text: &[u8],
    declaration: Option<DeclId>,
    mark: Option<TypeId>,
    place: Place,
    next: u32,
) -> Result<u32, AllocError>
    requires { next ≤ length out.old }
    ensures holds { IfOk result (λ made. Holds out.new made (word_made G.bare text.now declaration mark place (at out.old next))) }
    ensures extends { Extends out.old out.new }
{
    let node = G::bare(Resolved {
        form: Form::Identifier,
        declaration,
        mark,
        position: 0,
    });
    out.add(node, text, place, 0, next)
}

/// The character literal of an enumeration type, by its character and its position.
pub fn letter<G: Bare>(
    out: &mut Store<G>,
    character: &[u8],
    literal: DeclId,
    mark: TypeId,
    position: u32,
    place: Place,
    next: u32,
) -> Result<u32, AllocError>
    requires { next ≤ length out.old }
    ensures holds { IfOk result (λ made. Holds out.new made (letter_made G.bare character.now literal mark position place (at out.old next))) }
    ensures extends { Extends out.old out.new }
{
    let node = G::bare(Resolved {
        form: Form::Letter,
        declaration: Some(literal),
        mark: Some(mark),
        position,
    });
    out.add(node, character, place, 0, next)
}

/// A number of a type, by its digits.
pub fn number<G: Bare>(
    out: &mut Store<G>,
    digits: &[u8],
    mark: TypeId,
    place: Place,
    next: u32,
) -> Result<u32, AllocError>
    requires { next ≤ length out.old }
    ensures holds { IfOk result (λ made. Holds out.new made (number_made G.bare digits.now mark place (at out.old next))) }
    ensures extends { Extends out.old out.new }
{
    let node = G::bare(Resolved {
        form: Form::Number,
        declaration: None,
        mark: Some(mark),
        position: 0,
    });
    out.add(node, digits, place, 0, next)
}

/// The name of an object, as an expression.
#[tactic(auto, using(crate::proofs::MakerLemmas::made_with_parts, vd_forest::proofs::StoreLemmas::growing))]
pub fn name_of<G: Bare>(
    out: &mut Store<G>,
    number: DeclId,
    declaration: &Declaration,
    place: Place,
    next: u32,
) -> Result<u32, AllocError>
    requires { next ≤ length out.old }
    ensures holds { IfOk result (λ made. Holds out.new made (name_made G.bare number declaration.now place (at out.old next))) }
    ensures extends { Extends out.old out.new }
{
    let text = declaration.name.as_slice();
    let parts = word(out, text, Some(number), declaration.mark, place, 0)?;
    let node = G::bare(Resolved {
        form: Form::Name,
        declaration: None,
        mark: declaration.mark,
        position: 0,
    });
    out.add(node, &[], place, parts, next)
}

/// The name of a type or subtype, where a mark stands.
#[tactic(auto, using(crate::proofs::MakerLemmas::made_with_parts, vd_forest::proofs::StoreLemmas::growing))]
pub fn mark_name_of<G: Bare>(
    out: &mut Store<G>,
    number: DeclId,
    declaration: &Declaration,
    place: Place,
    next: u32,
) -> Result<u32, AllocError>
    requires { next ≤ length out.old }
    ensures holds { IfOk result (λ made. Holds out.new made (mark_made G.bare number declaration.now place (at out.old next))) }
    ensures extends { Extends out.old out.new }
{
    let text = declaration.name.as_slice();
    let parts = word(out, text, None, None, place, 0)?;
    let node = G::bare(Resolved {
        form: Form::SelectedName,
        declaration: Some(number),
        mark: None,
        position: 0,
    });
    out.add(node, &[], place, parts, next)
}

/// The brackets of a call, with these operands.
fn operands_of<G: Bare>(
    out: &mut Store<G>,
    function: DeclId,
    mark: Option<TypeId>,
    operands: u32,
    place: Place,
) -> Result<u32, AllocError>
    requires { operands ≤ length out.old }
    ensures holds { IfOk result (λ made. Holds out.new made
        (Rattle.vd_notes.specs.Makers.brackets G.bare function mark place (at out.old operands))) }
    ensures extends { Extends out.old out.new }
{
    let node = G::bare(Resolved {
        form: Form::Arguments,
        declaration: Some(function),
        mark,
        position: 0,
    });
    out.add(node, &[], place, operands, 0)
}

/// A call of a function by its name, with these operands.
#[tactic(auto, using(crate::proofs::MakerLemmas::made_call, vd_forest::proofs::StoreLemmas::growing))]
pub fn call_of<G: Bare>(
    out: &mut Store<G>,
    number: DeclId,
    function: &Declaration,
    operands: u32,
    place: Place,
    next: u32,
) -> Result<u32, AllocError>
    requires operands_in { operands ≤ length out.old }
    requires next_in { next ≤ length out.old }
    ensures holds { IfOk result (λ made. Holds out.new made
        (call_made G.bare number function.now place (at out.old operands) (at out.old next))) }
    ensures extends { Extends out.old out.new }
{
    let brackets = operands_of(out, number, function.mark, operands, place)?;
    let text = function.name.as_slice();
    let parts = word(out, text, Some(number), None, place, brackets)?;
    let node = G::bare(Resolved {
        form: Form::Name,
        declaration: None,
        mark: function.mark,
        position: 0,
    });
    out.add(node, &[], place, parts, next)
}
