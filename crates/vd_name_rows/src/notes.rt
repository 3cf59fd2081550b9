//! What is known of a declaration beside its class, name and type.

ghost use Rattle.std.specs.Prelude.{◌≡◌, OnOk};
ghost use Rattle.vd_name_rows.specs.Designs.{put_note, no_note};

use std::alloc::AllocError;
use vd_forms::Form;

/// A port or generic: its mode, which is that of a view where it has one, and whether an instance has to give it a value.
#[derive(Clone, Copy)]
pub struct Formal {
    pub mode: Form,
    pub is_needed: bool,
}

/// What the header of a function declares, or a package with generics: the first of its declarations and of its regions, and the
/// first ones behind these.
#[derive(Clone, Copy)]
pub struct Span {
    pub first: u32,
    pub end: u32,
    pub first_region: u32,
    pub end_region: u32,
}

/// What is known of one declaration.
#[derive(Clone, Copy)]
pub struct Note {
    /// The body of the function or package has ended.
    pub has_body: bool,
    /// The function is an instance.
    pub is_instance: bool,
    /// The array type or subtype has bounds.
    pub is_bounded: bool,
    /// The label is that of a loop.
    pub is_loop: bool,
    /// What it is as a port or generic.
    pub formal: Option<Formal>,
    /// The function's header, or the package.
    pub span: Option<Span>,
    /// The unit that the body of a function with generics is tied to, since it names another declaration of the region round it.
    pub tied: Option<u32>,
}

/// What the header of a body declares, from the first declaration to the one behind it, stands for what the header of the function's
/// declaration declares, one by one from a number on.
#[derive(Clone, Copy)]
pub struct Taken {
    pub first: u32,
    pub end: u32,
    pub other: u32,
}

/// What is noted of most declarations: nothing.
pub(crate) const NO_NOTE: Note = Note {
    has_body: false,
    is_instance: false,
    is_bounded: false,
    is_loop: false,
    formal: None,
    span: None,
    tied: None,
};

/// Puts a note at a number, over what stands there.
#[tactic(auto, using(crate::proofs::NoteLemmas::put_within, crate::proofs::NoteLemmas::put_behind))]
pub(crate) fn put_at(notes: &mut Vec<Note>, number: u32, note: Note) -> Result<(), AllocError>
    ensures { OnOk result (notes.new.items ≡ put_note number note notes.old.items) }
{
    let place = number as usize;
    while notes.len() <= place {
        notes.push(NO_NOTE)?;
    }
    notes[place] = note;
    Ok(())
}
