//! What is known of declarations, and what its changes replace.

ghost use Rattle.std.specs.Prelude.{◌≡◌, IfOk};
ghost use Rattle.vd_known_designs.specs.Contents.{IsRestorable, Replaces, content_of, lengths_of, no_content, or_nothing, text_at, undo, with_denoted, with_function_text, with_package_text, with_surroundings};

use crate::slots::{put, put_back};
use std::alloc::{AllocError, Global};
use vd_forest::Cursor;
use vd_resolved::Resolved;
use vd_static_values::Entry;

/// What is known of declarations, by their numbers.
#[derive(Drop)]
pub(crate) struct Contents<'a> {
    /// What they stand for.
    pub(crate) entries: Vec<Entry>,
    /// Their subtypes for choices, by the numbers of those.
    pub(crate) choosing: Vec<u32>,
    /// The texts of packages with generics.
    pub(crate) packages: Vec<Option<Cursor<'a, Resolved>>>,
    /// The texts of functions.
    pub(crate) functions: Vec<Option<Cursor<'a, Resolved>>>,
    /// Whether it is inside of a process or a function.
    pub(crate) is_inside: bool,
    /// The subtype of the result of the function that it is inside of, by its number.
    pub(crate) result: u32,
}

/// What a change took the place of.
#[derive(Drop)]
pub(crate) enum Replaced<'a> {
    Denoted {
        number: u32,
        entry: Entry,
        choosing: u32,
    },
    Package {
        number: u32,
        text: Option<Cursor<'a, Resolved>>,
    },
    Function {
        number: u32,
        text: Option<Cursor<'a, Resolved>>,
    },
    Surroundings {
        is_inside: bool,
        result: u32,
    },
}

/// The text with a number.
fn text_of<'a>(texts: &[Option<Cursor<'a, Resolved>>], number: u32) -> Option<Cursor<'a, Resolved>>
    ensures { or_nothing result ≡ text_at texts.now number }
{
    match texts.get(number as usize) {
        Some(Some(text)) => Some(text.fork()),
        _ => None,
    }
}

impl<'a> Contents<'a> {
    /// Nothing.
    pub(crate) fn new(alloc: Global) -> Self
        ensures { content_of result ≡ no_content }
    {
        Contents {
            entries: Vec::new(alloc),
            choosing: Vec::new(alloc),
            packages: Vec::new(alloc),
            functions: Vec::new(alloc),
            is_inside: false,
            result: 0,
        }
    }

    /// What a declaration stands for, with its subtype for choices.
    pub(crate) fn put_entry(
        &mut self,
        alloc: Global,
        number: u32,
        entry: Entry,
        choosing: u32,
    ) -> Result<Replaced<'a>, AllocError>
        ensures { IfOk result (λ r. Replaces self.old self.new r (with_denoted number entry choosing (content_of self.old))) }
    {
        let entry = put(alloc, &mut self.entries, number, entry)?;
        let choosing = put(alloc, &mut self.choosing, number, choosing)?;
        Ok(Replaced::Denoted {
            number,
            entry,
            choosing,
        })
    }

    /// The text of a package.
    pub(crate) fn put_package(
        &mut self,
        alloc: Global,
        number: u32,
        text: Cursor<'a, Resolved>,
    ) -> Result<Replaced<'a>, AllocError>
        ensures { IfOk result (λ r. Replaces self.old self.new r (with_package_text number text.entry (content_of self.old))) }
    {
        let text = put(alloc, &mut self.packages, number, Some(text))?;
        Ok(Replaced::Package { number, text })
    }

    /// The text of a function.
    pub(crate) fn put_function(
        &mut self,
        alloc: Global,
        number: u32,
        text: Cursor<'a, Resolved>,
    ) -> Result<Replaced<'a>, AllocError>
        ensures { IfOk result (λ r. Replaces self.old self.new r (with_function_text number text.entry (content_of self.old))) }
    {
        let text = put(alloc, &mut self.functions, number, Some(text))?;
        Ok(Replaced::Function { number, text })
    }

    /// What is around: whether it is inside of a process or a function, and the subtype of the result of a function.
    pub(crate) fn put_surroundings(&mut self, is_inside: bool, subtype: u32) -> Replaced<'a>
        ensures { Replaces self.old self.new result (with_surroundings is_inside subtype (content_of self.old)) }
    {
        let replaced = Replaced::Surroundings {
            is_inside: self.is_inside,
            result: self.result,
        };
        self.is_inside = is_inside;
        self.result = subtype;
        replaced
    }

    /// The text of a package.
    pub(crate) fn package(&self, number: u32) -> Option<Cursor<'a, Resolved>>
        ensures { or_nothing result ≡ (content_of self.now).packages number }
    {
        text_of(&self.packages, number)
    }

    /// The text of a function.
    pub(crate) fn function(&self, number: u32) -> Option<Cursor<'a, Resolved>>
        ensures { or_nothing result ≡ (content_of self.now).functions number }
    {
        text_of(&self.functions, number)
    }

    /// What was there before a change.
    pub(crate) fn undo(&mut self, replaced: Replaced<'a>)
        ensures content { IsRestorable (lengths_of self.old) replaced.entry → content_of self.new ≡ undo replaced.entry (content_of self.old) }
        ensures lengths { lengths_of self.new ≡ lengths_of self.old }
    {
        match replaced {
            Replaced::Denoted {
                number,
                entry,
                choosing,
            } => {
                put_back(&mut self.entries, number, entry);
                put_back(&mut self.choosing, number, choosing);
            }
            Replaced::Package { number, text } => put_back(&mut self.packages, number, text),
            Replaced::Function { number, text } => put_back(&mut self.functions, number, text),
            Replaced::Surroundings {
                is_inside,
                result: subtype,
            } => {
                self.is_inside = is_inside;
                self.result = subtype;
            }
        }
    }
}
