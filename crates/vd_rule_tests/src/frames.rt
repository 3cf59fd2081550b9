//! Texts in which an expression stands, and where it stands in their trees.

use std::alloc::{AllocError, Global};
use vd_forest::Cursor;
use vd_forms::Form;

/// What stands round an expression.
#[derive(Clone, Copy, PartialEq, Eq, Debug)]
pub enum Frame {
    /// The declaration of a constant, whose value it is.
    Value,
    /// A `for` generate, whose range it is.
    Range,
    /// A `case` statement, of which it is a choice.
    Choice,
}

impl Frame {
    /// What stands in front of it.
    pub fn front(self) -> &'static str {
        match self {
            Frame::Value => "package p is constant c : t := ",
            Frame::Range => "architecture a of e is begin g : for i in ",
            Frame::Choice => "architecture a of e is begin process begin case c is when ",
        }
    }

    /// What stands behind it.
    pub fn back(self) -> &'static str {
        match self {
            Frame::Value => "; end;",
            Frame::Range => " generate begin end generate; end;",
            Frame::Choice => " => end case; end process; end;",
        }
    }

    /// The form that it is a part of.
    pub fn form(self) -> Form {
        match self {
            Frame::Value => Form::ConstantDeclaration,
            Frame::Range => Form::ForGenerate,
            Frame::Choice => Form::Choices,
        }
    }

    /// Which of its parts, from 0.
    pub fn part(self) -> u32 {
        match self {
            Frame::Value => 2,
            Frame::Range => 1,
            Frame::Choice => 0,
        }
    }
}

/// The first tree of this form, in the order of the text.
pub fn find<'a>(
    alloc: Global,
    trees: &Cursor<'a, Form>,
    form: Form,
) -> Result<Option<Cursor<'a, Form>>, AllocError> {
    let mut waiting = Vec::new(alloc);
    waiting.push(trees.fork())?;
    for _ in 0..u64::MAX {
        let Some(next) = waiting.pop() else {
            return Ok(None);
        };
        let Some(first) = next.open() else {
            continue;
        };
        if first.form == form {
            return Ok(Some(next));
        }
        waiting.push(first.next)?;
        waiting.push(first.parts)?;
    }
    Ok(None)
}
