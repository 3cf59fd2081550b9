//! What is written of some trees, item by item.

ghost use Rattle.std.specs.Prelude.{◌≡◌, ◌++◌, [], IfOk, None};
ghost use Rattle.vd_forms.specs.Validity.{IsDesign};
ghost use Rattle.vd_trees.specs.declared.revision.Revision.TheVariants.{V1993};
ghost use Rattle.vd_templates.specs.Templates.{all_written, items_of};
ghost use Rattle.vd_writing.specs.Pending.{written_by, shown};

use crate::rows::Rows;
use crate::stack::{Frame, next_item};
use std::alloc::{AllocError, Global};
use std::marker::Model;
use vd_forest::Cursor;
use vd_forms::{Design93, Form};
use vd_templates::{Piece, TEMPLATES};
use vd_tokens::Kind;

/// A token, or how lines go on.
#[derive(Clone, Copy)]
pub enum Item<'a> {
    /// A token of this kind, with this text.
    Token(Kind, &'a [u8]),
    /// The line ends.
    EndLine,
    /// Lines that begin behind this stand one level further in.
    Inward,
    /// Lines that begin behind this stand one level further out.
    Outward,
}

/// The items of some trees that are still to come. Contracts see them as a list.
#[derive(Drop)]
pub struct Items<'a> {
    rows: Rows,
    stack: Vec<Frame<'a>>,
}

impl<'a> Model for Items<'a> {
    ghost use Rattle.std.specs.Prelude.{List};
    ghost use Rattle.vd_templates.specs.Templates.{Item};

    ghost Value = { List Item };

    ghost use Rattle.vd_writing.specs.Pending.{pending};

    ghost view = { λ a. pending a.rows a.stack.items };
}

impl<'a> Items<'a> {
    /// The items of trees, by a table of templates.
    fn by(
        alloc: Global,
        table: &'static [Piece],
        trees: &Cursor<'a, Form>,
    ) -> Result<Items<'a>, AllocError>
        ensures { IfOk result (λ items. items ≡ all_written (written_by table.now trees.now)) }
    {
        let rows = Rows::new(alloc, table)?;
        let mut stack = Vec::new(alloc);
        stack.push(Frame::Trees(trees.fork()))?;
        Ok(Items { rows, stack })
    }

    /// The items of any trees, valid or not.
    pub fn of_trees(alloc: Global, trees: &Cursor<'a, Form>) -> Result<Items<'a>, AllocError>
        ensures { IfOk result (λ items. items ≡ items_of trees.now) }
    {
        Items::by(alloc, TEMPLATES, trees)
    }

    /// The items of a design.
    pub fn of(alloc: Global, design: &'a Design93) -> Result<Items<'a>, AllocError>
        ensures items { IfOk result (λ items. items ≡ items_of design.now) }
        ensures valid { IsDesign V1993 design.now }
    {
        let units = design.units();
        Items::of_trees(alloc, &units)
    }

    /// The next item. After an error the items that are left are unknown.
    pub fn next(&mut self) -> Result<Option<Item<'a>>, AllocError>
        ensures given { IfOk result (λ item. self.old ≡ shown item ++ self.new) }
        ensures ended { IfOk result (λ item. item ≡ None → self.old ≡ []) }
    {
        next_item(&mut self.rows, &mut self.stack)
    }
}
