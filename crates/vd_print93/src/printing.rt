//! A tree as text.

ghost use Rattle.std.specs.Prelude.{◌≡◌, IfOk};
ghost use Rattle.vd_forms.specs.Validity.{IsDesign};
ghost use Rattle.vd_print93.specs.Layout.{layout_of};
ghost use Rattle.vd_print93.specs.PrintReading.{PrintReadsBack, PrintIsOfDesign};
ghost use Rattle.vd_trees.specs.declared.revision.Revision.TheVariants.{V1993};

use crate::layout::{Layout, write_item};
use std::alloc::{AllocError, Global};
use vd_forest::Cursor;
use vd_forms::{Design93, Form};
use vd_writing::Items;

/// The text of a design, laid out in lines. It is read as the tokens of the design, and these as the design, where no apostrophe stands
/// behind the words `range` and `all` in the tokens.
pub fn print(alloc: Global, design: &Design93) -> Result<Vec<u8>, AllocError>
    ensures laid_out { IfOk result (λ bytes. bytes.items ≡ layout_of design.now) }
    ensures reads_back { IfOk result (λ bytes. PrintReadsBack design.now bytes.items) }
    ensures of_design { IfOk result (λ bytes. PrintIsOfDesign design.now bytes.items) }
{
    lay_out(alloc, design)
}

/// The text of any trees of forms of 1993, valid or not, laid out in lines by the templates. It is that of `print` where they are the
/// units of a design.
pub fn text_of(alloc: Global, trees: &Cursor<'_, Form>) -> Result<Vec<u8>, AllocError>
    ensures { IfOk result (λ bytes. bytes.items ≡ layout_of trees.now) }
{
    let mut items = Items::of_trees(alloc, trees)?;
    let mut out = Vec::new(alloc);
    let mut layout = Layout {
        level: 0,
        ended: false,
        last: None,
    };
    while let Some(item) = items.next()? {
        layout = write_item(&mut out, layout, item)?;
    }
    if layout.last.is_some() {
        out.push(b'\n')?;
    }
    Ok(out)
}

/// The text of a design, item by item.
fn lay_out(alloc: Global, design: &Design93) -> Result<Vec<u8>, AllocError>
    ensures laid_out { IfOk result (λ bytes. bytes.items ≡ layout_of design.now) }
    ensures valid { IsDesign V1993 design.now }
{
    let units = design.units();
    text_of(alloc, &units)
}
