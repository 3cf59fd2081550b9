//! Where a text stands: its lines and levels.

ghost use Rattle.std.specs.Prelude.{◌≡◌, ◌++◌, ◌∷◌, OnOk, IfOk, List, Some};
ghost use Rattle.vd_spacing.specs.Spacing.{spacing_bytes};
ghost use Rattle.vd_tokens.specs.Spellings.{spelling_of};
ghost use Rattle.vd_print93.specs.Layout.{spacing_of, line_start, bytes_from};
ghost use Rattle.vd_templates.specs.Templates.{Item, token, inward};
ghost use Rattle.vd_writing.specs.Pending.{shown};

use std::alloc::AllocError;
use vd_spacing::is_spaced;
use vd_tokens::{Kind, spell_into};
use vd_writing::Item as Given;

/// How far in the next line begins, whether a line ended behind the last token, and that token's kind, if there is one.
#[derive(Clone, Copy)]
pub struct Layout {
    pub level: usize,
    pub ended: bool,
    pub last: Option<Kind>,
}

/// The end of a line, and two spaces for each level.
fn push_line_start(out: &mut Vec<u8>, level: usize) -> Result<(), AllocError>
    ensures { OnOk result (out.new.items ≡ out.old.items ++ line_start level) }
{
    out.push(b'\n')?;
    for _step in 0..level {
        out.extend_from_slice(b"  ")?;
    }
    Ok(())
}

/// What stands between a token and the next one.
fn push_spacing(
    out: &mut Vec<u8>,
    level: usize,
    ended: bool,
    left: Kind,
    right: Kind,
) -> Result<(), AllocError>
    ensures { OnOk result (out.new.items ≡ out.old.items ++ spacing_bytes (spacing_of level ended left right)) }
{
    if ended {
        return push_line_start(out, level);
    }
    if is_spaced(left, right) {
        out.push(b' ')?;
    }
    Ok(())
}

/// Writes a token.
fn write_token(
    out: &mut Vec<u8>,
    layout: Layout,
    kind: Kind,
    text: &[u8],
) -> Result<Layout, AllocError>
    ensures { IfOk result (λ next. (items : List Item) → out.new.items ++ bytes_from next items
        ≡ out.old.items ++ bytes_from layout (token kind text.now ∷ items)) }
{
    if let Some(left) = layout.last {
        push_spacing(out, layout.level, layout.ended, left, kind)?;
    }
    spell_into(out, kind, text)?;
    Ok(Layout {
        level: layout.level,
        ended: false,
        last: Some(kind),
    })
}

/// One level further in.
fn inward(layout: Layout) -> Result<Layout, AllocError>
    ensures { IfOk result (λ next. (items : List Item) → bytes_from next items ≡ bytes_from layout (inward ∷ items)) }
{
    match layout.level.checked_add(1) {
        Some(level) => Ok(Layout { level, ..layout }),
        None => Err(AllocError),
    }
}

/// Writes an item, and gives where the text stands then.
pub fn write_item(out: &mut Vec<u8>, layout: Layout, item: Given<'_>) -> Result<Layout, AllocError>
    ensures { IfOk result (λ next. (items : List Item) → out.new.items ++ bytes_from next items
        ≡ out.old.items ++ bytes_from layout (shown (Some item.entry) ++ items)) }
{
    match item {
        Given::Token(kind, text) => write_token(out, layout, kind, text),
        Given::EndLine => Ok(Layout {
            ended: true,
            ..layout
        }),
        Given::Inward => inward(layout),
        Given::Outward => Ok(Layout {
            level: layout.level.saturating_sub(1),
            ..layout
        }),
    }
}
