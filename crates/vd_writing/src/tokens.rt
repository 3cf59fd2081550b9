//! The tokens of a design.

ghost use Rattle.std.specs.Prelude.{◌≡◌, ◌++◌, IfOk, OnOk};
ghost use Rattle.vd_templates.specs.Templates.{tokens_in, tokens_of};

use crate::items::{Item, Items};
use std::alloc::{AllocError, Global};
use vd_bytes::Place;
use vd_forms::Design93;
use vd_tokens::{Kind, Tokens};

const NO_PLACE: Place = Place {
    file: 0,
    line: 0,
    column: 0,
};

/// The tokens of a design, all at no place, and the end.
pub fn derive93(alloc: Global, design: &Design93) -> Result<Tokens, AllocError>
    ensures { IfOk result (λ tokens. tokens ≡ tokens_of design.now) }
{
    let mut items = Items::of(alloc, design)?;
    let mut tokens = Tokens::new(alloc);
    push_tokens(&mut tokens, &mut items)?;
    tokens.push(Kind::End, &[], NO_PLACE)?;
    Ok(tokens)
}

/// The tokens among some items come behind others.
fn push_tokens(tokens: &mut Tokens, items: &mut Items<'_>) -> Result<(), AllocError>
    ensures { OnOk result (tokens.new ≡ tokens.old ++ tokens_in items.old) }
{
    while let Some(item) = items.next()? {
        if let Item::Token(kind, text) = item {
            tokens.push(kind, text, NO_PLACE)?;
        }
    }
    Ok(())
}
