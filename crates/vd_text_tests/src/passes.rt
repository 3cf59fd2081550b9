//! Passes that leave forests as they are, and a meaning.

ghost use Rattle.std.specs.Prelude.{◌≤◌, IfOk, length};

use crate::forests::{Form, built};
use std::alloc::{AllocError, Global};
use vd_bytes::Place;
use vd_forest::{Cursor, Store};
use vd_rewriting::{Folding, Same, copy_shared, fold, rewrite, rewrite_under};

/// How many parts a tree has.
#[derive(Clone, Copy, Drop)]
struct Width;

impl Folding<Form, usize> for Width {
    ghost use Rattle.std.specs.Prelude.{length};

    ghost meaning = { λ _ form text place parts. length parts };

    fn node(
        &mut self,
        _form: Form,
        _text: &[u8],
        _place: Place,
        parts: &[usize],
    ) -> Result<usize, AllocError> {
        Ok(parts.len())
    }
}

/// A forest as a pass writes it into a store.
pub fn passed(
    alloc: Global,
    pass: &str,
    trees: &Cursor<'_, Form>,
    out: &mut Store<Form>,
) -> Result<u32, AllocError>
    ensures { IfOk result (λ number. number ≤ length out.new) }
{
    match pass {
        "rewrite" => rewrite(alloc, trees, out, &mut Same),
        "under" => rewrite_under(alloc, trees, (), out, &mut Same),
        "share" => copy_shared(alloc, trees, out),
        _ => out.copy(trees),
    }
}

/// How many parts each tree of a forest has.
pub fn widths(alloc: Global, which: &str) -> Result<Vec<u8>, AllocError> {
    let mut store = Store::new(alloc);
    let number = built(&mut store, which)?;
    let widths = fold(alloc, &store.cursor(number), &mut Width)?;
    let text = format!(in alloc; "{widths:?}")?;
    Vec::from_slice(alloc, text.as_bytes())
}
