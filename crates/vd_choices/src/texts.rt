//! IEEE 1076, choices of a selector that is an array of known length: each is a text of so many elements.

ghost use Rattle.std.specs.Prelude.{◌≡◌, ◌<◌, ◌↔◌, IsTrue, IfOk, IfSome, IsNone, Bool};
ghost use Rattle.vd_choices.specs.Texts.{IsFirstRepeatedText, IsRepeatedText, texts_of};

use indexmap::IndexSet;
use std::alloc::{AllocError, Global};

/// The positions of the elements of an array.
#[derive(Drop)]
pub struct Text {
    pub positions: Vec<u64>,
}

/// The first choice, in the order of the text, that an earlier one equals.
pub fn first_repeated_text(alloc: Global, choices: &[Text]) -> Result<Option<usize>, AllocError>
    ensures first { IfOk result (λ found. IfSome found (λ k. IsFirstRepeatedText (texts_of choices.now) k)) }
    ensures none { IfOk result (λ found. IsNone found ↔ (¬ IsRepeatedText (texts_of choices.now))) }
{
    let mut seen: IndexSet<&[u64]> = IndexSet::new(alloc);
    for (k, choice) in choices.iter().enumerate() {
        if !seen.insert(choice.positions.as_slice())? {
            return Ok(Some(k));
        }
    }
    Ok(None)
}
