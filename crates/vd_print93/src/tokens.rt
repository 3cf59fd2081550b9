//! The tokens of a tree.

ghost use Rattle.std.specs.Prelude.{◌≡◌, IfOk};
ghost use Rattle.std.specs.List.{AllByRecursion};
ghost use Rattle.vd_tokens.specs.Spellings.{IsPossible, EndsOnce};
ghost use Rattle.vd_templates.specs.Templates.{tokens_of};
ghost use Rattle.vd_forms.specs.Validity.{IsDesign};
ghost use Rattle.vd_derivations93.specs.Laws.{IsReadBack};
ghost use Rattle.vd_trees.specs.declared.revision.Revision.TheVariants.{V1993};

use std::alloc::{AllocError, Global};
use vd_forms::Design93;
use vd_tokens::Tokens;
use vd_writing::derive93 as derive;

/// The tokens of a design, all at no place, and the end. `read93` may be called with them.
pub fn derive93(alloc: Global, design: &Design93) -> Result<Tokens, AllocError>
    ensures tokens { IfOk result (λ tokens. tokens ≡ tokens_of design.now) }
    ensures possible { IfOk result (λ tokens. AllByRecursion (IsPossible V1993) tokens) }
    ensures ends { IfOk result (λ tokens. EndsOnce tokens) }
    ensures read_back { IfOk result (λ tokens. IsReadBack design.now tokens) }
{
    is_valid(design);
    derive(alloc, design)
}

/// A design is a valid tree. The function does nothing.
fn is_valid(design: &Design93)
    ensures { IsDesign V1993 design.now }
{
    let _units = design.units();
}
