//! The designs of token lists, and one design of several.

ghost use Rattle.std.specs.Prelude.{◌≡◌, min, IfOk, IfErr};
ghost use Rattle.std.specs.List.{AllByRecursion};
ghost use Rattle.vd_design_files.specs.Files.{IsRead, IsUnread};
ghost use Rattle.vd_design_files.specs.InOrder.{HaveEach, IsFirstEnd};
ghost use Rattle.vd_design_files.specs.Laws.{IsEnd};
ghost use Rattle.vd_forest.specs.Forest.{tree_count};
ghost use Rattle.vd_forms.specs.Validity.{all_joined};
ghost use Rattle.vd_tokens.specs.Spellings.{EndsOnce, IsPossible};
ghost use Rattle.vd_trees.specs.declared.revision.Revision.TheVariants.{V2019};

use crate::answers::{DesignEnd, end_of_grammar};
use std::alloc::{AllocError, Global};
use vd_forest::{Cursor, Store};
use vd_forms::{Design19, Form};
use vd_grammar19::read19;
use vd_tokens::Tokens;

/// The design of each token list, or the first one that has none.
pub(crate) fn read(alloc: Global, lists: &[Tokens]) -> Result<Vec<Design19>, DesignEnd>
    requires end_once { AllByRecursion EndsOnce lists.now }
    requires possible { AllByRecursion (AllByRecursion (IsPossible V2019)) lists.now }
    ensures have { IfOk result (λ designs. HaveEach IsRead lists.now designs.items) }
    ensures end { IfErr result (IsEnd (IsFirstEnd IsRead IsUnread lists.now)) }
{
    let mut designs = Vec::with_capacity(alloc, lists.len())?;
    for tokens in lists {
        let design = match read19(alloc, tokens) {
            Ok(design) => design,
            Err(end) => return Err(end_of_grammar(end)),
        };
        match designs.push(design) {
            Ok(()) => {}
            Err(_) => return Err(DesignEnd::Memory),
        }
    }
    Ok(designs)
}

/// The units of some designs as one design. A single design stays as it is.
pub(crate) fn joined_design(alloc: Global, designs: Vec<Design19>) -> Result<Design19, AllocError>
    ensures { IfOk result (λ design. design ≡ all_joined designs.items) }
{
    let mut designs = designs;
    if designs.len() == 1
        && let Some(only) = designs.pop()
    {
        return Ok(only);
    }
    let mut all = Design19::of(Store::new(alloc), 0);
    all.append(designs.as_slice())?;
    Ok(all)
}

/// How many units there are, counted up to a number.
pub(crate) fn count_units(most: u32, units: &Cursor<'_, Form>) -> u32
    ensures { result ≡ min most (tree_count units.now) }
{
    let mut count = 0;
    let mut left = units.fork();
    while count < most {
        let Some(first) = left.open() else {
            return count;
        };
        left = first.next;
        count += 1;
    }
    count
}
