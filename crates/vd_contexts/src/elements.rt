//! Elements that are passed in brackets or in a generic map.

ghost use Rattle.std.specs.Prelude.{◌≡◌, ◌∷◌, ◌&&◌, IfOk, List, drop, ℕ};
ghost use Rattle.vd_environments.specs.Environments.{Env};
ghost use Rattle.vd_known_designs.specs.Designs.{IsReady, Knows};
ghost use Rattle.vd_meaning.specs.Facets.{nth};
ghost use Rattle.vd_meaning.specs.Meanings.{meanings};
ghost use Rattle.vd_meaning.specs.Tables.{Table};
ghost use Rattle.vd_contexts.specs.Standing.{standings_in};
ghost use Rattle.vd_value_rules.specs.Designs.{Design};
ghost use Rattle.vd_value_rules.specs.Knowledge.{Known};
ghost use Rattle.vd_value_rules.specs.Standings.{first_number, formal_of_element, further_numbers, is_bounded_formal as formal_has_bounds, is_bounded_object, is_one_element as are_one_element, passed as all_passed};

use crate::standings::Standing;
use std::alloc::{AllocError, Global};
use vd_declarations::DeclId;
use vd_forest::Cursor;
use vd_known_designs::KnownDesign;
use vd_operations::{formal_of, is_positional};
use vd_resolved::Resolved;
use vd_value_rules::subtypes::has_bounds;

/// Whether these trees are one element without choices.
pub(crate) fn is_one_element(parts: &Cursor<'_, Resolved>) -> bool
    ensures { (t : Table) → result ≡ are_one_element (meanings t parts.now) }
{
    match parts.open() {
        Some(first) => first.next.form().is_none() && is_positional(parts),
        None => false,
    }
}

/// Whether what a declaration stands for has a subtype that is no array of any bounds.
pub(crate) fn is_bounded(design: &KnownDesign<'_, '_>, number: DeclId) -> bool
    requires ready { IsReady design.now }
    ensures { (d : Design) (k : Known) (ks : List Known) → Knows d design.now (k ∷ ks) → result ≡ is_bounded_object k.env number }
{
    let own = design.table.own(number.number());
    has_bounds(&design.table.subtypes.store().cursor(own))
}

/// Whether a formal gives bounds, where formals do at all.
fn is_bounded_formal(
    design: &KnownDesign<'_, '_>,
    gives_bounds: bool,
    formal: Option<DeclId>,
) -> bool
    requires ready { IsReady design.now }
    ensures { (d : Design) (k : Known) (ks : List Known) → Knows d design.now (k ∷ ks)
        → result ≡ formal_has_bounds (λ n. gives_bounds && is_bounded_object k.env n) formal }
{
    match formal {
        Some(number) => gives_bounds && is_bounded(design, number),
        None => false,
    }
}

/// The formal of the first of some elements, where this one is the next in order.
fn formal_of_first(elements: &Cursor<'_, Resolved>, next: Option<DeclId>) -> Option<DeclId>
    ensures { (t : Table) (ns : List ℕ) → next ≡ first_number ns → result ≡ formal_of_element (nth 0 (meanings t elements.now)) ns }
{
    if is_positional(elements) {
        next
    } else {
        formal_of(elements)
    }
}

/// The next formal in order, where so many are in front of it.
pub fn next_formal(numbers: &[DeclId], at: usize) -> Option<DeclId>
    ensures { result ≡ first_number (drop at numbers.now) }
{
    numbers.get(at).copied()
}

/// How many formals are in front of the element behind.
#[tactic(auto, using(crate::proofs::PassedLemmas::further_of_drop, crate::proofs::PassedLemmas::further_past))]
pub fn behind_formal(numbers: &[DeclId], at: usize) -> usize
    ensures { drop result numbers.now ≡ further_numbers (drop at numbers.now) }
{
    if at < numbers.len() { at + 1 } else { at }
}

/// What elements are, by the formals in their order.
pub(crate) fn passed(
    alloc: Global,
    design: &KnownDesign<'_, '_>,
    gives_bounds: bool,
    numbers: &[DeclId],
    elements: &Cursor<'_, Resolved>,
) -> Result<Vec<Standing>, AllocError>
    requires ready { IsReady design.now }
    ensures { (d : Design) (k : Known) (ks : List Known) → Knows d design.now (k ∷ ks)
        → IfOk result (λ xs. standings_in d xs.items ≡ all_passed (λ n. gives_bounds && is_bounded_object k.env n) numbers.now (meanings d.table elements.now)) }
{
    let mut made = Vec::new(alloc);
    let mut rest = elements.fork();
    let mut at = 0;
    while let Some(first) = rest.open() {
        let formal = formal_of_first(&rest, next_formal(numbers, at));
        made.push(Standing::Passed {
            is_bounded: is_bounded_formal(design, gives_bounds, formal),
        })?;
        at = behind_formal(numbers, at);
        rest = first.next;
    }
    Ok(made)
}
