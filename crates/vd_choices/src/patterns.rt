//! IEEE 1076, choices of a matching case statement or matching selected assignment, which are compared by `?=`.

ghost use Rattle.std.specs.Prelude.{◌≡◌, ◌<◌, ◌↔◌, ◌++◌, ◌∷◌, [], ◌&&◌, IsTrue, IfOk, OnOk, IfSome, IsNone, Bool, not, if◌then◌else◌};
ghost use Rattle.vd_choices.specs.Patterns.{AreOverlapping, IsFirstOverlapping, match_all, patterns_of};
ghost use Rattle.vd_choices.specs.Bits.{are_bits, bits_of, has_bits, has_dash, is_bit, keys_of, overlap, overlaps_borrowed, overlaps_choice, with_bits};

use indexmap::IndexSet;
use std::alloc::{AllocError, Global};
use vd_values::{Logic, condition, logic_and, matches};

/// The elements of an array of `std_ulogic`. A value that is no array stands for an array of one; the values of BIT are '0' and '1'.
#[derive(Drop)]
pub struct Pattern {
    pub elements: Vec<Logic>,
}

/// The first choice, in the order of the text, that an earlier one overlaps. A choice without '-' is looked up among the bits of the
/// earlier ones, and compared with those that have '-'; one that has '-' is compared with all earlier ones. So n choices of length m, of
/// which d have '-', take about n * m * (1 + d) steps.
pub fn first_overlapping(alloc: Global, choices: &[Pattern]) -> Result<Option<usize>, AllocError>
    ensures first { IfOk result (λ found. IfSome found (λ k. IsFirstOverlapping (patterns_of choices.now) k)) }
    ensures none { IfOk result (λ found. IsNone found ↔ (¬ AreOverlapping (patterns_of choices.now))) }
{
    let mut seen: IndexSet<Vec<bool>> = IndexSet::new(alloc);
    let mut dashed: Vec<&[Logic]> = Vec::new(alloc);
    for (k, choice) in choices.iter().enumerate() {
        let elements = choice.elements.as_slice();
        if add_bits(alloc, &mut seen, elements)? {
            return Ok(Some(k));
        }
        if overlaps(&choices[..k], &dashed, elements) {
            return Ok(Some(k));
        }
        add_dashed(&mut dashed, elements)?;
    }
    Ok(None)
}

/// Adds the bits that an array stands for, if it stands for some, and says whether they were there already.
fn add_bits(
    alloc: Global,
    seen: &mut IndexSet<Vec<bool>>,
    elements: &[Logic],
) -> Result<bool, AllocError>
    ensures answer { IfOk result (λ was_there. was_there ≡ (are_bits elements.now && has_bits (keys_of seen.old.keys) (bits_of elements.now))) }
    ensures keys { OnOk result (keys_of seen.new.keys ≡ with_bits elements.now (keys_of seen.old.keys)) }
{
    if !are_bits(elements) {
        return Ok(false);
    }
    let bits = bits(alloc, elements)?;
    let is_new = seen.insert(bits)?;
    Ok(!is_new)
}

/// Adds an array to those that have '-', if it is one.
fn add_dashed<'a>(dashed: &mut Vec<&'a [Logic]>, elements: &'a [Logic]) -> Result<(), AllocError>
    ensures { OnOk result (dashed.new.items ≡ (if has_dash elements.now then dashed.old.items ++ elements.entry ∷ [] else dashed.old.items)) }
{
    if has_dash(elements) {
        dashed.push(elements)?;
    }
    Ok(())
}

/// Whether an array overlaps an earlier choice, of which only those with '-' are looked at unless it has '-' itself.
fn overlaps(earlier: &[Pattern], dashed: &[&[Logic]], elements: &[Logic]) -> bool
    ensures { result ≡ (if has_dash elements.now then overlaps_choice earlier.now elements.now else overlaps_borrowed dashed.now elements.now) }
{
    if has_dash(elements) {
        overlaps_choice(earlier, elements)
    } else {
        overlaps_borrowed(dashed, elements)
    }
}

fn overlaps_choice(choices: &[Pattern], elements: &[Logic]) -> bool
    ensures { result ≡ overlaps_choice choices.now elements.now }
{
    choices
        .iter()
        .any(|choice| overlap(choice.elements.as_slice(), elements))
}

fn overlaps_borrowed(arrays: &[&[Logic]], elements: &[Logic]) -> bool
    ensures { result ≡ overlaps_borrowed arrays.now elements.now }
{
    arrays.iter().any(|array| overlap(array, elements))
}

/// Whether two arrays overlap.
#[tactic(auto, using(crate::proofs::PatternLemmas::one_matched, crate::proofs::PatternLemmas::number_same, crate::proofs::PatternLemmas::drop_all))]
fn overlap(left: &[Logic], right: &[Logic]) -> bool
    ensures { result ≡ overlap left.now right.now }
{
    if left.len() != right.len() {
        return false;
    }
    let mut value = Logic::One;
    for i in 0..left.len() {
        value = logic_and(value, matches(left[i], right[i]));
    }
    condition(value)
}

fn has_dash(elements: &[Logic]) -> bool
    ensures { result ≡ has_dash elements.now }
{
    elements
        .iter()
        .any(|element| matches!(element, Logic::Dash))
}

fn are_bits(elements: &[Logic]) -> bool
    ensures { result ≡ are_bits elements.now }
{
    elements.iter().all(|element| is_bit(*element))
}

/// Whether a value stands for a bit.
fn is_bit(value: Logic) -> bool
    ensures { result ≡ is_bit value }
{
    matches!(value, Logic::Zero | Logic::One | Logic::L | Logic::H)
}

/// The bits that values stand for.
fn bits(alloc: Global, elements: &[Logic]) -> Result<Vec<bool>, AllocError>
    ensures { IfOk result (λ bits. bits.items ≡ bits_of elements.now) }
{
    let mut bits = Vec::with_capacity(alloc, elements.len())?;
    for element in elements {
        bits.push(condition(*element))?;
    }
    Ok(bits)
}
