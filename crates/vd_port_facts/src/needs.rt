//! What is named with the defaults of generics that are left out.

ghost use Rattle.std.specs.Prelude.{◌≡◌, ◌++◌, ◌||◌, IfOk, OnOk, false, nat_eq, reverse, ℕ};
ghost use Rattle.std.specs.HashMap.{get};
ghost use Rattle.std.specs.List.{list_any};
ghost use Rattle.std.specs.Option.{unwrap_or};
ghost use Rattle.vd_port_facts.specs.Needed.{AreMarks, needed_by, with_names};
ghost use Rattle.vd_value_rules.specs.Designs.{is_listed};

use std::alloc::{AllocError, Global};
use std::collections::HashMap;
use vd_declarations::{DeclId, Declarations};

/// Whether a declaration is marked.
fn is_marked(marks: &HashMap<u32, bool>, number: DeclId) -> bool
    ensures { result ≡ unwrap_or (get nat_eq marks.now number) false }
{
    match marks.get(&number.number()) {
        Some(is_one) => *is_one,
        None => false,
    }
}

/// Whether one of some declarations is marked.
fn any_marked(marks: &HashMap<u32, bool>, numbers: &[DeclId]) -> bool
    ensures { result ≡ list_any (λ d. unwrap_or (get nat_eq marks.now d) false) numbers.now }
{
    for number in numbers {
        if is_marked(marks, *number) {
            return true;
        }
    }
    false
}

/// Marks some declarations.
fn mark(marks: &mut HashMap<u32, bool>, numbers: &[DeclId]) -> Result<(), AllocError>
    ensures { OnOk result ((k : ℕ) → unwrap_or (get nat_eq marks.new k) false ≡ (is_listed k numbers.now || unwrap_or (get nat_eq marks.old k) false)) }
{
    for number in numbers {
        marks.insert(number.number(), true)?;
    }
    Ok(())
}

/// Puts some declarations in front of a list that is kept from its end on.
fn put_in_front(found: &mut Vec<DeclId>, numbers: &[DeclId]) -> Result<(), AllocError>
    ensures { OnOk result (reverse found.new.items ≡ numbers.now ++ reverse found.old.items) }
{
    let mut left = numbers.len();
    while left > 0 {
        left -= 1;
        found.push(numbers[left])?;
    }
    Ok(())
}

/// Puts names in front of others, where they are taken, and marks them.
fn add_names(
    found: &mut Vec<DeclId>,
    marks: &mut HashMap<u32, bool>,
    takes: bool,
    names: &[DeclId],
) -> Result<(), AllocError>
    ensures listed { OnOk result (reverse found.new.items ≡ with_names takes names.now (reverse found.old.items)) }
    ensures marked { OnOk result (AreMarks (λ k. unwrap_or (get nat_eq marks.old k) false) (reverse found.old.items)
        → AreMarks (λ k. unwrap_or (get nat_eq marks.new k) false) (reverse found.new.items)) }
{
    if takes {
        put_in_front(found, names)?;
        mark(marks, names)?;
    }
    Ok(())
}

/// What is named where some declarations are named and generics are left out: from the last generic on, what its default names is put in front where it is
/// named itself.
pub(crate) fn needed(
    alloc: Global,
    lefts: &[Declarations],
    defaults: &[Declarations],
    named: &[DeclId],
) -> Result<Vec<DeclId>, AllocError>
    ensures { IfOk result (λ found. found.items ≡ needed_by lefts.now defaults.now named.now) }
{
    let mut found = Vec::new(alloc);
    let mut marks = HashMap::new(alloc);
    add_names(&mut found, &mut marks, true, named)?;
    let mut left = lefts.len().min(defaults.len());
    while left > 0 {
        left -= 1;
        let takes = any_marked(&marks, lefts[left].as_slice());
        add_names(&mut found, &mut marks, takes, defaults[left].as_slice())?;
    }
    found.reverse();
    Ok(found)
}
