//! What an instance declares stands for what it is where its generics stand for the actuals.

ghost use Rattle.std.specs.Prelude.{◌≡◌, ◌∷◌, IfOk, List, OnOk, option_copied, ℕ};
ghost use Rattle.vd_known_designs.specs.Designs.{Knows};
ghost use Rattle.vd_known_generics.specs.Copied.{AreCopied, IsCopied, or_no_entry};
ghost use Rattle.vd_meaning.specs.Tables.{pairs as paired};
ghost use Rattle.vd_value_rules.specs.Declaring.{taken_known};
ghost use Rattle.vd_value_rules.specs.Designs.{Design};
ghost use Rattle.vd_value_rules.specs.Knowledge.{Known};

use std::alloc::{AllocError, Global};
use vd_composites::Value;
use vd_declarations::DeclId;
use vd_known_designs::KnownDesign;
use vd_static_values::Entry;
use vd_value_rules::StaticSort;
use vd_values::Scalar;

/// What something stands for, for a declaration of an instance.
#[derive(Drop)]
pub(crate) struct Copied {
    number: u32,
    entry: Entry,
    /// The subtype for choices.
    choosing: u32,
}

/// An entry once more, or that of a declaration of which nothing is known.
fn entry_again(alloc: Global, entry: Option<&Entry>) -> Result<Entry, AllocError>
    ensures { IfOk result (λ x. x ≡ or_no_entry (option_copied entry.entry)) }
{
    match entry {
        Some(entry) => {
            let value = entry.value.duplicate(alloc)?;
            Ok(Entry {
                value,
                known: entry.known,
                subtype: entry.subtype,
                bounds: entry.bounds,
                shape: entry.shape,
                is_signal: entry.is_signal,
                operator: entry.operator,
            })
        }
        None => {
            let value = Value::scalar(alloc, Scalar::Literal(0))?;
            Ok(Entry {
                value,
                known: StaticSort::never(),
                subtype: 0,
                bounds: StaticSort::never(),
                shape: None,
                is_signal: false,
                operator: None,
            })
        }
    }
}

/// What the first of two numbers stands for, for the second one.
fn copy_of(
    alloc: Global,
    design: &KnownDesign<'_, '_>,
    copy: (u32, u32),
) -> Result<Copied, AllocError>
    ensures { (d : Design) (k : Known) (ks : List Known) → Knows d design.now (k ∷ ks) → IfOk result (λ x. IsCopied design.now.table.subtypes d.table k x copy) }
{
    let entry = entry_again(alloc, design.table.entry(copy.0))?;
    Ok(Copied {
        number: copy.1,
        entry,
        choosing: design.table.choosing(copy.0),
    })
}

/// What the first numbers stand for, for the second ones.
pub(crate) fn all_copied(
    alloc: Global,
    design: &KnownDesign<'_, '_>,
    copies: &[(u32, u32)],
) -> Result<Vec<Copied>, AllocError>
    ensures { (d : Design) (k : Known) (ks : List Known) → Knows d design.now (k ∷ ks)
        → IfOk result (λ xs. AreCopied design.now.table.subtypes d.table k xs.items copies.now) }
{
    let mut found = Vec::new(alloc);
    for copy in copies {
        let one = copy_of(alloc, design, *copy)?;
        found.push(one)?;
    }
    Ok(found)
}

/// These stand for what was copied.
pub(crate) fn set_copies(
    design: &mut KnownDesign<'_, '_>,
    copies: Vec<Copied>,
) -> Result<(), AllocError>
    ensures knows { (d : Design) (from k : Known) (ks : List Known) (cs : List (ℕ × ℕ)) → AreCopied design.old.table.subtypes d.table from copies.items cs
        → Knows d design.old (k ∷ ks) → OnOk result (Knows d design.new (taken_known cs from k ∷ ks)) }
    ensures same { OnOk result (design.new.table.subtypes ≡ design.old.table.subtypes) }
{
    for copy in copies {
        design.table.set(copy.number, copy.entry, copy.choosing)?;
    }
    Ok(())
}

/// The pairs of two lists.
pub(crate) fn pairs(
    alloc: Global,
    xs: &[DeclId],
    ys: &[DeclId],
) -> Result<Vec<(u32, u32)>, AllocError>
    ensures { IfOk result (λ found. found.items ≡ paired xs.now ys.now) }
{
    let mut found = Vec::new(alloc);
    for at in 0..xs.len().min(ys.len()) {
        found.push((xs[at].number(), ys[at].number()))?;
    }
    Ok(found)
}
