//! What an instance declares: copies of what its original does.

ghost use Rattle.std.specs.Prelude.{◌≡◌, ◌++◌, IfOk, OnOk, slice_get};
ghost use Rattle.vd_call_rules.specs.Chains.{generics_in as generics_of, parameters_in as parameters_of, paired as all_paired, copied_generics as generics_copied, copied_parameters as parameters_copied, generics_of_all as all_generics, copies as all_copies};

use std::alloc::{AllocError, Global};
use vd_declarations::{DeclId, Declaration};

/// A declaration and its copy.
#[derive(Clone, Copy, Debug)]
pub struct Copied {
    pub original: DeclId,
    pub copy: DeclId,
}

/// Adds declarations with copies, one by one.
#[tactic(auto, using(crate::proofs::PairLemmas::originals_ended))]
fn add_paired(
    pairs: &mut Vec<Copied>,
    originals: &[DeclId],
    copies: &[DeclId],
) -> Result<(), AllocError>
    ensures { OnOk result (pairs.new.items ≡ pairs.old.items ++ all_paired originals.now copies.now) }
{
    let mut k = 0;
    while k < originals.len() && k < copies.len() {
        pairs.push(Copied {
            original: originals[k],
            copy: copies[k],
        })?;
        k += 1;
    }
    Ok(())
}

fn generics_at(declarations: &[Declaration], number: DeclId) -> &[DeclId]
    ensures { result.now ≡ generics_of (slice_get declarations.now number) }
{
    match declarations.get(number.number() as usize) {
        None => &[],
        Some(declaration) => declaration.generics.as_slice(),
    }
}

fn parameters_at(declarations: &[Declaration], number: DeclId) -> &[DeclId]
    ensures { result.now ≡ parameters_of (slice_get declarations.now number) }
{
    match declarations.get(number.number() as usize) {
        None => &[],
        Some(declaration) => declaration.parameters.as_slice(),
    }
}

/// Adds the generics of a declaration and its copy.
fn add_generics(
    pairs: &mut Vec<Copied>,
    declarations: &[Declaration],
    copied: Copied,
) -> Result<(), AllocError>
    ensures { OnOk result (pairs.new.items ≡ pairs.old.items ++ generics_copied declarations.now copied.original copied.copy) }
{
    let originals = generics_at(declarations, copied.original);
    add_paired(pairs, originals, generics_at(declarations, copied.copy))
}

/// The generics of some declarations and their copies.
pub fn generics_of_all(
    alloc: Global,
    declarations: &[Declaration],
    copies: &[Copied],
) -> Result<Vec<Copied>, AllocError>
    ensures { IfOk result (λ pairs. pairs.items ≡ all_generics declarations.now copies.now) }
{
    let mut pairs = Vec::new(alloc);
    for copied in copies {
        add_generics(&mut pairs, declarations, *copied)?;
    }
    Ok(pairs)
}

/// Adds what a package declares, and the copies.
fn add_parameters(
    pairs: &mut Vec<Copied>,
    declarations: &[Declaration],
    original: DeclId,
    instance: DeclId,
) -> Result<(), AllocError>
    ensures { OnOk result (pairs.new.items ≡ pairs.old.items ++ parameters_copied declarations.now original instance) }
{
    let originals = parameters_at(declarations, original);
    add_paired(pairs, originals, parameters_at(declarations, instance))
}

/// What is instantiated, and what it declares where it is a package, with the copies.
pub fn copies(
    alloc: Global,
    declarations: &[Declaration],
    original: DeclId,
    instance: DeclId,
) -> Result<Vec<Copied>, AllocError>
    ensures { IfOk result (λ pairs. pairs.items ≡ all_copies declarations.now original instance) }
{
    let mut pairs = Vec::new(alloc);
    pairs.push(Copied {
        original,
        copy: instance,
    })?;
    add_parameters(&mut pairs, declarations, original, instance)?;
    Ok(pairs)
}
