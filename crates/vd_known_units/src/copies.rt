//! What an instance of a package declares for what the package declares.

ghost use Rattle.std.specs.Prelude.{◌≡◌, ◌++◌, IfOk, OnOk};
ghost use Rattle.vd_known_units.specs.Copies.{copies_there, with_parameters_there};
ghost use Rattle.vd_meaning.specs.Tables.{pairs};
ghost use Rattle.vd_port_modes.specs.Source.{declared_there};

use std::alloc::{AllocError, Global};
use vd_declarations::{DeclId, Declaration};
use vd_operations::tables::parameters_of;

fn add_numbers(numbers: &mut Vec<DeclId>, ids: &[DeclId]) -> Result<(), AllocError>
    ensures { OnOk result (numbers.new.items ≡ numbers.old.items ++ ids.now) }
{
    for id in ids {
        numbers.push(*id)?;
    }
    Ok(())
}

/// What a package or an instance of it declares, its generics first.
fn declared_in(
    alloc: Global,
    declarations: &[Declaration],
    number: DeclId,
) -> Result<Vec<DeclId>, AllocError>
    ensures { IfOk result (λ ns. ns.items ≡ declared_there declarations.now number) }
{
    let mut numbers = Vec::new(alloc);
    if let Some(declaration) = declarations.get(number.number() as usize) {
        add_numbers(&mut numbers, declaration.generics.as_slice())?;
        add_numbers(&mut numbers, declaration.parameters.as_slice())?;
    }
    Ok(numbers)
}

/// Adds the pairs of two lists, as far as both of them go.
#[tactic(auto, using(vd_port_modes::proofs::CopyLemmas::pairs_all))]
fn add_pairs(made: &mut Vec<(u32, u32)>, from: &[DeclId], to: &[DeclId]) -> Result<(), AllocError>
    ensures { OnOk result (made.new.items ≡ made.old.items ++ pairs from.now to.now) }
{
    for at in 0..from.len().min(to.len()) {
        made.push((from[at].number(), to[at].number()))?;
    }
    Ok(())
}

/// Pairs, and behind each of them those of the parameters of both.
fn with_parameters(
    alloc: Global,
    declarations: &[Declaration],
    pairs: &[(u32, u32)],
) -> Result<Vec<(u32, u32)>, AllocError>
    ensures { IfOk result (λ made. made.items ≡ with_parameters_there declarations.now pairs.now) }
{
    let mut made = Vec::new(alloc);
    for pair in pairs {
        let (number, copy) = *pair;
        made.push((number, copy))?;
        add_pairs(
            &mut made,
            parameters_of(declarations, number),
            parameters_of(declarations, copy),
        )?;
    }
    Ok(made)
}

/// The declarations of a package and the parameters of its functions, each with that which an instance declares for it.
pub(crate) fn copies_in(
    alloc: Global,
    declarations: &[Declaration],
    original: DeclId,
    instance: DeclId,
) -> Result<Vec<(u32, u32)>, AllocError>
    ensures { IfOk result (λ made. made.items ≡ with_parameters_there declarations.now (copies_there declarations.now original instance)) }
{
    let from = declared_in(alloc, declarations, original)?;
    let to = declared_in(alloc, declarations, instance)?;
    let mut pairs = Vec::new(alloc);
    add_pairs(&mut pairs, &from, &to)?;
    with_parameters(alloc, declarations, &pairs)
}
