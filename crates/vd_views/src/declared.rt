//! The declarations of a design whose ports with a view are split.

ghost use Rattle.std.specs.Prelude.{◌≡◌, ◌++◌, IfOk, OnOk};
ghost use Rattle.vd_views.specs.Splits.{AreSplit, all_ports as ports_of_all, declared_with, numbers_from, ports_for};

use crate::ports::Ports;
use std::alloc::{AllocError, Global};
use vd_declarations::{DeclId, Declaration, Declarations};
use vd_noting::copied;

/// Puts so many numbers behind others, from the first one on.
#[tactic(auto, using(crate::proofs::SplitLemmas::numbering))]
fn put_numbers(first: u32, count: u32, others: &mut Vec<DeclId>) -> Result<(), AllocError>
    ensures { OnOk result (others.new.items ≡ others.old.items ++ numbers_from first count) }
{
    for more in 0..count {
        let Some(number) = first.checked_add(more) else {
            return Err(AllocError);
        };
        others.push(DeclId::of(number))?;
    }
    Ok(())
}

/// Puts the ports that take the place of a port behind others, or what it is where none do.
fn put_ports(ports: &Ports<'_>, number: DeclId, others: &mut Vec<DeclId>) -> Result<(), AllocError>
    ensures { OnOk result (others.new.items ≡ others.old.items ++ ports_for ports.now.ports.items number) }
{
    match ports.port(Some(number)) {
        Some(port) => put_numbers(port.first, port.count, others),
        None => {
            others.push(number)?;
            Ok(())
        }
    }
}

/// Some declarations, with the ports that take the place of ports among them.
fn all_ports(
    alloc: Global,
    ports: &Ports<'_>,
    declarations: &Declarations,
) -> Result<Declarations, AllocError>
    ensures { IfOk result (λ others. others ≡ ports_of_all ports.now.ports.items declarations.now) }
{
    let mut others: Vec<DeclId> = Vec::new(alloc);
    for number in declarations.as_slice() {
        put_ports(ports, *number, &mut others)?;
    }
    Ok(Declarations::of(others))
}

/// The same declaration, with the ports that take the place of its ports.
fn declared(
    alloc: Global,
    ports: &Ports<'_>,
    declaration: &Declaration,
) -> Result<Declaration, AllocError>
    ensures { IfOk result (λ copy. copy ≡ declared_with ports.now.ports.items declaration.now) }
{
    let mut copy = copied(alloc, declaration)?;
    copy.parameters = all_ports(alloc, ports, &declaration.parameters)?;
    Ok(copy)
}

/// The declarations of a design, with those that take the place of ports with a view behind them.
pub(crate) fn all_declared(
    alloc: Global,
    declarations: &[Declaration],
    mut ports: Ports<'_>,
) -> Result<Vec<Declaration>, AllocError>
    ensures { IfOk result (λ all. AreSplit declarations.now all.items) }
{
    let mut all = Vec::with_capacity(alloc, declarations.len())?;
    for declaration in declarations {
        all.push(declared(alloc, &ports, declaration)?)?;
    }
    all.append(&mut ports.made)?;
    Ok(all)
}
