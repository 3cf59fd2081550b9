//! The generics that an instance leaves out.

ghost use Rattle.std.specs.Prelude.{◌≡◌, IfOk, OnOk, drop};
ghost use Rattle.vd_port_facts.specs.Needed.{all_lefts as lefts_of_all, lefts as lefts_there, with_left};

use crate::actuals::Actuals;
use std::alloc::{AllocError, Global};
use vd_declarations::{DeclId, Declarations};

/// Puts a generic behind others, where it is left out.
fn add_left(found: &mut Vec<DeclId>, is_left: bool, number: DeclId) -> Result<(), AllocError>
    ensures { OnOk result (found.new.items ≡ with_left is_left found.old.items number) }
{
    if is_left {
        found.push(number)?;
    }
    Ok(())
}

/// Of generics that are declared together, of which the first has a place, those that are left out.
fn lefts_of(
    alloc: Global,
    actuals: &Actuals,
    place: usize,
    numbers: &[DeclId],
) -> Result<Declarations, AllocError>
    ensures { IfOk result (λ found. found ≡ lefts_there actuals.now (drop place actuals.now) numbers.now) }
{
    let mut found = Vec::new(alloc);
    let mut here = place;
    for number in numbers {
        add_left(&mut found, actuals.leaves_out(here, *number), *number)?;
        here = actuals.place_behind(here, 1);
    }
    Ok(Declarations::of(found))
}

/// Of all generics, those that are left out, declaration by declaration.
pub(crate) fn all_lefts(
    alloc: Global,
    actuals: &Actuals,
    objects: &[Declarations],
) -> Result<Vec<Declarations>, AllocError>
    ensures { IfOk result (λ found. found.items ≡ lefts_of_all actuals.now actuals.now objects.now) }
{
    let mut found = Vec::new(alloc);
    let mut place = 0;
    for together in objects {
        let numbers = together.as_slice();
        let lefts = lefts_of(alloc, actuals, place, numbers)?;
        found.push(lefts)?;
        place = actuals.place_behind(place, numbers.len());
    }
    Ok(found)
}
