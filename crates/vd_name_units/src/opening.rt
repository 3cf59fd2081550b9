//! Forms that are opened, by their rows.

ghost use Rattle.std.specs.Prelude.{◌≡◌, false, None, IfOk, OnOk};
ghost use Rattle.vd_name_rows.specs.Designs.{Design};
ghost use Rattle.vd_name_rows.specs.Rows.{row_of as row_for};
ghost use Rattle.vd_name_rows.specs.Members.{next_number};
ghost use Rattle.vd_naming.specs.Openings.{opens, opened, opened_as, next_in as number_in, with_steps};
ghost use Rattle.vd_name_units.specs.Opened.{IsOpened, is_package_body};

use crate::body_openings::package_body_opens;
use crate::hand::put_at_hand;
use crate::regions::{
    architecture_opens, entity_opens, header_opens, nest, package_opens, type_opens, unit_opens,
};
use std::alloc::{AllocError, Global};
use vd_bytes::Refused;
use vd_forest::Opened;
use vd_forms::Form;
use vd_name_rows::{At, Names, Opening, row_of};

/// What an opening opens, where nothing can be refused.
fn open_freely(
    alloc: Global,
    names: &mut Names,
    at: &mut At<'_>,
    opening: Opening,
    node: &Opened<'_, Form>,
) -> Result<(), AllocError>
    ensures { OnOk result (is_package_body opening ≡ false → IsOpened names.new at.new None (opened_as opening at.old names.old node.now.place node.now.parts)) }
{
    match opening {
        Opening::Nested => nest(names, at),
        Opening::OfHeader => header_opens(names, at),
        Opening::OfUnit => unit_opens(alloc, names, at, &node.parts),
        Opening::OfEntity => entity_opens(names, at),
        Opening::OfArchitecture => architecture_opens(alloc, names, at, &node.parts),
        Opening::OfPackage => package_opens(names, at),
        Opening::OfType => type_opens(names, at, &node.parts),
        _ => {
            put_at_hand(at, opening, node);
            Ok(())
        }
    }
}

/// What an opening opens.
fn open_as(
    alloc: Global,
    names: &mut Names,
    at: &mut At<'_>,
    opening: Opening,
    node: &Opened<'_, Form>,
) -> Result<Option<Refused>, AllocError>
    ensures { IfOk result (λ first. IsOpened names.new at.new first (opened_as opening at.old names.old node.now.place node.now.parts)) }
{
    match opening {
        Opening::OfPackageBody => package_body_opens(alloc, names, at, node.place, &node.parts),
        _ => {
            open_freely(alloc, names, at, opening, node)?;
            Ok(None)
        }
    }
}

/// The number that the first name of a list gets. Ports are declared together, so that those of several lists are counted on.
fn next_in(names: &Names, at: &At<'_>, opening: Opening) -> Result<u32, AllocError>
    ensures { IfOk result (λ number. number ≡ number_in opening at.now names.now) }
{
    match opening {
        Opening::InPorts => Ok(at.next),
        _ => names.next_number(),
    }
}

/// The steps of a form's parts, and the number that their first name gets.
fn take_steps(at: &mut At<'_>, form: Form, next: u32)
    ensures { (d : Design) → at.new ≡ (with_steps (row_for form) next (opens at.old d)).at }
{
    let row = row_of(form);
    at.steps = row.steps;
    at.rest = row.rest;
    at.next = next;
}

/// Opens a form: what is known at its parts, and the first rule that is broken in front of them.
pub fn open(
    alloc: Global,
    names: &mut Names,
    at: &mut At<'_>,
    node: &Opened<'_, Form>,
) -> Result<Option<Refused>, AllocError>
    ensures { IfOk result (λ first. IsOpened names.new at.new first (opened node.now.form at.old names.old node.now.place node.now.parts)) }
{
    let opening = row_of(node.form).opening;
    let next = next_in(names, at, opening)?;
    let first = open_as(alloc, names, at, opening, node)?;
    take_steps(at, node.form, next);
    Ok(first)
}

/// The same in the region that is open, as the body of a `for` generate stands in that of its parameter.
pub fn within(names: &Names, at: &mut At<'_>, node: &Opened<'_, Form>) -> Result<(), AllocError>
    ensures { OnOk result (IsOpened names.now at.new None (with_steps (row_for node.now.form) (next_number names.now) (opens at.old names.now))) }
{
    let next = names.next_number()?;
    take_steps(at, node.form, next);
    Ok(())
}
