//! What is noted of bodies that have ended.

ghost use Rattle.std.specs.Prelude.{◌≡◌, IfOk, OnOk};
ghost use Rattle.vd_naming.specs.Units.{instances_in as instances_of, with_instances_at_end};

use std::alloc::{AllocError, Global};
use vd_declarations::{DeclId, RegionId};
use vd_name_entering::{Units, note_bodies};
use vd_name_rows::{Names, Sort};

/// The functions that are instances among those that a region declares.
pub fn instances_in(
    alloc: Global,
    names: &Names,
    region: RegionId,
) -> Result<Vec<DeclId>, AllocError>
    ensures { IfOk result (λ found. found.items ≡ instances_of region names.now) }
{
    let declared = names.declared_in(alloc, region, Sort::PlainFunction)?;
    let mut found = Vec::new(alloc);
    for id in &declared {
        if names.note(*id).is_instance {
            found.push(*id)?;
        }
    }
    Ok(found)
}

/// Where a package has no body, the instances that it declares have theirs at its end.
pub(crate) fn note_instances_at_end(
    alloc: Global,
    names: &mut Names,
    units: &Units<'_>,
    name: &[u8],
    region: RegionId,
) -> Result<(), AllocError>
    ensures { OnOk result (names.new ≡ with_instances_at_end units.now name.now region names.old) }
{
    if units.has_body(name)? {
        return Ok(());
    }
    let instances = instances_in(alloc, names, region)?;
    note_bodies(names, instances.as_slice())
}
