//! Regions that are opened.

ghost use Rattle.std.specs.Prelude.{◌≡◌, None, OnOk};
ghost use Rattle.vd_forms.specs.Forms.{same_form};
ghost use Rattle.vd_naming.specs.Openings.{in_region, nested, with_header, entity_opens as entity_opened, architecture_opens as architecture_opened, package_opens as package_opened, type_opens as type_opened};
ghost use Rattle.vd_naming.specs.Units.{round_unit as region_round};
ghost use Rattle.vd_name_units.specs.Opened.{IsOpened};

use std::alloc::{AllocError, Global};
use vd_declarations::RegionId;
use vd_forest::Cursor;
use vd_forms::Form;
use vd_name_entering::{form_of_next, region_inside, round_unit, unit_named};
use vd_name_rows::{At, Names, Sort};
use vd_predefined::numbers::REGION_OF_LIBRARIES;

/// A region inside another, which may continue one.
pub(crate) fn open_region(
    names: &mut Names,
    at: &mut At<'_>,
    outer: RegionId,
    continues: Option<RegionId>,
) -> Result<(), AllocError>
    ensures { OnOk result (IsOpened names.new at.new None (in_region at.old names.old outer continues)) }
{
    let region = names.open(outer, continues, false)?;
    at.region = region;
    at.is_package = false;
    Ok(())
}

/// A region inside that of the place.
pub(crate) fn nest(names: &mut Names, at: &mut At<'_>) -> Result<(), AllocError>
    ensures { OnOk result (IsOpened names.new at.new None (nested at.old names.old)) }
{
    let outer = at.region;
    open_region(names, at, outer, None)
}

/// The region of a header, which begins with what is declared next.
pub(crate) fn header_opens(names: &mut Names, at: &mut At<'_>) -> Result<(), AllocError>
    ensures { OnOk result (IsOpened names.new at.new None (with_header names.old (nested at.old names.old))) }
{
    let number = names.next_number()?;
    nest(names, at)?;
    at.header = number;
    at.header_end = number;
    at.function = None;
    Ok(())
}

/// The region of a unit.
pub(crate) fn unit_opens(
    alloc: Global,
    names: &mut Names,
    at: &mut At<'_>,
    parts: &Cursor<'_, Form>,
) -> Result<(), AllocError>
    ensures { OnOk result (IsOpened names.new at.new None (in_region at.old names.old (region_round at.old names.old parts.now) None)) }
{
    let outer = round_unit(alloc, names, at, parts)?;
    open_region(names, at, outer, None)
}

/// The region of an entity, and one for the names of its architectures.
pub(crate) fn entity_opens(names: &mut Names, at: &mut At<'_>) -> Result<(), AllocError>
    ensures { OnOk result (IsOpened names.new at.new None (entity_opened at.old names.old)) }
{
    nest(names, at)?;
    names.open(RegionId::of(REGION_OF_LIBRARIES), None, false)?;
    Ok(())
}

/// The region of an architecture, which continues that of its entity.
pub(crate) fn architecture_opens(
    alloc: Global,
    names: &mut Names,
    at: &mut At<'_>,
    parts: &Cursor<'_, Form>,
) -> Result<(), AllocError>
    ensures { OnOk result (IsOpened names.new at.new None (architecture_opened at.old names.old parts.now)) }
{
    let entity = unit_named(alloc, names, Sort::Entity, parts.next().text())?;
    let continues = region_inside(names, entity);
    let outer = at.region;
    open_region(names, at, outer, continues)
}

/// The region of a package, which is a header too.
pub(crate) fn package_opens(names: &mut Names, at: &mut At<'_>) -> Result<(), AllocError>
    ensures { OnOk result (IsOpened names.new at.new None (package_opened at.old names.old)) }
{
    header_opens(names, at)?;
    at.is_package = true;
    Ok(())
}

fn is_record(form: Form) -> bool
    ensures { result ≡ same_form form Form.RecordType }
{
    matches!(form, Form::RecordType)
}

/// The region of a record type. Another type has none.
pub(crate) fn type_opens(
    names: &mut Names,
    at: &mut At<'_>,
    parts: &Cursor<'_, Form>,
) -> Result<(), AllocError>
    ensures { OnOk result (IsOpened names.new at.new None (type_opened at.old names.old parts.now)) }
{
    if is_record(form_of_next(parts)) {
        return nest(names, at);
    }
    Ok(())
}
