//! What is noted of declarations, and the ends of regions.

ghost use Rattle.std.specs.Prelude.{◌≡◌, IfOk, OnOk};
ghost use Rattle.vd_name_rows.specs.Noting.{with_body, with_bodies, with_formal, with_span, span_to, tied_to};
ghost use Rattle.vd_naming.specs.Endings.{closed};

use std::alloc::AllocError;
use vd_declarations::{DeclId, RegionId};
use vd_name_rows::{Formal, Names, Span};

/// The body of a function or package has ended.
pub fn note_body(names: &mut Names, id: DeclId) -> Result<(), AllocError>
    ensures { OnOk result (names.new ≡ with_body id names.old) }
{
    let mut note = names.note(id);
    note.has_body = true;
    names.put(id, note)
}

/// The same of several.
pub fn note_bodies(names: &mut Names, ids: &[DeclId]) -> Result<(), AllocError>
    ensures { OnOk result (names.new ≡ with_bodies ids.now names.old) }
{
    for id in ids {
        note_body(names, *id)?;
    }
    Ok(())
}

/// What a declaration is as a port or generic.
pub fn note_formal(names: &mut Names, id: DeclId, formal: Formal) -> Result<(), AllocError>
    ensures { OnOk result (names.new ≡ with_formal id formal names.old) }
{
    let mut note = names.note(id);
    note.formal = Some(formal);
    names.put(id, note)
}

/// Declarations from the first one to the one in front of `end`, and the regions from this one on.
pub fn span_to(names: &Names, first: u32, end: u32, region: RegionId) -> Result<Span, AllocError>
    ensures { IfOk result (λ span. span ≡ span_to first end region names.now) }
{
    let end_region = names.next_region()?;
    Ok(Span {
        first,
        end,
        first_region: region.number(),
        end_region,
    })
}

/// What the header of a function declares, or a package.
pub fn note_span(names: &mut Names, owner: DeclId, span: Span) -> Result<(), AllocError>
    ensures { OnOk result (names.new ≡ with_span owner span names.old) }
{
    let mut note = names.note(owner);
    note.span = Some(span);
    names.put(owner, note)
}

/// The body of a function with generics is tied to a unit.
pub fn note_tied(names: &mut Names, id: DeclId, unit: u32) -> Result<(), AllocError>
    ensures { OnOk result (names.new ≡ tied_to id unit names.old) }
{
    let mut note = names.note(id);
    note.tied = Some(unit);
    names.put(id, note)
}

/// The end of a region is reached. Where there is no such region, it ends as where memory does.
pub fn close(names: &mut Names, region: RegionId) -> Result<(), AllocError>
    ensures { OnOk result (names.new ≡ closed region names.old) }
{
    if !names.regions().is_region(region) {
        return Err(AllocError);
    }
    names.close(region);
    Ok(())
}
