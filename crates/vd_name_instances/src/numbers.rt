//! Numbers and regions of copies, which differ from those of the originals by an offset.

ghost use Rattle.std.specs.Prelude.{◌≡◌, ◌+◌, ◌-◌, IfOk};
ghost use Rattle.vd_naming.specs.Functions.{as_in as moved};
ghost use Rattle.vd_name_instances.specs.Offsets.{number_of, region_of};

use std::alloc::AllocError;
use vd_declarations::{DeclId, RegionId};
use vd_name_rows::Span;

/// The declarations and regions that are copied, from the first ones of the span to the ones behind it; and the numbers of
/// the first copies.
#[derive(Clone, Copy)]
pub struct Offsets {
    pub span: Span,
    pub first: u32,
    pub first_region: u32,
}

/// A number from the first one to the end, moved to another start; and any other as it is.
fn as_in(first: u32, end: u32, other: u32, number: u32) -> Result<u32, AllocError>
    ensures { IfOk result (λ n. n ≡ moved first end other number) }
{
    if number < first || number >= end {
        return Ok(number);
    }
    match (number - first).checked_add(other) {
        Some(number) => Ok(number),
        None => Err(AllocError),
    }
}

/// The number behind as many as there are from the first one to the end, from a number on.
fn behind(first: u32, end: u32, from: u32) -> Result<u32, AllocError>
    ensures { IfOk result (λ n. n ≡ from + (end - first)) }
{
    match from.checked_add(end.saturating_sub(first)) {
        Some(number) => Ok(number),
        None => Err(AllocError),
    }
}

impl Offsets {
    /// The number of the copy of a declaration. That of what isn't copied is its own.
    pub fn number_of_copy(&self, id: DeclId) -> Result<DeclId, AllocError>
        ensures { IfOk result (λ copy. copy ≡ number_of self.now id) }
    {
        let number = as_in(self.span.first, self.span.end, self.first, id.number())?;
        Ok(DeclId::of(number))
    }

    /// The same of a region.
    pub fn region_of_copy(&self, region: RegionId) -> Result<RegionId, AllocError>
        ensures { IfOk result (λ copy. copy ≡ region_of self.now region) }
    {
        let span = &self.span;
        let number = as_in(
            span.first_region,
            span.end_region,
            self.first_region,
            region.number(),
        )?;
        Ok(RegionId::of(number))
    }

    /// The number behind the copies of declarations that end in front of this one.
    pub fn end_of_copies(&self, end: u32) -> Result<u32, AllocError>
        ensures { IfOk result (λ number. number ≡ self.now.first + (end - self.now.span.first)) }
    {
        behind(self.span.first, end, self.first)
    }

    /// The number behind the copies.
    pub fn number_behind(&self) -> Result<u32, AllocError>
        ensures { IfOk result (λ number. number ≡ self.now.first + (self.now.span.end - self.now.span.first)) }
    {
        self.end_of_copies(self.span.end)
    }

    /// The region behind the copy of a region that ends in front of this one.
    pub fn end_of_copy(&self, end: u32) -> Result<u32, AllocError>
        ensures { IfOk result (λ number. number ≡ self.now.first_region + (end - self.now.span.first_region)) }
    {
        behind(self.span.first_region, end, self.first_region)
    }

    /// The region behind those of the copies, in which nothing looks.
    pub fn region_behind(&self) -> Result<RegionId, AllocError>
        ensures { IfOk result (λ region. region ≡ self.now.first_region + (self.now.span.end_region - self.now.span.first_region)) }
    {
        let number = self.end_of_copy(self.span.end_region)?;
        Ok(RegionId::of(number))
    }
}
