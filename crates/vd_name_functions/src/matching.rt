//! The declaration that the body of a function belongs to.

ghost use Rattle.std.specs.Prelude.{◌≡◌, IfOk};
ghost use Rattle.vd_regions.specs.Homographs.{same_type};
ghost use Rattle.vd_name_rows.specs.Noting.{span_at};
ghost use Rattle.vd_naming.specs.Functions.{as_in, mark_as_in, same_header, first_that, declaration_of_body};
ghost use Rattle.vd_name_functions.specs.Headers.{same_types_as, is_open_function, first_open, first_open_in};

use std::alloc::{AllocError, Global};
use vd_declarations::{DeclId, Declaration, RegionId, TypeId};
use vd_name_entering::named_in;
use vd_name_rows::{At, Names, Sort, Taken};

/// A number as the header of a body has it, as the other header has it. It may be greater than any number that is given out.
fn as_in(header: &Taken, number: u32) -> u64
    ensures { result ≡ as_in header.now.first header.now.end header.now.other number }
{
    if number < header.first || number >= header.end {
        u64::from(number)
    } else {
        u64::from(number - header.first) + u64::from(header.other)
    }
}

/// Whether a type in the header of a body is the same as one in the other header, or there is none on either side.
fn is_same_type(header: &Taken, one: Option<TypeId>, other: Option<TypeId>) -> bool
    ensures { result ≡ same_type (mark_as_in header.now.first header.now.end header.now.other one) other }
{
    match (one, other) {
        (None, None) => true,
        (Some(one), Some(other)) => as_in(header, one.number()) == u64::from(other.number()),
        _ => false,
    }
}

/// Whether the parameters of a body and those of a declaration have the same types.
#[tactic(auto, using(crate::proofs::TypeLemmas::of_other_lengths))]
fn have_same_types(names: &Names, header: &Taken, one: &[DeclId], other: &[DeclId]) -> bool
    ensures { result ≡ same_types_as header.now.first header.now.end header.now.other names.now.scopes one.now other.now }
{
    if one.len() != other.len() {
        return false;
    }
    for (index, parameter) in one.iter().enumerate() {
        if !is_same_type(
            header,
            names.mark_of(*parameter),
            names.mark_of(other[index]),
        ) {
            return false;
        }
    }
    true
}

/// Whether a body and a declaration have the same types and as many generics.
fn same_header(names: &Names, header: &Taken, body: &Declaration, declared: &Declaration) -> bool
    ensures { result ≡ same_header names.now header.now.first header.now.end header.now.other body.now declared.now }
{
    is_same_type(header, body.mark, declared.mark)
        && have_same_types(
            names,
            header,
            body.parameters.as_slice(),
            declared.parameters.as_slice(),
        )
        && body.generics.as_slice().len() == declared.generics.as_slice().len()
}

/// Where the header of a function begins. That of what has none begins at the first declaration.
pub(crate) fn header_of(names: &Names, id: DeclId) -> u32
    ensures { result ≡ (span_at names.now id).first }
{
    match names.note(id).span {
        Some(span) => span.first,
        None => 0,
    }
}

/// Whether a declaration is a function that is written, without a body so far, and with the types of this body, whose header begins and ends
/// at these numbers.
fn is_open_function(names: &Names, first: u32, end: u32, body: &Declaration, id: DeclId) -> bool
    ensures { result ≡ is_open_function names.now first end body.now id }
{
    let Some(declared) = names.declaration(id) else {
        return false;
    };
    let header = Taken {
        first,
        end,
        other: header_of(names, id),
    };
    Sort::WrittenFunction.has(declared.class)
        && !names.note(id).has_body
        && same_header(names, &header, body, declared)
}

/// The first such declaration among some.
fn first_of(
    names: &Names,
    first: u32,
    end: u32,
    body: &Declaration,
    ids: &[DeclId],
) -> Option<DeclId>
    ensures { result ≡ first_that (is_open_function names.now first end body.now) ids.now }
{
    for id in ids {
        if is_open_function(names, first, end, body, *id) {
            return Some(*id);
        }
    }
    None
}

/// The first function of a region that has the name of a body and no body so far, with the same types.
fn first_open(
    alloc: Global,
    names: &Names,
    first: u32,
    end: u32,
    body: &Declaration,
    region: RegionId,
) -> Result<Option<DeclId>, AllocError>
    ensures { IfOk result (λ found. found ≡ first_open names.now first end body.now region) }
{
    let named = named_in(alloc, names, region, body.name.as_slice())?;
    Ok(first_of(names, first, end, body, named.as_slice()))
}

/// The same where there may be no region.
fn first_open_in(
    alloc: Global,
    names: &Names,
    first: u32,
    end: u32,
    body: &Declaration,
    region: Option<RegionId>,
) -> Result<Option<DeclId>, AllocError>
    ensures { IfOk result (λ found. found ≡ first_open_in names.now first end body.now region) }
{
    match region {
        None => Ok(None),
        Some(region) => first_open(alloc, names, first, end, body, region),
    }
}

/// The declaration that a body belongs to: one of its name in the region round that of its header, or in what that continues, with the same
/// types, whose own body hasn't ended. There may be none.
pub fn declaration_of_body(
    alloc: Global,
    names: &Names,
    at: &At<'_>,
    body: &Declaration,
) -> Result<Option<DeclId>, AllocError>
    ensures { IfOk result (λ found. found ≡ declaration_of_body at.now names.now body.now) }
{
    let end = names.next_number()?;
    let region = names.regions().round(at.region);
    let here = first_open(alloc, names, at.header, end, body, region)?;
    if let Some(id) = here {
        return Ok(Some(id));
    }
    let continued = names.regions().continued(region);
    let there = first_open_in(alloc, names, at.header, end, body, continued)?;
    Ok(there)
}
