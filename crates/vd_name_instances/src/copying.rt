//! What is copied for an instance, and what stands for its generics.

ghost use Rattle.std.specs.Prelude.{◌≡◌, IfOk, OnOk};
ghost use Rattle.vd_regions.specs.Scopes.{declaration_at};
ghost use Rattle.vd_visible.specs.Sights.{sight_from};
ghost use Rattle.vd_name_rows.specs.Noting.{span_at};
ghost use Rattle.vd_name_rows.specs.Designs.{note_at, sight};
ghost use Rattle.vd_name_rows.specs.Members.{next_number, next_region};
ghost use Rattle.vd_naming.specs.Actuals.{actual_of};
ghost use Rattle.vd_naming.specs.Copies.{copying, is_own_generic, is_kept, type_of_copy, function_of_copy, numbers_of_copies};
ghost use Rattle.vd_name_instances.specs.Offsets.{offsets_of};
ghost use Rattle.vd_name_instances.specs.Sources.{seen_copying};

use crate::numbers::Offsets;
use std::alloc::{AllocError, Global};
use std::marker::Model;
use vd_declarations::{DeclId, RegionId, TypeId};
use vd_name_actuals::{Known, StandIns};
use vd_name_rows::{Actual, At, Names, Span};
use vd_visible::Surroundings;

/// A package or function with generics that is instantiated, with the actuals of types and functions. Contracts see the definition of the
/// same name.
#[derive(Drop)]
pub struct Copying<'a> {
    pub(crate) names: &'a Names,
    pub(crate) place: Surroundings<'a>,
    pub(crate) id: DeclId,
    pub(crate) outer: RegionId,
    pub(crate) offsets: Offsets,
    pub(crate) generics: StandIns,
    pub(crate) parameters: StandIns,
}

impl<'a> Model for Copying<'a> {
    ghost use Rattle.std.specs.Prelude.{◌≡◌};
    ghost use Rattle.vd_regions.specs.Scopes.{declaration_at};
    ghost use Rattle.vd_name_instances.specs.Sources.{Source};

    ghost Value = { Source };

    ghost view = { λ a. record {
      span = a.offsets.span;
      generic = declaration_at a.names.now.scopes a.id;
      outer = a.outer;
      first = a.offsets.first;
      first_region = a.offsets.first_region;
      place = a.place;
      actuals = a.generics.actuals;
    } };

    // The tables are those of the generics and parameters.
    ghost invariant = { λ a. (a.generics.generics ≡ (declaration_at a.names.now.scopes a.id).generics)
        × (a.parameters.generics ≡ (declaration_at a.names.now.scopes a.id).parameters) };
}

/// The span of a package or function, or one of nothing.
fn span_at(names: &Names, id: DeclId) -> Span
    ensures { result ≡ span_at names.now id }
{
    match names.note(id).span {
        Some(span) => span,
        None => Span {
            first: 0,
            end: 0,
            first_region: 0,
            end_region: 0,
        },
    }
}

/// What is copied, and to which numbers.
fn offsets_of(names: &Names, id: DeclId) -> Result<Offsets, AllocError>
    ensures { IfOk result (λ made. made ≡ record {
      span = span_at names.now id;
      first = next_number names.now;
      first_region = next_region names.now;
    }) }
{
    let first = names.next_number()?;
    let first_region = names.next_region()?;
    Ok(Offsets {
        span: span_at(names, id),
        first,
        first_region,
    })
}

impl<'a> Copying<'a> {
    /// What an instance copies whose declaration stands at a place.
    pub fn of(
        alloc: Global,
        names: &'a Names,
        id: DeclId,
        outer: &At<'_>,
        actuals: &[Actual],
    ) -> Result<Copying<'a>, AllocError>
        ensures { IfOk result (λ made. seen_copying made ≡ copying id outer.now.region (sight outer.now names.now) actuals.now names.now) }
    {
        let offsets = offsets_of(names, id)?;
        let generics = StandIns::of(alloc, names.generics_of(id), actuals)?;
        let parameters = StandIns::of(alloc, names.parameters_of(id), &[])?;
        let place = names.surroundings(outer)?;
        Ok(Copying {
            names,
            place,
            id,
            outer: outer.region,
            offsets,
            generics,
            parameters,
        })
    }

    /// Whether a declaration is one of the generics.
    pub fn is_own_generic(&self, id: DeclId) -> bool
        ensures { result ≡ is_own_generic (seen_copying self.now) id }
    {
        self.generics.has(id)
    }

    /// Whether it is a generic, or listed as what the package or function declares besides.
    pub fn is_kept(&self, id: DeclId) -> bool
        ensures { result ≡ is_kept (seen_copying self.now) id }
    {
        self.generics.has(id) || self.parameters.has(id)
    }
}
