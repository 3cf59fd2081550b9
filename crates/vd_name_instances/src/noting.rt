//! What is noted of copies: what is noted of the originals, as it is for copies.

ghost use Rattle.std.specs.Prelude.{◌≡◌, ◌-◌, IfOk, OnOk, option_map};
ghost use Rattle.vd_naming.specs.Copies.{is_bounded_actual};
ghost use Rattle.vd_name_instances.specs.Noted.{span_of, note_of, with_notes};

use crate::numbers::Offsets;
use std::alloc::AllocError;
use vd_declarations::{DeclId, RegionId};
use vd_name_actuals::StandIns;
use vd_name_rows::{Names, Note, Span};

/// Whether an actual has bounds.
fn is_bounded_actual(names: &Names, actual: Option<DeclId>) -> bool
    ensures { result ≡ is_bounded_actual names.now actual }
{
    match actual {
        None => false,
        Some(id) => names.note(id).is_bounded,
    }
}

impl Offsets {
    /// The span of the copy of what has this span.
    fn span_of_copy(&self, span: &Span) -> Result<Span, AllocError>
        ensures { IfOk result (λ copy. copy ≡ span_of self.now span.now) }
    {
        let first = self.number_of_copy(DeclId::of(span.first))?;
        let end = self.end_of_copies(span.end)?;
        let first_region = self.region_of_copy(RegionId::of(span.first_region))?;
        let end_region = self.end_of_copy(span.end_region)?;
        Ok(Span {
            first: first.number(),
            end,
            first_region: first_region.number(),
            end_region,
        })
    }

    /// The same where there may be no span.
    fn copy_of_span(&self, span: &Option<Span>) -> Result<Option<Span>, AllocError>
        ensures { IfOk result (λ copy. copy ≡ option_map (span_of self.now) span.now) }
    {
        match span {
            None => Ok(None),
            Some(span) => {
                let copy = self.span_of_copy(span)?;
                Ok(Some(copy))
            }
        }
    }

    /// What is noted of the copy of a declaration. That of a generic type has bounds where its actual has.
    fn note_of_copy(
        &self,
        names: &Names,
        stand_ins: &StandIns,
        id: DeclId,
    ) -> Result<Note, AllocError>
        ensures { IfOk result (λ copy. copy ≡ note_of self.now stand_ins.now.actuals names.now id) }
    {
        let original = names.note(id);
        let span = self.copy_of_span(&original.span)?;
        let is_bounded = original.is_bounded || is_bounded_actual(names, stand_ins.actual_of(id));
        Ok(Note {
            has_body: original.has_body,
            is_instance: false,
            is_bounded,
            is_loop: false,
            formal: original.formal,
            span,
            tied: original.tied,
        })
    }

    /// Notes of a copy what is noted of a declaration.
    fn note_copy(
        &self,
        names: &mut Names,
        stand_ins: &StandIns,
        id: DeclId,
    ) -> Result<(), AllocError>
        ensures { OnOk result (names.new ≡ with_notes self.now stand_ins.now.actuals id 1 names.old) }
    {
        let copy = self.number_of_copy(id)?;
        let note = self.note_of_copy(names, stand_ins, id)?;
        names.put(copy, note)?;
        Ok(())
    }

    /// Notes of all copies what is noted of the originals.
    #[tactic(auto, using(crate::proofs::AddingLemmas::note_more))]
    pub(crate) fn note_copies(
        &self,
        names: &mut Names,
        stand_ins: &StandIns,
    ) -> Result<(), AllocError>
        ensures { OnOk result (names.new
            ≡ with_notes self.now stand_ins.now.actuals self.now.span.first (self.now.span.end - self.now.span.first) names.old) }
    {
        let mut next = self.span.first;
        let end = self.span.end;
        while next < end {
            self.note_copy(names, stand_ins, DeclId::of(next))?;
            next += 1;
        }
        Ok(())
    }
}
