//! Where an expression stands.

ghost use Rattle.std.specs.Prelude.{◌≡◌, IfOk};
ghost use Rattle.vd_overloads.specs.Interpretations.{Scene};
ghost use Rattle.vd_readings.specs.Readings.{readings_in};

use crate::wanted::Wanted;
use std::alloc::{AllocError, Global};
use vd_bytes::{Place, Refused};
use vd_declarations::{DeclId, TypeId};
use vd_forest::Cursor;
use vd_forms::Form;
use vd_readings::Language;
use vd_states::State;
use vd_trees::Revision;

/// A place of a design, with what is known there, and the language by which expressions are read there.
pub trait Setting: Language {
    ghost scene: { Self → Scene };

    /// The revision.
    fn revision(&self) -> Revision
        ensures { result ≡ (scene self.now).revision };

    /// All types that are declared so far.
    fn types(&self) -> &[TypeId]
        ensures { result.now ≡ (scene self.now).types };

    /// Whether a type is discrete.
    fn is_discrete(&self, mark: TypeId) -> bool
        ensures { result ≡ (scene self.now).is_discrete mark };

    /// Some of these states, among them each in which an expression has a reading.
    fn possible(
        &self,
        alloc: Global,
        tree: &Cursor<'_, Form>,
        states: Vec<State>,
    ) -> Result<Vec<State>, AllocError>
        ensures { IfOk result (λ found. readings_in (Self.rules self.now) tree.now found.items ≡ readings_in (Self.rules self.now) tree.now states.items) };

    /// The operators `??` that can be implied in a condition.
    fn operators(&self, alloc: Global) -> Result<Vec<DeclId>, AllocError>
        ensures { IfOk result (λ found. found.items ≡ (scene self.now).operators) };

    /// The first name of an expression that is refused whatever its types are.
    fn refused(
        &self,
        alloc: Global,
        wanted: &Wanted,
        tree: &Cursor<'_, Form>,
    ) -> Result<Option<Refused>, AllocError>
        ensures { IfOk result (λ found. found ≡ (scene self.now).refused wanted.now tree.now) };

    /// The place of the first choice of an expression that names nothing.
    fn unknown(&self, alloc: Global, tree: &Cursor<'_, Form>) -> Result<Option<Place>, AllocError>
        ensures { IfOk result (λ found. found ≡ (scene self.now).unknown tree.now) };
}
