//! Languages: the ways to read a node.

ghost use Rattle.std.specs.Prelude.{◌≡◌, IfOk};
ghost use Rattle.vd_readings.specs.Readings.{Rules};

use std::alloc::{AllocError, Global};
use vd_forest::Opened;
use vd_forms::Form;
use vd_states::{State, Way};

/// A language, in which expressions are read.
pub trait Language {
    ghost rules: { Self → Rules };

    /// Whether a list may end in a state.
    fn ends(&self, state: State) -> bool
        ensures { result ≡ (rules self.now).ends state };

    /// The ways to read a node in a state.
    fn ways(
        &self,
        alloc: Global,
        state: State,
        node: &Opened<'_, Form>,
    ) -> Result<Vec<Way>, AllocError>
        ensures { IfOk result (λ found. found.items ≡ (rules self.now).ways state node.now.form node.now.text.now node.now.parts) };
}
