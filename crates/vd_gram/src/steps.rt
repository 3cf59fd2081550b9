//! The steps of a derivation, in the order of the text, and who is told them.

ghost use Rattle.std.specs.Prelude.{◌≡◌, ◌++◌, [], ◌∷◌, List, OnOk};
ghost use Rattle.vd_gram.specs.declared.steps.Step.{Step};

use crate::tables::Symbol;
use std::alloc::AllocError;

/// A leaf with its place in the text, or a node in front of its parts, which are given by their
/// count.
#[derive(Clone, Copy, Drop)]
pub enum Step {
    Leaf { symbol: Symbol, place: u32 },
    Node { production: u32, parts: u32 },
}

/// What is told the steps of a derivation while a text is read, one after the other. After an
/// error it is told nothing more. Its tables are what it stands on and keeps.
pub trait Builder {
    ghost Tables: { Type 0 };

    ghost tables: { Self → Tables };

    ghost HasTaken: { Self → List Step → Type 0 };

    /// Takes a node, which stands in front of its parts.
    fn node(&mut self, production: u32, parts: u32) -> Result<(), AllocError>
        requires { (steps : List Step) × HasTaken self.old steps }
        ensures told { OnOk result ((steps : List Step) → HasTaken self.old steps → HasTaken self.new (steps ++ Step.Node production parts ∷ [])) }
        ensures kept { OnOk result (tables self.new ≡ tables self.old) };

    /// Takes a leaf.
    fn leaf(&mut self, symbol: Symbol, place: u32) -> Result<(), AllocError>
        requires { (steps : List Step) × HasTaken self.old steps }
        ensures told { OnOk result ((steps : List Step) → HasTaken self.old steps → HasTaken self.new (steps ++ Step.Leaf symbol place ∷ [])) }
        ensures kept { OnOk result (tables self.new ≡ tables self.old) };
}
