//! The symbols that a reader still waits for.

ghost use Rattle.std.specs.Prelude.{◌≡◌, ◌++◌, [], ◌∷◌, OnOk, MatchOption};
ghost use Rattle.vd_gram.specs.Pending.{at_depth};

use crate::tables::Symbol;
use std::alloc::{AllocError, Global};
use std::marker::Model;

/// A symbol to come, and how many marked nodes stand above it.
#[derive(Clone, Copy, Drop)]
pub(crate) struct Pending {
    pub(crate) symbol: Symbol,
    pub(crate) depth: u32,
}

/// Symbols to come, the next one first.
#[derive(Drop)]
pub(crate) struct Stack {
    last_first: Vec<Pending>,
}

impl Model for Stack {
    ghost use Rattle.std.specs.Prelude.{List, reverse};
    ghost use Rattle.std.specs.Coded.{coded_list};
    ghost use Rattle.vd_gram.specs.Pending.{coded_pending};
    ghost use Rattle.vd_gram.specs.declared.stack.Pending.{Pending};

    ghost Value = { List Pending };

    ghost coded = { coded_list coded_pending };

    ghost view = { λ a. reverse a.last_first.items };
}

impl Stack {
    /// No symbols.
    pub(crate) fn new(alloc: Global) -> Self
        ensures { result ≡ [] }
    {
        Stack {
            last_first: Vec::new(alloc),
        }
    }

    /// The next symbol, which is then taken off.
    #[tactic(auto, using(crate::proofs::StackLemmas::popped))]
    pub(crate) fn pop(&mut self) -> Option<Pending>
        ensures { MatchOption result (self.old ≡ []) (λ next. self.old ≡ next ∷ self.new) }
    {
        self.last_first.pop()
    }

    /// Some symbols in front of the others, all at one depth.
    #[tactic(auto, using(crate::proofs::StackLemmas::pushed))]
    pub(crate) fn push(&mut self, symbols: &[Symbol], depth: u32) -> Result<(), AllocError>
        ensures { OnOk result (self.new ≡ at_depth depth symbols.now ++ self.old) }
    {
        let mut left = symbols.len();
        while left > 0 {
            left -= 1;
            self.last_first.push(Pending {
                symbol: symbols[left],
                depth,
            })?;
        }
        Ok(())
    }
}
