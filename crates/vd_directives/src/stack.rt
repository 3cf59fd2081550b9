//! Groups or brackets that are open, the innermost first.

ghost use Rattle.std.specs.Prelude.{◌≡◌, [], ◌∷◌, OnOk, MatchOption};
ghost use Rattle.vd_directives.specs.Stacks.{first_of, is_nil};

use std::alloc::{AllocError, Global};
use std::marker::Model;

/// What is open, the innermost first.
#[derive(Drop)]
pub(crate) struct Stack<T: Copy + Drop> {
    last_first: Vec<T>,
}

impl<T: Copy + Drop> Model for Stack<T> {
    ghost use Rattle.std.specs.Prelude.{List, reverse};
    ghost use Rattle.std.specs.Coded.{coded_list};

    ghost Value = { List T };

    ghost coded = { coded_list T.code };

    ghost view = { λ a. reverse a.last_first.items };
}

impl<T: Copy + Drop> Stack<T> {
    /// Nothing is open.
    pub(crate) fn new(alloc: Global) -> Self
        ensures { result ≡ [] }
    {
        Stack {
            last_first: Vec::new(alloc),
        }
    }

    /// Opens one more.
    #[tactic(auto, using(crate::proofs::StackLemmas::pushed))]
    pub(crate) fn push(&mut self, item: T) -> Result<(), AllocError>
        ensures { OnOk result (self.new ≡ item ∷ self.old) }
    {
        self.last_first.push(item)?;
        Ok(())
    }

    /// Closes the innermost.
    #[tactic(auto, using(crate::proofs::StackLemmas::pushed, crate::proofs::StackLemmas::popped_none))]
    pub(crate) fn pop(&mut self) -> Option<T>
        ensures { MatchOption result ((self.old ≡ []) × (self.new ≡ [])) (λ top. self.old ≡ top ∷ self.new) }
    {
        self.last_first.pop()
    }

    /// The innermost.
    #[tactic(auto, using(crate::proofs::StackLemmas::topped, crate::proofs::StackLemmas::topped_none))]
    pub(crate) fn top(&self) -> Option<T>
        ensures { result ≡ first_of self.now }
    {
        let count = self.last_first.len();
        if count == 0 {
            None
        } else {
            Some(self.last_first[count - 1])
        }
    }

    /// Whether nothing is open.
    #[tactic(auto, using(crate::proofs::StackLemmas::nil_is))]
    pub(crate) fn is_empty(&self) -> bool
        ensures { result ≡ is_nil self.now }
    {
        self.top().is_none()
    }
}
