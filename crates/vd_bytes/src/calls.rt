//! Calls that are counted, of which some are to fail.

ghost use Rattle.std.specs.Prelude.{◌≡◌, ◌↔◌, IsTrue};
ghost use Rattle.vd_bytes.specs.Calls.{before_calls, after_call, IsDue};

use std::marker::Model;

/// How many calls of one kind were made, and the numbers of those that fail.
#[derive(Debug, Drop)]
pub struct Calls {
    made: u64,
    failing: Vec<u64>,
}

impl Model for Calls {
    ghost use Rattle.vd_bytes.specs.Calls.{Numbers};

    ghost Value = { Numbers };

    ghost view = { λ a. record { made = a.made; failing = a.failing.items } };
}

impl Calls {
    /// No call was made yet. The calls of these numbers, from 1, are to fail.
    pub fn new(failing: Vec<u64>) -> Calls
        ensures { result ≡ before_calls failing.items }
    {
        Calls { made: 0, failing }
    }

    /// Counts a call, and says whether it is to fail.
    pub fn next_fails(&mut self) -> bool
        ensures due { IsTrue result ↔ IsDue self.old }
        ensures counted { self.new ≡ after_call self.old }
    {
        self.made = self.made.saturating_add(1);
        self.failing.as_slice().contains(&self.made)
    }
}
