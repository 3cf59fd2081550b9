//! Designs that correspond have the same run.

ghost use Rattle.std.specs.Prelude.{ℕ};
ghost use Rattle.vd_kernel.specs.Models.{Model};
ghost use Rattle.vd_kernel.specs.Correspondence.{Corresponds, SameRun};
ghost use Rattle.vd_kernel.specs.States.{SameSteps};
ghost use Rattle.vd_kernel.specs.Stimuli.{SameInputs, SameRunAtInputs};

/// A way for designs to correspond, for each case: which signals join, and which states of processes are related. `Left` and `Right`
/// are what a process of the one and of the other design is.
pub trait Correspondence {
    ghost Case: { Type 0 };

    ghost Left: { Type 0 };

    ghost Right: { Type 0 };

    ghost joined: { Case → ℕ → ℕ → Type 0 };

    ghost related: { Case → Left → Right → Type 0 };
}

/// Designs that correspond have the same run.
pub fn same_run<T: Correspondence>()
    ensures { (c : T.Case) (m : Model T.Left) (n : Model T.Right)
        → Corresponds (T.joined c) (T.related c) m n → SameRun (T.joined c) m n }
{}

/// Designs that correspond go through corresponding states.
pub fn same_steps<T: Correspondence>()
    ensures { (c : T.Case) (m : Model T.Left) (n : Model T.Right)
        → Corresponds (T.joined c) (T.related c) m n → SameSteps (T.joined c) (T.related c) m n }
{}

/// Designs with the same run have it whatever the outside does where it may drive nothing.
pub fn same_run_at_inputs<T: Correspondence>()
    ensures { (c : T.Case) (m : Model T.Left) (n : Model T.Right)
        → SameInputs (T.joined c) m.shape n.shape → SameRun (T.joined c) m n → SameRunAtInputs (T.joined c) m n }
{}
