//! Designs whose signals have other numbers have the same run.

ghost use Rattle.std.specs.Prelude.{◌≡◌, ℕ};
ghost use Rattle.vd_kernel.specs.Models.{Model, Shape};
ghost use Rattle.vd_kernel.specs.Correspondence.{SameRun};
ghost use Rattle.vd_kernel.specs.Renumbering.{IsRenumbered, RenumberedHasSameShape, renumbered};

/// What a process of a design is, whose signals get new numbers.
pub trait Renumbering {
    ghost Process: { Type 0 };
}

/// A design keeps its run when its signals get new numbers.
pub fn same_run_renumbered<T: Renumbering>()
    ensures { (f : ℕ → ℕ) (m : Model T.Process) (n : Shape)
        → IsRenumbered f m.shape n → SameRun (λ i j. f i ≡ j) m (renumbered f m n) }
{}

/// Signals with new numbers have the shape that they had.
pub fn renumbered_has_same_shape()
    ensures { RenumberedHasSameShape }
{}
