//! Runs that are the same as one run are the same.

ghost use Rattle.std.specs.Prelude.{ℕ};
ghost use Rattle.vd_kernel.specs.Models.{Model};
ghost use Rattle.vd_kernel.specs.Correspondence.{SameRun};
ghost use Rattle.vd_kernel.specs.Composition.{Through, LeadsBack, JoinsTheSame};

/// Two joins one behind the other, for each case: of the signals of a first design with those of a second, and of these with those of
/// a third. `First`, `Second` and `Third` are what processes of these designs are.
pub trait Composition {
    ghost Case: { Type 0 };

    ghost First: { Type 0 };

    ghost Second: { Type 0 };

    ghost Third: { Type 0 };

    ghost first_join: { Case → ℕ → ℕ → Type 0 };

    ghost second_join: { Case → ℕ → ℕ → Type 0 };
}

/// Where a second design has the run of a first, and a third that of the second, the third has the run of the first.
pub fn same_run_through<T: Composition>()
    ensures { (c : T.Case) (m : Model T.First) (n : Model T.Second) (o : Model T.Third) (back : ℕ → ℕ)
        → LeadsBack back (T.first_join c) (T.second_join c)
        → SameRun (T.first_join c) m n → SameRun (T.second_join c) n o
        → SameRun (Through (T.first_join c) (T.second_join c)) m o }
{}

/// Two joins of the same two designs, for each case.
pub trait Rejoining {
    ghost Case: { Type 0 };

    ghost Left: { Type 0 };

    ghost Right: { Type 0 };

    ghost joined: { Case → ℕ → ℕ → Type 0 };

    ghost rejoined: { Case → ℕ → ℕ → Type 0 };
}

/// Designs have the same run by each join that joins the same signals.
pub fn same_run_rejoined<T: Rejoining>()
    ensures { (c : T.Case) (m : Model T.Left) (n : Model T.Right) → JoinsTheSame (T.joined c) (T.rejoined c)
        → SameRun (T.joined c) m n → SameRun (T.rejoined c) m n }
{}
