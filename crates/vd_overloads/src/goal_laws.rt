//! Laws of names and what is wanted of them, each the contract of a function that does nothing.

ghost use Rattle.vd_visible.specs.Sights.{Sight};
ghost use Rattle.vd_overloads.specs.GoalLaws.{GoalsAreMet, KeepsGoals};

/// What a piece of a name leads to doesn't hang on what is wanted of the name.
#[tactic(auto, using(crate::proofs::GoalLemmas::keeps_goals))]
pub fn steps_keep_goals()
    ensures { (s : Sight) → KeepsGoals s }
{}

/// A name has a reading only where it comes, at its end, to what is wanted.
pub fn goals_are_met_at_ends()
    ensures { (s : Sight) → GoalsAreMet s }
{}
