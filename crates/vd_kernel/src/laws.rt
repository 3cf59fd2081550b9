//! Laws of the definitions, each as the contract of a function that does nothing.

ghost use Rattle.vd_kernel.specs.Marks.{FollowsTheStandard, SameValueIsEqual};
ghost use Rattle.vd_kernel.specs.Equations.{MeetTheirEquations, HaveNoOthers};

/// Driving and effective values, which are defined with a bound on ports inside ports, are the one solution of their equations, which
/// have none.
pub fn values_solve_their_equations()
    ensures solved { MeetTheirEquations }
    ensures only { HaveNoOthers }
{}

/// An assignment leaves the projected waveform that the standard's own deletions and marks leave.
pub fn assignments_follow_the_standard()
    ensures { FollowsTheStandard }
{}

/// Values that are compared as one are equal, and no others.
pub fn same_values_are_equal()
    ensures { SameValueIsEqual }
{}
