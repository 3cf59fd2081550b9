//! The step at hand.

ghost use Rattle.std.specs.Prelude.{◌≡◌};
ghost use Rattle.vd_naming.specs.Naming.{step_of, stepped};

use vd_name_rows::{At, Step};

/// Takes the step of the tree that comes next.
pub fn take_step(at: &mut At<'_>) -> Step
    ensures step { result ≡ step_of at.old }
    ensures behind { at.new ≡ stepped at.old }
{
    match at.steps.split_first() {
        Some((step, behind)) => {
            at.steps = behind;
            *step
        }
        None => at.rest,
    }
}
