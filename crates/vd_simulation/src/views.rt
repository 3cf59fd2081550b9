//! What processes see of signals.

ghost use Rattle.std.specs.Prelude.{◌≡◌};
ghost use Rattle.vd_kernel.specs.Cycles.{has_event, is_due};
ghost use Rattle.vd_simulation.specs.Turns.{view_of};

use crate::process::Seen;
use vd_kernel::SignalId;

/// Whether one of these signals has an event.
pub fn any_event(seen: &Seen, on: &[SignalId]) -> bool
    ensures { result ≡ has_event (view_of seen.now) on.now }
{
    on.iter().any(|signal| seen.before(*signal).is_some())
}

/// Whether a timeout is due.
pub fn due_by(now: u64, timeout: Option<u64>) -> bool
    ensures { result ≡ is_due now timeout }
{
    match timeout {
        Some(t) => t <= now,
        None => false,
    }
}
