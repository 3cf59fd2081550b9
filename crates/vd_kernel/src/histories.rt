//! Events, and the values before them.

ghost use Rattle.std.specs.Prelude.{◌≡◌, ℕ, ◌<◌, length};
ghost use Rattle.vd_kernel.specs.Histories.{history_after, history_at};
ghost use Rattle.vd_kernel.specs.SignalValues.{value_at};

use crate::scalars::same_value;
use vd_values::Scalar;

/// What is known of a signal's past.
#[derive(Clone, Copy, Debug)]
pub struct History {
    /// Where it has an event, the value before.
    pub before: Option<Scalar>,
    /// The value before its latest event, or its first value where it had none.
    pub last: Scalar,
}

fn noted(history: History, old: Scalar, new: Scalar) -> History
    ensures { result ≡ history_after old new history }
{
    if same_value(old, new) {
        History {
            before: None,
            last: history.last,
        }
    } else {
        History {
            before: Some(old),
            last: old,
        }
    }
}

/// Notes where values have changed.
pub fn note_changes(histories: &mut [History], old: &[Scalar], new: &[Scalar])
    requires old_long { length old.now ≡ length histories.old }
    requires new_long { length new.now ≡ length histories.old }
    ensures { (i : ℕ) → i < length histories.old
        → history_at histories.new i ≡ history_after (value_at old.now i) (value_at new.now i) (history_at histories.old i) }
{
    for i in 0..histories.len() {
        let history = noted(histories[i], old[i], new[i]);
        histories[i] = history;
    }
}
