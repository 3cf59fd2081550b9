//! Counts that have a greatest number.

ghost use Rattle.std.specs.Prelude.{◌≡◌, min, length};
ghost use Rattle.vd_forest.specs.Forest.{tree_count};
ghost use Rattle.vd_first_elaboration.specs.Ports.{declared_ports};
ghost use Rattle.vd_first_runs.specs.Elaborations.{limit_by};

use vd_bytes::Limit;
use vd_first_trees::Form;
use vd_forest::Cursor;

/// The greatest number of scalar signals.
pub const SIGNALS_LIMIT: u32 = 1_000_000;

/// The greatest number of processes.
pub const PROCESSES_LIMIT: u32 = 100_000;

// How many trees there are, counted up to a number.
fn count_trees(most: u32, trees: &Cursor<'_, Form>) -> u32
    ensures { result ≡ min most (tree_count trees.now) }
{
    let mut count = 0;
    let mut left = trees.fork();
    while count < most {
        let Some(first) = left.open() else {
            return count;
        };
        count += 1;
        left = first.next;
    }
    count
}

// How many ports some declarations declare, counted up to a number.
fn count_ports(most: u32, declarations: &Cursor<'_, Form>) -> u32
    ensures { result ≡ min most (length (declared_ports declarations.now)) }
{
    let mut count = 0;
    let mut left = declarations.fork();
    while let Some(first) = left.open() {
        count += count_trees(most - count, &first.parts.parts());
        left = first.next;
    }
    count
}

/// The limit that a top of these port declarations and processes passes.
pub fn limit_passed(declarations: &Cursor<'_, Form>, processes: &Cursor<'_, Form>) -> Option<Limit>
    ensures { result ≡ limit_by (length (declared_ports declarations.now)) (tree_count processes.now) }
{
    if count_ports(SIGNALS_LIMIT + 1, declarations) > SIGNALS_LIMIT {
        return Some(Limit::Signals);
    }
    if count_trees(PROCESSES_LIMIT + 1, processes) > PROCESSES_LIMIT {
        return Some(Limit::Processes);
    }
    None
}
