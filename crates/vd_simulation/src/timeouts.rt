//! Processes that begin, and when the timeouts of those that wait are due.

ghost use Rattle.std.specs.Prelude.{◌≡◌, map, flat_map, option_to_list, IfOk};
ghost use Rattle.vd_kernel.specs.Cycles.{least};
ghost use Rattle.vd_kernel.specs.Simulated.{earlier_of};
ghost use Rattle.vd_simulation.specs.Rounds.{paused, begun};

use crate::process::Process;
use crate::round::Waiting;
use std::alloc::{AllocError, Global};

/// The earlier of two times, where there is one.
pub fn earlier(first: Option<u64>, second: Option<u64>) -> Option<u64>
    ensures { result ≡ earlier_of first second }
{
    match (first, second) {
        (Some(t), Some(u)) => Some(t.min(u)),
        (Some(t), None) => Some(t),
        (None, u) => u,
    }
}

/// The earliest time at which a timeout is due.
pub fn earliest_timeout<P: Process>(processes: &[Waiting<P>]) -> Option<u64>
    ensures { result ≡ least (flat_map (λ p. option_to_list p.timeout) (map (paused P.state) processes.now)) }
{
    let mut earliest = None;
    for i in 0..processes.len() {
        earliest = earlier(earliest, processes[i].timeout);
    }
    earliest
}

/// Processes before their first run, which wait for nothing.
pub fn beginning<P: Process + Drop>(
    alloc: Global,
    processes: Vec<P>,
) -> Result<Vec<Waiting<P>>, AllocError>
    ensures { IfOk result (λ v. map (paused P.state) v.items ≡ map begun (map P.state processes.items)) }
{
    let mut waiting = Vec::new(alloc);
    for process in processes {
        waiting.push(Waiting {
            process,
            on: Vec::new(alloc),
            timeout: None,
        })?;
    }
    Ok(waiting)
}
