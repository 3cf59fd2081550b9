//! Laws of the whole, each as the contract of a function that does nothing, or calls the program and does nothing else.

ghost use Rattle.std.specs.Prelude.{◌≢◌};
ghost use Rattle.vd_command.specs.EqualRuns.{RunsAreEqual};

use crate::top::vdown;
use std::alloc::Global;
use vd_bytes::SureTray;

/// A run of what is written for a file answers what a run of the file answers: the same text, the same stop, the same refusal of a top,
/// the same limit. It is a consequence of what is promised of a conversion.
pub fn runs_are_equal()
    ensures { RunsAreEqual }
{}

/// Over a tray that never fails, the statuses of the two faults never come.
pub fn sure_call(alloc: Global, words: &Vec<String>, tray: &mut SureTray) -> u8
    ensures no_read_fault { result ≢ 3 }
    ensures no_write_fault { result ≢ 4 }
{
    vdown(alloc, words, tray)
}
