//! Laws of runs, each as the contract of a function that does nothing.

ghost use Rattle.vd_first_tracing.specs.Tracings.{HasOneTracing};
ghost use Rattle.vd_first_tracing.specs.Limits.{AreTheLimits};

/// A file, a name and a number of cycles have one answer alone, in either revision, so what a run answers is determined, unless memory
/// runs out.
pub fn one_tracing()
    ensures { HasOneTracing }
{}

/// The numbers of the limits on a text and on its trace are those that docs/LANGUAGE.md names.
pub fn limits()
    ensures { AreTheLimits }
{}
