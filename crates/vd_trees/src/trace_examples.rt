//! What the definitions make of worked traces.

ghost use Rattle.vd_trees.specs.TraceExamples.{PrintsPaths, PrintsScopes, PrintsValues, PrintsQuietGate, PrintsDelayedChange, PrintsImplicitSignal, PrintsDoneCount, PrintsOverflow, PrintsFailure, PrintsEscapes, PrintsNoElaboration};

/// The texts of some paths, values and traces, by the definitions alone.
pub fn worked_traces()
    ensures paths { PrintsPaths }
    ensures scopes { PrintsScopes }
    ensures values { PrintsValues }
    ensures quiet_gate { PrintsQuietGate }
    ensures delayed_change { PrintsDelayedChange }
    ensures implicit_signal { PrintsImplicitSignal }
    ensures done_count { PrintsDoneCount }
    ensures overflow { PrintsOverflow }
    ensures failure { PrintsFailure }
    ensures escapes { PrintsEscapes }
    ensures no_elaboration { PrintsNoElaboration }
{}
