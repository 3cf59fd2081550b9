//! What some expressions and statements come to, by the definitions alone.

ghost use Rattle.vd_meaning_facts.specs.Expressions.{Expressions};
ghost use Rattle.vd_meaning_facts.specs.Statements.{Statements};
ghost use Rattle.vd_meaning_facts.specs.Targets.{Targets};

/// The values and stops of some expressions.
pub fn worked_expressions()
    ensures { Expressions }
{}

/// The turns of some processes, and calls of a function.
pub fn worked_statements()
    ensures { Statements }
{}

/// What some processes drive, and how their elaboration stops.
pub fn worked_targets()
    ensures { Targets }
{}
