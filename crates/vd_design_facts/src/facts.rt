//! The traces of designs of revision 2019, by the definitions alone.

ghost use Rattle.vd_design_facts.specs.Facts.{ProcessFacts, MatchingFacts};

/// Those of designs with a process.
pub fn processes_show()
    ensures { ProcessFacts }
{}

/// Those of a matching case.
pub fn matching_cases_show()
    ensures { MatchingFacts }
{}
