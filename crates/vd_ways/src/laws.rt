//! What is worked out of the definitions.

ghost use Rattle.vd_ways.specs.Worked.{WorkedWays};

/// Some ways over the given declarations.
pub fn worked_ways()
    ensures { WorkedWays }
{}
