//! The traces of designs of revision 1993, by the definitions alone.

ghost use Rattle.vd_design_facts93.specs.Facts.{ProcessFacts, ElaborationFacts, ConversionFacts};

/// Those of designs with a process.
pub fn processes_show()
    ensures { ProcessFacts }
{}

/// Those of an implicit signal and of alternatives of a generate as they are written, and of two drivers.
pub fn elaborations_show()
    ensures { ElaborationFacts }
{}

/// Those of ports with conversions.
pub fn conversions_show()
    ensures { ConversionFacts }
{}
