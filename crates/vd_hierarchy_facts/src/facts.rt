//! The traces of designs of revision 2019 with instances, generates and several drivers, by the definitions alone.

ghost use Rattle.vd_hierarchy_facts.specs.Facts.{ElaborationFacts, VectorFacts};

/// Those of actuals, of generates, and of two drivers.
pub fn elaborations_show()
    ensures { ElaborationFacts }
{}

/// Those of ports of one vector type that are tied to signals of the other.
pub fn vector_ports_show()
    ensures { VectorFacts }
{}
