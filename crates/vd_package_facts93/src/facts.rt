//! The traces of designs of revision 1993 with packages and instances, by the definitions alone.

ghost use Rattle.vd_package_facts93.specs.Facts.{MatchingFacts, PackageFacts, ViewFacts};

/// Those of a matching case as it is written.
pub fn matching_cases_show()
    ensures { MatchingFacts }
{}

/// That of instances of a package as they are written.
pub fn packages_show()
    ensures { PackageFacts }
{}

/// That of ports with a view as they are written, over 20 cycles.
pub fn views_show()
    ensures { ViewFacts }
{}
