//! The traces of designs of revision 2019 with packages and instances, by the definitions alone.

ghost use Rattle.vd_package_facts.specs.Facts.{PackageFacts, ViewFacts};

/// Those of instances of a package and of a function with generics.
pub fn packages_show()
    ensures { PackageFacts }
{}

/// That of ports with a view, over 20 cycles.
pub fn views_show()
    ensures { ViewFacts }
{}
