//! What the groups are to the rules, as a law.

ghost use Rattle.vd_value_rules.specs.GroupLaws.{GroupsAreAll};

/// The first refusals of all groups are those of all that a design breaks.
pub fn groups_are_all()
    ensures { GroupsAreAll }
{}
