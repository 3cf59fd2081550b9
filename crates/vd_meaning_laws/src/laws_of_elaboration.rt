//! Laws of the definitions, each the contract of a function that does nothing.

ghost use Rattle.vd_meaning_laws.specs.LawsOfElaboration.{PartNodesAlike, PartTreesAlike, UnitsElaborateAlike, TreesElaborateAlike, DesignsRunAlike, DesignsHaveOneTrace, DesignsHaveOneText, ElaborationsHaveOneTrace, DeclarationsBehindKeepTraces};

/// With other numbers for its declarations a node comes to the same in elaboration where its parts do, and so does a tree.
pub fn renumbered_parts_are_alike()
    ensures nodes { PartNodesAlike }
    ensures trees { PartTreesAlike }
{}

/// Units that are alike are elaborated alike, and so is a tree with other numbers.
pub fn alike_units_elaborate_alike()
    ensures units { UnitsElaborateAlike }
    ensures trees { TreesElaborateAlike }
{}

/// Designs that are alike have the same run, one trace and one text of it; elaborations that are alike have one trace, also where they stop.
pub fn alike_designs_run_alike()
    ensures runs { DesignsRunAlike }
    ensures traces { DesignsHaveOneTrace }
    ensures texts { DesignsHaveOneText }
    ensures elaborations { ElaborationsHaveOneTrace }
{}

/// Declarations behind those of a resolved tree keep the trace of each top.
pub fn declarations_behind_keep_traces()
    ensures { DeclarationsBehindKeepTraces }
{}
