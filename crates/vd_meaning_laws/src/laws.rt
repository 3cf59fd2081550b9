//! Laws of the definitions, each the contract of a function that does nothing.

ghost use Rattle.vd_meaning_laws.specs.Laws.{KeptNodesKeepTrees, NodesAlike, AlikeProcessesRunAlike, ProcessesElaborateAlike};
ghost use Rattle.vd_meaning_laws.specs.Renumbering.{TreesAlike};
ghost use Rattle.vd_meaning_laws.specs.Appending.{AppendedIsApart, AppendedTablesAreSame, OwnNodesStay, OwnTreesStay, OwnTreesMeanTheSame};

/// A pass that keeps the meaning of each node keeps that of each tree.
pub fn kept_nodes_keep_trees()
    ensures { KeptNodesKeepTrees }
{}

/// With other numbers for its declarations a node means the same where its parts do, and so does a tree.
pub fn renumbered_trees_are_alike()
    ensures nodes { NodesAlike }
    ensures trees { TreesAlike }
{}

/// Processes that do the same are elaborated to such.
pub fn alike_processes_elaborate_alike()
    ensures { ProcessesElaborateAlike }
{}

/// Designs whose processes do the same have the same run.
pub fn alike_processes_run_alike()
    ensures { AlikeProcessesRunAlike }
{}

/// Declarations behind those of a tree change nothing for what doesn't name them: a pass may declare what it needs.
pub fn declarations_behind_change_nothing()
    ensures numbers { AppendedIsApart }
    ensures tables { AppendedTablesAreSame }
    ensures nodes { OwnNodesStay }
    ensures trees { OwnTreesStay }
    ensures meanings { OwnTreesMeanTheSame }
{}
