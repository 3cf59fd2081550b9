//! Laws of the passes, each as the contract of a function that does nothing.

ghost use Rattle.vd_first_correspondence.specs.Laws.{ListsAreReadSets, LoweringKeepsRun, FlavourKeepsRun, WritingKeepsRun, WritingKeepsTraces, MapsAreWhole, InterfacesAreKept, FilesHaveTops};
ghost use Rattle.vd_first_correspondence.specs.SameTraces.{RunsGiveTraces};

/// The list that is written for `process (all)` is the read set of its statements.
pub fn lists_are_read_sets()
    ensures { ListsAreReadSets }
{}

/// Writing the lists keeps the run of each file, over the definitions of 2019.
pub fn lowering_keeps_run()
    ensures { LoweringKeepsRun }
{}

/// The 1993 form of a design with lists has its run, through the map.
pub fn flavour_keeps_run()
    ensures { FlavourKeepsRun }
{}

/// What is written for a file has its run, through the map. It is the two laws above, one after the other.
pub fn writing_keeps_run()
    ensures { WritingKeepsRun }
{}

/// A run of what is written for a file prints what a run of the file prints.
pub fn writing_keeps_traces()
    ensures { WritingKeepsTraces }
{}

/// The map of each file is whole for every top.
pub fn maps_are_whole()
    ensures { MapsAreWhole }
{}

/// What is written for a file has its units, in their order, and its ports with their names, order, modes and marks.
pub fn interfaces_are_kept()
    ensures { InterfacesAreKept }
{}

/// A file has tops: its entity is elaborated with its architecture, named or not.
pub fn files_have_tops()
    ensures { FilesHaveTops }
{}

/// Designs with the same run have the same traces: what a run prints agrees through the map.
pub fn runs_give_traces()
    ensures { RunsGiveTraces }
{}
