//! Laws of the definitions, each the contract of a function that does nothing.

ghost use Rattle.vd_maps.specs.Laws.{JoinsAreThoseOfRows, RunsGiveTraces, TestShowsOneToOne, TestShowsWhole, EqualPathsJoin, EqualScopesJoin, SameDesignHasSameRun, DistinctPathsJoinThemselves, SameNumbersHaveSameRun, RunsCompose, JoinsCompose, ElaborationsCompose, ElaborationsJoinAll, OwnInterfaceIsKept, TopsAreElaborated};

/// Two paths join where a row gives both, and levels, labels, indexes and what is left of them fit.
pub fn joins_are_those_of_rows()
    ensures { JoinsAreThoseOfRows }
{}

/// Designs with the same run have the same traces through the map.
pub fn runs_give_traces()
    ensures { RunsGiveTraces }
{}

/// The tests for joins one to one and for whole maps show what they test for.
pub fn tests_show_whole_maps()
    ensures joins { TestShowsOneToOne }
    ensures maps { TestShowsWhole }
{}

/// Without rows equal paths and equal places join, and no others.
pub fn equal_paths_join()
    ensures paths { EqualPathsJoin }
    ensures scopes { EqualScopesJoin }
{}

/// A design has its own run, by a map that joins each of its signals with itself alone; and so it is where its paths are distinct and no row changes them.
pub fn same_design_has_same_run()
    ensures runs { SameDesignHasSameRun }
    ensures paths { DistinctPathsJoinThemselves }
{}

/// Designs of the same signals that have the same run number by number have it by each map that joins the first one with itself.
pub fn same_numbers_have_same_run()
    ensures { SameNumbersHaveSameRun }
{}

/// One map behind another: the run is the same, and signals join one to one.
pub fn maps_compose()
    ensures runs { RunsCompose }
    ensures signals { JoinsCompose }
{}

/// So it is for elaborations, also where they stop.
pub fn elaborations_compose()
    ensures runs { ElaborationsCompose }
    ensures signals { ElaborationsJoinAll }
{}

/// The interface of a design is kept by itself.
pub fn own_interface_is_kept()
    ensures { OwnInterfaceIsKept }
{}

/// A tree that has a top elaborates it, or ends with a stop or a limit.
pub fn tops_are_elaborated()
    ensures { TopsAreElaborated }
{}
