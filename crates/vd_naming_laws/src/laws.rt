//! Laws of the names of a design, each the contract of a function that does nothing.

ghost use Rattle.vd_naming_laws.specs.Laws.{NamesKeepSyntax, NamesOf1993KeepSyntax, NamesGiveDesigns, SettlingKeepsSyntax};
ghost use Rattle.vd_naming_laws.specs.Example.{OperatorIsImplied};

/// Resolving the names of a design keeps its syntax, but for operators `??` that are implied over conditions; in revision 1993 none is. Settling keeps it
/// too. So a valid design is resolved to a valid tree.
pub fn names_keep_syntax()
    ensures kept { NamesKeepSyntax }
    ensures exactly { NamesOf1993KeepSyntax }
    ensures settled { SettlingKeepsSyntax }
    ensures designs { NamesGiveDesigns }
{}

/// A design in which such an operator is implied.
pub fn operators_are_implied()
    ensures { OperatorIsImplied }
{}
