//! The alternatives of the grammar, one form for both revisions.

/// What a node of a syntax tree is. A node has at most one list among its parts, which stands last. Forms with a text
/// are leaves.
#[derive(Clone, Copy, PartialEq, Eq, Debug)]
pub enum Form {
    /// A context clause and a library unit.
    DesignUnit,
    /// Its library clauses and use clauses.
    ContextClause,
    /// The identifiers of the libraries.
    LibraryClause,
    /// The selected names.
    UseClause,
    /// An identifier and its suffixes.
    SelectedName,
    /// A leaf: an identifier in lower case.
    Identifier,
    /// The word `all`, as a suffix or as a sensitivity.
    All,
    /// An identifier, a port clause and a closing.
    EntityDeclaration,
    /// The declarations of ports.
    PortClause,
    /// A list of identifiers, a mode and a subtype.
    PortDeclaration,
    /// Identifiers.
    IdentifierList,
    /// The mode `in`.
    In,
    /// The mode `out`.
    Out,
    /// A selected name.
    SubtypeIndication,
    /// An identifier, the entity's identifier, a statement part and a closing.
    ArchitectureBody,
    /// Concurrent statements.
    StatementPart,
    /// A sensitivity (`All` or a list), the word `is` or its absence, and sequential statements.
    ProcessStatement,
    /// Names.
    SensitivityList,
    /// A target and a value.
    SignalAssignment,
    /// An identifier that stands for an object.
    Name,
    /// Two operands.
    And,
    /// One operand.
    Not,
    /// The end of a unit: its word, and an identifier where one is repeated there.
    Closing,
    /// The word `is` where it may be left out.
    Is,
    /// A word that may stand here and doesn't.
    Absent,
}
