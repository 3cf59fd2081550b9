//! The alternatives of the grammar, one form for both revisions.

/// What a node of a syntax tree is: the alternative of the grammar that it comes from. (IEEE 1076, the rules of syntax.)
/// Each form tells its parts in their order. A node has at most one list among its parts, which stands last. A leaf is a
/// form with a text, and only leaves have one. Forms that are marked 2019 stand in trees of that revision alone.
#[derive(Clone, Copy, PartialEq, Eq, Debug)]
pub enum Form {
    /// A context clause and a context declaration or a referring unit or an entity declaration or an architecture body
    /// or a package body or a package instantiation or a package declaration.
    DesignUnit,
    /// Any number, each a library clause or an use clause.
    ContextClause,
    /// One or more: an identifier.
    LibraryClause,
    /// One or more: a selected name.
    UseClause,
    /// A selected name, a context items and a closing. (2019)
    ContextDeclaration,
    /// A context reference and a design unit. (2019)
    ReferringUnit,
    /// One or more: a selected name. (2019)
    ContextReference,
    /// Any number, each a library clause or an use clause or a nested reference. (2019)
    ContextItems,
    /// A selected name. (2019)
    NestedReference,
    /// A closing word or none and an identifier or none.
    Closing,
    /// The unit's or function's word, repeated at its end.
    ClosingWord,
    /// A leaf: an identifier in lower case.
    Identifier,
    /// One or more: an identifier.
    IdentifierList,
    /// An identifier; any number, each an identifier or a letter or a quoted or an all.
    SelectedName,
    /// A leaf: the character of a character literal.
    Letter,
    /// A leaf: the characters of a string literal, or of an operator symbol.
    Quoted,
    /// The word `all`, as a suffix or as a sensitivity.
    All,
    /// An identifier, a generic clause or none, a port clause or none and a closing.
    EntityDeclaration,
    /// One or more: a port declaration or a view port.
    PortClause,
    /// The word `signal` in front of a port.
    SignalWord,
    /// A signal word or none, an identifier list, an in or an out or an in out or none, a subtype indication and an
    /// expression or none.
    PortDeclaration,
    /// A signal word or none, an identifier list, a selected name, an identifier or none and a subtype indication or
    /// none. (2019)
    ViewPort,
    /// The mode `in`.
    In,
    /// The mode `out`.
    Out,
    /// The mode `inout`.
    InOut,
    /// One or more: a generic constant or a generic type or a generic function.
    GenericClause,
    /// A constant word or none, an identifier list, an in or none, a subtype indication and an expression or none.
    GenericConstant,
    /// An identifier. (2019)
    GenericType,
    /// A pure word or none, an identifier or a quoted, a parameter list or none, a selected name and a box or none.
    /// (2019)
    GenericFunction,
    /// The word `constant` in front of a generic or parameter.
    ConstantWord,
    /// The word `pure`.
    PureWord,
    /// The default `<>` of a generic function. (2019)
    Box,
    /// One or more: a parameter declaration.
    ParameterList,
    /// A constant word or none, an identifier list, an in or none and a subtype indication.
    ParameterDeclaration,
    /// A selected name and an index constraint or a range constraint or none.
    SubtypeIndication,
    /// One or more: an element of a list in brackets.
    IndexConstraint,
    /// A range.
    RangeConstraint,
    /// An identifier, an identifier, a declarative part, a statement part and a closing.
    ArchitectureBody,
    /// Any number, each a declaration.
    DeclarativePart,
    /// Any number, each a concurrent statement.
    StatementPart,
    /// An identifier, a declarative part and a closing.
    PackageBody,
    /// An identifier, a selected name and a generic map or none. (2019)
    PackageInstantiation,
    /// An identifier, a generic clause or none, a declarative part and a closing.
    PackageDeclaration,
    /// One or more: an element of a list in brackets.
    GenericMap,
    /// An identifier list, a subtype indication and an expression.
    ConstantDeclaration,
    /// An identifier list, a subtype indication and an expression or none.
    SignalDeclaration,
    /// An identifier list, a subtype indication and an expression or none.
    VariableDeclaration,
    /// An identifier and an enumeration type or an array type or a record type.
    TypeDeclaration,
    /// An identifier and a subtype indication.
    SubtypeDeclaration,
    /// An identifier, a selected name, a view elements and an identifier or none. (2019)
    ViewDeclaration,
    /// Any number, each a view element. (2019)
    ViewElements,
    /// An identifier list and an in or an out or an in out or a view mode. (2019)
    ViewElement,
    /// A selected name and an identifier or none. (2019)
    ViewMode,
    /// One or more: an identifier or a letter.
    EnumerationType,
    /// An ascending or a descending or an unconstrained index or a discrete subtype or an expression and a subtype
    /// indication.
    ArrayType,
    /// A record elements and an identifier or none.
    RecordType,
    /// An expression and an expression.
    Ascending,
    /// An expression and an expression.
    Descending,
    /// An expression.
    UnconstrainedIndex,
    /// An expression and an ascending or a descending.
    DiscreteSubtype,
    /// One or more: a record element.
    RecordElements,
    /// An identifier list and a subtype indication.
    RecordElement,
    /// A pure word or none, an identifier or a quoted, a selected name and a generic map or none. (2019)
    FunctionInstantiation,
    /// The word `parameter`. (2019)
    ParameterWord,
    /// A pure word or none, an identifier or a quoted, a generic clause or none, a parameter word or none, a parameter
    /// list or none and a selected name.
    FunctionDeclaration,
    /// A pure word or none, an identifier or a quoted, a generic clause or none, a parameter word or none, a parameter
    /// list or none, a selected name, a declarative part, a statements and a function closing.
    FunctionBody,
    /// A closing word or none and an identifier or a quoted or none.
    FunctionClosing,
    /// Any number, each a sequential statement.
    Statements,
    /// An identifier and a sequential statement without label.
    LabelledStatement,
    /// An identifier; any number, each a suffix.
    Name,
    /// A name, a transport or an inertial or none and a waveform, which may have conditions.
    SignalAssignment,
    /// A name and a conditional value or a guarded value or an expression.
    VariableAssignment,
    /// The word `transport`.
    Transport,
    /// The word `inertial`.
    Inertial,
    /// The waveform `unaffected`.
    Unaffected,
    /// An expression and an expression.
    DelayedWaveform,
    /// A waveform, an expression and a waveform, which may have conditions.
    ConditionalWaveform,
    /// A waveform and an expression.
    GuardedWaveform,
    /// An expression, an expression and a conditional value or a guarded value or an expression. (2019)
    ConditionalValue,
    /// An expression and an expression. (2019)
    GuardedValue,
    /// An expression, an expression and a conditional return or an expression. (2019)
    ConditionalReturn,
    /// An expression, a statements, an elsif branches, an else branch or none and an identifier or none.
    IfStatement,
    /// A matching or none, an expression, a case alternatives, a matching or none and an identifier or none.
    CaseStatement,
    /// An identifier, a range, a statements and an identifier or none.
    ForLoop,
    /// An expression, a statements and an identifier or none.
    WhileLoop,
    /// A loop without head: its statements, and its label or none at the end.
    LoopStatement,
    /// A sensitivity list or none, an expression or none and an expression or none.
    WaitStatement,
    /// An expression and an expression or none.
    ReportStatement,
    /// A conditional return or an expression.
    ReturnStatement,
    /// An identifier or none and an expression or none.
    NextStatement,
    /// An identifier or none and an expression or none.
    ExitStatement,
    /// `null;`.
    NullStatement,
    /// An expression; a matching or none; a name; a transport or an inertial or none; one or more: a selected waveform.
    SelectedSignalAssignment,
    /// An expression; a matching or none; a name; one or more: a selected value. (2019)
    SelectedVariableAssignment,
    /// Any number, each an elsif branch.
    ElsifBranches,
    /// An expression and a statements.
    ElsifBranch,
    /// Any number, each a sequential statement.
    ElseBranch,
    /// The `?` of `case?` and `select?`. (2019)
    Matching,
    /// Any number, each a case alternative.
    CaseAlternatives,
    /// An others or a choices and a statements.
    CaseAlternative,
    /// One or more: a name.
    SensitivityList,
    /// An expression, an expression or none and an expression or none.
    AssertStatement,
    /// A waveform and an others or a choices.
    SelectedWaveform,
    /// An expression and an others or a choices. (2019)
    SelectedValue,
    /// An identifier and a concurrent statement without label.
    LabelledConcurrent,
    /// A name, a transport or an inertial or none and a waveform, which may have conditions.
    ConcurrentAssignment,
    /// An all or a sensitivity list or none, an is or none, a declarative part, a statements and an identifier or none.
    ProcessStatement,
    /// The word `is` of a process.
    Is,
    /// A selected name, an identifier or none, a generic map or none and a port map or none.
    EntityInstantiation,
    /// One or more: an element of a list in brackets.
    PortMap,
    /// An expression, a generate body, an elsif generates, a generate body or none and an identifier or none.
    IfGenerate,
    /// An identifier, a range, a generate body and an identifier or none.
    ForGenerate,
    /// An expression, a generate alternatives and an identifier or none. (2019)
    CaseGenerate,
    /// Any number, each an elsif generate.
    ElsifGenerates,
    /// An expression and a generate body. (2019)
    ElsifGenerate,
    /// Any number, each a generate alternative. (2019)
    GenerateAlternatives,
    /// An others or a choices and a generate body. (2019)
    GenerateAlternative,
    /// A declarative part or none; any number, each a concurrent statement.
    GenerateBody,
    /// The choice `others`.
    Others,
    /// One or more: a range.
    Choices,
    /// An identifier or a letter or a quoted or an all.
    Selection,
    /// One or more: an element of a list in brackets.
    Arguments,
    /// An identifier.
    Attribute,
    /// The attribute `range`.
    RangeAttribute,
    /// One or more: an element of a list in brackets.
    Qualification,
    /// The actual `open`.
    Open,
    /// An actual.
    OthersAssociation,
    /// What stands in front of `=>`: the choices.
    AssociationChoices,
    /// An association choices and an actual.
    Association,
    /// An expression. (2019)
    Condition,
    /// An expression and an expression.
    Nand,
    /// An expression and an expression.
    Nor,
    /// An expression and an expression.
    And,
    /// An expression and an expression.
    Or,
    /// An expression and an expression.
    Xor,
    /// An expression and an expression.
    Xnor,
    /// An expression and an expression.
    Equal,
    /// An expression and an expression.
    Unequal,
    /// An expression and an expression.
    Less,
    /// An expression and an expression.
    AtMost,
    /// An expression and an expression.
    Greater,
    /// An expression and an expression.
    AtLeast,
    /// An expression and an expression. (2019)
    MatchEqual,
    /// An expression and an expression. (2019)
    MatchUnequal,
    /// An expression and an expression. (2019)
    MatchLess,
    /// An expression and an expression. (2019)
    MatchAtMost,
    /// An expression and an expression. (2019)
    MatchGreater,
    /// An expression and an expression. (2019)
    MatchAtLeast,
    /// An expression and an expression.
    ShiftLeftLogical,
    /// An expression and an expression.
    ShiftRightLogical,
    /// An expression and an expression.
    ShiftLeftArithmetic,
    /// An expression and an expression.
    ShiftRightArithmetic,
    /// An expression and an expression.
    RotateLeft,
    /// An expression and an expression.
    RotateRight,
    /// An expression.
    Identity,
    /// An expression.
    Negation,
    /// An expression and an expression.
    Add,
    /// An expression and an expression.
    Subtract,
    /// An expression and an expression.
    Concatenate,
    /// An expression and an expression.
    Multiply,
    /// An expression and an expression.
    Divide,
    /// An expression and an expression.
    Modulo,
    /// An expression and an expression.
    Remainder,
    /// An expression.
    Absolute,
    /// An expression.
    Not,
    /// An expression. (2019)
    AndReduction,
    /// An expression. (2019)
    OrReduction,
    /// An expression. (2019)
    XorReduction,
    /// An expression. (2019)
    XnorReduction,
    /// An expression. (2019)
    NandReduction,
    /// An expression. (2019)
    NorReduction,
    /// An expression and an expression.
    Power,
    /// A leaf: the digits of an abstract literal.
    Number,
    /// A leaf: the elements of a bit string literal.
    Bits,
    /// The elements in the brackets of a primary, of which there are several, or one that is no expression; or an
    /// actual, alone in brackets, as an expression.
    Aggregate,
    /// A number and an identifier.
    PhysicalLiteral,
    /// A string literal that is an operator symbol, and its suffixes.
    OperatorName,
    /// What may stand here and doesn't.
    Absent,
}
