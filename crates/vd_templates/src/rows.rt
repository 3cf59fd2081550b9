//! The templates of the forms of revision 1993, a row for each form, and more where it is written differently at different
//! places.

use crate::pieces::Piece;
use crate::pieces::Piece::*;
use crate::states::*;
use vd_forms::Form::*;
use vd_forms::form::Form;
use vd_shapes::terminals::*;

macro_rules! templates {
    ($($($head:expr),* => $($piece:expr),*;)*) => { &[$($($head,)* $($piece,)*)*] };
}

/// What is written of each form. The heads of a state's forms stand in front of its `AnyOther`. The rows of trees as they are
/// stand last, and no other rows behind them.
pub const TEMPLATES: &[Piece] = templates! {
    // Operands have brackets, but for primaries, and for left operands of the same operators.
    Of(OPERAND, Number), Of(OPERAND, Letter), Of(OPERAND, Quoted), Of(OPERAND, Bits), Of(OPERAND, Aggregate),
        Of(OPERAND, Name), Of(OPERAND, PhysicalLiteral), Of(OPERAND, OperatorName) => Itself;
    Of(LEFT_OF_AND, And), Of(LEFT_OF_AND, Number), Of(LEFT_OF_AND, Letter), Of(LEFT_OF_AND, Quoted),
        Of(LEFT_OF_AND, Bits), Of(LEFT_OF_AND, Aggregate), Of(LEFT_OF_AND, Name), Of(LEFT_OF_AND, PhysicalLiteral),
        Of(LEFT_OF_AND, OperatorName) => Itself;
    Of(LEFT_OF_OR, Or), Of(LEFT_OF_OR, Number), Of(LEFT_OF_OR, Letter), Of(LEFT_OF_OR, Quoted), Of(LEFT_OF_OR, Bits),
        Of(LEFT_OF_OR, Aggregate), Of(LEFT_OF_OR, Name), Of(LEFT_OF_OR, PhysicalLiteral),
        Of(LEFT_OF_OR, OperatorName) => Itself;
    Of(LEFT_OF_XOR, Xor), Of(LEFT_OF_XOR, Number), Of(LEFT_OF_XOR, Letter), Of(LEFT_OF_XOR, Quoted),
        Of(LEFT_OF_XOR, Bits), Of(LEFT_OF_XOR, Aggregate), Of(LEFT_OF_XOR, Name), Of(LEFT_OF_XOR, PhysicalLiteral),
        Of(LEFT_OF_XOR, OperatorName) => Itself;
    Of(LEFT_OF_XNOR, Xnor), Of(LEFT_OF_XNOR, Number), Of(LEFT_OF_XNOR, Letter), Of(LEFT_OF_XNOR, Quoted),
        Of(LEFT_OF_XNOR, Bits), Of(LEFT_OF_XNOR, Aggregate), Of(LEFT_OF_XNOR, Name),
        Of(LEFT_OF_XNOR, PhysicalLiteral), Of(LEFT_OF_XNOR, OperatorName) => Itself;
    Of(LEFT_OF_SUM, Add), Of(LEFT_OF_SUM, Subtract), Of(LEFT_OF_SUM, Concatenate), Of(LEFT_OF_SUM, Number),
        Of(LEFT_OF_SUM, Letter), Of(LEFT_OF_SUM, Quoted), Of(LEFT_OF_SUM, Bits), Of(LEFT_OF_SUM, Aggregate),
        Of(LEFT_OF_SUM, Name), Of(LEFT_OF_SUM, PhysicalLiteral), Of(LEFT_OF_SUM, OperatorName) => Itself;
    Of(LEFT_OF_PRODUCT, Multiply), Of(LEFT_OF_PRODUCT, Divide), Of(LEFT_OF_PRODUCT, Modulo),
        Of(LEFT_OF_PRODUCT, Remainder), Of(LEFT_OF_PRODUCT, Number), Of(LEFT_OF_PRODUCT, Letter),
        Of(LEFT_OF_PRODUCT, Quoted), Of(LEFT_OF_PRODUCT, Bits), Of(LEFT_OF_PRODUCT, Aggregate),
        Of(LEFT_OF_PRODUCT, Name), Of(LEFT_OF_PRODUCT, PhysicalLiteral), Of(LEFT_OF_PRODUCT, OperatorName) => Itself;
    AnyOther(OPERAND), AnyOther(LEFT_OF_AND), AnyOther(LEFT_OF_OR), AnyOther(LEFT_OF_XOR), AnyOther(LEFT_OF_XNOR),
        AnyOther(LEFT_OF_SUM), AnyOther(LEFT_OF_PRODUCT) => Token(OPEN), Itself, Token(CLOSE);

    // What may be left out has a word or a mark of its own.
    Of(DEFAULT, Absent), Of(REPORTED, Absent), Of(SEVERITY, Absent), Of(WAIT_ON, Absent), Of(WAIT_UNTIL, Absent),
        Of(WAIT_FOR, Absent), Of(WHEN, Absent), Of(SENSITIVITY, Absent), Of(ARCHITECTURE_NAME, Absent),
        Of(GENERATED, Absent), Of(END_OF_ENTITY, Absent), Of(END_OF_ARCHITECTURE, Absent), Of(END_OF_PACKAGE, Absent),
        Of(END_OF_BODY, Absent), Of(END_OF_FUNCTION, Absent) => Nothing;
    AnyOther(DEFAULT) => Token(BECOMES), Itself;
    AnyOther(REPORTED) => Token(WORD_REPORT), Itself;
    AnyOther(SEVERITY) => Token(WORD_SEVERITY), Itself;
    AnyOther(WAIT_ON) => Token(WORD_ON), Itself;
    AnyOther(WAIT_UNTIL) => Token(WORD_UNTIL), Itself;
    AnyOther(WAIT_FOR) => Token(WORD_FOR), Itself;
    AnyOther(WHEN) => Token(WORD_WHEN), Itself;
    AnyOther(SENSITIVITY), AnyOther(ARCHITECTURE_NAME) => Token(OPEN), Itself, Token(CLOSE);
    AnyOther(GENERATED) => Inward, Itself, Outward, Token(WORD_BEGIN), EndLine;

    // The words at the ends of units.
    Of(END_OF_ENTITY, Closing) => Part(0, END_OF_ENTITY), Part(1, AS_IT_IS);
    Of(END_OF_ENTITY, ClosingWord) => Token(WORD_ENTITY);
    Of(END_OF_ARCHITECTURE, Closing) => Part(0, END_OF_ARCHITECTURE), Part(1, AS_IT_IS);
    Of(END_OF_ARCHITECTURE, ClosingWord) => Token(WORD_ARCHITECTURE);
    Of(END_OF_PACKAGE, Closing) => Part(0, END_OF_PACKAGE), Part(1, AS_IT_IS);
    Of(END_OF_PACKAGE, ClosingWord) => Token(WORD_PACKAGE);
    Of(END_OF_BODY, Closing) => Part(0, END_OF_BODY), Part(1, AS_IT_IS);
    Of(END_OF_BODY, ClosingWord) => Token(WORD_PACKAGE), Token(WORD_BODY);
    Of(END_OF_FUNCTION, ClosingWord) => Token(WORD_FUNCTION);

    // Each form as it is.
    Of(AS_IT_IS, DesignUnit) => Part(0, AS_IT_IS), Part(1, AS_IT_IS);
    Of(AS_IT_IS, ContextClause) => Parts(0);
    Of(AS_IT_IS, LibraryClause) => Token(WORD_LIBRARY), Part(0, AS_IT_IS), Listed(1, COMMA), Token(SEMICOLON),
        EndLine;
    Of(AS_IT_IS, UseClause) => Token(WORD_USE), Part(0, AS_IT_IS), Listed(1, COMMA), Token(SEMICOLON), EndLine;
    Of(AS_IT_IS, Identifier), Of(AS_IT_IS, Letter), Of(AS_IT_IS, Quoted), Of(AS_IT_IS, Number), Of(AS_IT_IS, Bits) =>
        Own;
    Of(AS_IT_IS, IdentifierList) => Part(0, AS_IT_IS), Listed(1, COMMA);
    Of(AS_IT_IS, SelectedName) => Part(0, AS_IT_IS), Listed(1, DOT);
    Of(AS_IT_IS, All) => Token(WORD_ALL);
    Of(AS_IT_IS, EntityDeclaration) => Token(WORD_ENTITY), Part(0, AS_IT_IS), Token(WORD_IS), EndLine, Inward,
        Part(1, AS_IT_IS), Part(2, AS_IT_IS), Outward, Token(WORD_END), Part(3, END_OF_ENTITY), Token(SEMICOLON),
        EndLine;
    Of(AS_IT_IS, PortClause) => Token(WORD_PORT), Token(OPEN), Part(0, AS_IT_IS), Listed(1, SEMICOLON), Token(CLOSE),
        Token(SEMICOLON), EndLine;
    Of(AS_IT_IS, SignalWord) => Token(WORD_SIGNAL);
    Of(AS_IT_IS, PortDeclaration) => Part(0, AS_IT_IS), Part(1, AS_IT_IS), Token(COLON), Part(2, AS_IT_IS),
        Part(3, AS_IT_IS), Part(4, DEFAULT);
    Of(AS_IT_IS, In) => Token(WORD_IN);
    Of(AS_IT_IS, Out) => Token(WORD_OUT);
    Of(AS_IT_IS, InOut) => Token(WORD_INOUT);
    Of(AS_IT_IS, GenericClause) => Token(WORD_GENERIC), Token(OPEN), Part(0, AS_IT_IS), Listed(1, SEMICOLON),
        Token(CLOSE), Token(SEMICOLON), EndLine;
    Of(AS_IT_IS, GenericConstant) => Part(0, AS_IT_IS), Part(1, AS_IT_IS), Token(COLON), Part(2, AS_IT_IS),
        Part(3, AS_IT_IS), Part(4, DEFAULT);
    Of(AS_IT_IS, ConstantWord) => Token(WORD_CONSTANT);
    Of(AS_IT_IS, PureWord) => Token(WORD_PURE);
    Of(AS_IT_IS, ParameterList) => Token(OPEN), Part(0, AS_IT_IS), Listed(1, SEMICOLON), Token(CLOSE);
    Of(AS_IT_IS, ParameterDeclaration) => Part(0, AS_IT_IS), Part(1, AS_IT_IS), Token(COLON), Part(2, AS_IT_IS),
        Part(3, AS_IT_IS);
    Of(AS_IT_IS, SubtypeIndication) => Part(0, AS_IT_IS), Part(1, AS_IT_IS);
    Of(AS_IT_IS, IndexConstraint) => Token(OPEN), Part(0, AS_IT_IS), Listed(1, COMMA), Token(CLOSE);
    Of(AS_IT_IS, RangeConstraint) => Token(WORD_RANGE), Part(0, AS_IT_IS);
    Of(AS_IT_IS, ArchitectureBody) => Token(WORD_ARCHITECTURE), Part(0, AS_IT_IS), Token(WORD_OF), Part(1, AS_IT_IS),
        Token(WORD_IS), EndLine, Inward, Part(2, AS_IT_IS), Outward, Token(WORD_BEGIN), EndLine, Inward,
        Part(3, AS_IT_IS), Outward, Token(WORD_END), Part(4, END_OF_ARCHITECTURE), Token(SEMICOLON), EndLine;
    Of(AS_IT_IS, DeclarativePart), Of(AS_IT_IS, StatementPart) => Parts(0);
    Of(AS_IT_IS, PackageBody) => Token(WORD_PACKAGE), Token(WORD_BODY), Part(0, AS_IT_IS), Token(WORD_IS), EndLine,
        Inward, Part(1, AS_IT_IS), Outward, Token(WORD_END), Part(2, END_OF_BODY), Token(SEMICOLON), EndLine;
    Of(AS_IT_IS, PackageDeclaration) => Token(WORD_PACKAGE), Part(0, AS_IT_IS), Token(WORD_IS), EndLine,
        Part(1, AS_IT_IS), Inward, Part(2, AS_IT_IS), Outward, Token(WORD_END), Part(3, END_OF_PACKAGE),
        Token(SEMICOLON), EndLine;
    Of(AS_IT_IS, GenericMap) => Token(WORD_GENERIC), Token(WORD_MAP), Token(OPEN), Part(0, AS_IT_IS),
        Listed(1, COMMA), Token(CLOSE);
    Of(AS_IT_IS, PortMap) => Token(WORD_PORT), Token(WORD_MAP), Token(OPEN), Part(0, AS_IT_IS), Listed(1, COMMA),
        Token(CLOSE);
    Of(AS_IT_IS, ConstantDeclaration) => Token(WORD_CONSTANT), Part(0, AS_IT_IS), Token(COLON), Part(1, AS_IT_IS),
        Token(BECOMES), Part(2, AS_IT_IS), Token(SEMICOLON), EndLine;
    Of(AS_IT_IS, SignalDeclaration) => Token(WORD_SIGNAL), Part(0, AS_IT_IS), Token(COLON), Part(1, AS_IT_IS),
        Part(2, DEFAULT), Token(SEMICOLON), EndLine;
    Of(AS_IT_IS, VariableDeclaration) => Token(WORD_VARIABLE), Part(0, AS_IT_IS), Token(COLON), Part(1, AS_IT_IS),
        Part(2, DEFAULT), Token(SEMICOLON), EndLine;
    Of(AS_IT_IS, TypeDeclaration) => Token(WORD_TYPE), Part(0, AS_IT_IS), Token(WORD_IS), Part(1, AS_IT_IS),
        Token(SEMICOLON), EndLine;
    Of(AS_IT_IS, SubtypeDeclaration) => Token(WORD_SUBTYPE), Part(0, AS_IT_IS), Token(WORD_IS), Part(1, AS_IT_IS),
        Token(SEMICOLON), EndLine;
    Of(AS_IT_IS, EnumerationType) => Token(OPEN), Part(0, AS_IT_IS), Listed(1, COMMA), Token(CLOSE);
    Of(AS_IT_IS, ArrayType) => Token(WORD_ARRAY), Token(OPEN), Part(0, AS_IT_IS), Token(CLOSE), Token(WORD_OF),
        Part(1, AS_IT_IS);
    Of(AS_IT_IS, RecordType) => Token(WORD_RECORD), EndLine, Inward, Part(0, AS_IT_IS), Outward, Token(WORD_END),
        Token(WORD_RECORD), Part(1, AS_IT_IS);
    Of(AS_IT_IS, Ascending) => Part(0, OPERAND), Token(WORD_TO), Part(1, OPERAND);
    Of(AS_IT_IS, Descending) => Part(0, OPERAND), Token(WORD_DOWNTO), Part(1, OPERAND);
    Of(AS_IT_IS, UnconstrainedIndex) => Part(0, AS_IT_IS), Token(WORD_RANGE), Token(BOX);
    Of(AS_IT_IS, DiscreteSubtype) => Part(0, AS_IT_IS), Token(WORD_RANGE), Part(1, AS_IT_IS);
    Of(AS_IT_IS, RecordElements) => Part(0, AS_IT_IS), Parts(1);
    Of(AS_IT_IS, RecordElement) => Part(0, AS_IT_IS), Token(COLON), Part(1, AS_IT_IS), Token(SEMICOLON), EndLine;
    Of(AS_IT_IS, FunctionDeclaration) => Part(0, AS_IT_IS), Token(WORD_FUNCTION), Part(1, AS_IT_IS),
        Part(2, AS_IT_IS), Part(3, AS_IT_IS), Part(4, AS_IT_IS), Token(WORD_RETURN), Part(5, AS_IT_IS),
        Token(SEMICOLON), EndLine;
    Of(AS_IT_IS, FunctionBody) => Part(0, AS_IT_IS), Token(WORD_FUNCTION), Part(1, AS_IT_IS), Part(2, AS_IT_IS),
        Part(3, AS_IT_IS), Part(4, AS_IT_IS), Token(WORD_RETURN), Part(5, AS_IT_IS), Token(WORD_IS), EndLine, Inward,
        Part(6, AS_IT_IS), Outward, Token(WORD_BEGIN), EndLine, Inward, Part(7, AS_IT_IS), Outward, Token(WORD_END),
        Part(8, AS_IT_IS), Token(SEMICOLON), EndLine;
    Of(AS_IT_IS, FunctionClosing) => Part(0, END_OF_FUNCTION), Part(1, AS_IT_IS);
    Of(AS_IT_IS, Statements) => Parts(0);
    Of(AS_IT_IS, LabelledStatement), Of(AS_IT_IS, LabelledConcurrent) => Part(0, AS_IT_IS), Token(COLON),
        Part(1, AS_IT_IS);
    Of(AS_IT_IS, Name) => Part(0, AS_IT_IS), Parts(1);
    Of(AS_IT_IS, SignalAssignment), Of(AS_IT_IS, ConcurrentAssignment) => Part(0, AS_IT_IS), Token(ARROW),
        Part(1, AS_IT_IS), Part(2, AS_IT_IS), Token(SEMICOLON), EndLine;
    Of(AS_IT_IS, VariableAssignment) => Part(0, AS_IT_IS), Token(BECOMES), Part(1, AS_IT_IS), Token(SEMICOLON),
        EndLine;
    Of(AS_IT_IS, Transport) => Token(WORD_TRANSPORT);
    Of(AS_IT_IS, Inertial) => Token(WORD_INERTIAL);
    Of(AS_IT_IS, Unaffected) => Token(WORD_UNAFFECTED);
    Of(AS_IT_IS, DelayedWaveform) => Part(0, AS_IT_IS), Token(WORD_AFTER), Part(1, AS_IT_IS);
    Of(AS_IT_IS, ConditionalWaveform) => Part(0, AS_IT_IS), Token(WORD_WHEN), Part(1, AS_IT_IS), Token(WORD_ELSE),
        Part(2, AS_IT_IS);
    Of(AS_IT_IS, GuardedWaveform) => Part(0, AS_IT_IS), Token(WORD_WHEN), Part(1, AS_IT_IS);
    Of(AS_IT_IS, IfStatement) => Token(WORD_IF), Part(0, AS_IT_IS), Token(WORD_THEN), EndLine, Inward,
        Part(1, AS_IT_IS), Outward, Part(2, AS_IT_IS), Part(3, AS_IT_IS), Token(WORD_END), Token(WORD_IF),
        Part(4, AS_IT_IS), Token(SEMICOLON), EndLine;
    Of(AS_IT_IS, ElsifBranches) => Parts(0);
    Of(AS_IT_IS, ElsifBranch) => Token(WORD_ELSIF), Part(0, AS_IT_IS), Token(WORD_THEN), EndLine, Inward,
        Part(1, AS_IT_IS), Outward;
    Of(AS_IT_IS, ElseBranch) => Token(WORD_ELSE), EndLine, Inward, Parts(0), Outward;
    Of(AS_IT_IS, CaseStatement) => Token(WORD_CASE), Part(0, AS_IT_IS), Part(1, AS_IT_IS), Token(WORD_IS), EndLine,
        Inward, Part(2, AS_IT_IS), Outward, Token(WORD_END), Token(WORD_CASE), Part(3, AS_IT_IS), Part(4, AS_IT_IS),
        Token(SEMICOLON), EndLine;
    Of(AS_IT_IS, CaseAlternatives) => Parts(0);
    Of(AS_IT_IS, CaseAlternative) => Token(WORD_WHEN), Part(0, AS_IT_IS), Token(GIVES), EndLine, Inward,
        Part(1, AS_IT_IS), Outward;
    Of(AS_IT_IS, ForLoop) => Token(WORD_FOR), Part(0, AS_IT_IS), Token(WORD_IN), Part(1, AS_IT_IS), Token(WORD_LOOP),
        EndLine, Inward, Part(2, AS_IT_IS), Outward, Token(WORD_END), Token(WORD_LOOP), Part(3, AS_IT_IS),
        Token(SEMICOLON), EndLine;
    Of(AS_IT_IS, WhileLoop) => Token(WORD_WHILE), Part(0, AS_IT_IS), Token(WORD_LOOP), EndLine, Inward,
        Part(1, AS_IT_IS), Outward, Token(WORD_END), Token(WORD_LOOP), Part(2, AS_IT_IS), Token(SEMICOLON), EndLine;
    Of(AS_IT_IS, LoopStatement) => Token(WORD_LOOP), EndLine, Inward, Part(0, AS_IT_IS), Outward, Token(WORD_END),
        Token(WORD_LOOP), Part(1, AS_IT_IS), Token(SEMICOLON), EndLine;
    Of(AS_IT_IS, WaitStatement) => Token(WORD_WAIT), Part(0, WAIT_ON), Part(1, WAIT_UNTIL), Part(2, WAIT_FOR),
        Token(SEMICOLON), EndLine;
    Of(AS_IT_IS, ReportStatement) => Token(WORD_REPORT), Part(0, AS_IT_IS), Part(1, SEVERITY), Token(SEMICOLON),
        EndLine;
    Of(AS_IT_IS, ReturnStatement) => Token(WORD_RETURN), Part(0, AS_IT_IS), Token(SEMICOLON), EndLine;
    Of(AS_IT_IS, NextStatement) => Token(WORD_NEXT), Part(0, AS_IT_IS), Part(1, WHEN), Token(SEMICOLON), EndLine;
    Of(AS_IT_IS, ExitStatement) => Token(WORD_EXIT), Part(0, AS_IT_IS), Part(1, WHEN), Token(SEMICOLON), EndLine;
    Of(AS_IT_IS, NullStatement) => Token(WORD_NULL), Token(SEMICOLON), EndLine;
    Of(AS_IT_IS, AssertStatement) => Token(WORD_ASSERT), Part(0, AS_IT_IS), Part(1, REPORTED), Part(2, SEVERITY),
        Token(SEMICOLON), EndLine;
    Of(AS_IT_IS, SensitivityList) => Part(0, AS_IT_IS), Listed(1, COMMA);
    Of(AS_IT_IS, SelectedSignalAssignment) => Token(WORD_WITH), Part(0, AS_IT_IS), Token(WORD_SELECT),
        Part(1, AS_IT_IS), Part(2, AS_IT_IS), Token(ARROW), Part(3, AS_IT_IS), Part(4, AS_IT_IS), Listed(5, COMMA),
        Token(SEMICOLON), EndLine;
    Of(AS_IT_IS, SelectedWaveform) => Part(0, AS_IT_IS), Token(WORD_WHEN), Part(1, AS_IT_IS);
    Of(AS_IT_IS, ProcessStatement) => Token(WORD_PROCESS), Part(0, SENSITIVITY), Part(1, AS_IT_IS), Inward,
        Part(2, AS_IT_IS), Outward, Token(WORD_BEGIN), EndLine, Inward, Part(3, AS_IT_IS), Outward, Token(WORD_END),
        Token(WORD_PROCESS), Part(4, AS_IT_IS), Token(SEMICOLON), EndLine;
    Of(AS_IT_IS, Is) => Token(WORD_IS), EndLine;
    Of(AS_IT_IS, EntityInstantiation) => Token(WORD_ENTITY), Part(0, AS_IT_IS), Part(1, ARCHITECTURE_NAME),
        Part(2, AS_IT_IS), Part(3, AS_IT_IS), Token(SEMICOLON), EndLine;
    Of(AS_IT_IS, IfGenerate) => Token(WORD_IF), Part(0, AS_IT_IS), Token(WORD_GENERATE), EndLine, Part(1, AS_IT_IS),
        Part(2, AS_IT_IS), Part(3, AS_IT_IS), Token(WORD_END), Token(WORD_GENERATE), Part(4, AS_IT_IS),
        Token(SEMICOLON), EndLine;
    Of(AS_IT_IS, ForGenerate) => Token(WORD_FOR), Part(0, AS_IT_IS), Token(WORD_IN), Part(1, AS_IT_IS),
        Token(WORD_GENERATE), EndLine, Part(2, AS_IT_IS), Token(WORD_END), Token(WORD_GENERATE), Part(3, AS_IT_IS),
        Token(SEMICOLON), EndLine;
    Of(AS_IT_IS, ElsifGenerates) => Nothing;
    Of(AS_IT_IS, GenerateBody) => Part(0, GENERATED), Inward, Parts(1), Outward;
    Of(AS_IT_IS, Others) => Token(WORD_OTHERS);
    Of(AS_IT_IS, Choices) => Part(0, AS_IT_IS), Listed(1, BAR);
    Of(AS_IT_IS, Selection) => Token(DOT), Part(0, AS_IT_IS);
    Of(AS_IT_IS, Arguments) => Token(OPEN), Part(0, AS_IT_IS), Listed(1, COMMA), Token(CLOSE);
    Of(AS_IT_IS, Attribute) => Token(TICK), Part(0, AS_IT_IS);
    Of(AS_IT_IS, RangeAttribute) => Token(TICK), Token(WORD_RANGE);
    Of(AS_IT_IS, Qualification) => Token(TICK), Token(OPEN), Part(0, AS_IT_IS), Listed(1, COMMA), Token(CLOSE);
    Of(AS_IT_IS, Open) => Token(WORD_OPEN);
    Of(AS_IT_IS, OthersAssociation) => Token(WORD_OTHERS), Token(GIVES), Part(0, AS_IT_IS);
    Of(AS_IT_IS, AssociationChoices) => Part(0, AS_IT_IS), Listed(1, BAR);
    Of(AS_IT_IS, Association) => Part(0, AS_IT_IS), Token(GIVES), Part(1, AS_IT_IS);
    Of(AS_IT_IS, And) => Part(0, LEFT_OF_AND), Token(WORD_AND), Part(1, OPERAND);
    Of(AS_IT_IS, Or) => Part(0, LEFT_OF_OR), Token(WORD_OR), Part(1, OPERAND);
    Of(AS_IT_IS, Xor) => Part(0, LEFT_OF_XOR), Token(WORD_XOR), Part(1, OPERAND);
    Of(AS_IT_IS, Xnor) => Part(0, LEFT_OF_XNOR), Token(WORD_XNOR), Part(1, OPERAND);
    Of(AS_IT_IS, Nand) => Part(0, OPERAND), Token(WORD_NAND), Part(1, OPERAND);
    Of(AS_IT_IS, Nor) => Part(0, OPERAND), Token(WORD_NOR), Part(1, OPERAND);
    Of(AS_IT_IS, Equal) => Part(0, OPERAND), Token(EQUAL), Part(1, OPERAND);
    Of(AS_IT_IS, Unequal) => Part(0, OPERAND), Token(UNEQUAL), Part(1, OPERAND);
    Of(AS_IT_IS, Less) => Part(0, OPERAND), Token(LESS), Part(1, OPERAND);
    Of(AS_IT_IS, AtMost) => Part(0, OPERAND), Token(ARROW), Part(1, OPERAND);
    Of(AS_IT_IS, Greater) => Part(0, OPERAND), Token(GREATER), Part(1, OPERAND);
    Of(AS_IT_IS, AtLeast) => Part(0, OPERAND), Token(AT_LEAST), Part(1, OPERAND);
    Of(AS_IT_IS, ShiftLeftLogical) => Part(0, OPERAND), Token(WORD_SLL), Part(1, OPERAND);
    Of(AS_IT_IS, ShiftRightLogical) => Part(0, OPERAND), Token(WORD_SRL), Part(1, OPERAND);
    Of(AS_IT_IS, ShiftLeftArithmetic) => Part(0, OPERAND), Token(WORD_SLA), Part(1, OPERAND);
    Of(AS_IT_IS, ShiftRightArithmetic) => Part(0, OPERAND), Token(WORD_SRA), Part(1, OPERAND);
    Of(AS_IT_IS, RotateLeft) => Part(0, OPERAND), Token(WORD_ROL), Part(1, OPERAND);
    Of(AS_IT_IS, RotateRight) => Part(0, OPERAND), Token(WORD_ROR), Part(1, OPERAND);
    Of(AS_IT_IS, Identity) => Token(PLUS), Part(0, OPERAND);
    Of(AS_IT_IS, Negation) => Token(MINUS), Part(0, OPERAND);
    Of(AS_IT_IS, Add) => Part(0, LEFT_OF_SUM), Token(PLUS), Part(1, OPERAND);
    Of(AS_IT_IS, Subtract) => Part(0, LEFT_OF_SUM), Token(MINUS), Part(1, OPERAND);
    Of(AS_IT_IS, Concatenate) => Part(0, LEFT_OF_SUM), Token(JOIN), Part(1, OPERAND);
    Of(AS_IT_IS, Multiply) => Part(0, LEFT_OF_PRODUCT), Token(TIMES), Part(1, OPERAND);
    Of(AS_IT_IS, Divide) => Part(0, LEFT_OF_PRODUCT), Token(OVER), Part(1, OPERAND);
    Of(AS_IT_IS, Modulo) => Part(0, LEFT_OF_PRODUCT), Token(WORD_MOD), Part(1, OPERAND);
    Of(AS_IT_IS, Remainder) => Part(0, LEFT_OF_PRODUCT), Token(WORD_REM), Part(1, OPERAND);
    Of(AS_IT_IS, Absolute) => Token(WORD_ABS), Part(0, OPERAND);
    Of(AS_IT_IS, Not) => Token(WORD_NOT), Part(0, OPERAND);
    Of(AS_IT_IS, Power) => Part(0, OPERAND), Token(POWER), Part(1, OPERAND);
    Of(AS_IT_IS, Aggregate) => Token(OPEN), Part(0, AS_IT_IS), Listed(1, COMMA), Token(CLOSE);
    Of(AS_IT_IS, PhysicalLiteral) => Part(0, AS_IT_IS), Part(1, AS_IT_IS);
    Of(AS_IT_IS, OperatorName) => Part(0, AS_IT_IS), Part(1, AS_IT_IS), Parts(2);
    Of(AS_IT_IS, Absent) => Nothing;
};
