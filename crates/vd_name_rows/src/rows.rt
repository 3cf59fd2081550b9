//! A row for each form.

ghost use Rattle.std.specs.Prelude.{◌≡◌, map};
ghost use Rattle.vd_forms.specs.Forms.{form_number};
ghost use Rattle.vd_name_rows.specs.Rows.{seen_row, all_rows, row_in, row_of};

use crate::steps::Ending::*;
use crate::steps::Opening::*;
use crate::steps::Step::*;
use crate::steps::Want::*;
use crate::steps::{Ending, Object, Opening, Row, Step};
use vd_forms::Form;
use vd_predefined::numbers::{SEVERITY_LEVEL, STRING, TIME};

macro_rules! rows {
    ($($form:ident: $opening:expr, [$($step:expr),*], $rest:expr, $ending:expr;)*) => {
        &[$(Row { form: Form::$form, opening: $opening, steps: &[$($step),*], rest: $rest, ending: $ending },)*]
    };
}

/// What is done with each form: what it opens, a step for each of its first parts, the step of all others, and what it declares at its end.
const ROWS: &[Row] = rows! {
    // Units and clauses.
    DesignUnit: OfUnit, [Look, Look], Skip, UnitEnds;
    ContextClause: Stay, [], Look, Nothing;
    LibraryClause: Stay, [], LibraryWord, Nothing;
    UseClause: Stay, [], UseName, Nothing;
    ContextDeclaration: Nested, [SimpleName, Look, Skip], Skip, NewContext;
    ReferringUnit: Stay, [Look, Look], Skip, Nothing;
    ContextReference: Stay, [], ContextName, Nothing;
    ContextItems: Stay, [], Look, Nothing;
    NestedReference: Stay, [ContextName], Skip, Nothing;
    EntityDeclaration: OfEntity, [Word, Look, Look, Skip], Skip, NewEntity;
    ArchitectureBody: OfArchitecture, [Word, EntityWord, Look, Look, Skip], Skip, NewArchitecture;
    PackageDeclaration: OfPackage, [Word, Look, Look, Skip], Skip, NewPackage;
    PackageBody: OfPackageBody, [Word, Look, Skip], Skip, PackageBodyEnds;
    PackageInstantiation: OfInstance, [Word, GenericPackage, Generics], Skip, NewPackageInstance;

    // Interfaces.
    GenericClause: Stay, [], Look, ClauseEnds;
    GenericConstant: Stay, [Skip, Names, Skip, Look, Expression(AtHand)], Skip, Objects { object: Object::GenericConstant, names: 1 };
    GenericType: Stay, [Word], Skip, NewGenericType;
    GenericFunction: OfHeader, [Skip, Word, Look, Mark, Skip], Skip, NewGenericFunction;
    PortClause: Stay, [], Look, AllPorts;
    PortDeclaration: InPorts, [Skip, Names, Skip, Look, Expression(AtHand)], Skip, Typed;
    ViewPort: InPorts, [Skip, Names, ViewName, Converse, ViewSubtype], Skip, Typed;
    ParameterList: Stay, [], Look, Nothing;
    ParameterDeclaration: Stay, [Skip, Names, Skip, Look], Skip, Objects { object: Object::Parameter, names: 1 };
    SubtypeIndication: Stay, [Mark, Look], Skip, Indicated;
    IndexConstraint: Stay, [Expression(Index)], Surplus, Nothing;
    RangeConstraint: Stay, [Expression(Range)], Skip, Nothing;

    // Declarations.
    DeclarativePart: Stay, [], Look, Nothing;
    ConstantDeclaration: Stay, [Names, Look, Expression(AtHand)], Skip, Objects { object: Object::Constant, names: 0 };
    SignalDeclaration: Stay, [Names, Look, Expression(AtHand)], Skip, Objects { object: Object::Signal, names: 0 };
    VariableDeclaration: Stay, [Names, Look, Expression(AtHand)], Skip, Objects { object: Object::Variable, names: 0 };
    TypeDeclaration: OfType, [Word, Look], Skip, NewType;
    SubtypeDeclaration: Stay, [Word, Look], Skip, NewSubtype;
    ArrayType: Stay, [ArrayIndex, Look], Skip, Nothing;
    UnconstrainedIndex: Stay, [IndexMark], Skip, Typed;
    RecordType: Stay, [Look, Skip], Skip, Nothing;
    RecordElements: Stay, [], Look, Nothing;
    RecordElement: Stay, [Names, Look], Skip, Objects { object: Object::RecordElement, names: 0 };
    ViewDeclaration: Stay, [Word, Mark, Look, Skip], Skip, NewView;
    ViewElements: OfElements, [], Look, Nothing;
    ViewElement: Stay, [ElementNames, Look], Skip, Nothing;
    ViewMode: Stay, [ViewName, Converse], Skip, Nothing;
    FunctionInstantiation: OfInstance, [Skip, Word, GenericFunctionName, Generics], Skip, NewFunctionInstance;
    FunctionDeclaration: OfHeader, [Skip, Word, Look, Skip, Look, Mark], Skip, NewFunction;
    FunctionBody: OfHeader, [Skip, Word, Look, Skip, Look, Result, Look, Look, Skip], Skip, BodyEnds;

    // Waveforms, values and choices.
    DelayedWaveform: Stay, [Expression(AtHand), Expression(Given(TIME))], Skip, Nothing;
    ConditionalWaveform: Stay, [Chosen, Expression(Condition), Chosen], Skip, Nothing;
    GuardedWaveform: Stay, [Chosen, Expression(Condition)], Skip, Nothing;
    ConditionalValue: Stay, [Expression(AtHand), Expression(Condition), Chosen], Skip, Nothing;
    GuardedValue: Stay, [Expression(AtHand), Expression(Condition)], Skip, Nothing;
    ConditionalReturn: Stay, [Expression(AtHand), Expression(Condition), Chosen], Skip, Nothing;
    SelectedWaveform: Stay, [Chosen, Look], Skip, Nothing;
    SelectedValue: Stay, [Expression(AtHand), Look], Skip, Nothing;
    Choices: Stay, [], Expression(Choice), Nothing;

    // Sequential statements.
    Statements: Stay, [], Look, Nothing;
    LabelledStatement: OfLabel, [Label, Look], Skip, Nothing;
    SignalAssignment: Stay, [Target, Skip, Chosen], Skip, Nothing;
    VariableAssignment: Stay, [Target, Chosen], Skip, Nothing;
    SelectedSignalAssignment: OfSelection, [Selector, Skip, Target, Skip], Look, Nothing;
    SelectedVariableAssignment: OfSelection, [Selector, Skip, Target], Look, Nothing;
    IfStatement: Stay, [Expression(Condition), Look, Look, Look, Skip], Skip, Nothing;
    ElsifBranches: Stay, [], Look, Nothing;
    ElsifBranch: Stay, [Expression(Condition), Look], Skip, Nothing;
    ElseBranch: Stay, [], Look, Nothing;
    CaseStatement: OfSelection, [Skip, Selector, Look, Skip, Skip], Skip, Nothing;
    CaseAlternatives: Stay, [], Look, Nothing;
    CaseAlternative: Stay, [Look, Look], Skip, Nothing;
    ForLoop: Nested, [Word, Parameter(Object::LoopParameter), Look, Skip], Skip, First;
    WhileLoop: Nested, [Expression(Condition), Look, Skip], Skip, Nothing;
    LoopStatement: Nested, [Look, Skip], Skip, Nothing;
    WaitStatement: Stay, [Look, Expression(Condition), Expression(Given(TIME))], Skip, Nothing;
    SensitivityList: Stay, [], Expression(Free), Nothing;
    AssertStatement: Stay, [Expression(Condition), Expression(Given(STRING)), Expression(Given(SEVERITY_LEVEL))], Skip, Nothing;
    ReportStatement: Stay, [Expression(Given(STRING)), Expression(Given(SEVERITY_LEVEL))], Skip, Nothing;
    ReturnStatement: OfReturn, [Chosen], Skip, Nothing;
    NextStatement: Stay, [LabelName, Expression(Condition)], Skip, Nothing;
    ExitStatement: Stay, [LabelName, Expression(Condition)], Skip, Nothing;

    // Concurrent statements.
    StatementPart: Stay, [], Look, Nothing;
    LabelledConcurrent: OfLabel, [Label, Look], Skip, Nothing;
    ConcurrentAssignment: Stay, [Target, Skip, Chosen], Skip, Nothing;
    ProcessStatement: Nested, [Look, Skip, Look, Look, Skip], Skip, Nothing;
    EntityInstantiation: Stay, [InstanceEntity, InstanceArchitecture, Generics, Ports], Skip, Nothing;
    IfGenerate: Stay, [Expression(Condition), Look, Look, Look, Skip], Skip, Nothing;
    ElsifGenerates: Stay, [], Look, Nothing;
    ElsifGenerate: Stay, [Expression(Condition), Look], Skip, Nothing;
    ForGenerate: Nested, [Word, Parameter(Object::GenerateParameter), Within, Skip], Skip, First;
    CaseGenerate: OfSelection, [Selector, Look, Skip], Skip, Nothing;
    GenerateAlternatives: Stay, [], Look, Nothing;
    GenerateAlternative: Stay, [Look, Look], Skip, Nothing;
    GenerateBody: Nested, [], Look, Nothing;
};

// The rows of all forms that have one.
fn all_rows() -> &'static [Row]
    ensures { map seen_row result.now ≡ all_rows }
{
    ROWS
}

// The number of a form.
fn number_of(form: Form) -> u16
    ensures { result ≡ form_number form }
{
    form as u16
}

// What is done with a form, by the first of some rows that is its own.
fn row_in(form: Form, rows: &[Row]) -> Row
    ensures { seen_row result ≡ row_in form (map seen_row rows.now) }
{
    for row in rows {
        if number_of(row.form) == number_of(form) {
            return *row;
        }
    }
    Row {
        form,
        opening: Opening::Stay,
        steps: &[],
        rest: Step::Skip,
        ending: Ending::Nothing,
    }
}

/// What is done with a form. Words, leaves, and what stands in expressions have no row of their own: nothing is named in them by rows.
pub fn row_of(form: Form) -> Row
    ensures { seen_row result ≡ row_of form }
{
    row_in(form, all_rows())
}
