//! What is done with the parts of a form.

ghost use Rattle.std.specs.Prelude.{◌≡◌};
ghost use Rattle.vd_name_rows.specs.Rows.{class_of};

use vd_declarations::Class;
use vd_forms::Form;

/// What is wanted of an expression.
#[derive(Clone, Copy)]
pub enum Want {
    /// A value of the type at hand.
    AtHand,
    /// A value of the type of this number.
    Given(u32),
    Condition,
    /// Any value.
    Free,
    /// A choice of the selector's type.
    Choice,
    /// A range of the type at hand.
    Range,
    /// A discrete range of the index type of the type at hand.
    Index,
    /// A discrete range of any type.
    AnyRange,
}

/// What is declared with a type at hand.
#[derive(Clone, Copy)]
pub enum Object {
    GenericConstant,
    Parameter,
    Constant,
    Signal,
    Variable,
    RecordElement,
    LoopParameter,
    GenerateParameter,
}

impl Object {
    /// What kind of declaration it is.
    pub fn class(self) -> Class
        ensures { result ≡ class_of self }
    {
        match self {
            Object::GenericConstant => Class::GenericConstant,
            Object::Parameter => Class::Parameter,
            Object::Constant => Class::Constant,
            Object::Signal => Class::Signal,
            Object::Variable => Class::Variable,
            Object::RecordElement => Class::RecordElement,
            Object::LoopParameter => Class::LoopParameter,
            Object::GenerateParameter => Class::GenerateParameter,
        }
    }
}

/// What is done with a tree.
#[derive(Clone, Copy)]
pub enum Step {
    /// A word, or a closing name: nothing is named.
    Skip,
    /// By its own row.
    Look,
    /// The same in the region that is open.
    Within,
    /// An expression.
    Expression(Want),
    /// A second range of an index constraint.
    Surplus,
    /// An expression of the type at hand, or by its own row.
    Chosen,
    /// The name of what is declared at the end.
    Word,
    /// The same where the grammar has a selected name.
    SimpleName,
    /// Names of a list, which get the numbers that come next.
    Names,
    /// A label, which is declared at its colon.
    Label,
    /// The label of a loop that is left or goes on.
    LabelName,
    /// The mark of a type or subtype.
    Mark,
    /// The type of a result, with which the header of a body ends.
    Result,
    /// The mark of the index of any bounds.
    IndexMark,
    /// A target, whose type is at hand then.
    Target,
    Selector,
    /// The range of a loop or generate, whose parameter is declared behind it.
    Parameter(Object),
    /// The name of a library.
    LibraryWord,
    /// The name of what is used.
    UseName,
    /// The name of a context.
    ContextName,
    /// The name of the entity of an architecture.
    EntityWord,
    /// The index of an array type.
    ArrayIndex,
    /// The name of a view.
    ViewName,
    /// `'converse`.
    Converse,
    /// The subtype behind `of`.
    ViewSubtype,
    /// Names of elements.
    ElementNames,
    /// The package that is instantiated.
    GenericPackage,
    /// The function that is instantiated.
    GenericFunctionName,
    InstanceEntity,
    InstanceArchitecture,
    /// A generic map.
    Generics,
    /// A port map.
    Ports,
}

/// What a form opens in front of its parts.
#[derive(Clone, Copy)]
pub enum Opening {
    Stay,
    Nested,
    OfHeader,
    OfUnit,
    OfEntity,
    OfArchitecture,
    OfPackage,
    OfPackageBody,
    OfType,
    OfSelection,
    OfReturn,
    OfElements,
    OfLabel,
    OfInstance,
    InPorts,
}

/// What a form declares at its end.
#[derive(Clone, Copy)]
pub enum Ending {
    Nothing,
    /// The node gets what is declared first inside it.
    First,
    /// The node gets the type at hand.
    Typed,
    /// A subtype indication.
    Indicated,
    /// A generic clause.
    ClauseEnds,
    /// Objects, whose names stand in the part of this number.
    Objects { object: Object, names: u32 },
    AllPorts,
    NewType,
    NewSubtype,
    NewView,
    NewGenericType,
    NewGenericFunction,
    NewFunction,
    BodyEnds,
    NewFunctionInstance,
    UnitEnds,
    NewEntity,
    NewArchitecture,
    NewPackage,
    PackageBodyEnds,
    NewPackageInstance,
    NewContext,
}

/// What is done with a form: what it opens, a step for each of its first parts, one for all others, and what it declares at its end.
#[derive(Clone, Copy)]
pub struct Row {
    pub form: Form,
    pub opening: Opening,
    pub steps: &'static [Step],
    pub rest: Step,
    pub ending: Ending,
}
