//! The operators of types, as `specs/Table.antt` has them.

ghost use Rattle.std.specs.Prelude.{◌≡◌, map};
ghost use Rattle.vd_predefined.specs.Table.{operators_in};
ghost use Rattle.vd_predefined.specs.Seen.{seen_operator};

/// A type of an operand: that of the operators, of its elements, or INTEGER.
#[derive(Clone, Copy, PartialEq, Eq, Debug)]
pub enum Operand {
    Own,
    Element,
    Integer,
}

/// The type of a result.
#[derive(Clone, Copy, PartialEq, Eq, Debug)]
pub enum Outcome {
    Own,
    Element,
    Boolean,
}

/// An operator: its symbol, its operands, which are called `l` and `r`, and its result.
#[derive(Clone, Copy)]
pub struct Operator {
    pub name: &'static str,
    pub left: Operand,
    pub right: Option<Operand>,
    pub result: Outcome,
}

/// Operators that come together.
#[derive(Clone, Copy, PartialEq, Eq, Debug)]
pub enum Group {
    Equality,
    Order,
    Logic,
    Shifts,
    Joining,
    Arithmetic,
    TimeArithmetic,
    Condition,
    Matching,
    MatchingOrder,
    ArrayMatching,
    ArrayMatchingOrder,
    MixedLogic,
    Reductions,
    Logic1164,
    Xnor1164,
    Shifts1164,
}

macro_rules! operators {
    ($($name:literal $left:ident $right:expr => $result:ident;)*) => {
        &[$(Operator { name: $name, left: Operand::$left, right: $right, result: Outcome::$result },)*]
    };
}

const NONE: Option<Operand> = None;

const OWN: Option<Operand> = Some(Operand::Own);

const ELEMENT: Option<Operand> = Some(Operand::Element);

const INTEGER: Option<Operand> = Some(Operand::Integer);

/// Of every type.
const EQUALITY: &[Operator] = operators! {
    "\"=\"" Own OWN => Boolean;
    "\"/=\"" Own OWN => Boolean;
};

/// Of scalar types, and of arrays of discrete elements.
const ORDER: &[Operator] = operators! {
    "\"<\"" Own OWN => Boolean;
    "\"<=\"" Own OWN => Boolean;
    "\">\"" Own OWN => Boolean;
    "\">=\"" Own OWN => Boolean;
};

/// Of BIT and BOOLEAN, and of arrays of them.
const LOGIC: &[Operator] = operators! {
    "\"and\"" Own OWN => Own;
    "\"or\"" Own OWN => Own;
    "\"nand\"" Own OWN => Own;
    "\"nor\"" Own OWN => Own;
    "\"xor\"" Own OWN => Own;
    "\"xnor\"" Own OWN => Own;
    "\"not\"" Own NONE => Own;
};

/// Of arrays of BIT and BOOLEAN.
const SHIFTS: &[Operator] = operators! {
    "\"sll\"" Own INTEGER => Own;
    "\"srl\"" Own INTEGER => Own;
    "\"sla\"" Own INTEGER => Own;
    "\"sra\"" Own INTEGER => Own;
    "\"rol\"" Own INTEGER => Own;
    "\"ror\"" Own INTEGER => Own;
};

/// Of arrays.
const JOINING: &[Operator] = operators! {
    "\"&\"" Own OWN => Own;
    "\"&\"" Own ELEMENT => Own;
    "\"&\"" Element OWN => Own;
    "\"&\"" Element ELEMENT => Own;
};

/// Of INTEGER.
const ARITHMETIC: &[Operator] = operators! {
    "\"+\"" Own NONE => Own;
    "\"-\"" Own NONE => Own;
    "\"abs\"" Own NONE => Own;
    "\"+\"" Own OWN => Own;
    "\"-\"" Own OWN => Own;
    "\"*\"" Own OWN => Own;
    "\"/\"" Own OWN => Own;
    "\"mod\"" Own OWN => Own;
    "\"rem\"" Own OWN => Own;
    "\"**\"" Own OWN => Own;
};

/// Of TIME.
const TIME_ARITHMETIC: &[Operator] = operators! {
    "\"+\"" Own OWN => Own;
    "\"-\"" Own OWN => Own;
    "\"*\"" Own INTEGER => Own;
    "\"*\"" Integer OWN => Own;
    "\"/\"" Own INTEGER => Own;
};

/// The condition operator.
const CONDITION: &[Operator] = operators! {
    "\"??\"" Own NONE => Boolean;
};

/// Matching, of scalars.
const MATCHING: &[Operator] = operators! {
    "\"?=\"" Own OWN => Own;
    "\"?/=\"" Own OWN => Own;
};

/// Matching order, of scalars.
const MATCHING_ORDER: &[Operator] = operators! {
    "\"?<\"" Own OWN => Own;
    "\"?<=\"" Own OWN => Own;
    "\"?>\"" Own OWN => Own;
    "\"?>=\"" Own OWN => Own;
};

/// Matching, of arrays.
const ARRAY_MATCHING: &[Operator] = operators! {
    "\"?=\"" Own OWN => Element;
    "\"?/=\"" Own OWN => Element;
};

/// Matching order, of arrays.
const ARRAY_MATCHING_ORDER: &[Operator] = operators! {
    "\"?<\"" Own OWN => Element;
    "\"?<=\"" Own OWN => Element;
    "\"?>\"" Own OWN => Element;
    "\"?>=\"" Own OWN => Element;
};

/// Logical operators between an array and a value of its element type.
const MIXED_LOGIC: &[Operator] = operators! {
    "\"and\"" Own ELEMENT => Own;
    "\"and\"" Element OWN => Own;
    "\"or\"" Own ELEMENT => Own;
    "\"or\"" Element OWN => Own;
    "\"nand\"" Own ELEMENT => Own;
    "\"nand\"" Element OWN => Own;
    "\"nor\"" Own ELEMENT => Own;
    "\"nor\"" Element OWN => Own;
    "\"xor\"" Own ELEMENT => Own;
    "\"xor\"" Element OWN => Own;
    "\"xnor\"" Own ELEMENT => Own;
    "\"xnor\"" Element OWN => Own;
};

/// Logical operators that reduce an array.
const REDUCTIONS: &[Operator] = operators! {
    "\"and\"" Own NONE => Element;
    "\"or\"" Own NONE => Element;
    "\"nand\"" Own NONE => Element;
    "\"nor\"" Own NONE => Element;
    "\"xor\"" Own NONE => Element;
    "\"xnor\"" Own NONE => Element;
};

/// The logical operators of IEEE 1164 in both revisions. The 1993 side has no `xnor` there.
const LOGIC_1164: &[Operator] = operators! {
    "\"and\"" Own OWN => Own;
    "\"nand\"" Own OWN => Own;
    "\"or\"" Own OWN => Own;
    "\"nor\"" Own OWN => Own;
    "\"xor\"" Own OWN => Own;
    "\"not\"" Own NONE => Own;
};

/// The one of revision 2019.
const XNOR_1164: &[Operator] = operators! {
    "\"xnor\"" Own OWN => Own;
};

/// The shifts of IEEE 1164.
const SHIFTS_1164: &[Operator] = operators! {
    "\"sll\"" Own INTEGER => Own;
    "\"srl\"" Own INTEGER => Own;
    "\"rol\"" Own INTEGER => Own;
    "\"ror\"" Own INTEGER => Own;
};

/// The operators of a group.
pub(crate) fn operators_in(group: Group) -> &'static [Operator]
    ensures { map seen_operator result.now ≡ operators_in group }
{
    match group {
        Group::Equality => EQUALITY,
        Group::Order => ORDER,
        Group::Logic => LOGIC,
        Group::Shifts => SHIFTS,
        Group::Joining => JOINING,
        Group::Arithmetic => ARITHMETIC,
        Group::TimeArithmetic => TIME_ARITHMETIC,
        Group::Condition => CONDITION,
        Group::Matching => MATCHING,
        Group::MatchingOrder => MATCHING_ORDER,
        Group::ArrayMatching => ARRAY_MATCHING,
        Group::ArrayMatchingOrder => ARRAY_MATCHING_ORDER,
        Group::MixedLogic => MIXED_LOGIC,
        Group::Reductions => REDUCTIONS,
        Group::Logic1164 => LOGIC_1164,
        Group::Xnor1164 => XNOR_1164,
        Group::Shifts1164 => SHIFTS_1164,
    }
}
