//! In which states a tree is written. What is written of a form in a state stands in the templates.

/// What a place in a template says of the trees that stand there.
pub type State = u8;

/// The tree as it is.
pub const AS_IT_IS: State = 0;

/// An operand, or a bound of a range: in brackets, unless it is a primary.
pub const OPERAND: State = 1;

/// The left operand of `and`: without brackets also where it is an `and`.
pub const LEFT_OF_AND: State = 2;

/// The left operand of `or`.
pub const LEFT_OF_OR: State = 3;

/// The left operand of `xor`.
pub const LEFT_OF_XOR: State = 4;

/// The left operand of `xnor`.
pub const LEFT_OF_XNOR: State = 5;

/// The left operand of `+`, `-` or `&`: without brackets also where it is one of these.
pub const LEFT_OF_SUM: State = 6;

/// The left operand of `*`, `/`, `mod` or `rem`.
pub const LEFT_OF_PRODUCT: State = 7;

/// What stands behind `:=` in a declaration, if anything does.
pub const DEFAULT: State = 8;

/// What stands behind `report`, if anything does.
pub const REPORTED: State = 9;

/// What stands behind `severity`, if anything does.
pub const SEVERITY: State = 10;

/// What stands behind `on`, if anything does.
pub const WAIT_ON: State = 11;

/// What stands behind `until`, if anything does.
pub const WAIT_UNTIL: State = 12;

/// What stands behind `for` of a wait statement, if anything does.
pub const WAIT_FOR: State = 13;

/// What stands behind `when` of an exit or a next statement, if anything does.
pub const WHEN: State = 14;

/// The sensitivity list of a process, if there is one.
pub const SENSITIVITY: State = 15;

/// The architecture's name of an instance, if there is one.
pub const ARCHITECTURE_NAME: State = 16;

/// The declarations of a generate statement, if there are any.
pub const GENERATED: State = 17;

/// The word and the name at the end of an entity.
pub const END_OF_ENTITY: State = 18;

/// The word and the name at the end of an architecture.
pub const END_OF_ARCHITECTURE: State = 19;

/// The word and the name at the end of a package.
pub const END_OF_PACKAGE: State = 20;

/// The words and the name at the end of a package body.
pub const END_OF_BODY: State = 21;

/// The word and the name at the end of a function.
pub const END_OF_FUNCTION: State = 22;
