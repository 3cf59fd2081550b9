//! The marks that are given.

ghost use Rattle.std.specs.Prelude.{◌≡◌, ◌∷◌, [], IfOk, List, OnOk, map, ℕ};
ghost use Rattle.vd_environments.specs.Environments.{Indicated};
ghost use Rattle.vd_forest.specs.Store.{Extends};
ghost use Rattle.vd_value_rules.specs.Made.{Indicates};
ghost use Rattle.vd_known_designs.specs.Marks.{HasLiterals, indicated_by, mark_of, marks_known};
ghost use Rattle.vd_known_designs.specs.Known.{AreKnown};
ghost use Rattle.vd_meaning.specs.Given.{marks as given_marks};
ghost use Rattle.vd_meaning.specs.Tables.{Table};
ghost use Rattle.vd_value_rules.specs.Knowledge.{nothing_known};

use crate::literals::LiteralLists;
use crate::literals::Literals::{self, *};
use crate::marks::Sort::*;
use crate::{KnownTable, SubtypeTables};
use std::alloc::{AllocError, Global};
use vd_composites::{Bounds, ScalarSubtype, ScalarType};
use vd_predefined::numbers::*;
use vd_value_rules::StaticSort;

/// What a mark stands for.
#[derive(Clone, Copy)]
pub(crate) enum Sort {
    /// A scalar subtype, the literals of its type, and whether it is resolved.
    Scalar(ScalarSubtype, Literals, bool),
    /// Arrays of any bounds, by their index and the subtype of their elements.
    AnyArray(ScalarSubtype, ScalarSubtype, Literals, bool),
}

/// A mark by its number.
#[derive(Clone, Copy)]
pub(crate) struct Mark(u32, Sort);

const INTEGERS: ScalarSubtype = ScalarSubtype {
    of_type: ScalarType::Integers,
    range: Bounds {
        left: -2147483647,
        right: 2147483647,
        down: false,
    },
};

const TIMES: ScalarSubtype = ScalarSubtype {
    of_type: ScalarType::Times,
    range: Bounds {
        left: 0,
        right: i64::MAX,
        down: false,
    },
};

/// Whole numbers from 0 and from 1 on.
const NATURALS: ScalarSubtype = ScalarSubtype {
    of_type: ScalarType::Integers,
    range: Bounds {
        left: 0,
        right: 2147483647,
        down: false,
    },
};

const POSITIVES: ScalarSubtype = ScalarSubtype {
    of_type: ScalarType::Integers,
    range: Bounds {
        left: 1,
        right: 2147483647,
        down: false,
    },
};

/// Enumeration types of two, four and 128 literals.
const TWO: ScalarSubtype = ScalarSubtype {
    of_type: ScalarType::Enumeration(2),
    range: Bounds {
        left: 0,
        right: 1,
        down: false,
    },
};

const FOUR: ScalarSubtype = ScalarSubtype {
    of_type: ScalarType::Enumeration(4),
    range: Bounds {
        left: 0,
        right: 3,
        down: false,
    },
};

const ASCII: ScalarSubtype = ScalarSubtype {
    of_type: ScalarType::Enumeration(128),
    range: Bounds {
        left: 0,
        right: 127,
        down: false,
    },
};

/// The literals of STD_ULOGIC, all and some of them.
const LOGIC: ScalarSubtype = ScalarSubtype {
    of_type: ScalarType::Enumeration(9),
    range: Bounds {
        left: 0,
        right: 8,
        down: false,
    },
};

const FROM_X_TO_1: ScalarSubtype = ScalarSubtype {
    of_type: ScalarType::Enumeration(9),
    range: Bounds {
        left: 1,
        right: 3,
        down: false,
    },
};

const FROM_X_TO_Z: ScalarSubtype = ScalarSubtype {
    of_type: ScalarType::Enumeration(9),
    range: Bounds {
        left: 1,
        right: 4,
        down: false,
    },
};

const FROM_U_TO_1: ScalarSubtype = ScalarSubtype {
    of_type: ScalarType::Enumeration(9),
    range: Bounds {
        left: 0,
        right: 3,
        down: false,
    },
};

const FROM_U_TO_Z: ScalarSubtype = ScalarSubtype {
    of_type: ScalarType::Enumeration(9),
    range: Bounds {
        left: 0,
        right: 4,
        down: false,
    },
};

const MARKS: &[Mark] = &[
    Mark(BOOLEAN, Scalar(TWO, Truths, false)),
    Mark(BIT, Scalar(TWO, Bits, false)),
    Mark(CHARACTER, Scalar(ASCII, Characters, false)),
    Mark(SEVERITY_LEVEL, Scalar(FOUR, Severities, false)),
    Mark(INTEGER, Scalar(INTEGERS, Numbers, false)),
    Mark(TIME, Scalar(TIMES, Numbers, false)),
    Mark(DELAY_LENGTH, Scalar(TIMES, Numbers, false)),
    Mark(NATURAL, Scalar(NATURALS, Numbers, false)),
    Mark(POSITIVE, Scalar(POSITIVES, Numbers, false)),
    Mark(STRING, AnyArray(POSITIVES, ASCII, Characters, false)),
    Mark(BIT_VECTOR, AnyArray(NATURALS, TWO, Bits, false)),
    Mark(STD_ULOGIC, Scalar(LOGIC, Logics, false)),
    Mark(STD_ULOGIC_VECTOR, AnyArray(NATURALS, LOGIC, Logics, false)),
    Mark(STD_LOGIC, Scalar(LOGIC, Logics, true)),
    Mark(STD_LOGIC_VECTOR, AnyArray(NATURALS, LOGIC, Logics, true)),
    Mark(X01, Scalar(FROM_X_TO_1, Logics, true)),
    Mark(X01Z, Scalar(FROM_X_TO_Z, Logics, true)),
    Mark(UX01, Scalar(FROM_U_TO_1, Logics, true)),
    Mark(UX01Z, Scalar(FROM_U_TO_Z, Logics, true)),
];

/// The marks in the order of their numbers.
fn marks() -> &'static [Mark]
    ensures { map mark_of result.now ≡ given_marks }
{
    MARKS
}

/// A subtype.
fn add_subtype(
    subtypes: &mut SubtypeTables,
    lists: &LiteralLists,
    sort: Sort,
) -> Result<u32, AllocError>
    requires { HasLiterals subtypes.old lists.now }
    ensures indicates { IfOk result (λ number. Indicates subtypes.new number (indicated_by sort)) }
    ensures extends { Extends subtypes.old subtypes.new }
{
    let always = StaticSort::always();
    match sort {
        Scalar(subtype, literals, is_resolved) => {
            let texts = lists.number(literals);
            subtypes.scalar_subtype(subtype, texts, is_resolved, always)
        }
        AnyArray(index, subtype, literals, is_resolved) => {
            let texts = lists.number(literals);
            let element = subtypes.scalar_subtype(subtype, texts, is_resolved, always)?;
            subtypes.array(index, None, always, 0, element)
        }
    }
}

/// One mark more.
fn set_mark(table: &mut KnownTable<'_>, lists: &LiteralLists, mark: Mark) -> Result<(), AllocError>
    requires { HasLiterals table.old.subtypes lists.now }
    ensures known { (t : Table) (ms : List (ℕ × Indicated)) → AreKnown t table.old (marks_known ms ∷ [])
        → OnOk result (AreKnown t table.new (marks_known (mark_of mark ∷ ms) ∷ [])) }
    ensures literals { HasLiterals table.new.subtypes lists.now }
{
    let subtype = add_subtype(&mut table.subtypes, lists, mark.1)?;
    table.set_type(mark.0, subtype, subtype)
}

/// The table of what is known where a design begins.
pub fn given_table<'a>(alloc: Global) -> Result<KnownTable<'a>, AllocError>
    ensures { (t : Table) → IfOk result (λ table. AreKnown t table (nothing_known ∷ [])) }
{
    let mut table = KnownTable::new(alloc);
    let lists = LiteralLists::add_to(&mut table.subtypes)?;
    let marks = marks();
    let mut left = marks.len();
    while left > 0 {
        left -= 1;
        set_mark(&mut table, &lists, marks[left])?;
    }
    Ok(table)
}
