//! The packages `std.standard` and `ieee.std_logic_1164` as far as the profile takes them, as `specs/Table.antt` has them.

ghost use Rattle.std.specs.Prelude.{◌≡◌, map};
ghost use Rattle.vd_predefined.specs.Table.{standard_types, standard_operators, logic_types, logic_operators, groups_of_enumerations, groups_of_others, groups_of_logic_arrays, groups_of_discrete_arrays, groups_of_other_arrays};
ghost use Rattle.vd_predefined.specs.Seen.{seen_row};

use crate::numbers::*;
use crate::operators::Group::{self, *};
use crate::rows::Line::*;
use crate::rows::Origin::*;
use crate::rows::Revisions::*;
use crate::rows::Row;

/// The literals of CHARACTER.
const CHARACTERS: &[&str] = &[
    "nul", "soh", "stx", "etx", "eot", "enq", "ack", "bel", "bs", "ht", "lf", "vt", "ff", "cr",
    "so", "si", "dle", "dc1", "dc2", "dc3", "dc4", "nak", "syn", "etb", "can", "em", "sub", "esc",
    "fsp", "gsp", "rsp", "usp", "' '", "'!'", "'\"'", "'#'", "'$'", "'%'", "'&'", "'''", "'('",
    "')'", "'*'", "'+'", "','", "'-'", "'.'", "'/'", "'0'", "'1'", "'2'", "'3'", "'4'", "'5'",
    "'6'", "'7'", "'8'", "'9'", "':'", "';'", "'<'", "'='", "'>'", "'?'", "'@'", "'A'", "'B'",
    "'C'", "'D'", "'E'", "'F'", "'G'", "'H'", "'I'", "'J'", "'K'", "'L'", "'M'", "'N'", "'O'",
    "'P'", "'Q'", "'R'", "'S'", "'T'", "'U'", "'V'", "'W'", "'X'", "'Y'", "'Z'", "'['", "'\\'",
    "']'", "'^'", "'_'", "'`'", "'a'", "'b'", "'c'", "'d'", "'e'", "'f'", "'g'", "'h'", "'i'",
    "'j'", "'k'", "'l'", "'m'", "'n'", "'o'", "'p'", "'q'", "'r'", "'s'", "'t'", "'u'", "'v'",
    "'w'", "'x'", "'y'", "'z'", "'{'", "'|'", "'}'", "'~'", "del",
];

const STANDARD_TYPES: &[Row] = &[
    Row(Both, Enumeration("boolean", &["false", "true"])),
    Row(Both, Enumeration("bit", &["'0'", "'1'"])),
    Row(Both, Enumeration("character", CHARACTERS)),
    Row(
        Both,
        Enumeration("severity_level", &["note", "warning", "error", "failure"]),
    ),
    Row(Both, Integer("integer")),
    Row(
        Both,
        Physical("time", &["fs", "ps", "ns", "us", "ms", "sec", "min", "hr"]),
    ),
    Row(Both, Subtype("delay_length", TIME, TIME)),
    Row(Both, Subtype("natural", INTEGER, INTEGER)),
    Row(Both, Subtype("positive", INTEGER, INTEGER)),
    Row(Both, Array("string", CHARACTER, CHARACTER)),
    Row(Both, Array("bit_vector", BIT, BIT)),
];

const STANDARD_OPERATORS: &[Row] = &[
    Row(
        Both,
        Operators(Brought, BOOLEAN, None, &[Equality, Order, Logic]),
    ),
    Row(
        Both,
        Operators(Brought, BIT, None, &[Equality, Order, Logic]),
    ),
    Row(
        Both,
        Operators(Brought, CHARACTER, None, &[Equality, Order]),
    ),
    Row(
        Both,
        Operators(Brought, SEVERITY_LEVEL, None, &[Equality, Order]),
    ),
    Row(
        Both,
        Operators(Brought, INTEGER, None, &[Equality, Order, Arithmetic]),
    ),
    Row(
        Both,
        Operators(Brought, TIME, None, &[Equality, Order, TimeArithmetic]),
    ),
    Row(
        Both,
        Operators(
            Brought,
            STRING,
            Some(CHARACTER),
            &[Equality, Order, Joining],
        ),
    ),
    Row(
        Both,
        Operators(
            Brought,
            BIT_VECTOR,
            Some(BIT),
            &[Equality, Order, Logic, Shifts, Joining],
        ),
    ),
    Row(
        Only2019,
        Operators(Brought, BIT, None, &[Condition, Matching, MatchingOrder]),
    ),
    Row(
        Only2019,
        Operators(
            Brought,
            BIT_VECTOR,
            Some(BIT),
            &[ArrayMatching, MixedLogic, Reductions],
        ),
    ),
    Row(
        Only2019,
        Function(Brought, "to_string", "value", BOOLEAN, STRING),
    ),
    Row(
        Only2019,
        Function(Brought, "to_string", "value", INTEGER, STRING),
    ),
];

const LOGIC_TYPES: &[Row] = &[
    Row(
        Both,
        Enumeration(
            "std_ulogic",
            &[
                "'U'", "'X'", "'0'", "'1'", "'Z'", "'W'", "'L'", "'H'", "'-'",
            ],
        ),
    ),
    Row(Both, Array("std_ulogic_vector", STD_ULOGIC, STD_ULOGIC)),
    Row(Both, Subtype("std_logic", STD_ULOGIC, STD_ULOGIC)),
    Row(
        Only2019,
        Subtype("std_logic_vector", STD_ULOGIC_VECTOR, STD_ULOGIC_VECTOR),
    ),
    Row(Only1993, Array("std_logic_vector", STD_ULOGIC, STD_LOGIC)),
    Row(Both, Subtype("x01", STD_ULOGIC, STD_ULOGIC)),
    Row(Both, Subtype("x01z", STD_ULOGIC, STD_ULOGIC)),
    Row(Both, Subtype("ux01", STD_ULOGIC, STD_ULOGIC)),
    Row(Both, Subtype("ux01z", STD_ULOGIC, STD_ULOGIC)),
];

const LOGIC_OPERATORS: &[Row] = &[
    Row(
        Both,
        Operators(Brought, STD_ULOGIC, None, &[Equality, Order]),
    ),
    Row(
        Both,
        Operators(
            Brought,
            STD_ULOGIC_VECTOR,
            Some(STD_ULOGIC),
            &[Equality, Order, Joining],
        ),
    ),
    Row(
        Only1993,
        Operators(
            Brought,
            STD_LOGIC_VECTOR,
            Some(STD_ULOGIC),
            &[Equality, Order, Joining],
        ),
    ),
    Row(
        Only2019,
        Operators(Brought, STD_ULOGIC, None, &[Matching, MatchingOrder]),
    ),
    Row(
        Only2019,
        Operators(
            Brought,
            STD_ULOGIC_VECTOR,
            Some(STD_ULOGIC),
            &[ArrayMatching, ArrayMatchingOrder],
        ),
    ),
    Row(
        Only2019,
        Function(Brought, "to_string", "value", STD_ULOGIC, STRING),
    ),
    Row(
        Only2019,
        Function(Brought, "to_string", "value", STD_ULOGIC_VECTOR, STRING),
    ),
    Row(Both, Operators(Declared, STD_ULOGIC, None, &[Logic1164])),
    Row(
        Both,
        Operators(Declared, STD_ULOGIC_VECTOR, None, &[Logic1164]),
    ),
    Row(
        Only1993,
        Operators(Declared, STD_LOGIC_VECTOR, None, &[Logic1164]),
    ),
    Row(
        Only2019,
        Operators(Declared, STD_ULOGIC, None, &[Xnor1164, Condition]),
    ),
    Row(
        Only2019,
        Operators(
            Declared,
            STD_ULOGIC_VECTOR,
            Some(STD_ULOGIC),
            &[Xnor1164, MixedLogic, Reductions, Shifts1164],
        ),
    ),
    Row(
        Both,
        Function(Declared, "rising_edge", "s", STD_ULOGIC, BOOLEAN),
    ),
    Row(
        Both,
        Function(Declared, "falling_edge", "s", STD_ULOGIC, BOOLEAN),
    ),
];

/// The types of `std.standard`.
#[tactic(auto, unfolding(crate::specs::Table::standard_types))]
pub(crate) fn standard_types() -> &'static [Row]
    ensures { map seen_row result.now ≡ standard_types }
{
    STANDARD_TYPES
}

/// Its operators and functions.
#[tactic(auto, unfolding(crate::specs::Table::standard_operators))]
pub(crate) fn standard_operators() -> &'static [Row]
    ensures { map seen_row result.now ≡ standard_operators }
{
    STANDARD_OPERATORS
}

/// The types of `ieee.std_logic_1164`.
#[tactic(auto, unfolding(crate::specs::Table::logic_types))]
pub(crate) fn logic_types() -> &'static [Row]
    ensures { map seen_row result.now ≡ logic_types }
{
    LOGIC_TYPES
}

/// Its operators and functions.
#[tactic(auto, unfolding(crate::specs::Table::logic_operators))]
pub(crate) fn logic_operators() -> &'static [Row]
    ensures { map seen_row result.now ≡ logic_operators }
{
    LOGIC_OPERATORS
}

/// The groups of enumeration types.
pub(crate) const OF_ENUMERATIONS: &[Group] = &[Equality, Order];

/// The groups of records, and of types that are generics.
pub(crate) const OF_OTHERS: &[Group] = &[Equality];

/// The groups of arrays of BIT and BOOLEAN.
pub(crate) const OF_LOGIC_ARRAYS: &[Group] = &[Equality, Order, Logic, Shifts, Joining];

/// The groups of arrays of other scalars of a discrete type.
pub(crate) const OF_DISCRETE_ARRAYS: &[Group] = &[Equality, Order, Joining];

/// The groups of other arrays.
pub(crate) const OF_OTHER_ARRAYS: &[Group] = &[Equality, Joining];
