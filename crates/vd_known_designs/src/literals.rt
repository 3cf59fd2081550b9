//! The literals of the enumeration types that are given.

ghost use Rattle.std.specs.Prelude.{IfOk, List, map};
ghost use Rattle.vd_forest.specs.Forest.{Forest};
ghost use Rattle.vd_forest.specs.Store.{Extends};
ghost use Rattle.vd_value_rules.specs.declared.forms.IndicatedForm.{IndicatedForm as Form};
ghost use Rattle.vd_known_designs.specs.Marks.{HasLiterals, HasTexts, literals_of};

use crate::SubtypeTables;
use std::alloc::AllocError;

/// Whose literals a scalar type has.
#[derive(Clone, Copy)]
pub(crate) enum Literals {
    /// A numeric type has none.
    Numbers,
    Truths,
    Bits,
    Characters,
    Severities,
    Logics,
}

/// The literals as lists of trees, by their numbers.
#[derive(Clone, Copy)]
pub(crate) struct LiteralLists {
    truths: u32,
    bits: u32,
    characters: u32,
    severities: u32,
    logics: u32,
}

const TRUTHS: &[&str] = &["false", "true"];

const BITS: &[&str] = &["'0'", "'1'"];

const CHARACTERS: &[&str] = &[
    "nul", "soh", "stx", "etx", "eot", "enq", "ack", "bel", "bs", "ht", "lf", "vt", "ff", "cr",
    "so", "si", "dle", "dc1", "dc2", "dc3", "dc4", "nak", "syn", "etb", "can", "em", "sub", "esc",
    "fsp", "gsp", "rsp", "usp", "' '", "'!'", "'\"'", "'#'", "'$'", "'%'", "'&'", "'''", "'('",
    "')'", "'*'", "'+'", "','", "'-'", "'.'", "'/'", "'0'", "'1'", "'2'", "'3'", "'4'", "'5'",
    "'6'", "'7'", "'8'", "'9'", "':'", "';'", "'<'", "'='", "'>'", "'?'", "'@'", "'A'", "'B'",
    "'C'", "'D'", "'E'", "'F'", "'G'", "'H'", "'I'", "'J'", "'K'", "'L'", "'M'", "'N'", "'O'",
    "'P'", "'Q'", "'R'", "'S'", "'T'", "'U'", "'V'", "'W'", "'X'", "'Y'", "'Z'", "'['", "'\\'",
    "']'", "'^'", "'_'", "'`'", "'a'", "'b'", "'c'", "'d'", "'e'", "'f'", "'g'", "'h'", "'i'",
    "'j'", "'k'", "'l'", "'m'", "'n'", "'o'", "'p'", "'q'", "'r'", "'s'", "'t'", "'u'", "'v'",
    "'w'", "'x'", "'y'", "'z'", "'{'", "'|'", "'}'", "'~'", "del",
];

const SEVERITIES: &[&str] = &["note", "warning", "error", "failure"];

const LOGICS: &[&str] = &[
    "'U'", "'X'", "'0'", "'1'", "'Z'", "'W'", "'L'", "'H'", "'-'",
];

/// Some literals in their order.
fn add_texts(subtypes: &mut SubtypeTables, texts: &[&str]) -> Result<u32, AllocError>
    ensures texts { IfOk result (λ number. HasTexts subtypes.new number (map (λ text. text.now) texts.now)) }
    ensures extends { Extends subtypes.old subtypes.new }
{
    let mut made = 0;
    for text in texts {
        made = subtypes.literal(text.as_bytes(), made)?;
    }
    subtypes.turned(made)
}

impl LiteralLists {
    /// All of them.
    pub(crate) fn add_to(subtypes: &mut SubtypeTables) -> Result<LiteralLists, AllocError>
        ensures has { IfOk result (λ lists. HasLiterals subtypes.new lists) }
        ensures extends { Extends subtypes.old subtypes.new }
    {
        let truths = add_texts(subtypes, TRUTHS)?;
        let bits = add_texts(subtypes, BITS)?;
        let characters = add_texts(subtypes, CHARACTERS)?;
        let severities = add_texts(subtypes, SEVERITIES)?;
        let logics = add_texts(subtypes, LOGICS)?;
        Ok(LiteralLists {
            truths,
            bits,
            characters,
            severities,
            logics,
        })
    }

    /// The number of the literals of a type.
    pub(crate) fn number(&self, literals: Literals) -> u32
        ensures { (store : List (Forest Form)) → HasLiterals store self.now → HasTexts store result (literals_of literals) }
    {
        match literals {
            Literals::Numbers => 0,
            Literals::Truths => self.truths,
            Literals::Bits => self.bits,
            Literals::Characters => self.characters,
            Literals::Severities => self.severities,
            Literals::Logics => self.logics,
        }
    }
}
