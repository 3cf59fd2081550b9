//! A grammar of sums and products with brackets.

ghost use Rattle.std.specs.Prelude.{IsTrue};
ghost use Rattle.vd_gram.specs.Claims.{is_checked};
ghost use Rattle.vd_gram.specs.Same.{IsSameGrammar};
ghost use Rattle.vd_bench.specs.Arithmetic.{arithmetic_grammar};

use vd_gram::{Claim, END, Production, Symbol, Table};

pub(crate) const NUMBER: Symbol = 0;

pub(crate) const PLUS: Symbol = 1;

const TIMES: Symbol = 2;

pub(crate) const OPEN: Symbol = 3;

pub(crate) const CLOSE: Symbol = 4;

const SUM: Symbol = 5;

const ADDENDS: Symbol = 6;

const PRODUCT: Symbol = 7;

const FACTORS: Symbol = 8;

const FACTOR: Symbol = 9;

/// A sum is a product and then addends, each with a plus sign in front; a product is a factor and
/// then factors; and a factor is a number or a sum in brackets. Sums count for the depth.
pub(crate) const ARITHMETIC: Table<'static> = Table {
    terminals: 5,
    start: SUM,
    marked: &[SUM],
    productions: &[
        Production {
            left: SUM,
            right: &[PRODUCT, ADDENDS],
        },
        Production {
            left: ADDENDS,
            right: &[PLUS, PRODUCT, ADDENDS],
        },
        Production {
            left: ADDENDS,
            right: &[],
        },
        Production {
            left: PRODUCT,
            right: &[FACTOR, FACTORS],
        },
        Production {
            left: FACTORS,
            right: &[TIMES, FACTOR, FACTORS],
        },
        Production {
            left: FACTORS,
            right: &[],
        },
        Production {
            left: FACTOR,
            right: &[NUMBER],
        },
        Production {
            left: FACTOR,
            right: &[OPEN, SUM, CLOSE],
        },
    ],
    claims: &[
        Claim {
            symbol: SUM,
            empty: false,
            first: &[NUMBER, OPEN],
            follow: &[CLOSE, END],
            rank: 2,
        },
        Claim {
            symbol: ADDENDS,
            empty: true,
            first: &[PLUS],
            follow: &[CLOSE, END],
            rank: 0,
        },
        Claim {
            symbol: PRODUCT,
            empty: false,
            first: &[NUMBER, OPEN],
            follow: &[PLUS, CLOSE, END],
            rank: 1,
        },
        Claim {
            symbol: FACTORS,
            empty: true,
            first: &[TIMES],
            follow: &[PLUS, CLOSE, END],
            rank: 0,
        },
        Claim {
            symbol: FACTOR,
            empty: false,
            first: &[NUMBER, OPEN],
            follow: &[TIMES, PLUS, CLOSE, END],
            rank: 0,
        },
    ],
};

/// The table, which holds together, as `check` finds.
pub(crate) fn arithmetic() -> Table<'static>
    ensures checked { IsTrue (is_checked result) }
    ensures grammar { IsSameGrammar result arithmetic_grammar }
{
    ARITHMETIC
}
