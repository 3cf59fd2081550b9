//! Tables: the productions of a grammar, and what is claimed of its nonterminals.

ghost use Rattle.std.specs.Prelude.{◌≡◌, IsTrue};
ghost use Rattle.vd_gram.specs.Claims.{is_checked};

use std::alloc::AllocError;

/// A symbol of a grammar. A number below a table's `terminals` is a terminal, `END` is the end of
/// a text, and any other is a nonterminal.
pub type Symbol = u16;

/// Some symbols.
pub type Symbols<'a> = &'a [Symbol];

/// The symbol behind the last one of a text.
pub const END: Symbol = 65535;

/// What a nonterminal may become.
#[derive(Clone, Copy, Drop)]
pub struct Production<'a> {
    pub left: Symbol,
    pub right: Symbols<'a>,
}

/// Some productions, each with its place as its number.
pub type Productions<'a> = &'a [Production<'a>];

/// What is claimed of a nonterminal: whether it can become the empty text, the symbols that its
/// texts can begin with, the symbols that can stand behind it, and a rank that shows that it has a
/// text and doesn't begin with itself.
#[derive(Clone, Copy, Drop)]
pub struct Claim<'a> {
    pub symbol: Symbol,
    pub empty: bool,
    pub first: Symbols<'a>,
    pub follow: Symbols<'a>,
    pub rank: u32,
}

/// Some claims.
pub type Claims<'a> = &'a [Claim<'a>];

/// A grammar with claims on its nonterminals. `marked` are the nonterminals whose nodes count for
/// the depth.
#[derive(Clone, Copy, Drop)]
pub struct Table<'a> {
    pub terminals: Symbol,
    pub start: Symbol,
    pub marked: Symbols<'a>,
    pub productions: Productions<'a>,
    pub claims: Claims<'a>,
}

/// A table whose claims hold together, so that one symbol tells which production comes next. Only
/// `check` makes one.
#[derive(Drop)]
pub struct CheckedTable<'a> {
    pub(crate) table: Table<'a>,
    ghost checked: { IsTrue (is_checked table) },
}

impl<'a> CheckedTable<'a> {
    /// A table whose claims are known to hold together, without a look at them.
    pub fn of(table: Table<'a>) -> CheckedTable<'a>
        requires { IsTrue (is_checked table) }
        ensures { result.table ≡ table.entry }
    {
        CheckedTable { table }
    }

    /// The table.
    pub fn table(&self) -> Table<'a>
        ensures { result ≡ self.now.table }
    {
        self.table
    }
}

/// Why a text has no derivation: no text goes on with the symbol at a place, the end being one; too
/// many marked nodes stand above one another before such a place; or memory ran out.
#[derive(Clone, Copy, Debug, PartialEq, Eq, Drop)]
pub enum ParseEnd {
    At(usize),
    TooDeep,
    Memory,
}

impl From<AllocError> for ParseEnd {
    ghost use Rattle.vd_gram.specs.declared.tables.ParseEnd.TheVariants.{Memory};

    ghost from_gives = { λ _ end. end ≡ Memory };

    fn from(_: AllocError) -> Self {
        ParseEnd::Memory
    }
}
