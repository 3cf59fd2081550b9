//! What a table claims of its symbols.

ghost use Rattle.std.specs.Prelude.{◌≡◌, ◌||◌, nat_eq};
ghost use Rattle.std.specs.List.{list_all, list_any};
ghost use Rattle.vd_gram.specs.Claims.{has, is_terminal, is_nonterminal, claim_of, can_be_empty, follow_of, first_of, firsts_of, signs_of, can_all_be_empty, has_lower_rank};

use crate::tables::{Claim, END, Production, Symbol, Symbols, Table};

/// Whether the symbol is one of these.
pub(crate) fn has(symbols: &[Symbol], symbol: Symbol) -> bool
    ensures { result ≡ has symbols.now symbol }
{
    symbols.contains(&symbol)
}

pub(crate) fn is_terminal(table: &Table<'_>, symbol: Symbol) -> bool
    ensures { result ≡ is_terminal table.now symbol }
{
    symbol < table.terminals
}

pub(crate) fn is_nonterminal(table: &Table<'_>, symbol: Symbol) -> bool
    ensures { result ≡ is_nonterminal table.now symbol }
{
    !is_terminal(table, symbol) && symbol != END
}

/// The claim of a symbol, if it has one.
pub(crate) fn claim_of<'a>(table: &Table<'a>, symbol: Symbol) -> Option<Claim<'a>>
    ensures { result ≡ claim_of table.now symbol }
{
    table
        .claims
        .iter()
        .copied()
        .find(|claim| claim.symbol == symbol)
}

/// Whether the symbol can become the empty text.
pub(crate) fn can_be_empty(table: &Table<'_>, symbol: Symbol) -> bool
    ensures { result ≡ can_be_empty table.now symbol }
{
    if is_terminal(table, symbol) {
        return false;
    }
    match claim_of(table, symbol) {
        None => false,
        Some(claim) => claim.empty,
    }
}

/// Whether each of these symbols can.
pub(crate) fn can_all_be_empty(table: &Table<'_>, symbols: &[Symbol]) -> bool
    ensures { result ≡ can_all_be_empty table.now symbols.now }
{
    symbols.iter().all(|symbol| can_be_empty(table, *symbol))
}

/// The symbols that can stand behind a symbol.
pub(crate) fn follow_of<'a>(table: &Table<'a>, symbol: Symbol) -> Symbols<'a>
    ensures { result.now ≡ follow_of table.now symbol }
{
    match claim_of(table, symbol) {
        None => &[],
        Some(claim) => claim.follow,
    }
}

/// Whether texts of the first symbol can begin with the second.
pub(crate) fn can_begin(table: &Table<'_>, symbol: Symbol, first: Symbol) -> bool
    ensures { result ≡ has (first_of table.now symbol) first }
{
    if is_terminal(table, symbol) {
        return symbol == first;
    }
    match claim_of(table, symbol) {
        None => false,
        Some(claim) => has(claim.first, first),
    }
}

/// Whether texts of some symbols can begin with a symbol.
#[tactic(auto, using(crate::proofs::ClaimLemmas::begin_steps))]
pub(crate) fn can_all_begin(table: &Table<'_>, symbols: &[Symbol], first: Symbol) -> bool
    ensures { result ≡ has (firsts_of table.now symbols.now) first }
{
    for symbol in symbols {
        if can_begin(table, *symbol, first) {
            return true;
        }
        if !can_be_empty(table, *symbol) {
            return false;
        }
    }
    false
}

/// Whether a symbol tells that a production comes next.
#[tactic(auto, using(crate::proofs::ClaimLemmas::has_append))]
pub(crate) fn is_sign(table: &Table<'_>, production: &Production<'_>, symbol: Symbol) -> bool
    ensures { result ≡ has (signs_of table.now production.now) symbol }
{
    can_all_begin(table, production.right, symbol)
        || can_all_be_empty(table, production.right)
            && has(follow_of(table, production.left), symbol)
}

/// Whether the symbol is a nonterminal of a lower rank.
pub(crate) fn has_lower_rank(table: &Table<'_>, rank: u32, symbol: Symbol) -> bool
    ensures { result ≡ has_lower_rank table.now rank symbol }
{
    if !is_nonterminal(table, symbol) {
        return false;
    }
    match claim_of(table, symbol) {
        None => false,
        Some(claim) => claim.rank < rank,
    }
}
