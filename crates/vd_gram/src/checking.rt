//! Checking a table.

ghost use Rattle.std.specs.Prelude.{◌≡◌, IsTrue, IfOk, IfErr};
ghost use Rattle.std.specs.List.{list_all};
ghost use Rattle.vd_gram.specs.Claims.{has, is_within, is_apart, firsts_of, first_of, signs_of, is_claimed, is_known, is_known_or_end, claim_of, first_claim, follow_is_closed, follows_are_closed, sets_are_closed, is_closed_under, claim_is_known, other_names_are_claimed, start_is_claimed, claims_are_closed, is_not_left_recursive, has_text, fronts_are_lower, is_shown, rank_shows, has_empty, ranks_show, are_told_apart, all_told_apart, is_checked};

use crate::claims::{
    can_all_be_empty, can_be_empty, can_begin, claim_of, follow_of, has, has_lower_rank,
    is_nonterminal, is_sign, is_terminal,
};
use crate::tables::{CheckedTable, Claim, END, Production, Symbol, Table};

/// Whether the symbol is a nonterminal with one claim.
fn is_claimed(table: &Table<'_>, symbol: Symbol) -> bool
    ensures { result ≡ is_claimed table.now symbol }
{
    is_nonterminal(table, symbol)
        && table
            .claims
            .iter()
            .filter(|claim| claim.symbol == symbol)
            .count()
            == 1
}

fn is_known(table: &Table<'_>, symbol: Symbol) -> bool
    ensures { result ≡ is_known table.now symbol }
{
    is_terminal(table, symbol) || is_claimed(table, symbol)
}

/// Whether each of the first symbols is one of the second.
fn is_within(symbols: &[Symbol], set: &[Symbol]) -> bool
    ensures { result ≡ is_within symbols.now set.now }
{
    symbols.iter().all(|symbol| has(set, *symbol))
}

/// Whether each symbol that the texts of a symbol can begin with is one of these.
fn first_is_within(table: &Table<'_>, symbol: Symbol, set: &[Symbol]) -> bool
    ensures { result ≡ is_within (first_of table.now symbol) set.now }
{
    if is_terminal(table, symbol) {
        return has(set, symbol);
    }
    match claim_of(table, symbol) {
        None => true,
        Some(claim) => is_within(claim.first, set),
    }
}

/// Whether each symbol that the texts of some symbols can begin with is one of these.
#[tactic(auto, using(crate::proofs::ClaimLemmas::all_steps))]
fn firsts_are_within(table: &Table<'_>, symbols: &[Symbol], set: &[Symbol]) -> bool
    ensures { result ≡ is_within (firsts_of table.now symbols.now) set.now }
{
    for symbol in symbols {
        if !first_is_within(table, *symbol, set) {
            return false;
        }
        if !can_be_empty(table, *symbol) {
            return true;
        }
    }
    true
}

/// Whether what follows the first of these symbols is claimed to follow it.
fn follow_is_closed(table: &Table<'_>, after: &[Symbol], symbol: Symbol, rest: &[Symbol]) -> bool
    ensures { result ≡ follow_is_closed table.now after.now symbol rest.now }
{
    let follow = follow_of(table, symbol);
    is_terminal(table, symbol)
        || firsts_are_within(table, rest, follow)
            && (!can_all_be_empty(table, rest) || is_within(after, follow))
}

/// Whether what follows each of these symbols is claimed to follow it.
#[tactic(auto, using(crate::proofs::ClaimLemmas::follows_steps))]
fn follows_are_closed(table: &Table<'_>, after: &[Symbol], symbols: &[Symbol]) -> bool
    ensures { result ≡ follows_are_closed table.now after.now symbols.now }
{
    for (index, symbol) in symbols.iter().enumerate() {
        if !follow_is_closed(table, after, *symbol, &symbols[index + 1..]) {
            return false;
        }
    }
    true
}

fn are_known(table: &Table<'_>, symbols: &[Symbol]) -> bool
    ensures { result ≡ list_all (is_known table.now) symbols.now }
{
    symbols.iter().all(|symbol| is_known(table, *symbol))
}

/// Whether each symbol of a follow set has one claim, but for the terminals and the end.
fn are_known_or_end(table: &Table<'_>, symbols: &[Symbol]) -> bool
    ensures { result ≡ list_all (is_known_or_end table.now) symbols.now }
{
    symbols
        .iter()
        .all(|symbol| is_known(table, *symbol) || *symbol == END)
}

/// Whether what is claimed of a production's left covers its right.
fn sets_are_closed(table: &Table<'_>, production: &Production<'_>) -> bool
    ensures { result ≡ sets_are_closed table.now production.now }
{
    if can_all_be_empty(table, production.right) && !can_be_empty(table, production.left) {
        return false;
    }
    firsts_begin(table, production)
        && follows_are_closed(table, follow_of(table, production.left), production.right)
}

fn is_closed_under(table: &Table<'_>, production: &Production<'_>) -> bool
    ensures { result ≡ is_closed_under table.now production.now }
{
    if !is_claimed(table, production.left) || !are_known(table, production.right) {
        return false;
    }
    sets_are_closed(table, production)
}

/// Whether the symbols that a production can begin with are claimed of what stands on its left.
fn firsts_begin(table: &Table<'_>, production: &Production<'_>) -> bool
    ensures { result ≡ is_within (firsts_of table.now production.now.right.now) (first_claim (claim_of table.now production.now.left)) }
{
    match claim_of(table, production.left) {
        None => firsts_are_within(table, production.right, &[]),
        Some(claim) => firsts_are_within(table, production.right, claim.first),
    }
}

/// Whether a claim is the only one on its nonterminal, and each nonterminal in its sets has one too.
fn claim_is_known(table: &Table<'_>, claim: &Claim<'_>) -> bool
    ensures { result ≡ claim_is_known table.now claim.now }
{
    is_claimed(table, claim.symbol)
        && are_known(table, claim.first)
        && are_known_or_end(table, claim.follow)
}

fn claims_are_known(table: &Table<'_>) -> bool
    ensures { result ≡ list_all (claim_is_known table.now) table.now.claims.now }
{
    table
        .claims
        .iter()
        .all(|claim| claim_is_known(table, claim))
}

/// Whether the nonterminals of the claims and the marked ones have one claim each.
fn other_names_are_claimed(table: &Table<'_>) -> bool
    ensures { result ≡ other_names_are_claimed table.now }
{
    !is_terminal(table, END) && claims_are_known(table) && are_known(table, table.marked)
}

fn productions_are_closed(table: &Table<'_>) -> bool
    ensures { result ≡ list_all (is_closed_under table.now) table.now.productions.now }
{
    table
        .productions
        .iter()
        .all(|production| is_closed_under(table, production))
}

fn start_is_claimed(table: &Table<'_>) -> bool
    ensures { result ≡ start_is_claimed table.now }
{
    is_claimed(table, table.start) && has(follow_of(table, table.start), END)
}

fn claims_are_closed(table: &Table<'_>) -> bool
    ensures { result ≡ claims_are_closed table.now }
{
    start_is_claimed(table) && productions_are_closed(table) && other_names_are_claimed(table)
}

/// Whether each nonterminal in front of which only empty symbols can stand has a lower rank.
#[tactic(auto, using(crate::proofs::ClaimLemmas::fronts_steps))]
fn fronts_are_lower(table: &Table<'_>, rank: u32, symbols: &[Symbol]) -> bool
    ensures { result ≡ fronts_are_lower table.now rank symbols.now }
{
    for symbol in symbols {
        if !is_terminal(table, *symbol) && !has_lower_rank(table, rank, *symbol) {
            return false;
        }
        if !can_be_empty(table, *symbol) {
            return true;
        }
    }
    true
}

fn is_shown(table: &Table<'_>, rank: u32, symbol: Symbol) -> bool
    ensures { result ≡ is_shown table.now rank symbol }
{
    is_terminal(table, symbol) || can_be_empty(table, symbol) || has_lower_rank(table, rank, symbol)
}

fn are_shown(table: &Table<'_>, rank: u32, symbols: &[Symbol]) -> bool
    ensures { result ≡ list_all (is_shown table.now rank) symbols.now }
{
    symbols.iter().all(|symbol| is_shown(table, rank, *symbol))
}

/// Whether no production of a claim's nonterminal begins with it or a higher one.
fn is_not_left_recursive(table: &Table<'_>, claim: &Claim<'_>) -> bool
    ensures { result ≡ is_not_left_recursive table.now claim.now }
{
    table.productions.iter().all(|production| production.left != claim.symbol
        || fronts_are_lower(table, claim.rank, production.right))
}

/// Whether a claim's nonterminal has a production whose symbols are shown to have a text.
fn has_text(table: &Table<'_>, claim: &Claim<'_>) -> bool
    ensures { result ≡ has_text table.now claim.now }
{
    table.productions.iter().any(|production| production.left == claim.symbol
        && are_shown(table, claim.rank, production.right))
}

fn rank_shows(table: &Table<'_>, claim: &Claim<'_>) -> bool
    ensures { result ≡ rank_shows table.now claim.now }
{
    if claim.empty && !has_empty(table, claim) {
        return false;
    }
    is_not_left_recursive(table, claim) && has_text(table, claim)
}

fn ranks_show(table: &Table<'_>) -> bool
    ensures { result ≡ ranks_show table.now }
{
    table.claims.iter().all(|claim| rank_shows(table, claim))
}

/// Whether the nonterminal of a claim has a production of symbols that can all be empty.
fn has_empty(table: &Table<'_>, claim: &Claim<'_>) -> bool
    ensures { result ≡ has_empty table.now claim.now }
{
    table.productions.iter().any(|production| production.left == claim.symbol
        && can_all_be_empty(table, production.right))
}

/// Whether no symbol of these tells that a production comes next.
fn are_no_signs(table: &Table<'_>, symbols: &[Symbol], production: &Production<'_>) -> bool
    ensures { result ≡ is_apart symbols.now (signs_of table.now production.now) }
{
    symbols
        .iter()
        .all(|symbol| !is_sign(table, production, *symbol))
}

/// Whether no symbol that the texts of a symbol can begin with tells that a production comes next.
fn first_is_apart(table: &Table<'_>, symbol: Symbol, production: &Production<'_>) -> bool
    ensures { result ≡ is_apart (first_of table.now symbol) (signs_of table.now production.now) }
{
    if is_terminal(table, symbol) {
        return !is_sign(table, production, symbol);
    }
    match claim_of(table, symbol) {
        None => true,
        Some(claim) => are_no_signs(table, claim.first, production),
    }
}

/// Whether no symbol that the texts of some symbols can begin with tells that a production comes
/// next.
#[tactic(auto, using(crate::proofs::ClaimLemmas::all_steps))]
fn firsts_are_apart(table: &Table<'_>, symbols: &[Symbol], production: &Production<'_>) -> bool
    ensures { result ≡ is_apart (firsts_of table.now symbols.now) (signs_of table.now production.now) }
{
    for symbol in symbols {
        if !first_is_apart(table, *symbol, production) {
            return false;
        }
        if !can_be_empty(table, *symbol) {
            return true;
        }
    }
    true
}

/// Whether no symbol tells of both productions, and at most one can be empty, where both are of
/// one nonterminal.
#[tactic(auto, using(crate::proofs::ClaimLemmas::apart_signs))]
fn are_told_apart(table: &Table<'_>, one: &Production<'_>, other: &Production<'_>) -> bool
    ensures { result ≡ are_told_apart table.now one.now other.now }
{
    if one.left != other.left {
        return true;
    }
    if !firsts_are_apart(table, one.right, other) {
        return false;
    }
    if !can_all_be_empty(table, one.right) {
        return true;
    }
    are_no_signs(table, follow_of(table, one.left), other) && !can_all_be_empty(table, other.right)
}

/// Whether a production is told apart from each of these.
fn is_told_apart(table: &Table<'_>, production: &Production<'_>, others: &[Production<'_>]) -> bool
    ensures { result ≡ list_all (are_told_apart table.now production.now) others.now }
{
    others
        .iter()
        .all(|other| are_told_apart(table, production, other))
}

#[tactic(auto, using(crate::proofs::ClaimLemmas::told_steps))]
fn all_told_apart(table: &Table<'_>) -> bool
    ensures { result ≡ all_told_apart table.now table.now.productions.now }
{
    for (index, production) in table.productions.iter().enumerate() {
        if !is_told_apart(table, production, &table.productions[index + 1..]) {
            return false;
        }
    }
    true
}

#[tactic(auto, unfolding(crate::specs::Claims::is_checked))]
fn is_checked(table: &Table<'_>) -> bool
    ensures { result ≡ is_checked table.now }
{
    claims_are_closed(table) && ranks_show(table) && all_told_apart(table)
}

/// The table with the fact that its claims hold together, or the table as it is. It takes no
/// memory.
pub fn check<'a>(table: Table<'a>) -> Result<CheckedTable<'a>, Table<'a>>
    ensures ok { IfOk result (λ checked. (checked.table ≡ table.entry) × IsTrue (is_checked table.entry)) }
    ensures err { IfErr result (λ given_back. (given_back ≡ table.entry) × ¬ (IsTrue (is_checked table.entry))) }
{
    if is_checked(&table) {
        Ok(CheckedTable { table })
    } else {
        Err(table)
    }
}
