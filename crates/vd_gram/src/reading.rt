//! Reading a text by the productions of a table, a symbol at a time.

ghost use Rattle.std.specs.Prelude.{◌≡◌, ◌+◌, ◌<◌, ◌≤◌, ◌^◌, ◌∷◌, [], length, IfErr, IfOk, OnOk, MatchBool, MatchOption, MatchResult, nat_lt, true};
ghost use Rattle.vd_gram.specs.Claims.{is_terminal};
ghost use Rattle.vd_gram.specs.Runs.{AreChoices, IsNoChoice};
ghost use Rattle.vd_gram.specs.Readings.{IsPut, IsExpanded, mark_one, symbol_ahead, IsStanding, IsLooking, IsTold, IsEnd};

use crate::choices::Choices;
use crate::claims::{has, is_terminal};
use crate::numbers::narrow;
use crate::stack::{Pending, Stack};
use crate::steps::Builder;
use crate::tables::{CheckedTable, END, ParseEnd, Symbol, Table};
use std::alloc::AllocError;

/// What was read of a text: the symbols to come, and how many marked nodes stood above one
/// another.
#[derive(Drop)]
pub(crate) struct Reading {
    pub(crate) stack: Stack,
    pub(crate) deepest: u32,
    pub(crate) choices: Choices,
}

/// A production that was put in the place of its left, and how many parts it has.
#[derive(Clone, Copy, Drop)]
pub(crate) struct Expansion {
    pub(crate) production: u32,
    pub(crate) parts: u32,
}

/// How many marked nodes stand above the parts of a production.
fn depth_below(table: &Table<'_>, left: Symbol, depth: u32) -> Result<u32, AllocError>
    ensures below { IfOk result (λ below. below ≡ depth + mark_one table.now left) }
    ensures full { IfErr result (λ _. 2 ^ 32 ≤ depth + mark_one table.now left) }
{
    if !has(table.marked, left) {
        return Ok(depth);
    }
    match depth.checked_add(1) {
        None => Err(AllocError),
        Some(below) => Ok(below),
    }
}

/// The symbol at a place of a text, or its end.
fn symbol_ahead(symbols: &[Symbol], place: usize) -> Symbol
    requires { place ≤ length symbols.now }
    ensures { result ≡ symbol_ahead symbols.now place }
{
    if place < symbols.len() {
        symbols[place]
    } else {
        END
    }
}

impl Reading {
    /// Puts a production in the place of its left.
    fn put(
        &mut self,
        table: &Table<'_>,
        production: u32,
        depth: u32,
    ) -> Result<Expansion, AllocError>
        requires { production < length table.now.productions.now }
        ensures put { IfOk result (λ made. (made.production ≡ production) × IsPut table.now production made.parts depth self.old self.new) }
        ensures choices { self.new.choices ≡ self.old.choices }
    {
        let chosen = table.productions[production as usize];
        let below = depth_below(table, chosen.left, depth)?;
        let parts = narrow(chosen.right.len())?;
        self.stack.push(chosen.right, below)?;
        self.deepest = self.deepest.max(below);
        Ok(Expansion { production, parts })
    }

    /// Puts the production that the symbol ahead tells in the place of a nonterminal, where it
    /// tells one.
    #[tactic(auto, using(crate::proofs::ChoiceLemmas::choice_within))]
    fn expand(
        &mut self,
        table: &Table<'_>,
        next: Pending,
        ahead: Symbol,
    ) -> Result<Option<Expansion>, AllocError>
        requires { AreChoices table.now self.old.choices.known }
        ensures expanded { IfOk result (λ told. MatchOption told (IsNoChoice table.now next.symbol ahead)
            (λ made. IsExpanded table.now ahead next made.production made.parts self.old self.new)) }
        ensures choices { AreChoices table.now self.new.choices.known }
    {
        match self.choices.choice(table, next.symbol, ahead)? {
            None => Ok(None),
            Some(production) => {
                let made = self.put(table, production, next.depth)?;
                Ok(Some(made))
            }
        }
    }

    /// Whether more marked nodes stood above one another.
    fn is_too_deep(&self, deep: u32) -> bool
        ensures { result ≡ nat_lt deep self.now.deepest }
    {
        self.deepest > deep
    }
}

impl Reading {
    /// Takes the symbol ahead, or the end where nothing is to come, and says whether it was no end.
    pub(crate) fn advance<B: Builder>(
        &mut self,
        checked: &CheckedTable<'_>,
        symbols: &[Symbol],
        place: usize,
        deep: u32,
        builder: &mut B,
    ) -> Result<bool, ParseEnd>
        requires { IsStanding B.HasTaken builder.old checked.now.table symbols.now deep place self.old }
        ensures kept { OnOk result (B.tables builder.new ≡ B.tables builder.old) }
        ensures answer { MatchResult result
            (λ more. MatchBool more (IsStanding B.HasTaken builder.new checked.now.table symbols.now deep (place + 1) self.new)
            (IsTold B.HasTaken builder.new checked.now.table symbols.now deep))
            (λ end. IsEnd checked.now.table symbols.now deep end) }
    {
        let table = checked.table;
        let ahead = symbol_ahead(symbols, place);
        while let Some(next) = self.stack.pop() {
            if is_terminal(&table, next.symbol) {
                return self.accept(checked, symbols, place, deep, next, builder);
            }
            match self.expand(&table, next, ahead)? {
                None => return Err(ParseEnd::At(place)),
                Some(made) => builder.node(made.production, made.parts)?,
            }
        }
        self.finish(checked, symbols, place, deep, builder)
    }

    /// Takes the symbol ahead, where a terminal has to come.
    fn accept<B: Builder>(
        &mut self,
        checked: &CheckedTable<'_>,
        symbols: &[Symbol],
        place: usize,
        deep: u32,
        next: Pending,
        builder: &mut B,
    ) -> Result<bool, ParseEnd>
        requires looking { IsLooking B.HasTaken builder.old checked.now.table symbols.now deep place (next ∷ self.old.stack) self.old }
        requires terminal { is_terminal checked.now.table next.symbol ≡ true }
        ensures kept { OnOk result (B.tables builder.new ≡ B.tables builder.old) }
        ensures answer { MatchResult result
            (λ more. MatchBool more (IsStanding B.HasTaken builder.new checked.now.table symbols.now deep (place + 1) self.new)
            (IsTold B.HasTaken builder.new checked.now.table symbols.now deep))
            (λ end. IsEnd checked.now.table symbols.now deep end) }
    {
        if next.symbol != symbol_ahead(symbols, place) {
            return Err(ParseEnd::At(place));
        }
        builder.leaf(next.symbol, narrow(place)?)?;
        if self.is_too_deep(deep) {
            return Err(ParseEnd::TooDeep);
        }
        Ok(true)
    }

    /// Takes the end, where nothing is to come.
    fn finish<B: Builder>(
        &self,
        checked: &CheckedTable<'_>,
        symbols: &[Symbol],
        place: usize,
        deep: u32,
        builder: &B,
    ) -> Result<bool, ParseEnd>
        requires { IsLooking B.HasTaken builder.now checked.now.table symbols.now deep place [] self.now }
        ensures { MatchResult result
            (λ more. MatchBool more ⊥ (IsTold B.HasTaken builder.now checked.now.table symbols.now deep))
            (λ end. IsEnd checked.now.table symbols.now deep end) }
    {
        if symbol_ahead(symbols, place) != END {
            return Err(ParseEnd::At(place));
        }
        if self.is_too_deep(deep) {
            return Err(ParseEnd::TooDeep);
        }
        if place < symbols.len() {
            return Err(ParseEnd::At(place + 1));
        }
        Ok(false)
    }
}
