//! How deep expressions and statements stand in one another in the derivation of a token list.

ghost use Rattle.std.specs.Prelude.{◌≡◌, ◌<◌, ◌≤◌, IfOk, MatchBool};
ghost use Rattle.vd_gram.specs.Derivations.{IsTooDeep};
ghost use Rattle.vd_shapes.specs.Reading.{symbols_in};
ghost use Rattle.vd_grammar93.specs.Grammar.{grammar};
ghost use Rattle.vd_derivations93.specs.Depths.{IsText, HasParse, IsDepth, IsDepthOf};

use std::alloc::{AllocError, Global};
use vd_forms::Design93;
use vd_gram::{Builder, CheckedTable, ParseEnd, Symbol, tell};
use vd_grammar93::lists;
use vd_shapes::{Rows, symbols_of};
use vd_tokens::Tokens;
use vd_writing::derive93;

/// What is told the steps of a derivation, and keeps none.
#[derive(Drop)]
struct Unheard;

impl Builder for Unheard {
    ghost Tables = { Unit {0} };

    ghost tables = { λ _. tt };

    ghost HasTaken = { λ _ _. Unit {0} };

    fn node(&mut self, _production: u32, _parts: u32) -> Result<(), AllocError> {
        Ok(())
    }

    fn leaf(&mut self, _symbol: Symbol, _place: u32) -> Result<(), AllocError> {
        Ok(())
    }
}

/// Whether marked nodes stand deeper in one another than a limit.
fn is_deeper(
    alloc: Global,
    table: &CheckedTable<'_>,
    symbols: &[Symbol],
    deep: u32,
) -> Result<bool, AllocError>
    requires text { IsText table.now.table symbols.now }
    ensures { IfOk result (λ deeper. MatchBool deeper (IsTooDeep table.now.table symbols.now deep) (HasParse table.now.table symbols.now deep)) }
{
    let mut unheard = Unheard;
    match tell(alloc, table, symbols, deep, &mut unheard) {
        Ok(()) => Ok(false),
        Err(ParseEnd::TooDeep) => Ok(true),
        // the symbols have a derivation, so that none is refused
        Err(ParseEnd::At(_)) => Ok(true),
        Err(ParseEnd::Memory) => Err(AllocError),
    }
}

/// The next limit to be tried between two: twice the lower one, but no more than half way to the
/// higher one.
fn middle_of(low: u32, high: u32) -> u32
    requires { low < high }
    ensures above { low ≤ result }
    ensures below { result < high }
{
    let half = (high - low) / 2;
    if low < half {
        low + low + 1
    } else {
        low + half
    }
}

/// The depth of the derivation of some symbols. They are read with one limit after the other, as
/// often as the depth has binary digits and then as often again.
fn depth_of_symbols(
    alloc: Global,
    table: &CheckedTable<'_>,
    symbols: &[Symbol],
) -> Result<u32, AllocError>
    requires text { IsText table.now.table symbols.now }
    ensures { IfOk result (λ depth. IsDepth table.now.table symbols.now depth) }
{
    let mut low: u32 = 0;
    let mut high: u32 = u32::MAX;
    while low < high {
        let middle = middle_of(low, high);
        if is_deeper(alloc, table, symbols, middle)? {
            low = middle + 1;
        } else {
            high = middle;
        }
    }
    Ok(low)
}

/// The depth of the derivation that a token list has by the grammar of 1993, or the greatest u32
/// where it is more.
pub fn depth_of_tokens(alloc: Global, tokens: &Tokens) -> Result<u32, AllocError>
    requires text { IsText grammar (symbols_in tokens.now) }
    ensures { IfOk result (λ depth. IsDepth grammar (symbols_in tokens.now) depth) }
{
    let rows = Rows::of(alloc, lists())?;
    let table = CheckedTable::of(rows.table());
    let symbols = symbols_of(alloc, tokens)?;
    depth_of_symbols(alloc, &table, &symbols)
}

/// The depth of the derivation of a design's tokens, or the greatest u32 where it is more. `read93` gives
/// the design for these tokens where it is at most 2,000. It takes memory for the tokens: without
/// memory a tree is gone through by recursion alone.
pub fn depth93(alloc: Global, design: &Design93) -> Result<u32, AllocError>
    ensures { IfOk result (λ depth. IsDepthOf design.now depth) }
{
    let _units = design.units();
    let tokens = derive93(alloc, design)?;
    depth_of_tokens(alloc, &tokens)
}
