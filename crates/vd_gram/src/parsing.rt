//! The derivation of a text, or why it has none.

ghost use Rattle.std.specs.Prelude.{◌≡◌, [], IfOk, OnOk, MatchResult};
ghost use Rattle.vd_gram.specs.Derivations.{IsParse};
ghost use Rattle.vd_gram.specs.Readings.{Stands, IsTold, IsEnd};

use crate::choices::Choices;
use crate::derivation::Derivation;
use crate::reading::Reading;
use crate::stack::Stack;
use crate::steps::{Builder, Step};
use crate::tables::{CheckedTable, ParseEnd, Symbol};
use std::alloc::{AllocError, Global};

/// The reading of a text from its start.
#[tactic(auto, using(crate::proofs::AdvanceLemmas::starting))]
fn start(
    alloc: Global,
    checked: &CheckedTable<'_>,
    symbols: &[Symbol],
    deep: u32,
) -> Result<Reading, AllocError>
    ensures { IfOk result (λ reading. Stands checked.now.table symbols.now deep 0 [] reading) }
{
    let mut stack = Stack::new(alloc);
    stack.push(&[checked.table.start], 0)?;
    Ok(Reading {
        stack,
        deepest: 0,
        choices: Choices::new(alloc),
    })
}

/// Tells a builder the steps of a text's derivation by a table, or says why there is none. `At`
/// and `TooDeep` are said of the text, and want of memory says nothing of it. Where there is no
/// derivation, the builder has been told a part of what might have become one. No clause speaks
/// of the time that it takes: it was measured, and grows in proportion to the text.
pub fn tell<B: Builder>(
    alloc: Global,
    table: &CheckedTable<'_>,
    symbols: &[Symbol],
    deep: u32,
    builder: &mut B,
) -> Result<(), ParseEnd>
    requires new { B.HasTaken builder.old [] }
    ensures kept { OnOk result (B.tables builder.new ≡ B.tables builder.old) }
    ensures answer { MatchResult result (λ _. IsTold B.HasTaken builder.new table.now.table symbols.now deep)
        (λ end. IsEnd table.now.table symbols.now deep end) }
{
    let mut reading = start(alloc, table, symbols, deep)?;
    let mut place = 0;
    while reading.advance(table, symbols, place, deep, builder)? {
        place += 1;
    }
    Ok(())
}

/// The steps of a derivation, gathered.
#[derive(Drop)]
struct Gathered {
    steps: Vec<Step>,
}

impl Builder for Gathered {
    ghost Tables = { Unit {0} };

    ghost tables = { λ _. tt };

    ghost HasTaken = { λ gathered steps. gathered.steps.items ≡ steps };

    fn node(&mut self, production: u32, parts: u32) -> Result<(), AllocError> {
        self.steps.push(Step::Node { production, parts })?;
        Ok(())
    }

    fn leaf(&mut self, symbol: Symbol, place: u32) -> Result<(), AllocError> {
        self.steps.push(Step::Leaf { symbol, place })?;
        Ok(())
    }
}

/// The derivation of a text by a table. `At` and `TooDeep` say why it has none, and want of memory
/// says nothing of the text. No clause speaks of the time that it takes: it was measured, and grows
/// in proportion to the text.
pub fn parse(
    alloc: Global,
    table: &CheckedTable<'_>,
    symbols: &[Symbol],
    deep: u32,
) -> Result<Derivation, ParseEnd>
    ensures { MatchResult result (λ derivation. IsParse table.now.table symbols.now deep derivation)
        (λ end. IsEnd table.now.table symbols.now deep end) }
{
    let mut gathered = Gathered {
        steps: Vec::new(alloc),
    };
    tell(alloc, table, symbols, deep, &mut gathered)?;
    let derivation = Derivation::of(alloc, gathered.steps)?;
    Ok(derivation)
}
