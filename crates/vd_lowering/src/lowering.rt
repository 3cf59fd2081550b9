//! The statements of revision 2019 as those of revision 1993.

ghost use Rattle.std.specs.Prelude.{◌≡◌, ◌≤◌, IfOk, length};

use crate::actuals::lower_actuals;
use crate::conditionals::lower_conditionals;
use crate::contexts::lower_contexts;
use crate::generates::lower_generates;
use crate::selections::lower_selections;
use std::alloc::{AllocError, Global};
use vd_declarations::Declaration;
use vd_forest::Store;
use vd_notes::Noted;
use vd_noting::Noting;
use vd_sensitivity::sensitivity::lower_sensitivity;

/// A design between two passes.
#[derive(Drop)]
struct Between {
    trees: Store<Noted>,
    units: u32,
}

/// With the lists of what processes read.
fn with_lists(
    alloc: Global,
    declarations: &[Declaration],
    before: &Between,
) -> Result<Between, AllocError>
    requires { before.now.units ≤ length before.now.trees }
    ensures { IfOk result (λ made. made.units ≤ length made.trees) }
{
    let mut trees = Store::new(alloc);
    let from = before.trees.cursor(before.units);
    let units = lower_sensitivity(alloc, declarations, &from, &mut trees)?;
    Ok(Between { trees, units })
}

/// With `if` in place of conditional assignments and returns.
fn with_branches(alloc: Global, before: &Between) -> Result<Between, AllocError>
    requires { before.now.units ≤ length before.now.trees }
    ensures { IfOk result (λ made. made.units ≤ length made.trees) }
{
    let mut trees = Store::new(alloc);
    let from = before.trees.cursor(before.units);
    let units = lower_conditionals(alloc, &from, &mut trees)?;
    Ok(Between { trees, units })
}

/// With `case` in place of selected assignments in bodies.
fn with_choices(alloc: Global, before: &Between) -> Result<Between, AllocError>
    requires { before.now.units ≤ length before.now.trees }
    ensures { IfOk result (λ made. made.units ≤ length made.trees) }
{
    let mut trees = Store::new(alloc);
    let from = before.trees.cursor(before.units);
    let units = lower_selections(alloc, &from, &mut trees)?;
    Ok(Between { trees, units })
}

/// With a generate for each alternative of one.
fn with_generates(
    alloc: Global,
    declarations: &[Declaration],
    before: &Between,
) -> Result<Between, AllocError>
    requires { before.now.units ≤ length before.now.trees }
    ensures { IfOk result (λ made. made.units ≤ length made.trees) }
{
    let mut trees = Store::new(alloc);
    let from = before.trees.cursor(before.units);
    let units = lower_generates(alloc, declarations, &from, &mut trees)?;
    Ok(Between { trees, units })
}

/// With signals for the expressions of port maps.
fn with_signals(
    alloc: Global,
    declarations: &[Declaration],
    before: &Between,
) -> Result<Between, AllocError>
    requires { before.now.units ≤ length before.now.trees }
    ensures { IfOk result (λ made. made.units ≤ length made.trees) }
{
    let mut trees = Store::new(alloc);
    let from = before.trees.cursor(before.units);
    let units = lower_actuals(alloc, declarations, &from, &mut trees)?;
    Ok(Between { trees, units })
}

/// With the clauses of contexts in place of references to them.
fn with_clauses(
    alloc: Global,
    declarations: &[Declaration],
    before: &Between,
) -> Result<Between, AllocError>
    requires { before.now.units ≤ length before.now.trees }
    ensures { IfOk result (λ made. made.units ≤ length made.trees) }
{
    let mut trees = Store::new(alloc);
    let from = before.trees.cursor(before.units);
    let units = lower_contexts(alloc, declarations, &from, &mut trees)?;
    Ok(Between { trees, units })
}

/// The statements of revision 2019 as those of revision 1993, as far as they need no operator of revision 2019: lists of what a `process (all)` reads,
/// `if` and `case` in place of conditional and selected assignments and returns, a generate for each alternative, signals for the expressions of port
/// maps, and the clauses of contexts. What a design declares stays as it is noted. The only error is that memory ran out.
pub fn lower_statements(alloc: Global, noting: Noting) -> Result<Noting, AllocError>
    requires { noting.units ≤ length noting.trees }
    ensures within { IfOk result (λ made. made.units ≤ length made.trees) }
    ensures declarations { IfOk result (λ made. made.declarations.items ≡ noting.declarations.items) }
{
    let Noting {
        trees,
        units,
        declarations,
    } = noting;
    let made = with_lists(alloc, &declarations, &Between { trees, units })?;
    let made = with_branches(alloc, &made)?;
    let made = with_choices(alloc, &made)?;
    let made = with_generates(alloc, &declarations, &made)?;
    let made = with_signals(alloc, &declarations, &made)?;
    let Between { trees, units } = with_clauses(alloc, &declarations, &made)?;
    Ok(Noting {
        trees,
        units,
        declarations,
    })
}
