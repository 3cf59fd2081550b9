//! Orders in which the values of signals can be computed one after another.

ghost use Rattle.std.specs.Prelude.{◌≡◌, ◌<◌, length, false, IfOk, OnOk};
ghost use Rattle.std.specs.List.{list_all};
ghost use Rattle.vd_kernel.specs.Orders.{shape_of, IsRingFree, is_placed, ports_of, is_ready, IsPlacing, IsWalked, IsOrder};

use crate::assignments::Source;
use crate::shape::ScalarShape;
use std::alloc::{AllocError, Global};

/// What an order goes along: from the inside of instances outwards, or from their outside inwards.
#[derive(Clone, Copy, Debug)]
pub enum Along {
    /// Each signal behind the ports among its sources.
    Sources,
    /// Each signal behind its actual.
    Actuals,
}

// Whether a signal is placed. One past the last need not be.
fn stands(placed: &[bool], signal: usize) -> bool
    ensures { result ≡ is_placed placed.now signal }
{
    if signal < placed.len() {
        placed[signal]
    } else {
        true
    }
}

fn ports_stand(placed: &[bool], sources: &[Source]) -> bool
    ensures { result ≡ list_all (is_placed placed.now) (ports_of sources.now) }
{
    for source in sources {
        let here = match source {
            Source::Driver(_) => true,
            Source::Port(inside) => stands(placed, inside.number()),
        };
        if !here {
            return false;
        }
    }
    true
}

// Whether all that a signal needs is placed.
fn can_be_placed(signal: &ScalarShape, along: Along, placed: &[bool]) -> bool
    ensures { result ≡ is_ready along placed.now signal.now }
{
    match along {
        Along::Sources => ports_stand(placed, &signal.sources),
        Along::Actuals => {
            match signal.actual {
                Some(actual) => stands(placed, actual.number()),
                None => true,
            }
        }
    }
}

// Walks past all signals and places each one that is ready. Says whether there was one.
fn place_ready(
    signals: &[ScalarShape],
    along: Along,
    placed: &mut [bool],
    order: &mut Vec<usize>,
) -> Result<bool, AllocError>
    requires { IsPlacing along signals.now placed.old order.old.items }
    ensures kept { OnOk result (IsPlacing along signals.now placed.new order.new.items) }
    ensures walked { OnOk result (IsWalked along signals.now placed.old placed.new (length signals.now)) }
    ensures quiet { IfOk result (λ grew. grew ≡ false → placed.new ≡ placed.old) }
{
    let mut grew = false;
    for i in 0..signals.len() {
        if !placed[i] && can_be_placed(&signals[i], along, placed) {
            order.push(i)?;
            placed[i] = true;
            grew = true;
        }
    }
    Ok(grew)
}

/// All signals, each behind all that it needs. As deep as ports stand inside one another, so often are all signals looked at.
pub fn order_of(
    alloc: Global,
    signals: &[ScalarShape],
    along: Along,
) -> Result<Vec<usize>, AllocError>
    requires { IsRingFree (shape_of signals.now) }
    ensures { IfOk result (λ order. IsOrder along signals.now order.items) }
{
    let mut order = Vec::new(alloc);
    let mut placed = vec![in alloc; false; signals.len()]?;
    for _pass in 0..signals.len() {
        if !place_ready(signals, along, &mut placed, &mut order)? {
            return Ok(order);
        }
    }
    Ok(order)
}
