//! Driving and effective values.

ghost use Rattle.std.specs.Prelude.{◌≡◌, ℕ, length};
ghost use Rattle.vd_values.specs.Resolution.{resolution_of};
ghost use Rattle.vd_values.specs.LogicTables.{column_of};
ghost use Rattle.vd_values.specs.declared.logic.Logic.TheVariants.{Z};
ghost use Rattle.vd_kernel.specs.Values.{logic_of, source_value, through, effective};
ghost use Rattle.vd_kernel.specs.SignalValues.{value_at, Hold, made_of, AreDriving, AreEffective, nothing_given};
ghost use Rattle.vd_kernel.specs.Orders.{IsOrder, IsRingFree, shape_of};
ghost use Rattle.vd_kernel.specs.declared.orders.Along.TheVariants.{Sources, Actuals};

use crate::assignments::Source;
use crate::driver_list::DriverList;
use crate::shape::ScalarShape;
use vd_values::{Logic, Scalar, resolve};

fn logic_value(value: Scalar) -> Logic
    ensures { result ≡ logic_of value }
{
    let all = [
        Logic::U,
        Logic::X,
        Logic::Zero,
        Logic::One,
        Logic::Z,
        Logic::W,
        Logic::L,
        Logic::H,
        Logic::Dash,
    ];
    match value {
        Scalar::Literal(position) => {
            if position < 9 {
                all[position as usize]
            } else {
                Logic::U
            }
        }
        _ => Logic::U,
    }
}

fn position_of(value: Logic) -> u32
    ensures { result ≡ column_of value }
{
    match value {
        Logic::U => 0,
        Logic::X => 1,
        Logic::Zero => 2,
        Logic::One => 3,
        Logic::Z => 4,
        Logic::W => 5,
        Logic::L => 6,
        Logic::H => 7,
        Logic::Dash => 8,
    }
}

// A value and one more source. What has been folded so far is never '-', so that 'Z' in front of it changes nothing.
fn folded_with(value: Logic, source: Logic) -> Logic
    requires { resolution_of Z value ≡ value }
    ensures folded { result ≡ resolution_of value source }
    ensures again { resolution_of Z result ≡ result }
{
    resolve(&[value, source])
}

fn read(values: &[Scalar], signal: usize) -> Scalar
    ensures { result ≡ value_at values.now signal }
{
    if signal < values.len() {
        values[signal]
    } else {
        Scalar::Literal(0)
    }
}

fn value_of_source(source: Source, drivers: &[DriverList], values: &[Scalar]) -> Scalar
    ensures { result ≡ source_value drivers.now (value_at values.now) source }
{
    match source {
        Source::Driver(id) => {
            let driver = id.number();
            if driver < drivers.len() {
                drivers[driver].current()
            } else {
                Scalar::Literal(0)
            }
        }
        Source::Port(inside) => read(values, inside.number()),
    }
}

// The driving value of a signal, from those of the ports among its sources.
fn value_of_signal(signal: &ScalarShape, drivers: &[DriverList], values: &[Scalar]) -> Scalar
    ensures { result ≡ made_of drivers.now (value_at values.now) signal.now }
{
    let sources = &signal.sources;
    if sources.is_empty() {
        return signal.initial;
    }
    if sources.len() == 1 || !signal.resolved {
        return value_of_source(sources[0], drivers, values);
    }
    let mut value = Logic::Z;
    for source in sources {
        value = folded_with(
            value,
            logic_value(value_of_source(*source, drivers, values)),
        );
    }
    Scalar::Literal(position_of(value))
}

/// Puts the driving value of each signal into the list. They are the one solution of their equations.
pub fn drive(
    signals: &[ScalarShape],
    inner_first: &[usize],
    drivers: &[DriverList],
    values: &mut [Scalar],
)
    requires order { IsOrder Sources signals.now inner_first.now }
    requires long { length values.old ≡ length signals.now }
    ensures { (own : ℕ → Scalar) → AreDriving signals.now drivers.now own → Hold values.new own }
{
    for k in 0..inner_first.len() {
        let i = inner_first[k];
        let value = value_of_signal(&signals[i], drivers, values);
        values[i] = value;
    }
}

fn value_through(signal: &ScalarShape, outer: &[Scalar], own: Scalar) -> Scalar
    ensures { result ≡ through signal.now.actual (value_at outer.now) own }
{
    match signal.actual {
        Some(actual) => read(outer, actual.number()),
        None => own,
    }
}

/// Puts the effective value of each signal into the list, from the driving ones. They are the one solution of their equations.
pub fn spread(
    signals: &[ScalarShape],
    outer_first: &[usize],
    driving: &[Scalar],
    values: &mut [Scalar],
)
    requires order { IsOrder Actuals signals.now outer_first.now }
    requires driving_long { length driving.now ≡ length signals.now }
    requires long { length values.old ≡ length signals.now }
    ensures { (own outer : ℕ → Scalar) → AreEffective signals.now own outer → Hold driving.now own → Hold values.new outer }
{
    for k in 0..outer_first.len() {
        let i = outer_first[k];
        let value = value_through(&signals[i], values, driving[i]);
        values[i] = value;
    }
}

/// Puts the effective value of each signal into the list, by way of the driving ones.
pub fn settle(
    signals: &[ScalarShape],
    inner_first: &[usize],
    outer_first: &[usize],
    drivers: &[DriverList],
    driving: &mut [Scalar],
    values: &mut [Scalar],
)
    requires ring_free { IsRingFree (shape_of signals.now) }
    requires inner { IsOrder Sources signals.now inner_first.now }
    requires outer { IsOrder Actuals signals.now outer_first.now }
    requires driving_long { length driving.old ≡ length signals.now }
    requires long { length values.old ≡ length signals.now }
    ensures { Hold values.new (effective (shape_of signals.now) nothing_given drivers.now) }
{
    drive(signals, inner_first, drivers, driving);
    spread(signals, outer_first, driving, values);
}
