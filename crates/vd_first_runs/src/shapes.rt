//! The signals and drivers of a top, as the kernel is given them.

ghost use Rattle.std.specs.Prelude.{◌≡◌, ◌++◌, [], length, replicate, is_some, not, OnOk, IfOk};
ghost use Rattle.vd_forest.specs.Forest.{tree_count};
ghost use Rattle.vd_kernel.specs.Orders.{shape_of, IsRingFree};
ghost use Rattle.vd_kernel.specs.Traces.{has_two, with_two};
ghost use Rattle.vd_simulation.specs.Designs.{IsGiven};
ghost use Rattle.vd_first_elaboration.specs.Ports.{mode_of, declared_ports};
ghost use Rattle.vd_first_elaboration.specs.Elaboration.{is_input, inputs_from};
ghost use Rattle.vd_first_runs.specs.Shapes.{plain_signal, with_driver, connected, plain_driver, outside_count, kernel_shape};

use std::alloc::{AllocError, Global};
use vd_first_trees::Form;
use vd_first_trees::form_tests::is_out;
use vd_forest::Cursor;
use vd_kernel::{
    DriverId, DriverShape, DriverShapes, ScalarShape, ScalarShapes, Shape, SignalId, Source,
};
use vd_values::Scalar;

// So many signals that nothing drives.
fn undriven(alloc: Global, count: usize) -> Result<ScalarShapes, AllocError>
    ensures { IfOk result (λ v. v.items ≡ replicate count (plain_signal [])) }
{
    let mut scalars = Vec::new(alloc);
    for _ in 0..count {
        scalars.push(ScalarShape {
            resolved: false,
            initial: Scalar::Literal(0),
            sources: Vec::new(alloc),
            actual: None,
        })?;
    }
    Ok(scalars)
}

fn add_driver(signal: &mut ScalarShape, driver: DriverId) -> Result<(), AllocError>
    ensures { OnOk result (signal.new ≡ with_driver driver signal.old) }
{
    signal.sources.push(Source::Driver(driver))?;
    Ok(())
}

// Makes drivers, in order, sources of the signals that they drive.
fn connect(scalars: &mut ScalarShapes, driven: &[SignalId]) -> Result<(), AllocError>
    ensures { OnOk result (scalars.new.items ≡ connected 0 driven.now scalars.old.items) }
{
    for driver in 0..driven.len() {
        let i = driven[driver].number();
        if i < scalars.len() {
            add_driver(&mut scalars[i], DriverId::of(driver))?;
        }
    }
    Ok(())
}

fn add_drivers(drivers: &mut DriverShapes, count: usize) -> Result<(), AllocError>
    ensures { OnOk result (drivers.new.items ≡ drivers.old.items ++ replicate count plain_driver) }
{
    for _ in 0..count {
        drivers.push(DriverShape {
            initial: Scalar::Literal(0),
        })?;
    }
    Ok(())
}

// Adds a driver for each of some identifiers.
fn add_driver_each(
    drivers: &mut DriverShapes,
    identifiers: &Cursor<'_, Form>,
) -> Result<(), AllocError>
    ensures { OnOk result (drivers.new.items ≡ drivers.old.items ++ replicate (tree_count identifiers.now) plain_driver) }
{
    let mut left = identifiers.fork();
    while let Some(first) = left.open() {
        drivers.push(DriverShape {
            initial: Scalar::Literal(0),
        })?;
        left = first.next;
    }
    Ok(())
}

// Whether ports have the mode `out`. A port without a mode is one of mode `in`.
fn is_output(mode: &Cursor<'_, Form>) -> bool
    ensures { not result ≡ is_input (mode_of mode.now) }
{
    match mode.form() {
        Some(form) => is_out(form),
        None => false,
    }
}

// Adds a driver from outside for each port that a declaration of these parts declares, if they have the mode `in`.
fn add_declared(drivers: &mut DriverShapes, parts: &Cursor<'_, Form>) -> Result<(), AllocError>
    ensures { OnOk result (drivers.new.items ≡ drivers.old.items ++ replicate (outside_count parts.now) plain_driver) }
{
    if is_output(&parts.next()) {
        Ok(())
    } else {
        add_driver_each(drivers, &parts.parts())
    }
}

// The same for some declarations.
fn add_outside(
    drivers: &mut DriverShapes,
    declarations: &Cursor<'_, Form>,
) -> Result<(), AllocError>
    ensures { OnOk result (drivers.new.items ≡ drivers.old.items ++ replicate (length (inputs_from 0 (declared_ports declarations.now))) plain_driver) }
{
    let mut left = declarations.fork();
    while let Some(first) = left.open() {
        add_declared(drivers, &first.parts)?;
        left = first.next;
    }
    Ok(())
}

/// The design of so many ports, which are declared so, where the drivers of the processes drive these.
pub fn shape(
    alloc: Global,
    count: usize,
    driven: &[SignalId],
    declarations: &Cursor<'_, Form>,
) -> Result<Shape, AllocError>
    requires { count ≡ length (declared_ports declarations.now) }
    ensures given { IfOk result (λ shape. IsGiven (kernel_shape driven.now (declared_ports declarations.now)) shape) }
    ensures ring_free { IfOk result (λ shape. IsRingFree (shape_of shape.scalars.items)) }
{
    let mut scalars = undriven(alloc, count)?;
    connect(&mut scalars, driven)?;
    let mut drivers = Vec::new(alloc);
    add_drivers(&mut drivers, driven.len())?;
    add_outside(&mut drivers, declarations)?;
    Ok(Shape { scalars, drivers })
}

fn has_two(signal: &ScalarShape) -> bool
    ensures { result ≡ has_two signal.now }
{
    !signal.resolved && signal.sources.len() > 1
}

/// Whether an unresolved signal has two sources.
pub fn has_two_sources(scalars: &[ScalarShape]) -> bool
    ensures { result ≡ is_some (with_two 0 scalars.now) }
{
    for scalar in scalars {
        if has_two(scalar) {
            return true;
        }
    }
    false
}
