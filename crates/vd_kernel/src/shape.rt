//! The signals and drivers of a design, as the kernel is given them.

ghost use Rattle.std.specs.Prelude.{◌≡◌, IfOk};

use crate::assignments::Source;
use crate::ids::SignalId;
use std::alloc::{AllocError, Global};
use std::marker::Model;
use vd_values::Scalar;

/// What gives a signal its value, in order.
pub type Sources = Vec<Source>;

/// A scalar signal, or a scalar element of one.
#[derive(Drop)]
pub struct ScalarShape {
    /// Whether its subtype is resolved.
    pub resolved: bool,
    /// The value that it begins with.
    pub initial: Scalar,
    pub sources: Sources,
    /// The actual of an associated `in` or `inout` port.
    pub actual: Option<SignalId>,
}

impl Model for ScalarShape {
    ghost use Rattle.std.specs.Prelude.{false, None};
    ghost use Rattle.vd_kernel.specs.Models.{Signal};

    ghost Value = { Signal };

    ghost view = { λ s. record { initial = s.initial; is_resolved = s.resolved; sources = s.sources.items; actual = s.actual; is_out = false; input = None } };
}

impl ScalarShape {
    /// One more of it.
    pub fn copied(&self, alloc: Global) -> Result<ScalarShape, AllocError>
        ensures { IfOk result (λ s. s ≡ self.now) }
    {
        let sources = Vec::from_slice(alloc, &self.sources)?;
        Ok(ScalarShape {
            resolved: self.resolved,
            initial: self.initial,
            sources,
            actual: self.actual,
        })
    }
}

/// A driver.
#[derive(Clone, Copy, Debug)]
pub struct DriverShape {
    /// The initial value of the signal that it is a source of.
    pub initial: Scalar,
}

/// The scalar signals of a design, each named by its place.
pub type ScalarShapes = Vec<ScalarShape>;

/// The drivers of a design, each named by its place.
pub type DriverShapes = Vec<DriverShape>;

/// What the kernel is told of a design.
#[derive(Drop)]
pub struct Shape {
    pub scalars: ScalarShapes,
    pub drivers: DriverShapes,
}
