//! Worked examples, which follow from the definitions by computing.

ghost use Rattle.vd_kernel.specs.Examples.{InertialKeepsTheRun, TransportKeepsTheEarlier, APulseIsSwallowed};
ghost use Rattle.vd_kernel.specs.Examples.{ADelayPasses, ATransactionIsLeft, NothingIsLeft, SourcesAreResolved, TwoSourcesStop};
ghost use Rattle.std.specs.Prelude.{◌≡◌, List, ⊤};
ghost use Rattle.vd_kernel.specs.Examples.{Move, OneRunEach};
ghost use Rattle.vd_kernel.specs.Examples.{AStimulusIsCutOff, PortsLeadInAndOut, AFailureStops};

use crate::correspondence::{Correspondence, same_run};

/// What assignments do to a driver.
pub fn worked_drivers()
    ensures inertial { InertialKeepsTheRun }
    ensures transport { TransportKeepsTheEarlier }
    ensures pulse { APulseIsSwallowed }
{}

/// Traces of small designs.
pub fn worked_traces()
    ensures delay { ADelayPasses }
    ensures left { ATransactionIsLeft }
    ensures quiet { NothingIsLeft }
    ensures resolved { SourcesAreResolved }
    ensures two { TwoSourcesStop }
    ensures stimulus { AStimulusIsCutOff }
    ensures ports { PortsLeadInAndOut }
    ensures failure { AFailureStops }
{}

/// Each design beside itself.
pub struct Itself;

impl Correspondence for Itself {
    ghost Case = { ⊤ };

    ghost Left = { List Move };

    ghost Right = { List Move };

    ghost joined = { λ c i j. i ≡ j };

    ghost related = { λ c p q. p ≡ q };
}

/// How designs get the same run from the theorem on designs that correspond.
pub fn worked_correspondence()
    ensures { OneRunEach }
{
    same_run::<Itself>();
}
