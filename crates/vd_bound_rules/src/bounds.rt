//! Where arrays need bounds.

ghost use Rattle.std.specs.Prelude.{◌≡◌, ◌∷◌, ◌&&◌, [], if◌then◌else◌, IfOk, List, OnOk};
ghost use Rattle.vd_known_designs.specs.Designs.{IsReady, Knows};
ghost use Rattle.vd_known_indications.specs.Places.{Finds};
ghost use Rattle.vd_walks.specs.Least.{least_of};
ghost use Rattle.vd_port_modes.specs.Source.{design_in};
ghost use Rattle.vd_value_rules.specs.Groups.{bounds};
ghost use Rattle.vd_value_rules.specs.Bounds.{operands_of};
ghost use Rattle.vd_value_rules.specs.Designs.{Design, is_2019};
ghost use Rattle.vd_value_rules.specs.Knowledge.{Known};
ghost use Rattle.vd_value_rules.specs.Standings.{State};

use crate::indications::unconstrained;
use crate::operands::operand_refusal;
use std::alloc::{AllocError, Global};
use vd_bytes::Refused;
use vd_forest::Opened;
use vd_known_designs::KnownDesign;
use vd_known_indications::Surroundings;
use vd_port_modes::Interfaces;
use vd_resolved::Resolved;
use vd_trees::Revision;
use vd_value_rules::Firsts;
use vd_walks::lesser;

/// Whether lengths of operands are asked for.
fn is_asked(revision: Revision, is_copied: bool) -> bool
    ensures { result ≡ (is_2019 revision && is_copied) }
{
    match revision {
        Revision::V2019 => is_copied,
        Revision::V1993 => false,
    }
}

/// 410 of what is written in text that is copied, in revision 2019.
fn copied_operands(
    design: &mut KnownDesign<'_, '_>,
    alloc: Global,
    revision: Revision,
    is_copied: bool,
    node: &Opened<'_, Resolved>,
) -> Result<Option<Refused>, AllocError>
    requires ready { IsReady design.old }
    ensures is { (d : Design) (s : State) (ks : List Known) → Knows d design.old (s.known ∷ ks) → IfOk result (λ found. found
        ≡ least_of (if is_2019 revision && is_copied then operands_of node.now.form.form d s node.now.form node.now.parts else [])) }
    ensures knows { (d : Design) (ks : List Known) → Knows d design.old ks → Knows d design.new ks }
{
    if is_asked(revision, is_copied) {
        operand_refusal(design, alloc, node)
    } else {
        Ok(None)
    }
}

/// The first refusals of a node.
pub fn bound_refusals(
    design: &mut KnownDesign<'_, '_>,
    interfaces: &Interfaces<'_>,
    alloc: Global,
    around: &Surroundings,
    node: &Opened<'_, Resolved>,
) -> Result<Firsts, AllocError>
    requires ready { IsReady design.old }
    ensures finds { Finds bounds (design_in interfaces.now) design.old around.now node.now result }
    ensures knows { (d : Design) (ks : List Known) → Knows d design.old ks → OnOk result (Knows d design.new ks) }
{
    let declared = unconstrained(design, alloc, node)?;
    let written = copied_operands(design, alloc, interfaces.revision(), around.is_copied, node)?;
    Ok(Firsts {
        of_names: None,
        of_rules: lesser(declared, written),
    })
}
