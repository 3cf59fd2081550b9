//! Ports, which are declared together at the end of their clause. (IEEE 1076, port clauses)

ghost use Rattle.std.specs.Prelude.{◌≤◌, IfOk, length};
ghost use Rattle.vd_forest.specs.Store.{Extends};
ghost use Rattle.vd_name_entering.specs.Entered.{IsEntered};
ghost use Rattle.vd_naming.specs.Endings.{entering_ports, ports_end as ports_declared};
ghost use Rattle.vd_name_entering.specs.Ended.{seen_ended};
ghost use Rattle.vd_name_entering.specs.Made.{IsMade};

use crate::objects::enter_objects;
use std::alloc::{AllocError, Global};
use vd_bytes::Refused;
use vd_declarations::{Class, RegionId};
use vd_forest::{Cursor, Store};
use vd_forms::Form;
use vd_name_entering::{Ended, Made, finished};
use vd_name_rows::Names;
use vd_resolved::Resolved;
use vd_walks::lesser;

/// Enters the ports of a clause, each list with the type at its node.
#[tactic(auto, using(vd_walks::proofs::OrderLaws::lesser_brackets, vd_walks::proofs::OrderLaws::lesser_right))]
pub fn enter_ports(
    alloc: Global,
    names: &mut Names,
    region: RegionId,
    parts: &Cursor<'_, Form>,
    nodes: &Cursor<'_, Resolved>,
) -> Result<Option<Refused>, AllocError>
    ensures { IfOk result (λ first. IsEntered names.new first (entering_ports region parts.now nodes.now names.old)) }
{
    let mut first = None;
    let mut left = parts.fork();
    let mut made = nodes.fork();
    while let Some(part) = left.open() {
        let Some(node) = made.form() else {
            return Ok(first);
        };
        let list = part.parts.skip(1).parts();
        let refused = enter_objects(
            alloc,
            names,
            region,
            &Class::Port,
            part.form,
            &part.parts,
            &node.mark,
            &list,
        )?;
        first = lesser(first, refused);
        made = made.next();
        left = part.next;
    }
    Ok(first)
}

/// Declares the ports of a clause.
pub fn ports_end(
    alloc: Global,
    names: &mut Names,
    ended: &Ended<'_, '_>,
    out: &mut Store<Resolved>,
) -> Result<Made, AllocError>
    requires { ended.now.inner.now.tree ≤ length out.old }
    ensures is { IfOk result (λ made. IsMade out.new names.new made (ports_declared (seen_ended out.old names.old ended.now))) }
    ensures extends { Extends out.old out.new }
{
    let outer = ended.outer;
    let nodes = out.cursor(ended.inner.tree);
    let first = enter_ports(alloc, names, outer.region, &ended.node.parts, &nodes)?;
    let made = finished(ended, None, None, ended.inner.tree, first, out)?;
    Ok(made)
}
