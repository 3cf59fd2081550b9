//! The scalar values that a value is made of, over its nodes.

ghost use Rattle.std.specs.Prelude.{◌≡◌, ◌++◌, ◌∷◌, [], IfOk, OnOk, Some, option_to_list};
ghost use Rattle.vd_composites.specs.Composites.{leaves};
ghost use Rattle.vd_composites.specs.Leaves.{scalars_in};
ghost use Rattle.vd_composites.specs.Nodes.{after, read, scalar_in, value_in};

use crate::nodes::{Node, scalar_at};
use std::alloc::{AllocError, Global};
use vd_values::Scalar;

/// Adds the scalar value that a node is, where it is one.
fn add_scalar(scalars: &mut Vec<Scalar>, node: Node) -> Result<(), AllocError>
    ensures { OnOk result (scalars.new.items ≡ scalars.old.items ++ option_to_list (scalar_in (node ∷ []))) }
{
    if let Some(scalar) = scalar_at(&[node]) {
        scalars.push(scalar)?;
    }
    Ok(())
}

/// The scalar values among some nodes.
fn scalars_among(alloc: Global, nodes: &[Node]) -> Result<Vec<Scalar>, AllocError>
    ensures { IfOk result (λ scalars. scalars.items ≡ scalars_in nodes.now) }
{
    let mut scalars = Vec::with_capacity(alloc, nodes.len())?;
    for node in nodes {
        add_scalar(&mut scalars, *node)?;
    }
    Ok(scalars)
}

/// The scalar values that the value of some nodes is made of.
#[tactic(auto, using(crate::proofs::LeafLemmas::leaves_read))]
pub(crate) fn leaf_nodes(alloc: Global, nodes: &[Node]) -> Result<Vec<Scalar>, AllocError>
    requires { after 1 nodes.now ≡ Some 0 }
    ensures { IfOk result (λ scalars. scalars.items ≡ leaves (value_in (read nodes.now))) }
{
    scalars_among(alloc, nodes)
}
