//! Nodes whose parts are walked.

ghost use Rattle.std.specs.Prelude.{◌≡◌, ◌≤◌, IfOk, length};
ghost use Rattle.vd_forest.specs.Forest.{nothing, more};
ghost use Rattle.vd_forest.specs.Store.{at, Holds, Extends};
ghost use Rattle.vd_walks.specs.Least.{lesser as lesser_refusal};
ghost use Rattle.vd_naming.specs.Expressions.{resolved};

use crate::made::Made;
use crate::nodes::add_node;
use std::alloc::AllocError;
use vd_bytes::Refused;
use vd_declarations::{DeclId, TypeId};
use vd_forest::{Opened, Store};
use vd_forms::Form;
use vd_name_rows::At;
use vd_resolved::Resolved;
use vd_walks::{Outcome, lesser};

/// A node whose parts are walked: what is known in front of it and inside it before its parts, and what its parts came to.
#[derive(Clone, Copy)]
pub struct Ended<'n, 'a> {
    pub node: &'n Opened<'a, Form>,
    pub outer: &'n At<'a>,
    pub inside: &'n At<'a>,
    pub inner: &'n Outcome<At<'a>>,
}

/// The node, with a declaration, a type and these parts, and a refusal beside those of its parts.
pub fn finished(
    ended: &Ended<'_, '_>,
    declaration: Option<DeclId>,
    mark: Option<TypeId>,
    parts: u32,
    first: Option<Refused>,
    out: &mut Store<Resolved>,
) -> Result<Made, AllocError>
    requires { parts ≤ length out.old }
    ensures holds { IfOk result (λ made. Holds out.new made.tree
        (more (resolved ended.now.node.now.form declaration mark) ended.now.node.now.text.now ended.now.node.now.place (at out.old parts) nothing)) }
    ensures first { IfOk result (λ made. made.first ≡ lesser_refusal ended.now.inner.now.first first) }
    ensures extends { Extends out.old out.new }
{
    let tree = add_node(ended.node, declaration, mark, parts, out)?;
    Ok(Made {
        tree,
        first: lesser(ended.inner.first, first),
    })
}
