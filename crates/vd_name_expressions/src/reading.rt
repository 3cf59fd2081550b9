//! Expressions of which something is wanted.

ghost use Rattle.std.specs.Prelude.{◌≡◌, IfOk};
ghost use Rattle.vd_forest.specs.Forest.{nothing, with_next};
ghost use Rattle.vd_forest.specs.Store.{Extends};
ghost use Rattle.vd_name_expressions.specs.Reads.{IsRead, read_beside};

use crate::edges::edge_of_no_signal;
use std::alloc::{AllocError, Global};
use vd_bytes::{Refusal, Refused};
use vd_forest::{Cursor, Store};
use vd_forms::Form;
use vd_name_rows::{At, Names};
use vd_naming::unresolved;
use vd_overloads::{Env, Wanted, resolve_expr};
use vd_resolved::Resolved;
use vd_walks::lesser;

/// What an expression comes to: the number of its tree, and the first rule that is broken.
#[derive(Clone, Copy)]
pub struct Read {
    pub tree: u32,
    pub first: Option<Refused>,
}

/// One expression of which something is wanted. What is refused of its names whatever is wanted is known already.
pub fn read_beside(
    alloc: Global,
    names: &Names,
    at: &At<'_>,
    wanted: &Wanted,
    tree: &Cursor<'_, Form>,
    pieces: Option<Refused>,
    out: &mut Store<Resolved>,
) -> Result<Read, AllocError>
    requires alone { with_next tree.now nothing ≡ tree.now }
    ensures is { IfOk result (λ read. IsRead out.new read (read_beside at.now names.now wanted.now tree.now pieces)) }
    ensures extends { Extends out.old out.new }
{
    let env = Env {
        surroundings: names.surroundings(at)?,
    };
    match resolve_expr(alloc, &env, tree, wanted, out) {
        Ok(number) => {
            let edge = edge_of_no_signal(alloc, names, &out.cursor(number))?;
            Ok(Read {
                tree: number,
                first: lesser(pieces, edge),
            })
        }
        Err(Refusal::Refused(refused)) => {
            let number = unresolved(alloc, tree, out)?;
            let edge = edge_of_no_signal(alloc, names, &out.cursor(number))?;
            Ok(Read {
                tree: number,
                first: lesser(lesser(pieces, edge), Some(refused)),
            })
        }
        Err(Refusal::Memory) => Err(AllocError),
    }
}
