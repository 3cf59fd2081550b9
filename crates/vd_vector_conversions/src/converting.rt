//! The whole pass.

ghost use Rattle.std.specs.Prelude.{◌≡◌, ◌≤◌, IfOk, length};
ghost use Rattle.vd_forest.specs.Forest.{Forest};
ghost use Rattle.vd_forest.specs.Store.{Holds};
ghost use Rattle.vd_resolved.specs.declared.node.Resolved.{Resolved};
ghost use Rattle.vd_vector_conversions.specs.Passes.{IsConverted, outside, with_conversions};

use crate::conversions::Converting;
use crate::declared::declared_apart;
use crate::facts::Facts;
use crate::inside::{Inside, Want};
use crate::marks::mark_declarations;
use crate::modes::{modes_of, names_logic_vector};
use crate::naturals::{Flavoured, Flavouring};
use crate::records::spread;
use std::alloc::{AllocError, Global};
use vd_forest::{Cursor, Store};
use vd_notes::tables_of;
use vd_resolved::{Resolved, Tree};
use vd_rewriting::{rewrite, rewrite_under};

/// What holds of the first unit of a design.
fn outside() -> Inside
    ensures { result ≡ outside }
{
    Inside {
        want: Want::Nothing,
        result: None,
    }
}

/// What is known of a design's declarations, and whether the elements of some record type are of both flavours.
fn facts_of(alloc: Global, tree: &Tree) -> Result<(Facts, bool), AllocError> {
    let tables = tables_of(alloc, tree)?;
    let known = mark_declarations(alloc, tree.declarations(), &tables)?;
    let apart = declared_apart(alloc, &known.flavours, tree.declarations())?;
    let modes = modes_of(alloc, tree)?;
    let facts = Facts {
        declared: apart.all,
        flavours: known.flavours,
        modes,
        twins: apart.twins,
    };
    Ok((facts, known.some_both))
}

/// A design's text, in whose aggregates no element stands for vectors of both flavours.
fn without_mixed(
    alloc: Global,
    facts: &Facts,
    tree: &Tree,
    out: &mut Store<Resolved>,
) -> Result<u32, AllocError>
    ensures { IfOk result (λ units. units ≤ length out.new) }
{
    spread(alloc, facts, &tree.cursor(), out)
}

/// The text in which the two vector types meet in conversions alone.
fn with_conversions(
    alloc: Global,
    facts: &Facts,
    units: &Cursor<'_, Resolved>,
    out: &mut Store<Resolved>,
) -> Result<u32, AllocError>
    ensures { IfOk result (λ made. Holds out.new made (with_conversions facts.now units.now)) }
{
    let mut between: Store<Flavoured> = Store::new(alloc);
    let first = rewrite(alloc, units, &mut between, &mut Flavouring { facts })?;
    let flavoured = between.cursor(first);
    let made = rewrite_under(alloc, &flavoured, outside(), out, &mut Converting { facts })?;
    Ok(made)
}

/// The text of a design with conversions.
fn converted(
    alloc: Global,
    facts: &Facts,
    some_both: bool,
    tree: &Tree,
    out: &mut Store<Resolved>,
) -> Result<u32, AllocError>
    ensures { IfOk result (λ made. (units : Forest Resolved) × Holds out.new made (with_conversions facts.now units)) }
{
    if !some_both {
        let made = with_conversions(alloc, facts, &tree.cursor(), out)?;
        return Ok(made);
    }
    let mut apart: Store<Resolved> = Store::new(alloc);
    let units = without_mixed(alloc, facts, tree, &mut apart)?;
    let made = with_conversions(alloc, facts, &apart.cursor(units), out)?;
    Ok(made)
}

/// A design, in which the two vector types of IEEE 1164 are types of their own that meet in conversions alone. Its elements of maps are named, and its calls
/// have their arguments by position. One without STD_LOGIC_VECTOR comes back as it is.
#[tactic(auto, using(crate::proofs::WholeLemmas::apart_made))]
pub fn convert_vectors(alloc: Global, tree: Tree) -> Result<Tree, AllocError>
    ensures { IfOk result (λ made. IsConverted tree made) }
{
    if !names_logic_vector(&tree) {
        return Ok(tree);
    }
    let (facts, some_both) = facts_of(alloc, &tree)?;
    let mut out: Store<Resolved> = Store::new(alloc);
    let units = converted(alloc, &facts, some_both, &tree, &mut out)?;
    Ok(Tree::of(out, units, facts.declared))
}
