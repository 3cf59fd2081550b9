//! Whether a body is like the declaration of its function.

ghost use Rattle.std.specs.Prelude.{◌≡◌, IfOk};
ghost use Rattle.vd_body_rules.specs.Items.{first_trees, item_of, items_of};
ghost use Rattle.vd_value_rules.specs.Bodies.{all_same_declared as all_declared_same, all_say_same, alone, differs as differ, is_like as are_alike, same_declared as declared_same, say_same as forests_same};
ghost use Rattle.vd_value_rules.specs.Designs.{Design};

use crate::items::{Item, declared_of};
use crate::pairs::{Pairs, paired};
use crate::same::{same_first, same_form, say_same};
use std::alloc::{AllocError, Global};
use vd_forest::Cursor;
use vd_resolved::Resolved;

/// Whether the first of some trees say the same.
fn same_tree(
    alloc: Global,
    pairs: &Pairs,
    f: &Cursor<'_, Resolved>,
    g: &Cursor<'_, Resolved>,
) -> Result<bool, AllocError>
    ensures { IfOk result (λ same. same ≡ forests_same pairs.now (alone f.now) (alone g.now)) }
{
    match (f.open(), g.open()) {
        (None, None) => Ok(true),
        (Some(x), Some(y)) => {
            if same_first(pairs, &x, &y) {
                say_same(alloc, pairs, &x.parts, &y.parts)
            } else {
                Ok(false)
            }
        }
        _ => Ok(false),
    }
}

/// Whether the first of some trees, as many as the numbers say, say the same one by one.
fn same_trees(alloc: Global, pairs: &Pairs, x: &Item<'_>, y: &Item<'_>) -> Result<bool, AllocError>
    ensures { IfOk result (λ same. same
        ≡ all_say_same pairs.now (first_trees x.now.count x.now.trees) (first_trees y.now.count y.now.trees)) }
{
    let mut f = x.trees.fork();
    let mut g = y.trees.fork();
    let mut left = x.count;
    let mut other = y.count;
    while left > 0 && other > 0 {
        let same = same_tree(alloc, pairs, &f, &g)?;
        if !same {
            return Ok(false);
        }
        f = f.next();
        g = g.next();
        left -= 1;
        other -= 1;
    }
    Ok(left == other)
}

/// Whether two functions declare the same at a place.
fn same_declared(
    alloc: Global,
    pairs: &Pairs,
    x: &Item<'_>,
    y: &Item<'_>,
) -> Result<bool, AllocError>
    ensures { IfOk result (λ same. same ≡ declared_same pairs.now (item_of x.now) (item_of y.now)) }
{
    if same_form(x.form, y.form) && x.name.as_slice() == y.name.as_slice() {
        same_trees(alloc, pairs, x, y)
    } else {
        Ok(false)
    }
}

/// Whether two functions declare the same one by one.
fn all_same_declared(
    alloc: Global,
    pairs: &Pairs,
    xs: &[Item<'_>],
    ys: &[Item<'_>],
) -> Result<bool, AllocError>
    ensures { IfOk result (λ same. same ≡ all_declared_same pairs.now (items_of xs.now) (items_of ys.now)) }
{
    let mut k = 0;
    while k < xs.len() && k < ys.len() {
        let same = same_declared(alloc, pairs, &xs[k], &ys[k])?;
        if !same {
            return Ok(false);
        }
        k += 1;
    }
    Ok(xs.len() == ys.len())
}

/// Whether a body with these parts is like a declaration with these.
pub fn is_like(
    alloc: Global,
    declaration: &Cursor<'_, Resolved>,
    body: &Cursor<'_, Resolved>,
) -> Result<bool, AllocError>
    ensures { IfOk result (λ alike. (d : Design) → alike ≡ are_alike d declaration.now body.now) }
{
    let xs = declared_of(alloc, declaration)?;
    let ys = declared_of(alloc, body)?;
    let pairs = paired(alloc, xs.as_slice(), ys.as_slice())?;
    let same = all_same_declared(alloc, &pairs, xs.as_slice(), ys.as_slice())?;
    if same {
        same_tree(alloc, &pairs, &declaration.skip(5), &body.skip(5))
    } else {
        Ok(false)
    }
}

/// Whether a body with these parts differs from a declaration, where there is one with parts.
pub fn differs(
    alloc: Global,
    declaration: &Cursor<'_, Resolved>,
    body: &Cursor<'_, Resolved>,
) -> Result<bool, AllocError>
    ensures { IfOk result (λ other. (d : Design) → other ≡ differ d declaration.now body.now) }
{
    match declaration.open() {
        None => Ok(false),
        Some(_) => {
            let alike = is_like(alloc, declaration, body)?;
            Ok(!alike)
        }
    }
}
