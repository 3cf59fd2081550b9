//! Trees that are copied, kept, and made.
#![tactic(auto, using(vd_forest::proofs::StoreLemmas::growing))]

ghost use Rattle.std.specs.Prelude.{◌≡◌, ◌≤◌, IfOk, length};
ghost use Rattle.vd_forest.specs.Store.{Extends};

use std::alloc::{AllocError, Global};
use vd_bytes::Place;
use vd_declarations::DeclId;
use vd_forest::{Cursor, Opened, Store};
use vd_forms::Form;
use vd_notes::{absent, word};
use vd_resolved::{Resolved, Tree};

/// A node that names nothing and has no type.
pub(crate) fn plain(form: Form) -> Resolved {
    Resolved {
        form,
        declaration: None,
        mark: None,
        position: 0,
    }
}

/// The trees behind the first one.
pub(crate) fn behind(out: &Store<Resolved>, number: u32) -> u32
    requires { number ≤ length out.now }
    ensures { result ≤ length out.now }
{
    match out.head(number) {
        Some(head) => head.next,
        None => 0,
    }
}

/// The parts of the first tree.
pub(crate) fn inside(out: &Store<Resolved>, number: u32) -> u32
    requires { number ≤ length out.now }
    ensures { result ≤ length out.now }
{
    match out.head(number) {
        Some(head) => head.parts,
        None => 0,
    }
}

/// The first of some trees with these parts, in front of others.
pub(crate) fn with_parts(
    out: &mut Store<Resolved>,
    tree: u32,
    parts: u32,
    next: u32,
) -> Result<u32, AllocError>
    requires tree_in { tree ≤ length out.old }
    requires parts_in { parts ≤ length out.old }
    requires next_in { next ≤ length out.old }
    ensures within { IfOk result (λ made. made ≤ length out.new) }
    ensures extends { Extends out.old out.new }
{
    let Some(head) = out.head(tree) else {
        return Ok(next);
    };
    let (form, place) = (head.form, head.place);
    let made = out.add(form, &[], place, parts, next)?;
    Ok(made)
}

/// A tree once more, in front of others.
pub(crate) fn copy_of(
    out: &mut Store<Resolved>,
    tree: &Opened<'_, Resolved>,
    next: u32,
) -> Result<u32, AllocError>
    requires { next ≤ length out.old }
    ensures within { IfOk result (λ made. made ≤ length out.new) }
    ensures extends { Extends out.old out.new }
{
    let parts = out.copy(&tree.parts)?;
    let made = out.add(tree.form, tree.text, tree.place, parts, next)?;
    Ok(made)
}

/// The first of some trees once more, in front of others.
pub(crate) fn copy_first(
    out: &mut Store<Resolved>,
    trees: &Cursor<'_, Resolved>,
    next: u32,
) -> Result<u32, AllocError>
    requires { next ≤ length out.old }
    ensures within { IfOk result (λ made. made ≤ length out.new) }
    ensures extends { Extends out.old out.new }
{
    match trees.open() {
        Some(first) => copy_of(out, &first, next),
        None => Ok(next),
    }
}

/// A tree by itself, with parts that stand in a store.
pub(crate) fn kept(
    alloc: Global,
    out: &Store<Resolved>,
    node: &Opened<'_, Resolved>,
    parts: u32,
) -> Result<Tree, AllocError>
    requires { parts ≤ length out.now }
{
    let mut store = Store::new(alloc);
    let copied = store.copy(&out.cursor(parts))?;
    let made = store.add(node.form, node.text, node.place, copied, 0)?;
    Ok(Tree::of(store, made, Vec::new(alloc)))
}

/// The end of a unit, as it is before names are laid out.
pub(crate) fn closing(out: &mut Store<Resolved>, place: Place, next: u32) -> Result<u32, AllocError>
    requires { next ≤ length out.old }
    ensures within { IfOk result (λ made. made ≤ length out.new) }
    ensures extends { Extends out.old out.new }
{
    let name = absent(out, place, 0)?;
    let words = out.add(plain(Form::ClosingWord), &[], place, 0, name)?;
    let made = out.add(plain(Form::Closing), &[], place, words, next)?;
    Ok(made)
}

/// The body of a package, with these declarations in it.
pub(crate) fn package_body(
    out: &mut Store<Resolved>,
    package: u32,
    name: &[u8],
    place: Place,
    items: u32,
) -> Result<u32, AllocError>
    requires { items ≤ length out.old }
    ensures within { IfOk result (λ made. made ≤ length out.new) }
    ensures extends { Extends out.old out.new }
{
    let end = closing(out, place, 0)?;
    let part = out.add(plain(Form::DeclarativePart), &[], place, items, end)?;
    let parts = word(out, name, Some(DeclId::of(package)), None, place, part)?;
    let made = out.add(plain(Form::PackageBody), &[], place, parts, 0)?;
    Ok(made)
}

/// A unit with an empty context.
pub(crate) fn design_unit(
    out: &mut Store<Resolved>,
    unit: &Cursor<'_, Resolved>,
    place: Place,
) -> Result<u32, AllocError>
    ensures within { IfOk result (λ made. made ≤ length out.new) }
    ensures extends { Extends out.old out.new }
{
    let main = copy_first(out, unit, 0)?;
    let parts = out.add(plain(Form::ContextClause), &[], place, 0, main)?;
    let made = out.add(plain(Form::DesignUnit), &[], place, parts, 0)?;
    Ok(made)
}
