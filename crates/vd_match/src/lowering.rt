//! The statements with choices and the operators of revision 2019, one pass behind the other, with the support package in front where it is needed.

ghost use Rattle.std.specs.Prelude.{◌≡◌, ◌≤◌, IfOk, length};
ghost use Rattle.vd_match.specs.Packages.{in_front};

use crate::choices::lower_choices;
use crate::operations::lower_operations;
use crate::packages::{Shift, is_called, put_behind, put_in_front};
use crate::support::Support;
use std::alloc::{AllocError, Global};
use vd_declarations::Declaration;
use vd_forest::{Opened, Store};
use vd_lowering::operators::Operators;
use vd_notes::Noted;
use vd_noting::{Noting, all_copied};
use vd_resolved::{Resolved, Tree};
use vd_rewriting::{Rewriting, copy_shared, rewrite};

/// A design between two passes.
#[derive(Drop)]
struct Between {
    trees: Store<Noted>,
    units: u32,
}

/// With comparisons and matches in place of choices that revision 1993 doesn't take.
fn with_choices(
    alloc: Global,
    declarations: &[Declaration],
    support: &Support,
    before: &Between,
) -> Result<Between, AllocError>
    requires { before.now.units ≤ length before.now.trees }
    ensures { IfOk result (λ made. made.units ≤ length made.trees) }
{
    let mut trees = Store::new(alloc);
    let from = before.trees.cursor(before.units);
    let units = lower_choices(alloc, declarations, support, &from, &mut trees)?;
    Ok(Between { trees, units })
}

/// With calls and other operators in place of those that revision 1993 lacks.
fn with_operations(
    alloc: Global,
    declarations: &[Declaration],
    support: &Support,
    before: &Between,
) -> Result<Between, AllocError>
    requires { before.now.units ≤ length before.now.trees }
    ensures { IfOk result (λ made. made.units ≤ length made.trees) }
{
    let operators = Operators::of(alloc, declarations)?;
    let mut trees = Store::new(alloc);
    let from = before.trees.cursor(before.units);
    let units = lower_operations(alloc, declarations, support, &operators, &from, &mut trees)?;
    Ok(Between { trees, units })
}

/// The pass that leaves out notes.
#[derive(Drop)]
struct Bare;

impl Rewriting<Noted, Resolved> for Bare {
    ghost use Rattle.vd_rewriting.specs.Forms.{forms_pass};

    ghost pass = { λ _. forms_pass (λ n. n.node) };

    fn make(
        &mut self,
        out: &mut Store<Resolved>,
        node: &Opened<'_, Noted>,
        parts: u32,
        next: u32,
    ) -> Result<u32, AllocError> {
        out.add(node.form.node, node.text, node.place, parts, next)
    }
}

/// A design without the operators and choices that revision 1993 lacks: functions of the support package, whose declarations stand behind all others
/// where the shift says, stand for some. The package itself isn't there yet. The only error is that memory ran out.
pub fn lower_matches(
    alloc: Global,
    noting: Noting,
    shift: Shift,
    supporting: &Tree,
) -> Result<Tree, AllocError>
    requires { noting.units ≤ length noting.trees }
{
    let Noting {
        trees,
        units,
        mut declarations,
    } = noting;
    put_behind(alloc, &mut declarations, shift, supporting)?;
    let support = Support::of(alloc, &declarations, shift.first)?;
    let made = with_choices(alloc, &declarations, &support, &Between { trees, units })?;
    let made = with_operations(alloc, &declarations, &support, &made)?;
    let mut out = Store::new(alloc);
    let units = rewrite(alloc, &made.trees.cursor(made.units), &mut out, &mut Bare)?;
    Ok(Tree::of(out, units, declarations))
}

/// The declarations that are wanted: those of the support package, behind the others, only where one of them is named.
fn wanted(alloc: Global, tree: &Tree, shift: Shift) -> Result<Vec<Declaration>, AllocError> {
    let mut declarations = all_copied(alloc, tree.declarations())?;
    if !is_called(alloc, &tree.cursor(), shift.first)? {
        declarations.truncate(shift.first as usize);
    }
    Ok(declarations)
}

/// A design with the support package in front, as it stands, where a unit calls one of its functions, and without its declarations otherwise.
pub fn with_package(
    alloc: Global,
    tree: &Tree,
    shift: Shift,
    supporting: &Tree,
) -> Result<Tree, AllocError>
    ensures { IfOk result (λ made. made.units ≡ in_front shift.given shift.first supporting.now.units tree.now.units) }
{
    let mut out = Store::new(alloc);
    let units = copy_shared(alloc, &tree.cursor(), &mut out)?;
    let units = put_in_front(alloc, &mut out, units, shift, supporting)?;
    let declarations = wanted(alloc, tree, shift)?;
    Ok(Tree::of(out, units, declarations))
}
