//! The walk over a design that weighs it.

ghost use Rattle.std.specs.Prelude.{◌≡◌, IfOk, OnOk};
ghost use Rattle.vd_forms.specs.Forms.{same_form};
ghost use Rattle.vd_weighing.specs.Weights.{weight_of};
ghost use Rattle.vd_weighing.specs.Limits.{at_most};
ghost use Rattle.vd_weighing.specs.Weighing.{counts_aside, weight_by, known_by};

use crate::generates::{case_generate, if_generate};
use crate::names::{declared_at, declares, has_generics, members, name_in};
use crate::nodes::own_weight;
use crate::numbers::{plus, product};
use crate::ports::entity_instance;
use crate::tables::Tables;
use crate::views::element_count;
use std::alloc::{AllocError, Global};
use vd_declarations::Declaration;
use vd_forest::{Cursor, Opened, Store};
use vd_forms::Form;
use vd_resolved::Resolved;
use vd_walks::{Entry, Outcome, Walking, walk};

/// What is kept of a tree: what its level weighs in front of it, and whether the tree counts aside, for the instances of it.
#[derive(Drop)]
struct Kept {
    before: u64,
    is_aside: bool,
}

/// Weighs a design with these declarations.
#[derive(Drop)]
struct Weigher<'a> {
    declarations: &'a [Declaration],
}

/// Whether nodes of the form are instances of entities.
fn is_entity_instance(form: Form) -> bool
    ensures { result ≡ same_form form Form.EntityInstantiation }
{
    matches!(form, Form::EntityInstantiation)
}

/// Whether nodes of the form are bodies of packages.
fn is_package_body(form: Form) -> bool
    ensures { result ≡ same_form form Form.PackageBody }
{
    matches!(form, Form::PackageBody)
}

/// Whether a tree counts aside: it is a package or function with generics, or the body of one.
fn is_aside(node: &Opened<'_, Resolved>, known: &Tables) -> bool
    ensures { result ≡ counts_aside node.now.form node.now.parts known.now }
{
    has_generics(node)
        || is_package_body(node.form.form) && known.has_sum(declares(&node.form, &node.parts))
}

/// What a tree weighs, given what its node and its parts do.
fn weight_of_tree(
    alloc: Global,
    declarations: &[Declaration],
    node: &Opened<'_, Resolved>,
    own: u64,
    known: &Tables,
) -> Result<u64, AllocError>
    ensures { IfOk result (λ weight. weight ≡ weight_by declarations.now node.now.form.form node.now.parts own known.now) }
{
    let parts = &node.parts;
    match node.form.form {
        Form::FunctionInstantiation => {
            let function = declared_at(&parts.skip(2));
            Ok(plus(own, known.sum(function)))
        }
        Form::ViewPort => {
            let view = declared_at(&parts.skip(2));
            Ok(product(own, known.times(view)))
        }
        Form::IfGenerate => {
            let before = if_generate(alloc, parts)?;
            Ok(plus(own, before))
        }
        Form::CaseGenerate => {
            let before = case_generate(alloc, parts)?;
            Ok(plus(own, before))
        }
        _ => Ok(own),
    }
}

/// Notes what a tree tells of packages, views and ports.
fn note(
    alloc: Global,
    declarations: &[Declaration],
    node: &Opened<'_, Resolved>,
    known: &mut Tables,
) -> Result<(), AllocError>
    ensures { OnOk result (known.new ≡ known_by declarations.now node.now.form.form node.now.form node.now.parts known.old) }
{
    let parts = &node.parts;
    match node.form.form {
        Form::PackageInstantiation => {
            let package = declared_at(&parts.skip(1));
            let olds = members(declarations, &package);
            let instance = declares(&node.form, parts);
            let news = members(declarations, &instance);
            known.add_instance(alloc, package, olds, news)?;
        }
        Form::ViewDeclaration => {
            let count = element_count(&parts.skip(2).parts(), known);
            known.put_elements(declares(&node.form, parts), count)?;
        }
        Form::ViewPort => {
            let count = known.times(declared_at(&parts.skip(2)));
            known.put_ports(&parts.skip(1).parts(), count)?;
        }
        _ => {}
    }
    Ok(())
}

impl<'a, 'b> Walking<'a, Resolved, Form, u64, Tables, Kept> for Weigher<'b> {
    ghost use Rattle.vd_weighing.specs.Weighing.{weigher};

    ghost walker = { λ by. weigher by.declarations.now };

    fn enter(
        &self,
        alloc: Global,
        node: &Opened<'a, Resolved>,
        at: u64,
        design: &mut Tables,
        _out: &mut Store<Form>,
    ) -> Result<Entry<u64, Kept>, AllocError> {
        if is_entity_instance(node.form.form) {
            let weight = entity_instance(alloc, self.declarations, &node.parts, design)?;
            return Ok(Entry::Done(Outcome {
                tree: 0,
                at: plus(at, weight),
                first: None,
            }));
        }
        let is_aside = is_aside(node, design);
        Ok(Entry::Inside {
            at: 0,
            kept: Kept {
                before: at,
                is_aside,
            },
        })
    }

    fn leave(
        &self,
        alloc: Global,
        kept: Kept,
        node: &Opened<'a, Resolved>,
        outcome: &mut Outcome<u64>,
        design: &mut Tables,
        _out: &mut Store<Form>,
    ) -> Result<(), AllocError> {
        let own = plus(outcome.at, own_weight(node.form.form));
        if kept.is_aside {
            outcome.at = kept.before;
            design.add_sum(declares(&node.form, &name_in(node)), own)?;
        } else {
            let weight = weight_of_tree(alloc, self.declarations, node, own, design)?;
            outcome.at = plus(kept.before, weight);
            note(alloc, self.declarations, node, design)?;
        }
        Ok(())
    }
}

/// The weight of a design with these declarations, or the greatest number of 64 bits where the weight is greater.
pub fn weight(
    alloc: Global,
    declarations: &[Declaration],
    units: &Cursor<'_, Resolved>,
) -> Result<u64, AllocError>
    ensures { IfOk result (λ weight. weight ≡ at_most (weight_of declarations.now units.now)) }
{
    let mut known = Tables::new(alloc);
    let mut made = Store::new(alloc);
    let outcome = walk(
        alloc,
        units,
        0,
        &mut known,
        &mut made,
        &Weigher { declarations },
    )?;
    Ok(plus(outcome.at, known.weight_of_instances()))
}
