//! Selected names that have to mean one declaration, without its type.

ghost use Rattle.std.specs.Prelude.{◌≡◌, None, IfOk};
ghost use Rattle.vd_forest.specs.Forest.{nothing, more};
ghost use Rattle.vd_forest.specs.Store.{Holds, Extends};
ghost use Rattle.vd_visible.specs.Sights.{sight_from};
ghost use Rattle.vd_name_rows.specs.Refusals.{broken};
ghost use Rattle.vd_naming.specs.Paths.{named_path, one_that as only_that, rule_of as rule_by};
ghost use Rattle.vd_naming.specs.Fits.{fits};

use std::alloc::{AllocError, Global};
use vd_bytes::Refused;
use vd_declarations::DeclId;
use vd_forest::{Opened, Store};
use vd_forms::Form;
use vd_name_entering::{Made, add_named};
use vd_name_rows::Names;
use vd_naming::{Fit, Meant, one_that, rule_of};
use vd_resolved::Resolved;
use vd_visible::Surroundings;

/// What is found of a name: the declaration, and the rule that is broken where there is none.
#[derive(Clone, Copy)]
pub(crate) struct Found {
    pub(crate) named: Option<DeclId>,
    pub(crate) rule: u16,
}

/// What is found of a name that means this.
pub(crate) fn found_of(names: &Names, place: &Surroundings<'_>, fit: Fit, meant: &Meant) -> Found
    ensures named { result.named ≡ only_that (fits fit (sight_from place.now) names.now) meant.now }
    ensures rule { result.rule ≡ rule_by meant.now }
{
    Found {
        named: one_that(names, place, fit, meant),
        rule: rule_of(meant),
    }
}

/// A name that breaks this rule.
pub(crate) fn unknown_name(
    alloc: Global,
    rule: u16,
    node: &Opened<'_, Form>,
    out: &mut Store<Resolved>,
) -> Result<Made, AllocError>
    ensures holds { IfOk result (λ made. Holds out.new made.tree
        (named_path None (more node.now.form node.now.text.now node.now.place node.now.parts nothing))) }
    ensures first { IfOk result (λ made. made.first ≡ broken rule node.now.place) }
    ensures extends { Extends out.old out.new }
{
    let tree = add_named(alloc, None, node, 0, out)?;
    let first = Some(Refused {
        place: node.place,
        rule,
    });
    Ok(Made { tree, first })
}
