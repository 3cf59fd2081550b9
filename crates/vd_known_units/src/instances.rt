//! Instances of packages, which have what the package declares where its generics stand for the actuals.

ghost use Rattle.std.specs.Prelude.{◌≡◌, ◌∷◌, List, OnOk, map};
ghost use Rattle.vd_known_designs.specs.Designs.{IsReady, Knows};
ghost use Rattle.vd_known_forms.specs.Views.{HasViews};
ghost use Rattle.vd_known_designs.specs.Contents.{or_nothing};
ghost use Rattle.vd_meaning.specs.Meanings.{map_element, meanings};
ghost use Rattle.vd_meaning.specs.Names.{number_or as number_or_none};
ghost use Rattle.vd_value_rules.specs.Declaring.{actuals_known, declared as all_declared, generics_stand as all_stand, instance_of_package};
ghost use Rattle.vd_value_rules.specs.Designs.{Design};
ghost use Rattle.vd_value_rules.specs.Knowledge.{Known, parts_at};

use crate::copies::copies_in;
use crate::declarations::declared;
use crate::states::remember;
use std::alloc::{AllocError, Global};
use vd_declarations::DeclId;
use vd_forest::Cursor;
use vd_known_designs::KnownDesign;
use vd_known_generics::{generics_stand, taken};
use vd_operations::{declaration_of, elements_of, number_made};
use vd_port_modes::Interfaces;
use vd_resolved::Resolved;

/// The number of a declaration; 0 where there is none.
fn number_or(declaration: Option<DeclId>) -> DeclId
    ensures { result ≡ number_or_none declaration }
{
    match declaration {
        Some(number) => number,
        None => DeclId::of(0),
    }
}

/// The text of a package, if there is one, where its generics stand for the actuals of an instance.
fn text_declared<'a>(
    design: &mut KnownDesign<'a, '_>,
    interfaces: &Interfaces<'_>,
    alloc: Global,
    original: DeclId,
    instance: DeclId,
    elements: &Option<Cursor<'a, Resolved>>,
    text: &Option<Cursor<'a, Resolved>>,
) -> Result<(), AllocError>
    requires ready { IsReady design.old }
    ensures knows { (d : Design) (k : Known) (ks : List Known) → HasViews d interfaces.now → Knows d design.old (k ∷ ks)
        → OnOk result (Knows d design.new (all_declared d (parts_at 2 (or_nothing text.now)) (all_stand d (parts_at 1 (or_nothing text.now))
        (actuals_known d original instance (map map_element (meanings d.table (or_nothing elements.now))) k) k) ∷ ks)) }
{
    match text {
        Some(text) => {
            let generics = text.skip(1).parts();
            generics_stand(design, alloc, original, instance, elements, &generics)?;
            declared(design, interfaces, alloc, &text.skip(2).parts())
        }
        None => Ok(()),
    }
}

/// What an instance of a package with these parts declares. The text of the package is walked over again for each of its instances.
pub(crate) fn instance_declared<'a>(
    design: &mut KnownDesign<'a, '_>,
    interfaces: &Interfaces<'_>,
    alloc: Global,
    node: &Resolved,
    parts: &Cursor<'a, Resolved>,
) -> Result<(), AllocError>
    requires ready { IsReady design.old }
    ensures knows { (d : Design) (k : Known) (ks : List Known) → HasViews d interfaces.now → Knows d design.old (k ∷ ks)
        → OnOk result (Knows d design.new (instance_of_package d node.now parts.now k ∷ ks)) }
{
    let original = number_or(declaration_of(&parts.skip(1)));
    let instance = number_made(node, parts);
    let elements = elements_of(&parts.skip(2));
    let text = design.table.package(original.number());
    remember(design)?;
    text_declared(
        design, interfaces, alloc, original, instance, &elements, &text,
    )?;
    let copies = copies_in(alloc, design.declarations, original, instance)?;
    taken(design, alloc, &copies)
}
