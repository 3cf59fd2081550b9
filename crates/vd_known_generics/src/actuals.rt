//! The actuals of an instance.

ghost use Rattle.std.specs.Prelude.{◌≡◌, ◌∷◌, [], IfOk, List, OnOk, map, ℕ};
ghost use Rattle.vd_known_generics.specs.Actuals.{AreActuals, IsActual, actual_at as known_at};
ghost use Rattle.vd_known_generics.specs.Elements.{AreElements};
ghost use Rattle.vd_known_designs.specs.Designs.{IsReady, Knows};
ghost use Rattle.vd_known_designs.specs.Contents.{or_nothing};
ghost use Rattle.vd_meaning.specs.Facets.{MapElement};
ghost use Rattle.vd_meaning.specs.Generics.{actuals_of};
ghost use Rattle.vd_meaning.specs.Meanings.{map_element, meanings};
ghost use Rattle.vd_value_rules.specs.Declaring.{actuals_known as all_known, two_actuals};
ghost use Rattle.vd_value_rules.specs.Designs.{Design};
ghost use Rattle.vd_value_rules.specs.Knowledge.{Known};

use crate::elements::{Given, element_for, given_by};
use crate::functions::{actual_mark, generics_of};
use std::alloc::{AllocError, Global};
use vd_declarations::DeclId;
use vd_forest::Cursor;
use vd_known_designs::{KnownDesign, TwoSubtypes};
use vd_known_indications::nodes;
use vd_resolved::Resolved;
use vd_static_values::Node;

/// The actual of a generic, of which one facet counts by what the generic is.
#[derive(Drop)]
pub struct Actual {
    /// What the map gives for a constant, unless its default stands for it.
    pub given: Option<Given>,
    /// The subtypes of a type.
    pub indicated: TwoSubtypes,
    /// What the instance declares for a function.
    pub copy: DeclId,
}

/// The actual of a generic with a place among the generics, for which the instance declares a copy.
fn actual_at(
    design: &KnownDesign<'_, '_>,
    alloc: Global,
    nodes: &[Node<'_>],
    place: usize,
    generic: DeclId,
    copy: DeclId,
) -> Result<Actual, AllocError>
    ensures { (d : Design) (k : Known) (ks : List Known) (xs : List MapElement) → Knows d design.now (k ∷ ks) → AreElements k.env nodes.now xs
        → IfOk result (λ x. IsActual design.now.table.subtypes d.table x (known_at d k xs place generic copy)) }
{
    let given = given_by(alloc, element_for(nodes, place, generic))?;
    let mark = actual_mark(design.declarations, copy);
    Ok(Actual {
        given,
        indicated: design.marked(Some(mark)),
        copy,
    })
}

/// The actuals of generics, by what the instance declares for each.
///
/// It looks through the elements of the map once for each generic, of which an instance has few.
fn actuals_between(
    design: &KnownDesign<'_, '_>,
    alloc: Global,
    nodes: &[Node<'_>],
    generics: &[DeclId],
    copies: &[DeclId],
) -> Result<Vec<Actual>, AllocError>
    ensures { (d : Design) (k : Known) (ks : List Known) (xs : List MapElement) → Knows d design.now (k ∷ ks) → AreElements k.env nodes.now xs
        → IfOk result (λ actuals. AreActuals design.now.table.subtypes d.table actuals.items (two_actuals
        (actuals_of d.table 0 generics.now copies.now xs k.env) (actuals_of d.table 0 generics.now copies.now xs k.choosing) copies.now)) }
{
    let mut actuals = Vec::new(alloc);
    for at in 0..generics.len().min(copies.len()) {
        let actual = actual_at(design, alloc, nodes, at, generics[at], copies[at])?;
        actuals.push(actual)?;
    }
    Ok(actuals)
}

/// What the elements of a map come to, if there is one.
fn element_nodes<'b>(
    design: &mut KnownDesign<'_, '_>,
    alloc: Global,
    elements: &Option<Cursor<'b, Resolved>>,
) -> Result<Vec<Node<'b>>, AllocError>
    requires ready { IsReady design.old }
    ensures elements { (d : Design) (k : Known) (ks : List Known) → Knows d design.old (k ∷ ks)
        → IfOk result (λ xs. AreElements k.env xs.items (map map_element (meanings d.table (or_nothing elements.now)))) }
    ensures knows { (d : Design) (ks : List Known) → Knows d design.old ks → Knows d design.new ks }
    ensures subtypes { design.new.table.subtypes ≡ design.old.table.subtypes }
{
    match elements {
        Some(elements) => nodes(design, alloc, elements),
        None => Ok(Vec::new(alloc)),
    }
}

/// The actuals of an instance, whose map has these elements, if there is one.
pub fn actuals_known(
    design: &mut KnownDesign<'_, '_>,
    alloc: Global,
    generic: DeclId,
    instance: DeclId,
    elements: &Option<Cursor<'_, Resolved>>,
) -> Result<Vec<Actual>, AllocError>
    requires ready { IsReady design.old }
    ensures actuals { (d : Design) (k : Known) (ks : List Known) → Knows d design.old (k ∷ ks)
        → IfOk result (λ actuals. AreActuals design.old.table.subtypes d.table actuals.items
        (all_known d generic instance (map map_element (meanings d.table (or_nothing elements.now))) k)) }
    ensures knows { (d : Design) (ks : List Known) → Knows d design.old ks → Knows d design.new ks }
    ensures subtypes { design.new.table.subtypes ≡ design.old.table.subtypes }
{
    let nodes = element_nodes(design, alloc, elements)?;
    let generics = generics_of(design.declarations, generic);
    let copies = generics_of(design.declarations, instance);
    actuals_between(design, alloc, &nodes, generics, copies)
}
