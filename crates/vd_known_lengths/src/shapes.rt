//! The shapes of expressions.

ghost use Rattle.std.specs.Prelude.{◌≡◌, ◌∷◌, IfOk, List};
ghost use Rattle.vd_known_designs.specs.Designs.{IsReady, Knows};
ghost use Rattle.vd_known_lengths.specs.Extents.{IsExtent, IsWithin};
ghost use Rattle.vd_known_lengths.specs.Shapes.{IsShape};
ghost use Rattle.vd_value_rules.specs.Designs.{Design};
ghost use Rattle.vd_value_rules.specs.Knowledge.{Known};
ghost use Rattle.vd_value_rules.specs.Lengths.{Shaped, nth_shaping, shapings};

use crate::extents::Extent;
use crate::measuring::measured_tree;
use crate::over::Over;
use crate::subtypes::{is_array, taken, taken_elements};
use std::alloc::{AllocError, Global};
use vd_composites::Bounds;
use vd_forest::{Cursor, Store};
use vd_known_designs::KnownDesign;
use vd_resolved::Resolved;
use vd_value_rules::IndicatedForm;

/// What is known of the shape of an expression.
#[derive(Clone, Copy, Debug)]
pub struct Shape {
    pub is_array: bool,
    pub length: Option<u128>,
    /// The values that choices must take, where it is scalar.
    pub taken: Bounds,
    /// The values that each element of choices must take, where it is an array.
    pub taken_by_elements: Bounds,
}

/// What rules ask of it.
fn shape_in(subtypes: &Store<IndicatedForm>, extent: Extent) -> Shape
    requires { IsWithin subtypes.now extent }
    ensures { (s : Shaped) → IsExtent subtypes.now extent s → IsShape result s }
{
    Shape {
        is_array: is_array(subtypes, extent.subtype),
        length: extent.length,
        taken: taken(subtypes, extent.subtype),
        taken_by_elements: taken_elements(subtypes, extent.subtype),
    }
}

/// The shape of the first tree of a forest. Each tree in it is looked at once, but indexes and slices once more for each list in brackets round them.
pub fn shape_of(
    design: &mut KnownDesign<'_, '_>,
    alloc: Global,
    tree: &Cursor<'_, Resolved>,
) -> Result<Shape, AllocError>
    requires ready { IsReady design.old }
    ensures shape { (d : Design) (k : Known) (ks : List Known) → Knows d design.old (k ∷ ks)
        → IfOk result (λ x. IsShape x (nth_shaping 0 (shapings d k tree.now)).shaped) }
    ensures knows { (d : Design) (ks : List Known) → Knows d design.old ks → Knows d design.new ks }
    ensures subtypes { design.new.table.subtypes ≡ design.old.table.subtypes }
{
    let ground = design.table.ground(design.revision, design.declarations);
    let over = Over {
        ground,
        table: &design.table,
    };
    let measured = measured_tree(alloc, &over, &mut design.fields, tree)?;
    Ok(shape_in(ground.subtypes, measured.extent))
}
