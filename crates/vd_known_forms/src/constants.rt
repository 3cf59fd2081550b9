//! Constants with expressions of their own. (IEEE 1076, constant declarations; static expressions)

ghost use Rattle.std.specs.Prelude.{◌≡◌, ◌≤◌, ◌∷◌, IfOk, List, OnOk, length, true};
ghost use Rattle.vd_composites.specs.Composites.{Value as AnyValue};
ghost use Rattle.vd_composites.specs.Subtypes.{Subtype};
ghost use Rattle.vd_environments.specs.Environments.{Argument, Indicated};
ghost use Rattle.vd_environments.specs.Got.{Got};
ghost use Rattle.vd_forest.specs.Store.{Extends, at};
ghost use Rattle.vd_value_rules.specs.Indicated.{indicated_in, static_of};
ghost use Rattle.vd_value_rules.specs.Made.{Indicates};
ghost use Rattle.vd_known_designs.specs.Designs.{AreIndicated, Knows};
ghost use Rattle.vd_known_forms.specs.Objects.{AreFacts};
ghost use Rattle.vd_meaning.specs.Declarations.{constant_known as known_as_constant};
ghost use Rattle.vd_static_values.specs.Entries.{IsFound};
ghost use Rattle.vd_value_rules.specs.Designs.{Design};
ghost use Rattle.vd_value_rules.specs.Knowledge.{Known, TwoIndicated, constants_of, early_value as value_early};
ghost use Rattle.vd_values.specs.declared.scalar.Scalar.{Scalar as AnyScalar};

use std::alloc::{AllocError, Global};
use vd_composites::{Bounds, Value};
use vd_declarations::DeclId;
use vd_known_designs::shapes::default_shape;
use vd_known_designs::{KnownDesign, TwoSubtypes};
use vd_static_names::copies::value_again;
use vd_static_values::fit;
use vd_value_rules::StaticSort;
use vd_value_rules::subtypes::has_bounds;

/// What is known of constants beside their value.
#[derive(Clone, Copy)]
struct ConstantFacts {
    /// How static they are.
    known: StaticSort,
    /// The bounds of their value, where that is an array.
    shape: Option<Bounds>,
}

/// The value of an expression that is so static, as one of a subtype, where it is locally static and doesn't stop.
pub fn early_value(
    alloc: Global,
    design: &KnownDesign<'_, '_>,
    own: u32,
    known: StaticSort,
    value: &Option<Value>,
) -> Result<Option<Value>, AllocError>
    requires { own ≤ length design.now.table.subtypes }
    ensures { (argument : Argument) → (known.is_local ≡ true → (given : Got Subtype) → IsFound value.now (argument given))
        → IfOk result (λ found. IsFound found (value_early (static_of known) argument (indicated_in (at design.now.table.subtypes own)))) }
{
    match value {
        Some(value) if known.is_local => {
            fit(alloc, &design.table.subtypes.store().cursor(own), value)
        }
        _ => Ok(None),
    }
}

/// How static constants of a subtype are whose expression is so static and has a value.
fn constant_known(
    design: &mut KnownDesign<'_, '_>,
    own: u32,
    known: StaticSort,
) -> Result<StaticSort, AllocError>
    requires { own ≤ length design.old.table.subtypes }
    ensures known { (d : Design) (i : Indicated) (k : Known) (ks : List Known) → Knows d design.old (k ∷ ks)
        → Indicates design.old.table.subtypes own i → IfOk result (λ s. static_of s ≡ known_as_constant (static_of known) i k.env) }
    ensures knows { (d : Design) (ks : List Known) → Knows d design.old ks → Knows d design.new ks }
    ensures same { design.new.table.subtypes ≡ design.old.table.subtypes }
{
    let bounds = design.table.subtypes.all_bounds(own)?;
    let has_bounds = has_bounds(&design.table.subtypes.store().cursor(own));
    Ok(StaticSort {
        is_local: known.is_local && bounds.is_local && has_bounds,
        is_global: !design.table.is_inside(),
    })
}

/// What is known of constants of a subtype beside their value, which is one of that subtype.
fn constant_facts(
    design: &mut KnownDesign<'_, '_>,
    own: u32,
    known: StaticSort,
    value: &Option<Value>,
) -> Result<ConstantFacts, AllocError>
    requires { own ≤ length design.old.table.subtypes }
    ensures facts { (d : Design) (i : Indicated) (k : Known) (ks : List Known) (g : Got (AnyValue AnyScalar)) → IsFound value.now g
        → Knows d design.old (k ∷ ks) → Indicates design.old.table.subtypes own i → IfOk result (λ x. AreFacts (static_of known) i g k.env x) }
    ensures knows { (d : Design) (ks : List Known) → Knows d design.old ks → Knows d design.new ks }
    ensures same { design.new.table.subtypes ≡ design.old.table.subtypes }
{
    match value {
        Some(value) => Ok(ConstantFacts {
            known: constant_known(design, own, known)?,
            shape: value.bounds(),
        }),
        None => Ok(ConstantFacts {
            known: StaticSort {
                is_local: false,
                is_global: !design.table.is_inside(),
            },
            shape: default_shape(&design.table.subtypes.store().cursor(own))?,
        }),
    }
}

/// Constants whose expression is so static and has this value, as one of their subtype. Where it has none, their value is known later.
pub fn constants(
    design: &mut KnownDesign<'_, '_>,
    alloc: Global,
    numbers: &[DeclId],
    of: TwoSubtypes,
    known: StaticSort,
    value: &Option<Value>,
) -> Result<(), AllocError>
    requires own_in { of.own ≤ length design.old.table.subtypes }
    requires choosing_in { of.choosing ≤ length design.old.table.subtypes }
    ensures knows { (d : Design) (i : TwoIndicated) (k : Known) (ks : List Known) (g : Got (AnyValue AnyScalar)) → IsFound value.now g
        → Knows d design.old (k ∷ ks) → AreIndicated design.old.table.subtypes of i
        → OnOk result (Knows d design.new (constants_of numbers.now i (static_of known) g k ∷ ks)) }
    ensures extends { OnOk result (Extends design.old.table.subtypes design.new.table.subtypes) }
{
    let facts = constant_facts(design, of.own, known, value)?;
    for number in numbers {
        let value = value_again(alloc, value)?;
        design.table.set_object(
            number.number(),
            of.own,
            of.choosing,
            value,
            facts.known,
            facts.shape,
        )?;
    }
    Ok(())
}
