//! What is written with a length of its own.

ghost use Rattle.std.specs.Prelude.{◌≡◌, ◌∷◌, IfOk, List};
ghost use Rattle.vd_bound_rules.specs.Written.{IsTypeLength, read_written};
ghost use Rattle.vd_environments.specs.Environments.{Indicated};
ghost use Rattle.vd_value_rules.specs.Indicated.{indicated_in};
ghost use Rattle.vd_value_rules.specs.Made.{Indicates};
ghost use Rattle.vd_known_designs.specs.Designs.{IsReady, Knows};
ghost use Rattle.vd_value_rules.specs.Bounds.{WithLength, differs_from_type, is_indefinite as is_of_no_length, same_length as are_as_long, written_of};
ghost use Rattle.vd_value_rules.specs.Designs.{Design};
ghost use Rattle.vd_value_rules.specs.Knowledge.{Known, at_mark};
ghost use Rattle.vd_value_rules.specs.Lengths.{nth_shaping, shapings};
ghost use Rattle.vd_value_rules.specs.Standings.{State};

use crate::aggregates::elements_given;
use std::alloc::{AllocError, Global};
use vd_declarations::TypeId;
use vd_forest::{Cursor, Opened};
use vd_forms::Form;
use vd_known_designs::KnownDesign;
use vd_known_lengths::operands::is_one_element;
use vd_known_lengths::shape_of;
use vd_resolved::Resolved;
use vd_value_rules::IndicatedForm;
use vd_value_rules::array_facts::{array_bounds, static_length};

/// The length of a literal, an aggregate or a concatenation.
#[derive(Clone, Copy, Debug)]
pub(crate) enum Written {
    WithLength(Option<u128>),
    NotAsked,
}

/// The length of the first tree, as a whole.
fn own_length(
    design: &mut KnownDesign<'_, '_>,
    alloc: Global,
    tree: &Cursor<'_, Resolved>,
) -> Result<Written, AllocError>
    requires ready { IsReady design.old }
    ensures is { (d : Design) (k : Known) (ks : List Known) → Knows d design.old (k ∷ ks)
        → IfOk result (λ w. read_written w ≡ WithLength (nth_shaping 0 (shapings d k tree.now)).shaped.length) }
    ensures knows { (d : Design) (ks : List Known) → Knows d design.old ks → Knows d design.new ks }
{
    let shape = shape_of(design, alloc, tree)?;
    Ok(Written::WithLength(shape.length))
}

/// What the first tree is.
fn length_written(
    design: &mut KnownDesign<'_, '_>,
    alloc: Global,
    tree: &Cursor<'_, Resolved>,
    first: &Opened<'_, Resolved>,
) -> Result<Written, AllocError>
    requires ready { IsReady design.old }
    ensures is { (d : Design) (s : State) (ks : List Known) → Knows d design.old (s.known ∷ ks)
        → IfOk result (λ w. read_written w ≡ written_of first.now.form.form d s (nth_shaping 0 (shapings d s.known tree.now)).shaped.length first.now.parts) }
    ensures knows { (d : Design) (ks : List Known) → Knows d design.old ks → Knows d design.new ks }
{
    match first.form.form {
        Form::Quoted => own_length(design, alloc, tree),
        Form::Bits => own_length(design, alloc, tree),
        Form::Concatenate => own_length(design, alloc, tree),
        Form::Aggregate => {
            if is_one_element(&first.parts) {
                return Ok(Written::NotAsked);
            }
            let length = elements_given(design, alloc, &first.parts)?;
            Ok(Written::WithLength(length))
        }
        _ => Ok(Written::NotAsked),
    }
}

/// Whether two lengths are known to be one.
fn same_length(left: Option<u128>, right: Option<u128>) -> bool
    ensures { result ≡ are_as_long left right }
{
    match (left, right) {
        (Some(left), Some(right)) => left == right,
        _ => false,
    }
}

/// The subtype of a type.
fn of_type(design: &KnownDesign<'_, '_>, mark: Option<TypeId>) -> u32
    ensures { (d : Design) (k : Known) (ks : List Known) → Knows d design.now (k ∷ ks) → Indicates design.now.table.subtypes result (at_mark mark k.env) }
{
    match mark {
        Some(mark) => design.table.own(mark.number()),
        None => 0,
    }
}

/// Whether a type is of arrays with bounds, and how long these are where that is known.
#[derive(Clone, Copy, Debug)]
pub(crate) struct TypeLength {
    pub(crate) is_bounded: bool,
    pub(crate) length: Option<u128>,
}

/// What a subtype has.
#[tactic(auto, using(crate::proofs::TypeLemmas::bounded_is))]
fn length_in(subtype: &Cursor<'_, IndicatedForm>) -> TypeLength
    ensures { IsTypeLength result (indicated_in subtype.now) }
{
    TypeLength {
        is_bounded: array_bounds(subtype).is_some(),
        length: static_length(subtype),
    }
}

/// What a type has.
fn type_length(design: &KnownDesign<'_, '_>, mark: Option<TypeId>) -> TypeLength
    requires { IsReady design.now }
    ensures { (d : Design) (k : Known) (ks : List Known) → Knows d design.now (k ∷ ks) → IsTypeLength result (at_mark mark k.env) }
{
    let number = of_type(design, mark);
    length_in(&design.table.subtypes.store().cursor(number))
}

/// Whether something is not as long as a type with bounds.
#[tactic(auto, using(crate::proofs::TypeLemmas::differs_by))]
fn differs(from: TypeLength, written: Written) -> bool
    ensures { (i : Indicated) → IsTypeLength from i → result ≡ differs_from_type i (read_written written) }
{
    match written {
        Written::WithLength(length) => from.is_bounded && !same_length(length, from.length),
        Written::NotAsked => false,
    }
}

/// Whether the first tree is not as long as the bounds of its type say. It is measured only where its type has bounds.
pub(crate) fn is_indefinite(
    design: &mut KnownDesign<'_, '_>,
    alloc: Global,
    tree: &Cursor<'_, Resolved>,
    first: &Opened<'_, Resolved>,
) -> Result<bool, AllocError>
    requires ready { IsReady design.old }
    ensures is { (d : Design) (s : State) (ks : List Known) → Knows d design.old (s.known ∷ ks)
        → IfOk result (λ found. found ≡ is_of_no_length d s first.now.form (shapings d s.known tree.now) first.now.parts) }
    ensures knows { (d : Design) (ks : List Known) → Knows d design.old ks → Knows d design.new ks }
{
    let of_type = type_length(design, first.form.mark);
    if !of_type.is_bounded {
        return Ok(false);
    }
    let written = length_written(design, alloc, tree, first)?;
    Ok(differs(of_type, written))
}
