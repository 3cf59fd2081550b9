//! Nodes that are read and made once more.

ghost use Rattle.std.specs.Prelude.{◌≡◌, ◌≤◌, IfOk, OnErr, [], length};
ghost use Rattle.vd_forest.specs.Forest.{more, no_place as nowhere, nothing};
ghost use Rattle.vd_forest.specs.Store.{Extends, Holds, at};
ghost use Rattle.vd_value_rules.specs.Indicated.{fields_in, indicated_in, made_of, nothing_indicated, texts_in};
ghost use Rattle.vd_value_rules.specs.Made.{Indicates};
ghost use Rattle.vd_value_rules.specs.Knowledge.{later_bounds as null_bounds};
ghost use Rattle.vd_value_rules.specs.Nodes.{IsOfSubtype};

use crate::{IndicatedForm, StaticSort};
use std::alloc::AllocError;
use vd_bytes::Place;
use vd_composites::{Bounds, ScalarSubtype, ScalarType};
use vd_forest::Store;

/// A first tree with the number of its parts.
#[derive(Clone, Copy)]
pub(crate) struct Node {
    pub(crate) form: IndicatedForm,
    pub(crate) parts: u32,
}

/// Trees of subtypes stand in no text.
pub(crate) fn no_place() -> Place
    ensures { result ≡ nowhere }
{
    Place {
        file: 0,
        line: 0,
        column: 0,
    }
}

/// The bounds of what is known later.
pub(crate) fn later_bounds() -> Bounds
    ensures { result ≡ null_bounds }
{
    Bounds {
        left: 1,
        right: 0,
        down: false,
    }
}

/// What is there where there is no subtype.
fn no_form() -> IndicatedForm
    ensures of_subtype { IsOfSubtype result }
    ensures is { made_of result [] [] ≡ nothing_indicated }
{
    IndicatedForm::Scalar {
        subtype: ScalarSubtype {
            of_type: ScalarType::Enumeration(0),
            range: Bounds {
                left: 0,
                right: -1,
                down: false,
            },
        },
        is_resolved: false,
        range: StaticSort::never(),
    }
}

/// The node of a subtype.
pub(crate) fn read_node(store: &Store<IndicatedForm>, number: u32) -> Node
    requires { number ≤ length store.now }
    ensures of_subtype { IsOfSubtype result.form }
    ensures within { result.parts ≤ length store.now }
    ensures is { made_of result.form (texts_in (at store.now result.parts)) (fields_in (at store.now result.parts))
        ≡ indicated_in (at store.now number) }
{
    let Some(head) = store.head(number) else {
        return Node {
            form: no_form(),
            parts: 0,
        };
    };
    match head.form {
        IndicatedForm::Literal => Node {
            form: no_form(),
            parts: 0,
        },
        form => Node {
            form,
            parts: head.parts,
        },
    }
}

/// A subtype from its node.
pub(crate) fn add_node(
    store: &mut Store<IndicatedForm>,
    form: IndicatedForm,
    parts: u32,
) -> Result<u32, AllocError>
    requires { parts ≤ length store.old }
    ensures holds { IfOk result (λ number. Indicates store.new number
        (made_of form (texts_in (at store.old parts)) (fields_in (at store.old parts)))) }
    ensures extends { Extends store.old store.new }
    ensures unchanged { OnErr result (store.new ≡ store.old) }
{
    store.add(form, b"", no_place(), parts, 0)
}
