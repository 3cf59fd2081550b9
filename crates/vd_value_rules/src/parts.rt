//! Literals and fields, as lists of trees.

ghost use Rattle.std.specs.Prelude.{◌≡◌, ◌∷◌, ◌≤◌, IfOk, OnErr, length, reverse};
ghost use Rattle.vd_forest.specs.Store.{Extends, at};
ghost use Rattle.vd_value_rules.specs.Indicated.{fields_in, indicated_in, texts_in};
ghost use Rattle.vd_value_rules.specs.Made.{HasFields};

use crate::IndicatedForm;
use crate::nodes::{no_place, read_node};
use std::alloc::AllocError;
use vd_forest::Store;

/// A literal in front of others.
pub fn literal(store: &mut Store<IndicatedForm>, text: &[u8], next: u32) -> Result<u32, AllocError>
    requires { next ≤ length store.old }
    ensures within { IfOk result (λ number. number ≤ length store.new) }
    ensures texts { IfOk result (λ number. texts_in (at store.new number) ≡ text.now ∷ texts_in (at store.old next)) }
    ensures extends { Extends store.old store.new }
    ensures unchanged { OnErr result (store.new ≡ store.old) }
{
    store.add(IndicatedForm::Literal, text, no_place(), 0, next)
}

/// A field of a subtype in front of others. The tree of the subtype isn't copied.
pub fn field(
    store: &mut Store<IndicatedForm>,
    name: &[u8],
    subtype: u32,
    next: u32,
) -> Result<u32, AllocError>
    requires subtype_in { subtype ≤ length store.old }
    requires next_in { next ≤ length store.old }
    ensures within { IfOk result (λ number. number ≤ length store.new) }
    ensures fields { IfOk result (λ number. fields_in (at store.new number)
        ≡ record { name = name.now; indicated = indicated_in (at store.old subtype) } ∷ fields_in (at store.old next)) }
    ensures texts { IfOk result (λ number. texts_in (at store.new number) ≡ name.now ∷ texts_in (at store.old next)) }
    ensures extends { Extends store.old store.new }
    ensures unchanged { OnErr result (store.new ≡ store.old) }
{
    let node = read_node(store, subtype);
    store.add(node.form, name, no_place(), node.parts, next)
}

/// Literals or fields in the other order, which were added from the first on.
#[tactic(auto, using(crate::proofs::PartLemmas::texts_turned, crate::proofs::PartLemmas::fields_turned))]
pub fn turned(store: &mut Store<IndicatedForm>, number: u32) -> Result<u32, AllocError>
    requires { number ≤ length store.old }
    ensures within { IfOk result (λ made. made ≤ length store.new) }
    ensures texts { IfOk result (λ made. texts_in (at store.new made) ≡ reverse (texts_in (at store.old number))) }
    ensures fields { IfOk result (λ made. fields_in (at store.new made) ≡ reverse (fields_in (at store.old number))) }
    ensures extends { Extends store.old store.new }
{
    store.turn(number, 0)
}
