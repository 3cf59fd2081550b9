//! All elements of a map.

ghost use Rattle.std.specs.Prelude.{◌≡◌, ℕ, List, [], map, IfOk, MatchOption, Some, None, nat_eq};
ghost use Rattle.vd_bytes.specs.declared.places.Place.{Place};
ghost use Rattle.vd_forms.specs.declared.form.Form.{Form};
ghost use Rattle.std.specs.HashMap.{get};
ghost use Rattle.vd_forest.specs.Forest.{Forest, nothing, more, with_next};
ghost use Rattle.vd_regions.specs.Scopes.{declaration_at};
ghost use Rattle.vd_naming.specs.Associations.{elements as elements_of, actual_in as actual_of, is_value_for, is_for, is_open as stands_open, value_for as value_of, has_value as is_given_value, are_known as all_known};
ghost use Rattle.vd_name_maps.specs.Seen.{seen_element};
ghost use Rattle.vd_name_maps.specs.Values.{Tells};

use crate::element::Element;
use crate::formals::{first_left, generic_for, left_behind, once, with_given};
use crate::given::Given;
use std::alloc::{AllocError, Global};
use std::collections::HashMap;
use std::marker::Model;
use vd_declarations::DeclId;
use vd_forest::{Cursor, Opened};
use vd_forms::Form;
use vd_name_rows::Names;

/// Where the actual of an element stands: the first tree there.
fn actual_in<'a>(trees: &Cursor<'a, Form>) -> Cursor<'a, Form>
    ensures { (form : Form) (text : List ℕ) (place : Place) (parts next : Forest Form) → trees.now ≡ more form text place parts next
        → with_next result nothing ≡ actual_of form text place parts }
{
    match trees.form() {
        Some(Form::Association) => trees.parts().next(),
        Some(Form::OthersAssociation) => trees.parts(),
        _ => trees.fork(),
    }
}

/// The elements of a map of something with these generics.
fn read_elements<'a>(
    alloc: Global,
    names: &Names,
    owner: DeclId,
    generics: &[DeclId],
    parts: &Cursor<'a, Form>,
) -> Result<Vec<Element<'a>>, AllocError>
    ensures { IfOk result (λ made. map seen_element made.items ≡ elements_of names.now owner generics.now [] parts.now) }
{
    let mut made = Vec::new(alloc);
    let mut given = Given::new(alloc);
    let mut next = 0;
    let mut left = parts.fork();
    while let Some(node) = left.open() {
        let known = generic_for(alloc, names, owner, first_left(generics, next), &node)?;
        let generic = once(&given, &known);
        given = with_given(given, &generic)?;
        next = left_behind(node.form, generics, next);
        made.push(Element {
            place: node.place,
            generic,
            is_known: known.is_some(),
            actual: actual_in(&left),
        })?;
        left = node.next;
    }
    Ok(made)
}

/// Whether the first tree is `open`.
fn is_open(actual: &Cursor<'_, Form>) -> bool
    ensures { result ≡ stands_open (with_next actual.now nothing) }
{
    matches!(actual.form(), Some(Form::Open))
}

/// The generic to which an element gives a value.
#[tactic(auto, using(crate::proofs::ValueLemmas::open_gives_none, crate::proofs::ValueLemmas::other_gives_value))]
fn valued(element: &Element<'_>) -> Option<DeclId>
    ensures { (g : ℕ) → is_value_for g (seen_element element.now) ≡ is_for g result }
{
    if is_open(&element.actual) {
        return None;
    }
    element.generic
}

/// For each generic that has a value the first element that gives it one. It is made from the last element on.
fn values_of(alloc: Global, elements: &[Element<'_>]) -> Result<HashMap<u32, usize>, AllocError>
    ensures { IfOk result (λ table. (g : ℕ) → Tells (map seen_element elements.now) (map seen_element elements.now) g (get nat_eq table g)) }
{
    let mut table = HashMap::new(alloc);
    let mut left = elements.len();
    while left > 0 {
        left -= 1;
        if let Some(generic) = valued(&elements[left]) {
            table.insert(generic.number(), left)?;
        }
    }
    Ok(table)
}

/// The elements of a map, with a table of the values that they give to generics.
#[derive(Drop)]
pub struct Elements<'a> {
    list: Vec<Element<'a>>,
    table: HashMap<u32, usize>,
}

impl<'a> Model for Elements<'a> {
    ghost use Rattle.std.specs.Prelude.{ℕ, List, map, nat_eq};
    ghost use Rattle.std.specs.HashMap.{get};
    ghost use Rattle.vd_naming.specs.Associations as seen;
    ghost use Rattle.std.specs.Coded.{coded_list};
    ghost use Rattle.vd_name_maps.specs.Code.{coded_element};
    ghost use Rattle.vd_name_maps.specs.Seen.{seen_element};
    ghost use Rattle.vd_name_maps.specs.Values.{Tells};

    ghost Value = { List seen.Element };

    ghost coded = { coded_list coded_element };

    ghost view = { λ a. map seen_element a.list.items };

    ghost invariant = { λ a. (g : ℕ) → Tells (map seen_element a.list.items) (map seen_element a.list.items) g (get nat_eq a.table g) };
}

impl<'a> Elements<'a> {
    /// Those of a map of something with generics, given the map's parts.
    pub fn of(
        alloc: Global,
        names: &Names,
        owner: DeclId,
        parts: &Cursor<'a, Form>,
    ) -> Result<Elements<'a>, AllocError>
        ensures { IfOk result (λ made. made ≡ elements_of names.now owner (declaration_at names.now.scopes owner).generics [] parts.now) }
    {
        let list = read_elements(alloc, names, owner, names.generics_of(owner), parts)?;
        let table = values_of(alloc, list.as_slice())?;
        Ok(Elements { list, table })
    }

    /// All, in the order of their text.
    pub fn as_slice(&self) -> &[Element<'a>]
        ensures { map seen_element result.now ≡ self.now }
    {
        self.list.as_slice()
    }

    /// The element that gives a generic its value, which isn't `open`.
    pub fn value_for(&self, generic: DeclId) -> Option<&Element<'a>>
        ensures { MatchOption result (value_of generic self.now ≡ None) (λ e. value_of generic self.now ≡ Some (with_next e.now.actual nothing)) }
    {
        match self.table.get(&generic.number()) {
            Some(index) => Some(&self.list[*index]),
            None => None,
        }
    }

    /// Whether a generic gets a value.
    #[tactic(auto, using(crate::proofs::ValueLemmas::some_value, crate::proofs::ValueLemmas::no_value))]
    pub fn has_value(&self, generic: DeclId) -> bool
        ensures { result ≡ is_given_value generic self.now }
    {
        match self.value_for(generic) {
            Some(_) => true,
            None => false,
        }
    }

    /// Whether each is for a generic.
    pub fn are_known(&self) -> bool
        ensures { result ≡ all_known self.now }
    {
        for element in self.list.as_slice() {
            if !element.is_known {
                return false;
            }
        }
        true
    }
}
