//! The elements of generic maps, gathered so that the one for a generic is found by its number or its place.

ghost use Rattle.std.specs.Prelude.{◌≡◌, ◌++◌, ◌∷◌, ◌&&◌, [], ℕ, IfOk, OnOk, None, is_some, map, nat_eq, not};
ghost use Rattle.indexmap.specs.IndexMap.{get};
ghost use Rattle.vd_meaning.specs.Facets.{nth};
ghost use Rattle.vd_meaning.specs.Generics.{element_for};
ghost use Rattle.vd_meaning.specs.Meanings.{map_element, meanings};
ghost use Rattle.vd_meaning.specs.Tables.{Table};
ghost use Rattle.vd_name_rules.specs.Elements.{has, or_named};

use indexmap::IndexMap;
use std::alloc::{AllocError, Global};
use vd_declarations::DeclId;
use vd_forest::Cursor;
use vd_operations::{elements_of, formal_of, is_open};
use vd_resolved::Resolved;

/// What a generic map gives.
#[derive(Drop)]
pub(crate) struct Elements {
    /// For each generic that is named whether the first element that names it is `open`.
    named: IndexMap<u32, bool>,
    /// For each element whether it gives something to the generic at its place.
    placed: Vec<bool>,
}

impl Elements {
    /// No elements.
    fn new(alloc: Global) -> Elements
        ensures placed { result.placed.items ≡ [] }
        ensures named { (g : ℕ) → get nat_eq result.named g ≡ None }
    {
        Elements {
            named: IndexMap::new(alloc),
            placed: Vec::new(alloc),
        }
    }

    /// Whether there is something for a generic at a place.
    pub(crate) fn has(&self, place: usize, generic: DeclId) -> bool
        ensures { result ≡ has self.now place generic }
    {
        match self.named.get(&generic.number()) {
            Some(is_open) => !*is_open,
            None => match self.placed.get(place) {
                Some(is_placed) => *is_placed,
                None => false,
            },
        }
    }

    /// One more element.
    fn add(&mut self, formal: Option<DeclId>, is_open: bool) -> Result<(), AllocError>
        ensures placed { OnOk result (self.new.placed.items ≡ self.old.placed.items ++ (not (is_some formal) && not is_open) ∷ []) }
        ensures named { OnOk result ((g : ℕ) → get nat_eq self.new.named g ≡ or_named (get nat_eq self.old.named g) formal is_open g) }
    {
        self.placed.push(formal.is_none() && !is_open)?;
        if let Some(formal) = formal {
            let number = formal.number();
            if self.named.get(&number).is_none() {
                self.named.insert(number, is_open)?;
            }
        }
        Ok(())
    }
}

/// The elements of a list.
fn gathered(alloc: Global, elements: &Cursor<'_, Resolved>) -> Result<Elements, AllocError>
    ensures { IfOk result (λ found. (t : Table) (k g : ℕ) → has found k g
        ≡ is_some (element_for k g (map map_element (meanings t elements.now)))) }
{
    let mut found = Elements::new(alloc);
    let mut rest = elements.fork();
    while let Some(first) = rest.open() {
        let formal = formal_of(&rest);
        let open = is_open(&rest);
        found.add(formal, open)?;
        rest = first.next;
    }
    Ok(found)
}

/// The elements of the first tree, where it is a generic map.
pub(crate) fn elements_in(
    alloc: Global,
    trees: &Cursor<'_, Resolved>,
) -> Result<Elements, AllocError>
    ensures { IfOk result (λ found. (t : Table) (k g : ℕ) → has found k g
        ≡ is_some (element_for k g (nth 0 (meanings t trees.now)).elements)) }
{
    match elements_of(trees) {
        None => Ok(Elements::new(alloc)),
        Some(elements) => gathered(alloc, &elements),
    }
}
