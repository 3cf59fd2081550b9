//! The texts of functions that are known at a place.

ghost use Rattle.std.specs.Prelude.{◌≡◌, ◌++◌, ◌∷◌, ◌-◌, [], IfOk, if◌then◌else◌, length, nat_eq, take, ℕ};
ghost use Rattle.std.specs.HashMap.{get};
ghost use Rattle.vd_body_rules.specs.Texts.{known_texts, or_nothing};

use std::alloc::{AllocError, Global};
use std::collections::HashMap;
use std::marker::Model;
use vd_forest::Cursor;
use vd_resolved::Resolved;

/// The text of a function, and the one that it took the place of.
#[derive(Drop)]
pub struct Entry<'a> {
    pub number: u32,
    pub text: Cursor<'a, Resolved>,
    pub before: Option<Cursor<'a, Resolved>>,
}

/// The texts of functions in the order in which they came, with a table of the last ones.
#[derive(Drop)]
pub struct Texts<'a> {
    entries: Vec<Entry<'a>>,
    latest: HashMap<u32, Cursor<'a, Resolved>>,
}

impl<'a> Model for Texts<'a> {
    ghost use Rattle.std.specs.Prelude.{ℕ, List, nat_eq};
    ghost use Rattle.std.specs.Coded.{coded_list, coded×, coded_ℕ};
    ghost use Rattle.std.specs.HashMap.{get};
    ghost use Rattle.vd_body_rules.specs.Texts.{IsTable, texts_of};
    ghost use Rattle.vd_forest.specs.Code.{coded_forest};
    ghost use Rattle.vd_forest.specs.Forest.{Forest};
    ghost use Rattle.vd_resolved.specs.contracts.node.Resolved as nodes;
    ghost use Rattle.vd_resolved.specs.declared.node.Resolved.{Resolved};

    ghost Value = { List (ℕ × Forest Resolved) };

    ghost coded = { coded_list (coded× coded_ℕ (coded_forest nodes.the_row.coded)) };

    ghost view = { λ a. texts_of a.entries.items };

    ghost invariant = { λ a. IsTable a.entries.items (get nat_eq a.latest) };
}

/// The table in which a function has again what it had before.
fn restore<'a>(
    latest: HashMap<u32, Cursor<'a, Resolved>>,
    number: u32,
    before: Option<Cursor<'a, Resolved>>,
) -> Result<HashMap<u32, Cursor<'a, Resolved>>, AllocError>
    ensures { IfOk result (λ table. (k : ℕ) → get nat_eq table k ≡ (if nat_eq number k then before.entry else get nat_eq latest.entry k)) }
{
    let mut table = latest;
    match before {
        Some(text) => {
            table.insert(number, text)?;
        }
        None => {
            table.remove(&number);
        }
    }
    Ok(table)
}

impl<'a> Texts<'a> {
    /// None.
    pub fn new(alloc: Global) -> Texts<'a>
        ensures { result ≡ [] }
    {
        Texts {
            entries: Vec::new(alloc),
            latest: HashMap::new(alloc),
        }
    }

    /// How many there are.
    pub fn len(&self) -> usize
        ensures { result ≡ length self.now }
    {
        self.entries.len()
    }

    /// The text of a function.
    pub fn text_of(&self, number: u32) -> Option<Cursor<'a, Resolved>>
        ensures { or_nothing result ≡ known_texts self.now number }
    {
        match self.latest.get(&number) {
            None => None,
            Some(text) => Some(text.fork()),
        }
    }

    /// One more.
    pub fn add(self, number: u32, text: Cursor<'a, Resolved>) -> Result<Texts<'a>, AllocError>
        ensures { IfOk result (λ texts. texts ≡ self.entry ++ (number, text.entry) ∷ []) }
    {
        let mut entries = self.entries;
        let mut latest = self.latest;
        let before = latest.insert(number, text.fork())?;
        entries.push(Entry {
            number,
            text,
            before,
        })?;
        Ok(Texts { entries, latest })
    }

    /// All but the last one.
    fn without_last(self, alloc: Global) -> Result<Texts<'a>, AllocError>
        ensures { IfOk result (λ texts. texts ≡ take (length self.entry - 1) self.entry) }
    {
        let mut entries = self.entries;
        let latest = self.latest;
        let Some(last) = entries.pop() else {
            return Ok(Texts::new(alloc));
        };
        let Entry {
            number,
            text: _,
            before,
        } = last;
        let table = restore(latest, number, before)?;
        Ok(Texts {
            entries,
            latest: table,
        })
    }

    /// The first ones, as many as the number says.
    pub fn back_to(self, alloc: Global, count: usize) -> Result<Texts<'a>, AllocError>
        ensures { IfOk result (λ texts. texts ≡ take count self.entry) }
    {
        let mut texts = self;
        while texts.len() > count {
            texts = texts.without_last(alloc)?;
        }
        Ok(texts)
    }
}
