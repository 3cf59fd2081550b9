//! Library and use clauses.

ghost use Rattle.std.specs.Prelude.{◌≡◌, ◌≤◌, IfOk, length};
ghost use Rattle.vd_forest.specs.Store.{Extends};

use crate::nodes::{identifier, leaf};
use crate::spellings::library_of;
use crate::writer::Writer;
use indexmap::IndexMap;
use std::alloc::{AllocError, Global};
use std::str;
use vd_bytes::{Place, Text};
use vd_declarations::RegionId;
use vd_forest::{Cursor, Opened, Store};
use vd_forms::Form;
use vd_name_rows::Word;
use vd_predefined::numbers::IEEE;
use vd_region_tables::{Key, key_of};
use vd_resolved::Resolved;

/// What each region of the text that is written declares under the names of the tree: the last declaration, and behind each one the
/// one before it.
#[derive(Drop)]
pub(crate) struct Used {
    last: IndexMap<Key, u32>,
    before: IndexMap<u32, u32>,
}

impl Used {
    /// Nothing is declared.
    pub(crate) fn new(alloc: Global) -> Used {
        Used {
            last: IndexMap::new(alloc),
            before: IndexMap::new(alloc),
        }
    }

    /// One more declaration of a region.
    fn add(&mut self, key: Key, number: u32) -> Result<(), AllocError> {
        if let Some(older) = self.last.get(&key).copied() {
            self.before.insert(number, older)?;
        }
        self.last.insert(key, number)?;
        Ok(())
    }

    /// The declarations under a key, the last one first.
    fn under(&self, alloc: Global, key: &Key) -> Result<Vec<u32>, AllocError> {
        let mut found = Vec::new(alloc);
        let mut next = self.last.get(key).copied();
        // A declaration stands once in such a list, so that it isn't longer than the table.
        let mut left = self.before.len().saturating_add(1);
        while left > 0 {
            left -= 1;
            let Some(number) = next else {
                return Ok(found);
            };
            found.push(number)?;
            next = self.before.get(&number).copied();
        }
        Ok(found)
    }
}

/// The last of some trees.
fn last_of<'a>(pieces: &Cursor<'a, Resolved>) -> Cursor<'a, Resolved> {
    let mut left = pieces.fork();
    while let Some(first) = left.open() {
        if first.next.open().is_none() {
            return left;
        }
        left = first.next;
    }
    left
}

/// Whether a name is one of some.
fn has_name(names: &[&[u8]], name: &[u8]) -> bool {
    for other in names {
        if *other == name {
            return true;
        }
    }
    false
}

impl<'a> Writer<'a> {
    /// Notes that a region declares a number.
    pub(crate) fn note_used(&mut self, number: u32, region: RegionId) -> Result<(), AllocError> {
        let Some(declaration) = self.declaration(number) else {
            return Ok(());
        };
        let key = key_of(self.alloc, region.number(), declaration.name.as_slice())?;
        self.used.add(key, number)
    }

    /// The name of a library, which it declares.
    #[tactic(auto, using(vd_forest::proofs::StoreLemmas::growing))]
    pub(crate) fn write_library(
        &mut self,
        out: &mut Store<Form>,
        node: &Opened<'a, Resolved>,
    ) -> Result<u32, AllocError>
        ensures within { IfOk result (λ made. made ≤ length out.new) }
        ensures extends { Extends out.old out.new }
    {
        if let Some(id) = node.form.declaration {
            if id.number() == IEEE {
                self.has_ieee = true;
            }
        }
        self.copied(out, node)
    }

    /// The names that stand for a name of a region, each once, in the order in which they were declared; and the name itself, where it
    /// is that of what a type brings with it, or of what is given.
    fn output_names<'n>(
        &self,
        region: RegionId,
        package: u32,
        name: &'n [u8],
    ) -> Result<Vec<&'n [u8]>, AllocError>
    where
        'a: 'n,
    {
        let mut names: Vec<&'n [u8]> = Vec::new(self.alloc);
        let key = key_of(self.alloc, region.number(), name)?;
        let found = self.used.under(self.alloc, &key)?;
        if self.keeps(package, &found, name)? {
            names.push(name)?;
        }
        let mut left = found.len();
        while left > 0 {
            left -= 1;
            let chosen = self.name_of(found[left]);
            if !has_name(names.as_slice(), chosen) {
                names.push(chosen)?;
            }
        }
        Ok(names)
    }

    /// Whether a package declares what nobody wrote under a name.
    fn keeps(&self, package: u32, written: &[u32], name: &[u8]) -> Result<bool, AllocError> {
        let Some(other) = self.linked(package) else {
            return Ok(false);
        };
        let place = self.names.surroundings(&self.at)?;
        let found = place.selected(self.alloc, other, name)?;
        for id in &found {
            if self.names.class_of(*id).is_predefined() {
                return Ok(true);
            }
        }
        Ok(written.is_empty() && !found.is_empty())
    }

    /// The clause of a name goes into the region at hand.
    fn use_from(&mut self, from: RegionId, name: Option<&[u8]>) -> Result<(), AllocError> {
        let region = self.at.region;
        if !self.names.regions().is_region(region) {
            return Ok(());
        }
        let Some(name) = name else {
            return self.names.use_name(region, from, None);
        };
        match str::from_utf8(name) {
            Ok(name) => self.names.use_name(region, from, Some(name)),
            Err(_) => Ok(()),
        }
    }

    /// The words of a use clause, in front of the last one.
    #[tactic(auto, using(vd_forest::proofs::StoreLemmas::growing))]
    fn clause_of(
        &mut self,
        out: &mut Store<Form>,
        package: u32,
        last: u32,
        place: Place,
        next: u32,
    ) -> Result<u32, AllocError>
        requires last_in { last ≤ length out.old }
        requires next_in { next ≤ length out.old }
        ensures within { IfOk result (λ made. made ≤ length out.new) }
        ensures extends { Extends out.old out.new }
    {
        let library = library_of(package);
        if library == b"ieee".as_slice() {
            self.wants_ieee = true;
        }
        let unit = self.name_of(package);
        let behind = identifier(out, unit, place, last)?;
        let words = identifier(out, library, place, behind)?;
        out.add(Form::SelectedName, &[], place, words, next)
    }

    /// A clause of all that a package declares.
    #[tactic(auto, using(vd_forest::proofs::StoreLemmas::growing))]
    fn use_all(
        &mut self,
        out: &mut Store<Form>,
        package: u32,
        from: RegionId,
        place: Place,
    ) -> Result<u32, AllocError>
        ensures within { IfOk result (λ made. made ≤ length out.new) }
        ensures extends { Extends out.old out.new }
    {
        self.use_from(from, None)?;
        let last = out.add(Form::All, &[], place, 0, 0)?;
        self.clause_of(out, package, last, place, 0)
    }

    /// A clause of one name of a package, in front of others.
    #[tactic(auto, using(vd_forest::proofs::StoreLemmas::growing))]
    fn use_one(
        &mut self,
        out: &mut Store<Form>,
        package: u32,
        from: RegionId,
        name: &[u8],
        place: Place,
        next: u32,
    ) -> Result<u32, AllocError>
        requires { next ≤ length out.old }
        ensures within { IfOk result (λ made. made ≤ length out.new) }
        ensures extends { Extends out.old out.new }
    {
        self.use_from(from, Some(name))?;
        let last = leaf(out, name, place, 0)?;
        self.clause_of(out, package, last, place, next)
    }

    /// Clauses of some names of a package.
    #[tactic(auto, using(vd_forest::proofs::StoreLemmas::growing))]
    fn use_each(
        &mut self,
        out: &mut Store<Form>,
        package: u32,
        from: RegionId,
        names: &[&[u8]],
        place: Place,
    ) -> Result<u32, AllocError>
        ensures within { IfOk result (λ made. made ≤ length out.new) }
        ensures extends { Extends out.old out.new }
    {
        let mut made = 0;
        for name in names {
            made = self.use_one(out, package, from, *name, place, made)?;
        }
        out.turn(made, 0)
    }

    /// Clauses of a name of a package.
    #[tactic(auto, using(vd_forest::proofs::StoreLemmas::growing))]
    fn use_named(
        &mut self,
        out: &mut Store<Form>,
        package: u32,
        from: RegionId,
        last: &Opened<'a, Resolved>,
        place: Place,
    ) -> Result<u32, AllocError>
        ensures within { IfOk result (λ made. made ≤ length out.new) }
        ensures extends { Extends out.old out.new }
    {
        let name = self.declared_name(last)?;
        let names = self.output_names(from, package, name.as_slice())?;
        self.use_each(out, package, from, names.as_slice(), place)
    }

    /// The name that a word declares.
    fn declared_name(&self, word: &Opened<'a, Resolved>) -> Result<Text, AllocError> {
        let word = Word {
            form: word.form.form,
            text: word.text,
        };
        word.name(self.alloc)
    }

    /// A name of a use clause: none, where its package isn't written or declares nothing of the name.
    #[tactic(auto, using(vd_forest::proofs::StoreLemmas::growing))]
    pub(crate) fn write_use(
        &mut self,
        out: &mut Store<Form>,
        node: &Opened<'a, Resolved>,
    ) -> Result<u32, AllocError>
        ensures within { IfOk result (λ made. made ≤ length out.new) }
        ensures extends { Extends out.old out.new }
    {
        let Some(package) = node.form.declaration else {
            return self.copied(out, node);
        };
        let Some(from) = self.inside_of(Some(package.number())) else {
            return Ok(0);
        };
        let Some(last) = last_of(&node.parts).open() else {
            return Ok(0);
        };
        match last.form.form {
            Form::All => self.use_all(out, package.number(), from, node.place),
            _ => self.use_named(out, package.number(), from, &last, node.place),
        }
    }

    /// Notes whether a unit sees `ieee`.
    fn note_sight(&mut self) {
        let Some(unit) = self.unit else {
            return;
        };
        let place = unit as usize;
        if place < self.sees_ieee.len() {
            self.sees_ieee[place] = self.has_ieee;
        }
    }

    /// The clauses of a unit with one for `ieee` in front.
    #[tactic(auto, using(vd_forest::proofs::StoreLemmas::growing))]
    fn with_library(
        &mut self,
        out: &mut Store<Form>,
        parts: u32,
        place: Place,
    ) -> Result<u32, AllocError>
        requires { parts ≤ length out.old }
        ensures within { IfOk result (λ made. made ≤ length out.new) }
        ensures extends { Extends out.old out.new }
    {
        let Some(head) = out.head(parts) else {
            return Ok(parts);
        };
        if head.form != Form::ContextClause {
            return Ok(parts);
        }
        let (clauses, unit) = (head.parts, head.next);
        let word = identifier(out, b"ieee", place, 0)?;
        let clause = out.add(Form::LibraryClause, &[], place, word, clauses)?;
        out.add(Form::ContextClause, &[], place, clause, unit)
    }

    /// A unit whose parts are written: one that needs `ieee` and doesn't see it gets a clause for it.
    #[tactic(auto, using(vd_forest::proofs::StoreLemmas::growing))]
    pub(crate) fn leave_unit(
        &mut self,
        out: &mut Store<Form>,
        parts: u32,
        place: Place,
    ) -> Result<u32, AllocError>
        requires { parts ≤ length out.old }
        ensures within { IfOk result (λ made. made ≤ length out.new) }
        ensures extends { Extends out.old out.new }
    {
        let lacks = self.wants_ieee && !self.has_ieee;
        if lacks {
            self.has_ieee = true;
        }
        self.note_sight();
        let whole = if lacks {
            self.with_library(out, parts, place)?
        } else {
            parts
        };
        out.add(Form::DesignUnit, &[], place, whole, 0)
    }
}
