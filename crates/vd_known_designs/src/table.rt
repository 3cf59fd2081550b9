//! The table of what is known.

ghost use Rattle.std.specs.Prelude.{◌≡◌, ◌≤◌, ◌∷◌, [], List, MatchOption, OnOk, length, true};
ghost use Rattle.vd_environments.specs.Environments.{Denotation, Indicated};
ghost use Rattle.vd_forest.specs.Store.{at};
ghost use Rattle.vd_value_rules.specs.Indicated.{indicated_in};
ghost use Rattle.vd_value_rules.specs.Made.{Indicates};
ghost use Rattle.vd_known_designs.specs.Contents.{or_nothing};
ghost use Rattle.vd_known_designs.specs.Known.{AreKnown, CanGoBack, GoesBack, none_known, with_result};
ghost use Rattle.vd_meaning.specs.Tables.{Table, table as table_of_design};
ghost use Rattle.vd_static_values.specs.Entries.{IsEntry, IsGround, no_entry};
ghost use Rattle.vd_value_rules.specs.Declaring.{with_package, with_text};
ghost use Rattle.vd_value_rules.specs.Knowledge.{Known, denoted, indicated_of};
ghost use Rattle.vd_value_rules.specs.Standings.{known_inside};

use crate::SubtypeTables;
use crate::contents::{Contents, Replaced};
use std::alloc::{AllocError, Global};
use vd_declarations::Declaration;
use vd_forest::Cursor;
use vd_resolved::Resolved;
use vd_static_values::{Entry, Ground};
use vd_trees::Revision;

/// What is known of the declarations of a design at a place of its text, and what was known at the places that it is to go back to. Where memory
/// runs out in a call, nothing is known of the table any more.
#[derive(Drop)]
pub struct KnownTable<'a> {
    pub(crate) alloc: Global,
    /// The subtypes that it speaks of, by their numbers. Some can be added; those that are there stay.
    pub subtypes: SubtypeTables,
    pub(crate) contents: Contents<'a>,
    /// What each change replaced, from the first to the last.
    log: Vec<Replaced<'a>>,
    /// How long the log was where a state was remembered, from the first to the last.
    marks: Vec<usize>,
}

impl<'a> KnownTable<'a> {
    /// A table in which nothing is declared.
    pub fn new(alloc: Global) -> Self
        ensures { (t : Table) → AreKnown t result (none_known ∷ []) }
    {
        KnownTable {
            alloc,
            subtypes: SubtypeTables::new(alloc),
            contents: Contents::new(alloc),
            log: Vec::new(alloc),
            marks: Vec::new(alloc),
        }
    }

    // ---- earlier states

    /// Remembers the present state.
    pub fn remember(&mut self) -> Result<(), AllocError>
        ensures known { (t : Table) (k : Known) (ks : List Known) → AreKnown t self.old (k ∷ ks) → OnOk result (AreKnown t self.new (k ∷ k ∷ ks)) }
        ensures same { self.new.subtypes ≡ self.old.subtypes }
    {
        self.marks.push(self.log.len())?;
        Ok(())
    }

    /// Goes back to the last state that is remembered.
    pub fn back(&mut self)
        ensures known { (t : Table) (now k : Known) (ks : List Known) → AreKnown t self.old (now ∷ k ∷ ks) → AreKnown t self.new (k ∷ ks) }
        ensures same { self.new.subtypes ≡ self.old.subtypes }
    {
        if let Some(mark) = self.marks.pop() {
            self.back_to(mark);
        }
    }

    /// Forgets the last state that is remembered, and keeps the present one.
    pub fn keep(&mut self)
        ensures known { (t : Table) (now k : Known) (ks : List Known) → AreKnown t self.old (now ∷ k ∷ ks) → AreKnown t self.new (now ∷ ks) }
        ensures same { self.new.subtypes ≡ self.old.subtypes }
    {
        let _ = self.marks.pop();
    }

    /// The state in which the log was so long.
    fn back_to(&mut self, mark: usize)
        ensures log { mark ≤ length self.old.log.items → length self.new.log.items ≡ mark }
        ensures back { CanGoBack self.old.contents self.old.log.items mark
            → GoesBack self.old.contents self.new.contents self.old.log.items self.new.log.items }
        ensures marks { self.new.marks.items ≡ self.old.marks.items }
        ensures same { self.new.subtypes ≡ self.old.subtypes }
    {
        while self.log.len() > mark {
            if let Some(replaced) = self.log.pop() {
                self.contents.undo(replaced);
            }
        }
    }

    // ---- changes

    /// What a declaration stands for, and its subtype for choices.
    pub fn set(&mut self, number: u32, entry: Entry, choosing: u32) -> Result<(), AllocError>
        ensures known { (t : Table) (own c : Denotation) (k : Known) (ks : List Known) → AreKnown t self.old (k ∷ ks)
            → IsEntry self.old.subtypes t entry own → Indicates self.old.subtypes choosing (indicated_of c)
            → OnOk result (AreKnown t self.new (denoted number own c k ∷ ks)) }
        ensures same { self.new.subtypes ≡ self.old.subtypes }
    {
        let replaced = self
            .contents
            .put_entry(self.alloc, number, entry, choosing)?;
        self.log.push(replaced)?;
        Ok(())
    }

    /// The text of a package with generics.
    pub fn set_package(&mut self, number: u32, text: Cursor<'a, Resolved>) -> Result<(), AllocError>
        ensures known { (t : Table) (k : Known) (ks : List Known) → AreKnown t self.old (k ∷ ks)
            → OnOk result (AreKnown t self.new (with_package true number text.entry k ∷ ks)) }
        ensures same { self.new.subtypes ≡ self.old.subtypes }
    {
        let replaced = self.contents.put_package(self.alloc, number, text)?;
        self.log.push(replaced)?;
        Ok(())
    }

    /// The text of a function.
    pub fn set_function_text(
        &mut self,
        number: u32,
        text: Cursor<'a, Resolved>,
    ) -> Result<(), AllocError>
        ensures known { (t : Table) (k : Known) (ks : List Known) → AreKnown t self.old (k ∷ ks)
            → OnOk result (AreKnown t self.new (with_text number text.entry k ∷ ks)) }
        ensures same { self.new.subtypes ≡ self.old.subtypes }
    {
        let replaced = self.contents.put_function(self.alloc, number, text)?;
        self.log.push(replaced)?;
        Ok(())
    }

    /// Comes inside of a process or a function.
    pub fn enter_inside(&mut self) -> Result<(), AllocError>
        ensures known { (t : Table) (k : Known) (ks : List Known) → AreKnown t self.old (k ∷ ks)
            → OnOk result (AreKnown t self.new (known_inside k ∷ ks)) }
        ensures same { self.new.subtypes ≡ self.old.subtypes }
    {
        let subtype = self.contents.result;
        let replaced = self.contents.put_surroundings(true, subtype);
        self.log.push(replaced)?;
        Ok(())
    }

    /// The subtype of the result of the function that it is inside of.
    pub fn set_result(&mut self, own: u32) -> Result<(), AllocError>
        ensures known { (t : Table) (i : Indicated) (k : Known) (ks : List Known) → AreKnown t self.old (k ∷ ks)
            → Indicates self.old.subtypes own i → OnOk result (AreKnown t self.new (with_result i.subtype k ∷ ks)) }
        ensures same { self.new.subtypes ≡ self.old.subtypes }
    {
        let is_inside = self.contents.is_inside;
        let replaced = self.contents.put_surroundings(is_inside, own);
        self.log.push(replaced)?;
        Ok(())
    }

    // ---- what is known

    /// What a declaration stands for. One that isn't in the table stands for nothing.
    pub fn entry(&self, number: u32) -> Option<&Entry>
        ensures { (t : Table) (k : Known) (ks : List Known) → AreKnown t self.now (k ∷ ks)
            → MatchOption result (IsEntry self.now.subtypes t no_entry (k.env.denotes number))
            (λ x. IsEntry self.now.subtypes t x.now (k.env.denotes number)) }
    {
        self.contents.entries.get(number as usize)
    }

    /// The subtype of what a declaration stands for.
    pub fn own(&self, number: u32) -> u32
        ensures { (t : Table) (k : Known) (ks : List Known) → AreKnown t self.now (k ∷ ks)
            → Indicates self.now.subtypes result (indicated_of (k.env.denotes number)) }
    {
        match self.contents.entries.get(number as usize) {
            Some(entry) => entry.subtype,
            None => 0,
        }
    }

    /// Its subtype for choices.
    pub fn choosing(&self, number: u32) -> u32
        ensures { (t : Table) (k : Known) (ks : List Known) → AreKnown t self.now (k ∷ ks)
            → Indicates self.now.subtypes result (indicated_of (k.choosing.denotes number)) }
    {
        match self.contents.choosing.get(number as usize) {
            Some(subtype) => *subtype,
            None => 0,
        }
    }

    /// The text of a package with generics.
    pub fn package(&self, number: u32) -> Option<Cursor<'a, Resolved>>
        ensures { (t : Table) (k : Known) (ks : List Known) → AreKnown t self.now (k ∷ ks) → or_nothing result ≡ k.packages number }
    {
        self.contents.package(number)
    }

    /// The text of a function.
    pub fn function_text(&self, number: u32) -> Option<Cursor<'a, Resolved>>
        ensures { (t : Table) (k : Known) (ks : List Known) → AreKnown t self.now (k ∷ ks) → or_nothing result ≡ k.functions number }
    {
        self.contents.function(number)
    }

    /// Whether it is inside of a process or a function.
    pub fn is_inside(&self) -> bool
        ensures { (t : Table) (k : Known) (ks : List Known) → AreKnown t self.now (k ∷ ks) → result ≡ k.env.is_inside }
    {
        self.contents.is_inside
    }

    /// The subtype of the result of the function that it is inside of.
    pub fn result_subtype(&self) -> u32
        ensures within { (t : Table) (k : Known) (ks : List Known) → AreKnown t self.now (k ∷ ks) → result ≤ length self.now.subtypes }
        ensures is { (t : Table) (k : Known) (ks : List Known) → AreKnown t self.now (k ∷ ks)
            → (indicated_in (at self.now.subtypes result)).subtype ≡ k.env.result }
    {
        self.contents.result
    }

    /// What static expressions are evaluated over.
    pub fn ground<'b>(&'b self, revision: Revision, declarations: &'b [Declaration]) -> Ground<'b>
        ensures known { (k : Known) (ks : List Known) → AreKnown (table_of_design revision declarations.now) self.now (k ∷ ks)
            → IsGround result k.env }
        ensures revision { result.revision ≡ revision }
        ensures declarations { result.declarations.now ≡ declarations.now }
        ensures subtypes { result.subtypes.now ≡ self.now.subtypes }
    {
        Ground {
            revision,
            declarations,
            subtypes: self.subtypes.store(),
            entries: &self.contents.entries,
        }
    }
}
