//! All declarations in the order in which they were entered, and tables by which they are found.

ghost use Rattle.std.specs.Prelude.{◌≡◌, ◌++◌, ◌∷◌, ◌<◌, ℕ, [], IsTrue, OnOk, OnErr, IfOk, IfSome, MatchOption, true, false, length, map, nat_lt, slice_index_or};
ghost use Rattle.std.specs.List.{Contains};
ghost use Rattle.vd_regions.specs.Scopes.{nothing_entered, stands_in};
ghost use Rattle.vd_regions.specs.Found.{entered_below};
ghost use Rattle.vd_regions.specs.Links.{first_below};
ghost use Rattle.vd_regions.specs.Indexes.{type_among, profile_among, has_sort, IsSortOf, HasItsSort, knows, is_settled, IsTable, IsNoteOf};

use crate::entries::{Entered, Link, Note};
use indexmap::IndexMap;
use std::alloc::{AllocError, Global};
use std::marker::Model;
use vd_declarations::{DeclId, Declaration};
use vd_region_tables::numbers::narrow;
use vd_region_tables::{Firsts, Homes, Key, Name, Sort, Table, key_of};

/// All declarations, which contracts see as their list.
#[derive(Drop)]
pub(crate) struct Catalog {
    alloc: Global,
    links: Vec<Link>,
    tables: IndexMap<Key, Table>,
    firsts: Firsts,
    settled: bool,
    homes: Homes,
}

impl Model for Catalog {
    ghost use Rattle.std.specs.Prelude.{List};
    ghost use Rattle.indexmap.specs.IndexMap.{get};
    ghost use Rattle.vd_regions.specs.declared.entries.Entered.{Entered};
    ghost use Rattle.vd_region_tables.specs.Tables.{same_key, first_of, homes_of};
    ghost use Rattle.vd_regions.specs.Links.{entered_of};
    ghost use Rattle.vd_regions.specs.Indexes.{IsIndexed};

    ghost Value = { List Entered };

    ghost view = { λ a. entered_of a.links.items };

    // Each table leads to its newest declaration, and each declaration to the one before it in its table; the first of each table and sort
    // is noted, and each region that declares a name is kept for it.
    ghost invariant = { λ a. IsIndexed a.links.items (get same_key a.tables) (first_of a.firsts) a.settled (homes_of a.homes) };
}

impl Catalog {
    /// No declaration.
    pub(crate) fn new(alloc: Global) -> Catalog
        ensures { result ≡ [] }
    {
        Catalog {
            alloc,
            links: Vec::new(alloc),
            tables: IndexMap::new(alloc),
            firsts: Firsts::new(alloc),
            settled: true,
            homes: Homes::new(alloc),
        }
    }

    /// How many there are.
    pub(crate) fn len(&self) -> usize
        ensures { result ≡ length self.now }
    {
        self.links.len()
    }

    /// The declaration of a number, and its region.
    pub(crate) fn get(&self, number: u32) -> Option<&Entered>
        ensures { MatchOption result (slice_index_or self.now number nothing_entered ≡ nothing_entered)
            (λ e. e.now ≡ slice_index_or self.now number nothing_entered) }
    {
        match self.links.get(number as usize) {
            Some(link) => Some(&link.entered),
            None => None,
        }
    }

    /// The declaration of a number that was given.
    pub(crate) fn at(&self, number: u32) -> &Entered
        requires { number < length self.now }
        ensures { result.now ≡ slice_index_or self.now number nothing_entered }
    {
        &self.links[number as usize].entered
    }

    /// The table of a region and a name.
    pub(crate) fn table(&self, key: &Key) -> Table
        ensures { IsTable self.now key.now.region key.now.name.items result }
    {
        match self.tables.get(key) {
            Some(table) => *table,
            None => Table {
                newest: 0,
                first: None,
                alone: None,
            },
        }
    }

    /// Whether each declaration stands behind its parameters.
    pub(crate) fn is_settled(&self) -> bool
        ensures { result ≡ is_settled self.now }
    {
        self.settled
    }

    /// The first of a sort.
    pub(crate) fn first(&self, sort: &Sort) -> Option<u32>
        requires { IsTrue (is_settled self.now) }
        ensures { result ≡ first_below (has_sort self.now sort.now) self.now (length self.now) }
    {
        self.firsts.first(sort)
    }

    /// The regions that declare a name, and maybe others.
    pub(crate) fn homes(&self, name: &Name) -> &[u32]
        ensures { (k : ℕ) → k < length self.now → (slice_index_or self.now k nothing_entered).declaration.name ≡ name.now.bytes.items
            → Contains result.now (slice_index_or self.now k nothing_entered).region }
    {
        self.homes.of(name)
    }

    /// What was entered in a region under a name, the newest first, behind what is found.
    pub(crate) fn add_entered(&self, key: &Key, found: &mut Vec<u32>) -> Result<(), AllocError>
        ensures { OnOk result (found.new.items ≡ found.old.items
            ++ entered_below (stands_in key.now.region key.now.name.items) self.now (length self.now)) }
    {
        let mut left = self.table(key).newest;
        while left > 0 {
            found.push(left - 1)?;
            left = self.links[left as usize - 1].before;
        }
        Ok(())
    }

    /// The type of a declaration.
    fn type_of(&self, number: u32) -> Option<u32>
        ensures { result ≡ type_among self.now number }
    {
        match self.get(number) {
            Some(entered) => match entered.declaration.mark {
                Some(mark) => Some(mark.number()),
                None => None,
            },
            None => None,
        }
    }

    /// Types behind others.
    fn add_types(
        &self,
        parameters: &[DeclId],
        types: &mut Vec<Option<u32>>,
    ) -> Result<(), AllocError>
        ensures { OnOk result (types.new.items ≡ types.old.items ++ map (type_among self.now) parameters.now) }
    {
        for parameter in parameters {
            types.push(self.type_of(parameter.number()))?;
        }
        Ok(())
    }

    /// The types of a declaration's result and parameters.
    fn profile_of(&self, declared: &Declaration) -> Result<Vec<Option<u32>>, AllocError>
        ensures { IfOk result (λ types. types.items ≡ profile_among self.now declared.now) }
    {
        let mut types = Vec::new(self.alloc);
        let own = match declared.mark {
            Some(mark) => Some(mark.number()),
            None => None,
        };
        types.push(own)?;
        self.add_types(declared.parameters.as_slice(), &mut types)?;
        Ok(types)
    }

    /// The sort of a declaration in a region.
    pub(crate) fn sort_of(&self, region: u32, declared: &Declaration) -> Result<Sort, AllocError>
        ensures { IfOk result (λ sort. IsSortOf self.now region declared.now sort) }
    {
        let name = Vec::from_slice(self.alloc, declared.name.as_slice())?;
        let profile = self.profile_of(declared)?;
        Ok(Sort {
            region,
            name,
            predefined: declared.class.is_predefined(),
            copy: declared.class.is_copy(),
            profile,
        })
    }

    /// The sort of what is entered, where it is overloadable and a sort is asked for.
    fn sort_where(&self, asked: bool, entered: &Entered) -> Result<Option<Sort>, AllocError>
        ensures { IfOk result (λ sort. IsTrue asked → HasItsSort self.now entered.now sort) }
    {
        if !asked || !entered.declaration.class.is_overloadable() {
            return Ok(None);
        }
        let sort = self.sort_of(entered.region, &entered.declaration)?;
        Ok(Some(sort))
    }

    /// Whether all parameters are among the declarations.
    fn knows(&self, parameters: &[DeclId]) -> bool
        ensures { result ≡ knows (length self.now) parameters.now }
    {
        for parameter in parameters {
            if (parameter.number() as usize) >= self.len() {
                return false;
            }
        }
        true
    }

    /// What is noted of a declaration more: its number, and what it changes in the tables.
    fn note_of(&self, name: &[u8], entered: &Entered) -> Result<Note, AllocError>
        requires { name.now ≡ entered.now.declaration.name }
        ensures { IfOk result (λ note. IsNoteOf self.now entered.now note) }
    {
        let id = narrow(self.links.len())?;
        if id == u32::MAX {
            return Err(AllocError);
        }
        let settled = self.settled && self.knows(entered.declaration.parameters.as_slice());
        let sort = self.sort_where(settled, entered)?;
        let key = key_of(self.alloc, entered.region, name)?;
        let table = self.table(&key);
        let grown = table.with(id, entered.declaration.class.is_overloadable());
        Ok(Note {
            id,
            settled,
            sort,
            key,
            table,
            grown,
        })
    }

    /// A declaration more, under its name.
    pub(crate) fn push(&mut self, name: &[u8], entered: Entered) -> Result<u32, AllocError>
        requires { name.now ≡ entered.declaration.name }
        ensures pushed { IfOk result (λ id. (id ≡ length self.old) × (self.new ≡ self.old ++ entered ∷ [])) }
        ensures unchanged { OnErr result (self.new ≡ self.old) }
    {
        let note = self.note_of(name, &entered)?;
        self.put(note, name, entered)
    }

    // A declaration more, of which this is noted. What can fail comes before all writes; but a region that is kept for a name may stay.
    fn put(&mut self, note: Note, name: &[u8], entered: Entered) -> Result<u32, AllocError>
        requires named { name.now ≡ entered.declaration.name }
        requires noted { IsNoteOf self.old entered note }
        ensures pushed { IfOk result (λ id. (id ≡ length self.old) × (self.new ≡ self.old ++ entered ∷ [])) }
        ensures unchanged { OnErr result (self.new ≡ self.old) }
    {
        let is_first = note.table.newest == 0;
        self.homes
            .add_where(self.alloc, is_first, name, note.key.region)?;
        self.links.reserve(1)?;
        self.tables.reserve(1)?;
        self.firsts.add(note.sort, note.id)?;
        let link = Link::new(entered, note.table.newest);
        let Ok(_) = self.links.push(link) else {
            unreachable!()
        };
        let Ok(_) = self.tables.insert(note.key, note.grown) else {
            unreachable!()
        };
        self.settled = note.settled;
        Ok(note.id)
    }
}
