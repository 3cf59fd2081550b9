//! What is visible: lists of declarations, each step of which is one of the definition's.

ghost use Rattle.std.specs.Prelude.{◌≡◌, ◌↔◌, ◌<◌, ◌≤◌, ◌∷◌, ◌++◌, ◌&&◌, ◌==◌, ℕ, [], OnOk, OnErr, IfOk, Ok, Err, Some, None, true, false, length, map, not, if◌then◌else◌};
ghost use Rattle.std.specs.List.{filter, flat_map, list_all, list_any, Contains};
ghost use Rattle.std.specs.List.Sorted.{IsStrictlyIncreasing};
ghost use Rattle.vd_declarations.specs.Classes.{is_overloadable, is_function};
ghost use Rattle.vd_regions.specs.Scopes.{Scopes, region_at, declaration_at, meant, continued, chain};
ghost use Rattle.vd_regions.specs.Homographs.{apart, replaces};
ghost use Rattle.vd_regions.specs.Visible.{IsMeant};
ghost use Rattle.vd_regions.specs.Clauses.{clause_of, clauses_of};
ghost use Rattle.vd_regions.specs.Found.{entered_in, in_place, declared_of, declared_in, round, apart_from, direct_from, means, given_by, given, is_given_by, is_given, given_from, given_among, is_alone, by_use_among, functions_of, opens, selected_from};

use crate::clauses::UseClause;
use crate::regions::Regions;
use crate::tables::takes_place_of;
use std::alloc::{AllocError, Global};
use vd_declarations::{Class, DeclId};
use vd_region_tables::numbers::{are_all, has, put_in_order};
use vd_region_tables::{Key, Name, key_of};

impl Regions {
    /// Whether a declaration takes the place of an operator.
    fn replaces(&self, new: u32, old: u32) -> bool
        ensures { result ≡ replaces self.now new old }
    {
        match (self.catalog.get(new), self.catalog.get(old)) {
            (Some(one), Some(other)) => {
                takes_place_of(one.declaration.class, other.declaration.class)
                    && old < new
                    && self.have_same_profile(&other.declaration, &one.declaration)
            }
            _ => false,
        }
    }

    /// Whether none of these takes the place of a declaration. Only the place of an operator can be taken.
    #[tactic(auto, using(crate::proofs::PlaceLemmas::no_operator))]
    fn is_in_place(&self, functions: &[u32], old: u32) -> bool
        ensures { result ≡ in_place self.now functions.now old }
    {
        if !self.class_at(old).is_predefined() {
            return true;
        }
        for function in functions {
            if self.replaces(*function, old) {
                return false;
            }
        }
        true
    }

    /// The functions among some declarations.
    fn functions_of(&self, alloc: Global, some: &[u32]) -> Result<Vec<u32>, AllocError>
        ensures { IfOk result (λ found. found.items ≡ functions_of self.now some.now) }
    {
        let mut found = Vec::new(alloc);
        for number in some {
            if self.class_at(*number).is_function() {
                found.push(*number)?;
            }
        }
        Ok(found)
    }

    /// Those of some declarations whose place none of the functions took, behind what is found.
    fn add_in_place(
        &self,
        functions: &[u32],
        some: &[u32],
        found: &mut Vec<u32>,
    ) -> Result<(), AllocError>
        ensures { OnOk result (found.new.items ≡ found.old.items ++ filter (in_place self.now functions.now) some.now) }
    {
        for number in some {
            if self.is_in_place(functions, *number) {
                found.push(*number)?;
            }
        }
        Ok(())
    }

    /// What a region declares under a name, behind what is found.
    pub(crate) fn add_declared(
        &self,
        alloc: Global,
        key: &Key,
        found: &mut Vec<u32>,
    ) -> Result<(), AllocError>
        ensures { OnOk result (found.new.items ≡ found.old.items ++ declared_in self.now key.now.name.items key.now.region) }
    {
        let mut entered = Vec::new(alloc);
        self.catalog.add_entered(key, &mut entered)?;
        let functions = self.functions_of(alloc, &entered)?;
        self.add_in_place(&functions, &entered, found)?;
        Ok(())
    }

    /// Whether the end of a region is reached.
    pub(crate) fn is_closed(&self, region: u32) -> bool
        ensures { result ≡ (region_at self.now region).closed }
    {
        match self.spaces.get(region as usize) {
            Some(space) => space.closed,
            None => false,
        }
    }

    /// The region round another.
    pub(crate) fn outer(&self, region: u32) -> u32
        ensures { result ≡ (region_at self.now region).outer }
    {
        match self.spaces.get(region as usize) {
            Some(space) => space.outer,
            None => 0,
        }
    }

    /// What a region continues.
    pub(crate) fn continues(&self, region: u32) -> Option<u32>
        ensures { result ≡ (region_at self.now region).continues }
    {
        match self.spaces.get(region as usize) {
            Some(space) => space.continues,
            None => None,
        }
    }

    /// A region and those round it, the innermost first, each with what it continues.
    pub(crate) fn chain(&self, alloc: Global, region: u32) -> Result<Vec<u32>, AllocError>
        ensures { IfOk result (λ regions. regions.items ≡ chain self.now region) }
    {
        let mut regions = Vec::new(alloc);
        let mut at = region;
        let mut left = u64::from(region) + 1;
        while left > 0 {
            regions.push(at)?;
            self.add_continued(at, &mut regions)?;
            if at == 0 {
                return Ok(regions);
            }
            at = self.outer(at);
            left -= 1;
        }
        Ok(regions)
    }

    /// What a region continues, behind what is found.
    fn add_continued(&self, region: u32, found: &mut Vec<u32>) -> Result<(), AllocError>
        ensures { OnOk result (found.new.items ≡ found.old.items ++ continued self.now region) }
    {
        if let Some(declaration) = self.continues(region) {
            found.push(declaration)?;
        }
        Ok(())
    }

    /// Whether a declaration may stand beside another.
    fn is_apart(&self, number: u32, other: u32) -> bool
        ensures { result ≡ apart self.now (declaration_at self.now number) (declaration_at self.now other) }
    {
        match (self.catalog.get(number), self.catalog.get(other)) {
            (Some(one), Some(other)) => self.are_apart(&one.declaration, &other.declaration),
            _ => false,
        }
    }

    /// Whether a declaration may stand beside each of the others.
    fn is_apart_from(&self, others: &[u32], number: u32) -> bool
        ensures { result ≡ apart_from self.now others.now number }
    {
        for other in others {
            if !self.is_apart(number, *other) {
                return false;
            }
        }
        true
    }

    /// Those of some declarations that may stand beside each of the others, behind what is found.
    fn add_apart(
        &self,
        others: &[u32],
        some: &[u32],
        found: &mut Vec<u32>,
    ) -> Result<(), AllocError>
        ensures { OnOk result (found.new.items ≡ found.old.items ++ filter (apart_from self.now others.now) some.now) }
    {
        for number in some {
            if self.is_apart_from(others, *number) {
                found.push(*number)?;
            }
        }
        Ok(())
    }

    /// What some regions declare under the key's name.
    pub(crate) fn add_round(
        &self,
        alloc: Global,
        key: &mut Key,
        regions: &[u32],
        found: &mut Vec<u32>,
    ) -> Result<(), AllocError>
        ensures found { OnOk result (found.new.items ≡ found.old.items ++ round self.now key.old.name.items regions.now) }
        ensures name { key.new.name.items ≡ key.old.name.items }
    {
        for region in regions {
            key.region = *region;
            self.add_declared(alloc, key, found)?;
        }
        Ok(())
    }

    /// What some regions, the innermost first, declare under the key's name and no inner one hides.
    pub(crate) fn add_direct(
        &self,
        alloc: Global,
        key: &mut Key,
        regions: &[u32],
        found: &mut Vec<u32>,
    ) -> Result<(), AllocError>
        ensures found { OnOk result (found.new.items ≡ found.old.items ++ direct_from self.now key.old.name.items [] regions.now) }
        ensures name { key.new.name.items ≡ key.old.name.items }
    {
        let mut inner = Vec::new(alloc);
        for region in regions {
            key.region = *region;
            let mut here = Vec::new(alloc);
            self.add_declared(alloc, key, &mut here)?;
            self.add_apart(&inner, &here, found)?;
            inner.extend_from_slice(&here)?;
        }
        Ok(())
    }

    /// Whether a use clause speaks of a name.
    fn means(clause: &UseClause, name: &[u8]) -> bool
        ensures { result ≡ means clause.now.name name.now }
    {
        match &clause.name {
            Some(own) => own.as_slice() == name,
            None => true,
        }
    }

    /// What one use clause gives of the key's name.
    fn add_given_by(
        &self,
        alloc: Global,
        key: &mut Key,
        clause: &UseClause,
        found: &mut Vec<u32>,
    ) -> Result<(), AllocError>
        ensures found { OnOk result (found.new.items ≡ found.old.items ++ given_by self.now key.old.name.items (clause_of clause.now)) }
        ensures name { key.new.name.items ≡ key.old.name.items }
    {
        if self.is_closed(clause.from) && Regions::means(clause, &key.name) {
            key.region = clause.from;
            self.add_declared(alloc, key, found)?;
        }
        Ok(())
    }

    /// What some use clauses give of the key's name.
    fn add_given_by_all(
        &self,
        alloc: Global,
        key: &mut Key,
        clauses: &[UseClause],
        found: &mut Vec<u32>,
    ) -> Result<(), AllocError>
        ensures found { OnOk result (found.new.items ≡ found.old.items
            ++ flat_map (given_by self.now key.old.name.items) (clauses_of clauses.now)) }
        ensures name { key.new.name.items ≡ key.old.name.items }
    {
        for clause in clauses {
            self.add_given_by(alloc, key, clause, found)?;
        }
        Ok(())
    }

    /// The use clauses of a region.
    pub(crate) fn uses_of(&self, region: u32) -> &[UseClause]
        ensures { clauses_of result.now ≡ (region_at self.now region).uses }
    {
        match self.spaces.get(region as usize) {
            Some(space) => space.uses.as_slice(),
            None => &[],
        }
    }

    /// What the use clauses of some regions give of the key's name.
    fn add_given(
        &self,
        alloc: Global,
        key: &mut Key,
        regions: &[u32],
        found: &mut Vec<u32>,
    ) -> Result<(), AllocError>
        ensures found { OnOk result (found.new.items ≡ found.old.items ++ given self.now key.old.name.items regions.now) }
        ensures name { key.new.name.items ≡ key.old.name.items }
    {
        for region in regions {
            self.add_given_by_all(alloc, key, self.uses_of(*region), found)?;
        }
        Ok(())
    }

    /// How many use clauses stand in some regions.
    fn count_clauses(&self, regions: &[u32]) -> usize {
        let mut count: usize = 0;
        for region in regions {
            count = count.saturating_add(self.uses_of(*region).len());
        }
        count
    }

    /// Whether a clause of a region gives the name of the key's region.
    fn region_gives(&self, region: u32, key: &Key) -> bool
        ensures { result ≡ is_given_by (region_at self.now region).uses key.now.name.items key.now.region }
    {
        match self.spaces.get(region as usize) {
            Some(space) => space.uses.gives(key),
            None => false,
        }
    }

    /// Whether a clause of one of these regions does.
    fn is_given(&self, regions: &[u32], key: &Key) -> bool
        ensures { result ≡ is_given self.now key.now.name.items regions.now key.now.region }
    {
        for region in regions {
            if self.region_gives(*region, key) {
                return true;
            }
        }
        false
    }

    /// What use clauses of these regions give of what the key's region declares under its name.
    fn add_given_from(
        &self,
        alloc: Global,
        key: &Key,
        regions: &[u32],
        found: &mut Vec<u32>,
    ) -> Result<(), AllocError>
        ensures { OnOk result (found.new.items ≡ found.old.items ++ given_from self.now key.now.name.items regions.now key.now.region) }
    {
        if self.is_closed(key.region) && self.is_given(regions, key) {
            self.add_declared(alloc, key, found)?;
        }
        Ok(())
    }

    /// The same of several other regions.
    fn add_given_among(
        &self,
        alloc: Global,
        key: &mut Key,
        regions: &[u32],
        froms: &[u32],
        found: &mut Vec<u32>,
    ) -> Result<(), AllocError>
        ensures found { OnOk result (found.new.items ≡ found.old.items ++ given_among self.now key.old.name.items regions.now froms.now) }
        ensures name { key.new.name.items ≡ key.old.name.items }
    {
        for from in froms {
            key.region = *from;
            self.add_given_from(alloc, key, regions, found)?;
        }
        Ok(())
    }

    /// What the use clauses of some regions give of the key's name, in any order. Either each of the clauses is asked, or each region that
    /// declares the name, whichever are fewer.
    pub(crate) fn gather_given(
        &self,
        alloc: Global,
        key: &mut Key,
        regions: &[u32],
    ) -> Result<Vec<u32>, AllocError>
        ensures found { IfOk result (λ found. (k : ℕ) → Contains found.items k ↔ Contains (given self.now key.old.name.items regions.now) k) }
        ensures name { key.new.name.items ≡ key.old.name.items }
    {
        let bytes = Vec::from_slice(alloc, &key.name)?;
        let name = Name { bytes };
        let homes = self.catalog.homes(&name);
        let mut found = Vec::new(alloc);
        if self.count_clauses(regions) <= homes.len() {
            self.add_given(alloc, key, regions, &mut found)?;
            return Ok(found);
        }
        self.add_given_among(alloc, key, regions, homes, &mut found)?;
        Ok(found)
    }

    /// Whether all of these are overloadable.
    pub(crate) fn are_overloadable(&self, some: &[u32]) -> bool
        ensures { result ≡ list_all (λ k. is_overloadable (declaration_at self.now k).class) some.now }
    {
        for number in some {
            if !self.class_at(*number).is_overloadable() {
                return false;
            }
        }
        true
    }

    /// Whether a declaration is the same as each of the others, or is overloadable as all are.
    fn is_alone(&self, others: &[u32], all_overloadable: bool, number: u32) -> bool
        requires { all_overloadable ≡ list_all (λ k. is_overloadable (declaration_at self.now k).class) others.now }
        ensures { result ≡ is_alone self.now others.now number }
    {
        if self.class_at(number).is_overloadable() {
            all_overloadable
        } else {
            are_all(others, number)
        }
    }

    /// Those that use clauses give and nothing hides, behind what is found: `around` are the declarations of the name in the regions
    /// round the place.
    pub(crate) fn add_by_use(
        &self,
        around: &[u32],
        clause_given: &[u32],
        found: &mut Vec<u32>,
    ) -> Result<(), AllocError>
        ensures { OnOk result (found.new.items ≡ found.old.items ++ by_use_among self.now around.now clause_given.now) }
    {
        let all_overloadable = self.are_overloadable(clause_given);
        for number in clause_given {
            if self.is_apart_from(around, *number)
                && self.is_alone(clause_given, all_overloadable, *number)
            {
                found.push(*number)?;
            }
        }
        Ok(())
    }

    /// Whether what a region declares can be selected by a name whose prefix is of this class.
    fn opens(
        &self,
        alloc: Global,
        place: u32,
        inside: u32,
        class: Class,
    ) -> Result<bool, AllocError>
        ensures { IfOk result (λ b. b ≡ opens self.now place inside class) }
    {
        match class {
            Class::Library => Ok(true),
            Class::Package
            | Class::UninstantiatedPackage
            | Class::PackageInstance
            | Class::RecordType => Ok(self.is_closed(inside)),
            Class::Entity => {
                let regions = self.chain(alloc, place)?;
                Ok(self.is_closed(inside) && has(&regions, inside))
            }
            _ => Ok(false),
        }
    }

    /// The region of a declaration, where it has one.
    fn inside_of(&self, number: u32) -> Option<u32>
        ensures { result ≡ (declaration_at self.now number).inside }
    {
        match self.catalog.get(number) {
            Some(entered) => match entered.declaration.inside {
                Some(region) => Some(region.number()),
                None => None,
            },
            None => None,
        }
    }

    /// What a selected name means, behind what is found.
    pub(crate) fn add_selected(
        &self,
        alloc: Global,
        place: u32,
        prefix: u32,
        name: &[u8],
        found: &mut Vec<u32>,
    ) -> Result<(), AllocError>
        ensures { OnOk result (found.new.items ≡ found.old.items ++ selected_from self.now place prefix name.now) }
    {
        let Some(inside) = self.inside_of(prefix) else {
            return Ok(());
        };
        let opens = self.opens(alloc, place, inside, self.class_at(prefix))?;
        if opens {
            let key = key_of(alloc, inside, name)?;
            self.add_declared(alloc, &key, found)?;
        }
        Ok(())
    }
}

impl Regions {
    /// The declaration that the name of an entry means.
    fn meant(&self, number: u32) -> DeclId
        ensures { result ≡ meant self.now number }
    {
        match self.class_at(number).meaning() {
            Some(meant) => meant,
            None => DeclId::of(number),
        }
    }

    /// What the names of some entries mean.
    fn meanings(&self, alloc: Global, some: &[u32]) -> Result<Vec<u32>, AllocError>
        ensures { IfOk result (λ meanings. meanings.items ≡ map (meant self.now) some.now) }
    {
        let mut meanings = Vec::new(alloc);
        for number in some {
            meanings.push(self.meant(*number).number())?;
        }
        Ok(meanings)
    }

    /// What the names of some entries mean, in the order in which it was entered.
    pub(crate) fn meant_in_order(
        &self,
        alloc: Global,
        some: &[u32],
    ) -> Result<Vec<DeclId>, AllocError>
        ensures in_order { IfOk result (λ found. IsStrictlyIncreasing found.items) }
        ensures all { IfOk result (λ found. (k : ℕ) → Contains found.items k ↔ IsMeant self.now (Contains some.now) k) }
    {
        let mut meanings = self.meanings(alloc, some)?;
        put_in_order(&mut meanings)?;
        let ids = ids_of(alloc, &meanings)?;
        Ok(ids)
    }
}

/// Numbers as declarations.
fn ids_of(alloc: Global, numbers: &[u32]) -> Result<Vec<DeclId>, AllocError>
    ensures { IfOk result (λ ids. ids.items ≡ numbers.now) }
{
    let mut ids = Vec::new(alloc);
    for number in numbers {
        ids.push(DeclId::of(*number))?;
    }
    Ok(ids)
}
