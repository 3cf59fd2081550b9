//! Which declarations of a name may stand in one region.

ghost use Rattle.std.specs.Prelude.{IsTrue, ◌≡◌, ◌<◌, ◌≤◌, ◌∷◌, ◌++◌, ◌&&◌, ℕ, [], OnOk, OnErr, IfOk, Ok, Err, Some, None, true, false, length, map, not, if◌then◌else◌};
ghost use Rattle.std.specs.Option.{option_or};
ghost use Rattle.vd_regions.specs.Scopes.{region_at, declaration_at, stands_in};
ghost use Rattle.vd_regions.specs.Homographs.{same_type, same_types, same_profile, apart, takes_place_of, are_copies, name_one_library, may_stand_beside, homograph, type_of};
ghost use Rattle.vd_regions.specs.Found.{first_in, earlier};
ghost use Rattle.vd_regions.specs.Links.{first_below};
ghost use Rattle.vd_regions.specs.Indexes.{has_sort, first_by_sorts, is_settled};

use crate::regions::Regions;
use std::alloc::AllocError;
use vd_declarations::{Class, DeclId, Declaration, TypeId};
use vd_region_tables::{Key, Sort, key_of};

/// Whether a declaration of the first class takes the place of one of the second.
pub(crate) fn takes_place_of(class: Class, old: Class) -> bool
    ensures { result ≡ takes_place_of class old }
{
    class.is_function() && old.is_predefined()
}

/// Whether both are functions of an instance.
fn are_copies(class: Class, old: Class) -> bool
    ensures { result ≡ are_copies class old }
{
    class.is_copy() && old.is_copy()
}

/// Whether both are names of one library.
fn name_one_library(class: Class, old: Class) -> bool
    ensures { result ≡ name_one_library class old }
{
    match (class.library(), old.library()) {
        (Some(one), Some(other)) => one.number() == other.number(),
        _ => false,
    }
}

/// The types are the same, or there is none on either side.
fn is_same_type(one: Option<TypeId>, other: Option<TypeId>) -> bool
    ensures { result ≡ same_type one other }
{
    match (one, other) {
        (None, None) => true,
        (Some(one), Some(other)) => one.number() == other.number(),
        _ => false,
    }
}

impl Regions {
    /// The class of a declaration, or that of a label where the number is no declaration's.
    pub(crate) fn class_at(&self, number: u32) -> Class
        ensures { result ≡ (declaration_at self.now number).class }
    {
        match self.catalog.get(number) {
            Some(entered) => entered.declaration.class,
            None => Class::Label,
        }
    }

    /// The type of a declaration.
    fn type_at(&self, number: u32) -> Option<TypeId>
        ensures { result ≡ type_of self.now number }
    {
        match self.catalog.get(number) {
            Some(entered) => entered.declaration.mark,
            None => None,
        }
    }

    /// Whether two lists of parameters have the same types.
    #[tactic(auto, using(crate::proofs::ProfileLemmas::of_other_lengths))]
    fn have_same_types(&self, one: &[DeclId], other: &[DeclId]) -> bool
        ensures { result ≡ same_types (map (type_of self.now) one.now) (map (type_of self.now) other.now) }
    {
        if one.len() != other.len() {
            return false;
        }
        for (index, parameter) in one.iter().enumerate() {
            if !is_same_type(
                self.type_at(parameter.number()),
                self.type_at(other[index].number()),
            ) {
                return false;
            }
        }
        true
    }

    /// Whether two declarations have the same profile.
    pub(crate) fn have_same_profile(&self, one: &Declaration, other: &Declaration) -> bool
        ensures { result ≡ same_profile self.now one.now other.now }
    {
        is_same_type(one.mark, other.mark)
            && self.have_same_types(one.parameters.as_slice(), other.parameters.as_slice())
    }

    /// Whether both are overloadable, with different profiles.
    pub(crate) fn are_apart(&self, one: &Declaration, other: &Declaration) -> bool
        ensures { result ≡ apart self.now one.now other.now }
    {
        one.class.is_overloadable()
            && other.class.is_overloadable()
            && !self.have_same_profile(one, other)
    }

    /// Whether a new declaration may stand in one region with an old one of its name.
    pub(crate) fn may_stand_beside(&self, old: &Declaration, new: &Declaration) -> bool
        ensures { result ≡ may_stand_beside self.now old.now new.now }
    {
        takes_place_of(new.class, old.class)
            || are_copies(new.class, old.class)
            || name_one_library(new.class, old.class)
            || self.are_apart(old, new)
    }

    /// The first declaration of a region, or of what it continues, beside which a new one may not stand.
    #[tactic(auto, using(crate::proofs::HomographLemmas::in_one_region, crate::proofs::HomographLemmas::in_two_regions))]
    pub(crate) fn first_clash(
        &self,
        region: u32,
        new: &Declaration,
    ) -> Result<Option<u32>, AllocError>
        ensures { IfOk result (λ first. first ≡ homograph self.now region new.now) }
    {
        let here = self.first_in(region, new)?;
        match self.continues(region) {
            None => Ok(here),
            Some(declaration) => {
                let there = self.first_in(declaration, new)?;
                Ok(earlier(here, there))
            }
        }
    }

    /// The first declaration of a region beside which a new one may not stand.
    fn first_in(&self, region: u32, new: &Declaration) -> Result<Option<u32>, AllocError>
        ensures { IfOk result (λ first. first ≡ first_in self.now region new.now) }
    {
        let key = key_of(self.alloc, region, new.name.as_slice())?;
        if !self.catalog.is_settled() || new.class.library().is_some() {
            return self.first_one_by_one(&key, new);
        }
        let table = self.catalog.table(&key);
        if !new.class.is_overloadable() {
            return Ok(table.first);
        }
        let mut sort = self.catalog.sort_of(region, new)?;
        let overloaded = self.first_of_sorts(
            &mut sort,
            new.class.is_function(),
            new.class.is_copy(),
        );
        Ok(earlier(table.alone, overloaded))
    }

    /// The first declaration of a table beside which a new one may not stand. Each of them is asked.
    fn first_one_by_one(&self, key: &Key, new: &Declaration) -> Result<Option<u32>, AllocError>
        requires { key.now.name.items ≡ new.now.name }
        ensures { IfOk result (λ first. first ≡ first_in self.now key.now.region new.now) }
    {
        let mut entered = Vec::new(self.alloc);
        self.catalog.add_entered(key, &mut entered)?;
        let mut found = None;
        for number in &entered {
            if !self.may_stand_in_place(*number, new) {
                found = Some(*number);
            }
        }
        Ok(found)
    }

    /// Whether a new declaration may stand in one region with that of a number.
    fn may_stand_in_place(&self, number: u32, new: &Declaration) -> bool
        ensures { result ≡ may_stand_beside self.now (declaration_at self.now number) new.now }
    {
        match self.catalog.get(number) {
            Some(entered) => self.may_stand_beside(&entered.declaration, new),
            None => false,
        }
    }

    /// The first overloadable declaration of a sort's profile beside which a new one may not stand. `function` and `copy` say whether the
    /// new one is a function that somebody wrote, and one that an instance declares.
    fn first_of_sorts(&self, sort: &mut Sort, function: bool, copy: bool) -> Option<u32>
        requires { IsTrue (is_settled self.now.entered) }
        ensures { result ≡ first_by_sorts self.now.entered sort.old function copy }
    {
        sort.predefined = false;
        sort.copy = false;
        let written = self.catalog.first(sort);
        sort.predefined = true;
        let operator = self.first_where(!function, sort);
        sort.predefined = false;
        sort.copy = true;
        let copied = self.first_where(!copy, sort);
        earlier(written, earlier(operator, copied))
    }

    /// The first of a sort, where that is asked.
    fn first_where(&self, asked: bool, sort: &Sort) -> Option<u32>
        requires { IsTrue (is_settled self.now.entered) }
        ensures { result ≡ (if asked then first_below (has_sort self.now.entered sort.now) self.now.entered (length self.now.entered) else None) }
    {
        if asked {
            self.catalog.first(sort)
        } else {
            None
        }
    }
}

// The earlier of two declarations.
fn earlier(one: Option<u32>, other: Option<u32>) -> Option<u32>
    ensures { result ≡ earlier one other }
{
    match (one, other) {
        (Some(one), Some(other)) => Some(one.min(other)),
        (Some(one), None) => Some(one),
        (None, other) => other,
    }
}
