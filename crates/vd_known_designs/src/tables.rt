//! A store of subtypes with its tables.

ghost use Rattle.std.specs.Prelude.{◌≡◌, ◌∷◌, ◌≤◌, [], IfOk, length, reverse};
ghost use Rattle.vd_environments.specs.Environments.{all_bounds as all_bounds_made};
ghost use Rattle.vd_forest.specs.Store.{Extends, at};
ghost use Rattle.vd_value_rules.specs.Indicated.{array_indicated, fields_in, indicated_in, static_of, texts_in};
ghost use Rattle.vd_value_rules.specs.Made.{Indicates, indexed_by, narrowed_for, object_of, ranging, scalar_indicated, slice_of};
ghost use Rattle.vd_meaning.specs.Declarations.{enumeration as enumeration_of, record_type as type_of_records};
ghost use Rattle.vd_known_designs.specs.Tables.{declared_in as as_declared};
ghost use Rattle.vd_value_rules.specs.Knowledge.{array_or_later};

use std::alloc::{AllocError, Global};
use std::marker::Model;
use vd_composites::{Bounds, ScalarSubtype};
use vd_forest::Store;
use vd_value_rules::inside::InsideTable;
use vd_value_rules::{
    BoundsTable, IndicatedForm, StaticSort, arrays, constraints, objects, parts, types,
};

/// Subtypes by their numbers, which contracts see as the list of their trees. A number stands for the same trees as long as the tables live.
#[derive(Drop)]
pub struct SubtypeTables {
    store: Store<IndicatedForm>,
    inside: InsideTable,
    bounds: BoundsTable,
}

impl Model for SubtypeTables {
    ghost use Rattle.std.specs.Prelude.{List};
    ghost use Rattle.std.specs.Coded.{coded_list};
    ghost use Rattle.vd_forest.specs.Code.{coded_forest};
    ghost use Rattle.vd_forest.specs.Forest.{Forest};
    ghost use Rattle.vd_value_rules.specs.contracts.forms.IndicatedForm as forms;
    ghost use Rattle.vd_value_rules.specs.declared.forms.IndicatedForm.{IndicatedForm as Form};
    ghost use Rattle.vd_known_designs.specs.Tables.{AreTables};

    ghost Value = { List (Forest Form) };

    ghost coded = { coded_list (coded_forest forms.the_row.coded) };

    ghost view = { λ a. a.store };

    ghost invariant = { λ a. AreTables a.inside.entries.items a.bounds.entries.items a.store };
}

impl SubtypeTables {
    /// No subtypes.
    pub fn new(alloc: Global) -> Self
        ensures { result ≡ [] }
    {
        SubtypeTables {
            store: Store::new(alloc),
            inside: InsideTable::new(alloc),
            bounds: BoundsTable::new(alloc),
        }
    }

    /// The subtypes.
    pub fn store(&self) -> &Store<IndicatedForm>
        ensures { result.now ≡ self.now }
    {
        &self.store
    }

    // ---- what is known of subtypes

    /// How static all bounds of a subtype are.
    pub fn all_bounds(&mut self, subtype: u32) -> Result<StaticSort, AllocError>
        requires { subtype ≤ length self.old }
        ensures bounds { IfOk result (λ s. static_of s ≡ all_bounds_made (indicated_in (at self.old subtype)).make) }
        ensures same { self.new ≡ self.old }
    {
        self.bounds.all_bounds(&self.store, subtype)
    }

    /// A subtype as it is where it is declared: inside of a process or a function, or outside.
    pub fn declared_in(&mut self, is_inside: bool, subtype: u32) -> Result<u32, AllocError>
        requires { subtype ≤ length self.old }
        ensures indicates { IfOk result (λ number. Indicates self.new number (as_declared is_inside (indicated_in (at self.old subtype)))) }
        ensures extends { Extends self.old self.new }
    {
        if !is_inside {
            return Ok(subtype);
        }
        self.inside.inside(&mut self.store, subtype)
    }

    // ---- types

    /// A scalar subtype, with the literals of its type.
    pub fn scalar_subtype(
        &mut self,
        subtype: ScalarSubtype,
        literals: u32,
        is_resolved: bool,
        range: StaticSort,
    ) -> Result<u32, AllocError>
        requires { literals ≤ length self.old }
        ensures indicates { IfOk result (λ number. Indicates self.new number
            (scalar_indicated subtype (texts_in (at self.old literals)) is_resolved (static_of range))) }
        ensures extends { Extends self.old self.new }
    {
        types::scalar_subtype(&mut self.store, subtype, literals, is_resolved, range)
    }

    /// An enumeration type of some literals.
    pub fn enumeration(&mut self, literals: u32) -> Result<u32, AllocError>
        requires { literals ≤ length self.old }
        ensures indicates { IfOk result (λ number. Indicates self.new number (enumeration_of (texts_in (at self.old literals)))) }
        ensures extends { Extends self.old self.new }
    {
        types::enumeration(&mut self.store, literals)
    }

    /// A record type of some fields.
    pub fn record_type(&mut self, fields: u32) -> Result<u32, AllocError>
        requires { fields ≤ length self.old }
        ensures indicates { IfOk result (λ number. Indicates self.new number (type_of_records (fields_in (at self.old fields)))) }
        ensures extends { Extends self.old self.new }
    {
        types::record_type(&mut self.store, fields)
    }

    /// An array subtype, with the literals of its index type.
    pub fn array(
        &mut self,
        index: ScalarSubtype,
        bounds: Option<Bounds>,
        known: StaticSort,
        literals: u32,
        element: u32,
    ) -> Result<u32, AllocError>
        requires literals_in { literals ≤ length self.old }
        requires element_in { element ≤ length self.old }
        ensures indicates { IfOk result (λ number. Indicates self.new number
            (array_indicated index bounds (static_of known) (texts_in (at self.old literals)) (indicated_in (at self.old element)))) }
        ensures extends { Extends self.old self.new }
    {
        arrays::array(&mut self.store, index, bounds, known, literals, element)
    }

    /// An array type of any bounds, by the subtype of its index. Where that isn't scalar, one that is known later.
    pub fn array_of_any_bounds(
        &mut self,
        index: u32,
        known: StaticSort,
        element: u32,
    ) -> Result<u32, AllocError>
        requires index_in { index ≤ length self.old }
        requires element_in { element ≤ length self.old }
        ensures indicates { IfOk result (λ number. Indicates self.new number
            (array_or_later (indexed_by (indicated_in (at self.old index)) (indicated_in (at self.old element))) (static_of known)
            (indicated_in (at self.old element)))) }
        ensures extends { Extends self.old self.new }
    {
        arrays::array_of_any_bounds(&mut self.store, index, known, element)
    }

    /// An array type with a range, which is its index subtype and its bounds. Where the range isn't locally static, one that is known later.
    pub fn array_with_range(
        &mut self,
        range: Option<ScalarSubtype>,
        literals: u32,
        known: StaticSort,
        element: u32,
    ) -> Result<u32, AllocError>
        requires literals_in { literals ≤ length self.old }
        requires element_in { element ≤ length self.old }
        ensures indicates { IfOk result (λ number. Indicates self.new number
            (array_or_later (ranging range (texts_in (at self.old literals)) (static_of known) (indicated_in (at self.old element))) (static_of known)
            (indicated_in (at self.old element)))) }
        ensures extends { Extends self.old self.new }
    {
        arrays::array_with_range(&mut self.store, range, literals, known, element)
    }

    // ---- subtypes of others

    /// A subtype with a constraint, for choices or else. For choices a resolved one has all values of its type.
    pub fn narrowed(
        &mut self,
        choosing: bool,
        subtype: u32,
        range: Option<Bounds>,
        known: StaticSort,
    ) -> Result<u32, AllocError>
        requires { subtype ≤ length self.old }
        ensures indicates { IfOk result (λ number. Indicates self.new number
            (narrowed_for choosing range (static_of known) (indicated_in (at self.old subtype)))) }
        ensures extends { Extends self.old self.new }
    {
        constraints::narrowed_for_choices(&mut self.store, choosing, subtype, range, known)
    }

    /// The subtype of a slice with such bounds.
    pub fn slice(
        &mut self,
        subtype: u32,
        bounds: Bounds,
        known: StaticSort,
    ) -> Result<u32, AllocError>
        requires { subtype ≤ length self.old }
        ensures indicates { IfOk result (λ number. Indicates self.new number
            (slice_of bounds (static_of known) (indicated_in (at self.old subtype)))) }
        ensures extends { Extends self.old self.new }
    {
        objects::slice(&mut self.store, subtype, bounds, known)
    }

    /// The subtype of an object. Where it has no bounds, its value gives them, and they aren't known when the text is analysed.
    pub fn object_subtype(&mut self, subtype: u32) -> Result<u32, AllocError>
        requires { subtype ≤ length self.old }
        ensures indicates { IfOk result (λ number. Indicates self.new number (object_of (indicated_in (at self.old subtype)))) }
        ensures extends { Extends self.old self.new }
    {
        objects::object_subtype(&mut self.store, subtype)
    }

    // ---- literals and fields

    /// A literal in front of others.
    pub fn literal(&mut self, text: &[u8], next: u32) -> Result<u32, AllocError>
        requires { next ≤ length self.old }
        ensures within { IfOk result (λ number. number ≤ length self.new) }
        ensures texts { IfOk result (λ number. texts_in (at self.new number) ≡ text.now ∷ texts_in (at self.old next)) }
        ensures extends { Extends self.old self.new }
    {
        parts::literal(&mut self.store, text, next)
    }

    /// A field of a subtype in front of others.
    pub fn field(&mut self, name: &[u8], subtype: u32, next: u32) -> Result<u32, AllocError>
        requires subtype_in { subtype ≤ length self.old }
        requires next_in { next ≤ length self.old }
        ensures within { IfOk result (λ number. number ≤ length self.new) }
        ensures fields { IfOk result (λ number. fields_in (at self.new number)
            ≡ record { name = name.now; indicated = indicated_in (at self.old subtype) } ∷ fields_in (at self.old next)) }
        ensures texts { IfOk result (λ number. texts_in (at self.new number) ≡ name.now ∷ texts_in (at self.old next)) }
        ensures extends { Extends self.old self.new }
    {
        parts::field(&mut self.store, name, subtype, next)
    }

    /// Literals or fields in the other order, which were added from the first on.
    pub fn turned(&mut self, number: u32) -> Result<u32, AllocError>
        requires { number ≤ length self.old }
        ensures within { IfOk result (λ made. made ≤ length self.new) }
        ensures texts { IfOk result (λ made. texts_in (at self.new made) ≡ reverse (texts_in (at self.old number))) }
        ensures fields { IfOk result (λ made. fields_in (at self.new made) ≡ reverse (fields_in (at self.old number))) }
        ensures extends { Extends self.old self.new }
    {
        parts::turned(&mut self.store, number)
    }
}
