//! Types, objects and signals in the table. (IEEE 1076, declarations.)

ghost use Rattle.std.specs.Prelude.{◌≡◌, ◌≤◌, ◌∷◌, [], IfOk, List, OnOk, length, true};
ghost use Rattle.vd_composites.specs.Composites.{Value as AnyValue, bounds_of};
ghost use Rattle.vd_forest.specs.Store.{Extends, at};
ghost use Rattle.vd_value_rules.specs.Indicated.{indicated_in, static_of};
ghost use Rattle.vd_value_rules.specs.Made.{Indicates, object_of};
ghost use Rattle.vd_known_designs.specs.Known.{AreKnown};
ghost use Rattle.vd_meaning.specs.Tables.{Table};
ghost use Rattle.vd_known_designs.specs.Tables.{declared_in};
ghost use Rattle.vd_value_rules.specs.Declaring.{type_known};
ghost use Rattle.vd_value_rules.specs.Knowledge.{Known, TwoIndicated, object_known, signals_known};
ghost use Rattle.vd_values.specs.declared.scalar.Scalar.{Scalar as AnyScalar};

use crate::SubtypeTables;
use crate::entries::{object_entry, signal_entry, type_entry};
use crate::table::KnownTable;
use std::alloc::AllocError;
use vd_composites::{Bounds, Value};
use vd_value_rules::StaticSort;

/// The subtype of an object that is declared inside of a process or a function, or outside.
fn subtype_of_object(
    subtypes: &mut SubtypeTables,
    is_inside: bool,
    subtype: u32,
) -> Result<u32, AllocError>
    requires { subtype ≤ length subtypes.old }
    ensures indicates { IfOk result (λ number. Indicates subtypes.new number
        (declared_in is_inside (object_of (indicated_in (at subtypes.old subtype))))) }
    ensures extends { Extends subtypes.old subtypes.new }
{
    let subtype = subtypes.object_subtype(subtype)?;
    subtypes.declared_in(is_inside, subtype)
}

impl<'a> KnownTable<'a> {
    /// A type or a subtype.
    pub fn set_type(&mut self, number: u32, own: u32, choosing: u32) -> Result<(), AllocError>
        requires own_in { own ≤ length self.old.subtypes }
        requires choosing_in { choosing ≤ length self.old.subtypes }
        ensures known { (t : Table) (i : TwoIndicated) (k : Known) (ks : List Known) → AreKnown t self.old (k ∷ ks)
            → Indicates self.old.subtypes own i.own → Indicates self.old.subtypes choosing i.choosing
            → OnOk result (AreKnown t self.new (type_known number i.own i.choosing k ∷ ks)) }
        ensures extends { Extends self.old.subtypes self.new.subtypes }
    {
        let is_inside = self.contents.is_inside;
        let own = self.subtypes.declared_in(is_inside, own)?;
        let choosing = self.subtypes.declared_in(is_inside, choosing)?;
        let entry = type_entry(self.alloc, &mut self.subtypes, own)?;
        self.set(number, entry, choosing)
    }

    /// An object with a value, which counts where it is locally static, and the bounds of that value where it is an array.
    pub fn set_object(
        &mut self,
        number: u32,
        own: u32,
        choosing: u32,
        value: Option<Value>,
        known: StaticSort,
        shape: Option<Bounds>,
    ) -> Result<(), AllocError>
        requires own_in { own ≤ length self.old.subtypes }
        requires choosing_in { choosing ≤ length self.old.subtypes }
        ensures known { (t : Table) (i : TwoIndicated) (v : AnyValue AnyScalar) (k : Known) (ks : List Known) → AreKnown t self.old (k ∷ ks)
            → Indicates self.old.subtypes own i.own → Indicates self.old.subtypes choosing i.choosing
            → (known.is_local ≡ true → value ≡ Some v) → bounds_of v ≡ shape
            → OnOk result (AreKnown t self.new (object_known number i v (static_of known) k ∷ ks)) }
        ensures extends { Extends self.old.subtypes self.new.subtypes }
    {
        let is_inside = self.contents.is_inside;
        let own = subtype_of_object(&mut self.subtypes, is_inside, own)?;
        let choosing = subtype_of_object(&mut self.subtypes, is_inside, choosing)?;
        let entry = object_entry(self.alloc, &mut self.subtypes, own, value, known, shape)?;
        self.set(number, entry, choosing)
    }

    /// A signal.
    pub fn set_signal(&mut self, number: u32, own: u32, choosing: u32) -> Result<(), AllocError>
        requires own_in { own ≤ length self.old.subtypes }
        ensures known { (t : Table) (i : TwoIndicated) (k : Known) (ks : List Known) → AreKnown t self.old (k ∷ ks)
            → Indicates self.old.subtypes own i.own → Indicates self.old.subtypes choosing i.choosing
            → OnOk result (AreKnown t self.new (signals_known (number ∷ []) i k ∷ ks)) }
        ensures same { self.new.subtypes ≡ self.old.subtypes }
    {
        let entry = signal_entry(self.alloc, &mut self.subtypes, own)?;
        self.set(number, entry, choosing)
    }
}
