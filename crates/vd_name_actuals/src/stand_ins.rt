//! The generics of what is instantiated, and the actuals of some of them.

ghost use Rattle.std.specs.Prelude.{◌≡◌, ℕ, List, [], false, true, None, nat_eq, IfOk, OnOk};
ghost use Rattle.std.specs.Option.{unwrap_or};
ghost use Rattle.std.specs.HashMap.{get};
ghost use Rattle.vd_naming.specs.Associations.{is_among_numbers};
ghost use Rattle.vd_naming.specs.Actuals.{actual_of};
ghost use Rattle.vd_name_actuals.specs.StandIns.{Pairs, stand_in};

use std::alloc::{AllocError, Global};
use std::collections::HashMap;
use std::marker::Model;
use vd_declarations::DeclId;
use vd_name_rows::Actual;

/// Whether a declaration is a generic of what is instantiated, and its first actual.
#[derive(Clone, Copy)]
pub(crate) struct StandIn {
    pub(crate) is_generic: bool,
    pub(crate) actual: Option<DeclId>,
}

/// The generics of what is instantiated and pairs of a generic and its actual, with a table of them by numbers.
#[derive(Drop)]
pub struct StandIns {
    generics: Vec<DeclId>,
    actuals: Vec<Actual>,
    table: HashMap<u32, StandIn>,
}

impl Model for StandIns {
    ghost use Rattle.std.specs.Prelude.{◌≡◌, ℕ, false, None, nat_eq};
    ghost use Rattle.std.specs.Option.{unwrap_or};
    ghost use Rattle.std.specs.HashMap.{get};
    ghost use Rattle.vd_name_actuals.specs.StandIns.{Pairs, stand_in};

    ghost Value = { Pairs };

    ghost view = { λ a. record { generics = a.generics.items; actuals = a.actuals.items } };

    ghost invariant = { λ a. (k : ℕ) → unwrap_or (get nat_eq a.table k) (record { is_generic = false; actual = None })
        ≡ stand_in (record { generics = a.generics.items; actuals = a.actuals.items }) k };
}

impl StandIns {
    /// Of these generics and pairs.
    pub fn of(
        alloc: Global,
        generics: &[DeclId],
        actuals: &[Actual],
    ) -> Result<StandIns, AllocError>
        ensures { IfOk result (λ made. made ≡ record { generics = generics.now; actuals = actuals.now }) }
    {
        let mut table = HashMap::new(alloc);
        mark_generics(&mut table, generics)?;
        set_actuals(&mut table, actuals)?;
        Ok(StandIns {
            generics: Vec::from_slice(alloc, generics)?,
            actuals: Vec::from_slice(alloc, actuals)?,
            table,
        })
    }

    /// Whether a declaration is one of the generics.
    pub fn has(&self, id: DeclId) -> bool
        ensures { result ≡ is_among_numbers self.now.generics id }
    {
        self.at(id).is_generic
    }

    /// The first actual of a generic.
    pub fn actual_of(&self, id: DeclId) -> Option<DeclId>
        ensures { result ≡ actual_of id self.now.actuals }
    {
        self.at(id).actual
    }

    // What is known of a number.
    fn at(&self, id: DeclId) -> StandIn
        ensures { result ≡ stand_in self.now id }
    {
        at(&self.table, id)
    }
}

// What a table has for a number.
fn at(table: &HashMap<u32, StandIn>, id: DeclId) -> StandIn
    ensures { result ≡ unwrap_or (get nat_eq table.now id) (record { is_generic = false; actual = None }) }
{
    match table.get(&id.number()) {
        Some(known) => *known,
        None => StandIn {
            is_generic: false,
            actual: None,
        },
    }
}

// Marks these as generics.
fn mark_generics(table: &mut HashMap<u32, StandIn>, generics: &[DeclId]) -> Result<(), AllocError>
    requires { (k : ℕ) → unwrap_or (get nat_eq table.old k) (record { is_generic = false; actual = None }) ≡ record { is_generic = false; actual = None } }
    ensures { OnOk result ((k : ℕ) → unwrap_or (get nat_eq table.new k) (record { is_generic = false; actual = None })
        ≡ stand_in (record { generics = generics.now; actuals = [] }) k) }
{
    for generic in generics {
        let known = StandIn {
            is_generic: true,
            actual: None,
        };
        table.insert(generic.number(), known)?;
    }
    Ok(())
}

// Sets the actuals, from the last pair on, so that the first one of a generic stays.
fn set_actuals(table: &mut HashMap<u32, StandIn>, actuals: &[Actual]) -> Result<(), AllocError>
    ensures { (generics : List ℕ)
        → ((k : ℕ) → unwrap_or (get nat_eq table.old k) (record { is_generic = false; actual = None }) ≡ stand_in (record { generics = generics; actuals = [] }) k)
        → OnOk result ((k : ℕ) → unwrap_or (get nat_eq table.new k) (record { is_generic = false; actual = None })
        ≡ stand_in (record { generics = generics; actuals = actuals.now }) k) }
{
    let mut left = actuals.len();
    while left > 0 {
        left -= 1;
        let pair = actuals[left];
        let known = StandIn {
            is_generic: at(table, pair.generic).is_generic,
            actual: Some(pair.actual),
        };
        table.insert(pair.generic.number(), known)?;
    }
    Ok(())
}
