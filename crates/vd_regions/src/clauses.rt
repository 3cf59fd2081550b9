//! Use clauses.

ghost use Rattle.std.specs.Prelude.{◌≡◌, ◌++◌, ◌∷◌, ◌||◌, [], OnOk, OnErr};
ghost use Rattle.vd_region_tables.specs.declared.keys.Key.{Key};
ghost use Rattle.vd_region_tables.specs.Tables.{is_used};
ghost use Rattle.vd_regions.specs.Clauses.{clause_of, clauses_of};
ghost use Rattle.vd_regions.specs.Found.{gives_name, is_given_by};

use std::alloc::{AllocError, Global};
use std::marker::Model;
use vd_bytes::Text;
use vd_region_tables::{Key, Used, key_of};

/// A use clause: of a name, or of all.
#[derive(Drop)]
pub(crate) struct UseClause {
    pub(crate) from: u32,
    pub(crate) name: Option<Text>,
}

/// The use clauses of a region, which contracts see as a list, and what they give.
#[derive(Drop)]
pub(crate) struct UseClauses {
    alloc: Global,
    clauses: Vec<UseClause>,
    used: Used,
}

impl Model for UseClauses {
    ghost use Rattle.std.specs.Prelude.{◌≡◌, List};
    ghost use Rattle.vd_region_tables.specs.declared.keys.Key.{Key};
    ghost use Rattle.vd_region_tables.specs.Tables.{is_used};
    ghost use Rattle.vd_regions.specs.Scopes.{Clause};
    ghost use Rattle.vd_regions.specs.Found.{is_given_by};
    ghost use Rattle.vd_regions.specs.Clauses.{clauses_of};

    ghost Value = { List Clause };

    ghost view = { λ a. clauses_of a.clauses.items };

    ghost invariant = { λ a. (key : Key) → is_used a.used key ≡ is_given_by (clauses_of a.clauses.items) key.name.items key.region };
}

impl UseClauses {
    pub(crate) fn new(alloc: Global) -> UseClauses
        ensures { result ≡ [] }
    {
        UseClauses {
            alloc,
            clauses: Vec::new(alloc),
            used: Used::new(alloc),
        }
    }

    /// A clause more.
    pub(crate) fn push(&mut self, clause: UseClause) -> Result<(), AllocError>
        ensures pushed { OnOk result (self.new ≡ self.old ++ clause_of clause ∷ []) }
        ensures unchanged { OnErr result (self.new ≡ self.old) }
    {
        self.clauses.reserve(1)?;
        note_use(self.alloc, &clause, &mut self.used)?;
        let Ok(_) = self.clauses.push(clause) else {
            unreachable!()
        };
        Ok(())
    }

    /// The clauses.
    pub(crate) fn as_slice(&self) -> &[UseClause]
        ensures { clauses_of result.now ≡ self.now }
    {
        self.clauses.as_slice()
    }

    /// Whether one of them gives a name of a region.
    pub(crate) fn gives(&self, key: &Key) -> bool
        ensures { result ≡ is_given_by self.now key.now.name.items key.now.region }
    {
        self.used.has(key)
    }
}

// What a clause gives besides.
fn note_use(alloc: Global, clause: &UseClause, used: &mut Used) -> Result<(), AllocError>
    ensures added { OnOk result ((key : Key) → is_used used.new key ≡ (gives_name key.name.items key.region (clause_of clause.now) || is_used used.old key)) }
    ensures unchanged { OnErr result ((key : Key) → is_used used.new key ≡ is_used used.old key) }
{
    match &clause.name {
        Some(name) => {
            let key = key_of(alloc, clause.from, name.as_slice())?;
            used.add_name(key)
        }
        None => used.add_all(clause.from),
    }
}
