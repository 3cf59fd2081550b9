//! Declarations that stand for one another, as the parameters of a body and of a declaration do.

ghost use Rattle.std.specs.Prelude.{◌≡◌, ◌++◌, ◌+◌, ◌*◌, ◌∷◌, [], IfOk};
ghost use Rattle.vd_body_rules.specs.Items.{items_of};
ghost use Rattle.vd_value_rules.specs.Bodies.{is_pair, numbers_paired};

use crate::items::Item;
use std::alloc::{AllocError, Global};
use std::collections::HashMap;
use std::marker::Model;

/// Pairs of declarations, with a table of them.
#[derive(Drop)]
pub struct Pairs {
    pairs: Vec<(u32, u32)>,
    table: HashMap<u64, bool>,
}

impl Model for Pairs {
    ghost use Rattle.std.specs.Prelude.{◌≡◌, ◌+◌, ◌*◌, ◌<◌, ℕ, List, false, nat_eq};
    ghost use Rattle.std.specs.Coded.{coded_list, coded×, coded_ℕ};
    ghost use Rattle.std.specs.Option.{unwrap_or};
    ghost use Rattle.std.specs.HashMap.{get};
    ghost use Rattle.vd_value_rules.specs.Bodies.{is_pair};

    ghost Value = { List (ℕ × ℕ) };

    ghost coded = { coded_list (coded× coded_ℕ coded_ℕ) };

    ghost view = { λ a. a.pairs.items };

    ghost invariant = { λ a. (m n : ℕ) → n < 4294967296 → unwrap_or (get nat_eq a.table (m * 4294967296 + n)) false ≡ is_pair a.pairs.items m n };
}

/// Where a pair stands in the table.
fn key(m: u32, n: u32) -> u64
    ensures { result ≡ m * 4294967296 + n }
{
    u64::from(m) * 4_294_967_296 + u64::from(n)
}

impl Pairs {
    /// None.
    pub fn new(alloc: Global) -> Pairs
        ensures { result ≡ [] }
    {
        Pairs {
            pairs: Vec::new(alloc),
            table: HashMap::new(alloc),
        }
    }

    /// Whether two declarations are a pair.
    pub fn has(&self, m: u32, n: u32) -> bool
        ensures { result ≡ is_pair self.now m n }
    {
        match self.table.get(&key(m, n)) {
            Some(is_one) => *is_one,
            None => false,
        }
    }

    /// One more.
    pub fn add(self, m: u32, n: u32) -> Result<Pairs, AllocError>
        ensures { IfOk result (λ pairs. pairs ≡ self ++ (m, n) ∷ []) }
    {
        let mut pairs = self.pairs;
        let mut table = self.table;
        pairs.push((m, n))?;
        table.insert(key(m, n), true)?;
        Ok(Pairs { pairs, table })
    }
}

/// What two functions declare at the same places.
pub fn paired(alloc: Global, xs: &[Item<'_>], ys: &[Item<'_>]) -> Result<Pairs, AllocError>
    ensures { IfOk result (λ pairs. pairs ≡ numbers_paired (items_of xs.now) (items_of ys.now)) }
{
    let mut pairs = Pairs::new(alloc);
    let mut k = 0;
    while k < xs.len() && k < ys.len() {
        pairs = pairs.add(xs[k].number, ys[k].number)?;
        k += 1;
    }
    Ok(pairs)
}
