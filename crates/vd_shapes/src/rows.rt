//! Tables from flat lists of symbols, so that a long table is a few constants without references in
//! them.

ghost use Rattle.std.specs.Prelude.{◌≡◌, IfOk, map};
ghost use Rattle.vd_shapes.specs.Rows.{plain, pieces, plain_claim, claims_of, IsListed};

use std::alloc::{AllocError, Global};
use vd_gram::{Claim, Production, Symbol, Symbols, Table};

/// Ends a row. It is no symbol.
pub const NEXT: Symbol = 65534;

/// The productions of a flat list: each is its left and its right, and then `NEXT`.
fn productions<'a>(alloc: Global, flat: Symbols<'a>) -> Result<Vec<Production<'a>>, AllocError>
    ensures { IfOk result (λ rows. map plain rows.items ≡ pieces flat.now) }
{
    let mut rows = Vec::new(alloc);
    let mut start = 0;
    for (index, symbol) in flat.iter().enumerate() {
        if *symbol == NEXT {
            if let Some((left, right)) = flat[start..index].split_first() {
                rows.push(Production { left: *left, right })?;
            }
            start = index + 1;
        }
    }
    Ok(rows)
}

/// The claims of rows: each is two rows, the nonterminal with what its texts begin with, and its
/// rank with what stands behind it. The nonterminals that can become the empty text are a list of
/// their own.
fn claims<'a>(
    alloc: Global,
    rows: &[Production<'a>],
    empties: Symbols<'_>,
) -> Result<Vec<Claim<'a>>, AllocError>
    ensures { IfOk result (λ claims. map plain_claim claims.items ≡ claims_of empties.now (map plain rows.now)) }
{
    let mut claims = Vec::new(alloc);
    let mut begun: Option<Production<'a>> = None;
    for row in rows {
        match begun {
            None => begun = Some(*row),
            Some(first) => {
                claims.push(Claim {
                    symbol: first.left,
                    empty: empties.contains(&first.left),
                    first: first.right,
                    follow: row.right,
                    rank: row.left as u32,
                })?;
                begun = None;
            }
        }
    }
    Ok(claims)
}

/// The lists of a table: its productions and its claims as flat rows, and the nonterminals that
/// are claimed to be empty.
#[derive(Clone, Copy, Drop)]
pub struct Lists {
    pub terminals: Symbol,
    pub start: Symbol,
    pub marked: Symbols<'static>,
    pub rows: Symbols<'static>,
    pub claims: Symbols<'static>,
    pub empties: Symbols<'static>,
}

/// The productions and claims of some lists.
#[derive(Drop)]
pub struct Rows {
    pub(crate) lists: Lists,
    productions: Vec<Production<'static>>,
    claims: Vec<Claim<'static>>,
    ghost productions_listed: { map plain productions.items ≡ pieces lists.rows.now },
    ghost claims_listed: { map plain_claim claims.items ≡ claims_of lists.empties.now (pieces lists.claims.now) },
}

impl Rows {
    /// Those of these lists.
    pub fn of(alloc: Global, lists: Lists) -> Result<Self, AllocError>
        ensures { IfOk result (λ rows. rows.lists ≡ lists) }
    {
        let productions = productions(alloc, lists.rows)?;
        let claim_rows = self::productions(alloc, lists.claims)?;
        let claims = claims(alloc, &claim_rows, lists.empties)?;
        Ok(Rows {
            lists,
            productions,
            claims,
        })
    }

    /// The table of the lists.
    pub fn table(&self) -> Table<'_>
        ensures { IsListed self.now.lists result }
    {
        Table {
            terminals: self.lists.terminals,
            start: self.lists.start,
            marked: self.lists.marked,
            productions: &self.productions,
            claims: &self.claims,
        }
    }
}
