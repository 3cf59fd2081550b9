//! How long the chains are that begin with a call.

ghost use Rattle.std.specs.Prelude.{◌≡◌, IfOk, map};
ghost use Rattle.std.specs.List.{list_any};
ghost use Rattle.vd_call_rules.specs.Reaches.{length_of as length_taken, longer as longer_of, raised as raised_by, further as further_by, no_call as reaches_nothing, generic_call as reaches_generic, with_body as reaches_with_body, is_no_call as is_nothing, is_end_of, with_end as ends_with, with_ends as ends_with_all, behind as reaches_behind, together as reaches_together, calling as reaches_calling, is_long_end as is_end_too_long, is_too_long as is_reach_too_long};

use std::alloc::{AllocError, Global};
use std::marker::Model;
use vd_declarations::DeclId;

/// The calls of the longest chain.
pub const LONGEST: u32 = 64;

/// What stands for all lengths beyond it.
pub const TOO_LONG: u32 = 65;

/// A generic function with which chains end, and the calls of the longest of them.
#[derive(Clone, Copy, Debug)]
pub struct End {
    pub generic: DeclId,
    pub calls: u32,
}

/// Some ends, which contracts see as their list.
#[derive(Debug, Drop)]
pub struct Ends {
    list: Vec<End>,
}

impl Model for Ends {
    ghost use Rattle.std.specs.Prelude.{List};
    ghost use Rattle.std.specs.Coded.{coded_list};
    ghost use Rattle.vd_call_rules.specs.declared.reaches.End.{End};
    ghost use Rattle.vd_call_rules.specs.contracts.reaches.End as ends;

    ghost Value = { List End };

    ghost coded = { coded_list ends.the_row.coded };

    ghost view = { λ a. a.list.items };
}

impl Ends {
    /// These ends, as they are.
    pub fn of(list: Vec<End>) -> Ends
        ensures { result ≡ list.items }
    {
        Ends { list }
    }

    /// The ends.
    pub fn as_slice(&self) -> &[End]
        ensures { result.now ≡ self.now }
    {
        self.list.as_slice()
    }
}

/// What chains come to that begin with a call: the calls of the longest that ends with no generic function, and those that end with one.
#[derive(Debug, Drop)]
pub struct Reach {
    pub plain: u32,
    pub ends: Ends,
}

/// A length, where all beyond the longest are one.
pub fn length_of(n: u32) -> u32
    ensures { result ≡ length_taken n }
{
    if n > LONGEST { TOO_LONG } else { n }
}

/// The longer one of two lengths.
pub fn longer(m: u32, n: u32) -> u32
    ensures { result ≡ longer_of m n }
{
    if m < n { n } else { m }
}

/// An end of the same generic function with the longer chain, or another end as it is.
pub fn raised(end: End, other: End) -> End
    ensures { result ≡ raised_by end other }
{
    if other.generic == end.generic {
        End {
            generic: end.generic,
            calls: longer(other.calls, end.calls),
        }
    } else {
        other
    }
}

/// A function without body.
pub fn no_call(alloc: Global) -> Reach
    ensures { result ≡ reaches_nothing }
{
    Reach {
        plain: 0,
        ends: Ends::of(Vec::new(alloc)),
    }
}

/// A generic function.
pub fn generic_call(alloc: Global, generic: DeclId) -> Result<Reach, AllocError>
    ensures { IfOk result (λ reach. reach ≡ reaches_generic generic) }
{
    let mut list = Vec::new(alloc);
    list.push(End { generic, calls: 1 })?;
    Ok(Reach {
        plain: 0,
        ends: Ends::of(list),
    })
}

/// The same once more.
pub fn again(alloc: Global, reach: &Reach) -> Result<Reach, AllocError>
    ensures { IfOk result (λ same. same ≡ reach.now) }
{
    let list = Vec::from_slice(alloc, reach.ends.as_slice())?;
    Ok(Reach {
        plain: reach.plain,
        ends: Ends::of(list),
    })
}

/// A function whose body has ended.
pub fn with_body(alloc: Global, reach: &Reach) -> Result<Reach, AllocError>
    ensures { IfOk result (λ found. found ≡ reaches_with_body reach.now) }
{
    let same = again(alloc, reach)?;
    Ok(Reach {
        plain: longer(same.plain, 1),
        ends: same.ends,
    })
}

/// An end so many calls further.
pub fn further(n: u32, end: End) -> End
    ensures { result ≡ further_by n end }
{
    End {
        generic: end.generic,
        calls: length_of(n.saturating_add(end.calls)),
    }
}

/// Whether it is that of a function without body.
pub fn is_no_call(reach: &Reach) -> bool
    ensures { result ≡ is_nothing reach.now }
{
    reach.plain == 0 && reach.ends.as_slice().is_empty()
}

/// Whether some ends are of a generic function.
fn has_end_of(ends: &[End], generic: DeclId) -> bool
    ensures { result ≡ list_any (is_end_of generic) ends.now }
{
    for end in ends {
        if end.generic == generic {
            return true;
        }
    }
    false
}

fn all_raised(alloc: Global, ends: &[End], end: &End) -> Result<Vec<End>, AllocError>
    ensures { IfOk result (λ list. list.items ≡ map (raised_by end.now) ends.now) }
{
    let mut list = Vec::new(alloc);
    for other in ends {
        let one = raised(*end, *other);
        list.push(one)?;
    }
    Ok(list)
}

fn all_further(alloc: Global, n: u32, ends: &[End]) -> Result<Vec<End>, AllocError>
    ensures { IfOk result (λ list. list.items ≡ map (further_by n) ends.now) }
{
    let mut list = Vec::new(alloc);
    for end in ends {
        list.push(further(n, *end))?;
    }
    Ok(list)
}

/// Ends, and one more.
fn with_end(alloc: Global, ends: &[End], end: End) -> Result<Vec<End>, AllocError>
    ensures { IfOk result (λ list. list.items ≡ ends_with ends.now end) }
{
    if has_end_of(ends, end.generic) {
        return all_raised(alloc, ends, &end);
    }
    let mut list = Vec::from_slice(alloc, ends)?;
    list.push(end)?;
    Ok(list)
}

/// Ends, and some more.
fn with_ends(alloc: Global, ends: &[End], more: &[End]) -> Result<Vec<End>, AllocError>
    ensures { IfOk result (λ list. list.items ≡ ends_with_all ends.now more.now) }
{
    let mut list = Vec::from_slice(alloc, ends)?;
    for end in more {
        list = with_end(alloc, list.as_slice(), *end)?;
    }
    Ok(list)
}

/// A call behind so many others.
pub fn behind(alloc: Global, n: u32, reach: &Reach) -> Result<Reach, AllocError>
    ensures { IfOk result (λ found. found ≡ reaches_behind n reach.now) }
{
    let list = all_further(alloc, n, reach.ends.as_slice())?;
    let plain = length_of(n.saturating_add(reach.plain));
    Ok(Reach {
        plain,
        ends: Ends::of(list),
    })
}

/// The longer chains of both.
pub fn together(alloc: Global, reach: &Reach, other: &Reach) -> Result<Reach, AllocError>
    ensures { IfOk result (λ found. found ≡ reaches_together reach.now other.now) }
{
    let list = with_ends(alloc, reach.ends.as_slice(), other.ends.as_slice())?;
    let plain = longer(reach.plain, other.plain);
    Ok(Reach {
        plain,
        ends: Ends::of(list),
    })
}

/// A function in whose body a call reaches so much.
pub fn calling(alloc: Global, reach: &Reach, called: &Reach) -> Result<Reach, AllocError>
    ensures { IfOk result (λ found. found ≡ reaches_calling reach.now called.now) }
{
    if is_no_call(called) {
        return again(alloc, reach);
    }
    let further = behind(alloc, 1, called)?;
    together(alloc, reach, &further)
}

fn has_long_end(ends: &[End]) -> bool
    ensures { result ≡ list_any is_end_too_long ends.now }
{
    for end in ends {
        if end.calls > LONGEST {
            return true;
        }
    }
    false
}

/// Whether a call that reaches so much begins too long a chain.
pub fn is_too_long(reach: &Reach) -> bool
    ensures { result ≡ is_reach_too_long reach.now }
{
    reach.plain > LONGEST || has_long_end(reach.ends.as_slice())
}
