//! What a name can come to at its end, in code.

ghost use Rattle.std.specs.Prelude.{◌≡◌, ◌++◌, ◌∷◌, [], IfOk, OnOk};
ghost use Rattle.std.specs.List.{flat_map};
ghost use Rattle.vd_visible.specs.Sights.{sight_from};
ghost use Rattle.vd_overloads.specs.Goals.{behind, ends_of_name as ends_found, prefix_of as prefix_in, prefixes_behind, SameMembers};

use std::alloc::{AllocError, Global};
use vd_declarations::{DeclId, TypeId};
use vd_forest::{Cursor, Opened};
use vd_forms::Form;
use vd_states::{Prefix, State, Want, Way};
use vd_visible::Surroundings;
use vd_ways::ways_in;

/// Something that is wanted, where it doesn't count what.
fn any_goal() -> Want
    ensures { result ≡ Rattle.vd_overloads.specs.Goals.any_goal }
{
    Want::Value(TypeId::of(0))
}

/// What a name is up to where its suffixes go on.
fn prefix_of(state: &State) -> Prefix
    ensures { result ≡ prefix_in state.now }
{
    match state {
        State::Suffixes { prefix, .. } => *prefix,
        _ => Prefix::Named(DeclId::of(0)),
    }
}

/// Puts a prefix behind the others, unless it is the last one already.
#[tactic(auto, using(crate::proofs::MemberLemmas::put_behind, crate::proofs::MemberLemmas::stands_already))]
fn add_prefix(found: &mut Vec<Prefix>, prefix: Prefix) -> Result<(), AllocError>
    ensures { OnOk result (SameMembers found.new.items (found.old.items ++ prefix ∷ [])) }
{
    if found.last() != Some(&prefix) {
        found.push(prefix)?;
    }
    Ok(())
}

/// Puts what some ways lead to behind the others.
fn add_prefixes(ways: &[Way], found: &mut Vec<Prefix>) -> Result<(), AllocError>
    ensures { OnOk result (SameMembers found.new.items (found.old.items ++ prefixes_behind ways.now)) }
{
    for way in ways {
        add_prefix(found, prefix_of(&way.after))?;
    }
    Ok(())
}

/// What a name can be behind a suffix, by what it can be in front of it.
fn ends_behind_piece(
    alloc: Global,
    at: &Surroundings<'_>,
    piece: &Opened<'_, Form>,
    prefixes: &[Prefix],
) -> Result<Vec<Prefix>, AllocError>
    ensures { IfOk result (λ found. SameMembers found.items (flat_map (behind (sight_from at.now) piece.now.form piece.now.text.now piece.now.parts) prefixes.now)) }
{
    let mut found = Vec::new(alloc);
    for prefix in prefixes {
        let state = State::Suffixes {
            prefix: *prefix,
            goal: any_goal(),
        };
        let ways = ways_in(at, alloc, &state, piece)?;
        add_prefixes(&ways, &mut found)?;
    }
    Ok(found)
}

/// What a name of these pieces can come to at its end, each once or more often.
pub fn ends_of_name(
    alloc: Global,
    at: &Surroundings<'_>,
    pieces: &Cursor<'_, Form>,
) -> Result<Vec<Prefix>, AllocError>
    ensures { IfOk result (λ found. SameMembers found.items (ends_found (sight_from at.now) pieces.now)) }
{
    let mut found = Vec::new(alloc);
    let Some(first) = pieces.open() else {
        return Ok(found);
    };
    let state = State::Head { goal: any_goal() };
    let ways = ways_in(at, alloc, &state, &first)?;
    add_prefixes(&ways, &mut found)?;
    let mut left = first.next;
    while let Some(piece) = left.open() {
        found = ends_behind_piece(alloc, at, &piece, &found)?;
        left = piece.next;
    }
    Ok(found)
}
