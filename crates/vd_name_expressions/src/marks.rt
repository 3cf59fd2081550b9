//! Expressions that have to be marks: the index of an array type of any bounds, the mark of a range, and the actual of a type.

ghost use Rattle.std.specs.Prelude.{◌≡◌, List, IfOk, MatchOption};
ghost use Rattle.vd_forest.specs.Forest.{Forest, nothing, with_next};
ghost use Rattle.vd_overloads.specs.Interpretations.{IsNotOne};
ghost use Rattle.vd_readings.specs.Found.{HoldsOnly, IsFound};
ghost use Rattle.vd_resolved.specs.declared.node.Resolved.{Resolved};
ghost use Rattle.vd_forest.specs.Store.{Extends};
ghost use Rattle.vd_overloads.specs.Interpretations.{first_place as place_of_first};
ghost use Rattle.vd_naming.specs.Expressions.{mark_states, mark_readings, no_mark};
ghost use Rattle.vd_visible.specs.Sights.{sight_from};
ghost use Rattle.vd_name_expressions.specs.Reads.{IsRead, refused_mark, mark_read_beside};

use crate::reading::Read;
use std::alloc::{AllocError, Global};
use vd_bytes::{Place, Refused};
use vd_declarations::TypeId;
use vd_forest::{Cursor, Store};
use vd_forms::Form;
use vd_name_rows::{At, Names};
use vd_naming::unresolved;
use vd_overloads::Env;
use vd_predefined::numbers::BOOLEAN;
use vd_readings::{Found, read};
use vd_refusals::first_refusal;
use vd_resolved::Resolved;
use vd_states::{State, Want};
use vd_visible::Surroundings;
use vd_walks::lesser;

/// The states in which a mark of any type is read.
fn mark_states(alloc: Global, place: &Surroundings<'_>) -> Result<Vec<State>, AllocError>
    ensures { IfOk result (λ states. states.items ≡ mark_states (sight_from place.now)) }
{
    place
        .types()
        .iter()
        .map(|mark| State::Only(Want::Mark(*mark)))
        .collect(alloc)
}

/// What is refused of a name, or that the whole is no mark.
fn no_mark(name: Option<Refused>, place: Place) -> Option<Refused>
    ensures { result ≡ no_mark name place }
{
    match name {
        None => Some(Refused { place, rule: 307 }),
        Some(_) => name,
    }
}

/// The place of an expression's first token.
pub fn first_place(tree: &Cursor<'_, Form>) -> Place
    ensures { result ≡ place_of_first tree.now }
{
    match tree.open() {
        None => Place {
            file: 0,
            line: 0,
            column: 0,
        },
        Some(first) => first.place,
    }
}

/// The only reading, where there is one.
fn only(found: Found) -> Option<u32>
    ensures { (store all : List (Forest Resolved)) → IsFound store found all → MatchOption result (IsNotOne all) (λ number. HoldsOnly store number all) }
{
    match found {
        Found::Only(number) => Some(number),
        Found::Nothing | Found::Several => None,
    }
}

/// The only reading of one tree that has to be a mark, made in a store, where there is one.
pub fn only_mark(
    alloc: Global,
    names: &Names,
    at: &At<'_>,
    tree: &Cursor<'_, Form>,
    out: &mut Store<Resolved>,
) -> Result<Option<u32>, AllocError>
    requires alone { with_next tree.now nothing ≡ tree.now }
    ensures found { IfOk result (λ found. MatchOption found (IsNotOne (mark_readings at.now names.now tree.now))
        (λ number. HoldsOnly out.new number (mark_readings at.now names.now tree.now))) }
    ensures extends { Extends out.old out.new }
{
    let env = Env {
        surroundings: names.surroundings(at)?,
    };
    let states = mark_states(alloc, &env.surroundings)?;
    let found = read(alloc, &env, tree, &states, out)?;
    Ok(only(found))
}

/// What is refused of a tree that is no mark.
fn refused_mark(
    alloc: Global,
    names: &Names,
    at: &At<'_>,
    tree: &Cursor<'_, Form>,
) -> Result<Option<Refused>, AllocError>
    ensures { IfOk result (λ first. first ≡ refused_mark at.now names.now tree.now) }
{
    let place = names.surroundings(at)?;
    let mark = Want::Mark(TypeId::of(BOOLEAN));
    let name = first_refusal(&place, alloc, &mark, tree)?;
    Ok(no_mark(name, first_place(tree)))
}

/// One expression that has to be a mark. What is refused of its names whatever is wanted is known already.
pub fn mark_read_beside(
    alloc: Global,
    names: &Names,
    at: &At<'_>,
    tree: &Cursor<'_, Form>,
    pieces: Option<Refused>,
    out: &mut Store<Resolved>,
) -> Result<Read, AllocError>
    requires alone { with_next tree.now nothing ≡ tree.now }
    ensures is { IfOk result (λ read. IsRead out.new read (mark_read_beside at.now names.now tree.now pieces)) }
    ensures extends { Extends out.old out.new }
{
    let found = only_mark(alloc, names, at, tree, out)?;
    match found {
        Some(number) => Ok(Read {
            tree: number,
            first: pieces,
        }),
        None => {
            let refused = refused_mark(alloc, names, at, tree)?;
            let number = unresolved(alloc, tree, out)?;
            Ok(Read {
                tree: number,
                first: lesser(pieces, refused),
            })
        }
    }
}
