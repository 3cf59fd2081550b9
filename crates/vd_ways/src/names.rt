//! Ways of the first pieces of names.

ghost use Rattle.std.specs.Prelude.{◌≡◌, IfOk};
ghost use Rattle.std.specs.List.{filter_map};
ghost use Rattle.vd_states.specs.declared.states.State.TheVariants.{Done};
ghost use Rattle.vd_visible.specs.Sights.{sight_from, mark_of, parameters_of};
ghost use Rattle.vd_ways.specs.Ways.{symbol_name as symbol, valued_way as way_of_value, literal_way as way_of_literal, named_way as way_of_name, function_way, declaration_way, head_ways, value_after as behind_value};

use crate::making::{chosen, naming, placed};
use crate::values::position_in;
use std::alloc::{AllocError, Global};
use vd_declarations::{DeclId, TypeId};
use vd_states::{Prefix, State, Want, Way};
use vd_visible::Surroundings;
use vd_visible::kinds::Kind;
use vd_visible::roles::{Role, role_of};

/// The name of an operator symbol.
pub fn symbol_name(alloc: Global, text: &[u8]) -> Result<Vec<u8>, AllocError>
    ensures { IfOk result (λ name. name.items ≡ symbol text.now) }
{
    let small = text.to_ascii_lowercase(alloc)?;
    let mut name = Vec::new(alloc);
    name.push(b'"')?;
    name.extend_from_slice(&small)?;
    name.push(b'"')?;
    Ok(name)
}

/// Behind a value that is no signal.
pub fn value_after(mark: TypeId, goal: &Want) -> State
    ensures { result ≡ behind_value mark goal.now }
{
    State::Suffixes {
        prefix: Prefix::Valued {
            mark,
            signal: false,
        },
        goal: *goal,
    }
}

/// A declaration that has a value.
pub fn valued_way(
    mark: Option<TypeId>,
    id: DeclId,
    signal: bool,
    goal: &Want,
    inside: &State,
) -> Option<Way>
    ensures { result ≡ way_of_value mark id signal goal.now inside.now }
{
    let mark = mark?;
    let after = State::Suffixes {
        prefix: Prefix::Valued { mark, signal },
        goal: *goal,
    };
    Some(chosen(id, mark, inside, &after))
}

/// An enumeration literal.
fn literal_way(mark: Option<TypeId>, id: DeclId, goal: &Want, inside: &State) -> Option<Way>
    ensures { result ≡ way_of_literal mark id goal.now inside.now }
{
    let mark = mark?;
    let position = position_in(mark, id);
    Some(placed(id, Some(mark), position, inside, &value_after(mark, goal)))
}

/// A declaration that has no value.
fn named_way(id: DeclId, goal: &Want, inside: &State) -> Way
    ensures { result ≡ way_of_name id goal.now inside.now }
{
    let after = State::Suffixes {
        prefix: Prefix::Named(id),
        goal: *goal,
    };
    naming(id, inside, &after)
}

/// A function, which is called where it has no parameters.
fn function_way(at: &Surroundings<'_>, id: DeclId, goal: &Want, inside: &State) -> Option<Way>
    ensures { result ≡ function_way (sight_from at.now) (parameters_of (sight_from at.now) id) id goal.now inside.now }
{
    if at.parameters_of(id).is_empty() {
        valued_way(at.mark_of(id), id, false, goal, inside)
    } else {
        Some(named_way(id, goal, inside))
    }
}

/// A declaration that a name means.
pub fn declaration_way(
    at: &Surroundings<'_>,
    goal: &Want,
    inside: &State,
    id: DeclId,
) -> Option<Way>
    ensures { result ≡ declaration_way (sight_from at.now) goal.now inside.now id }
{
    match role_of(at.class_of(id)) {
        Role::Unit | Role::Mark => Some(named_way(id, goal, inside)),
        Role::Object => valued_way(at.mark_of(id), id, false, goal, inside),
        Role::Signal => valued_way(at.mark_of(id), id, true, goal, inside),
        Role::Literal => literal_way(at.mark_of(id), id, goal, inside),
        Role::Function => function_way(at, id, goal, inside),
        Role::Other => None,
    }
}

/// The ways of what stands alone.
fn visible_ways(
    at: &Surroundings<'_>,
    alloc: Global,
    goal: &Want,
    name: &[u8],
) -> Result<Vec<Way>, AllocError>
    ensures { IfOk result (λ ways. ways.items ≡ filter_map (declaration_way (sight_from at.now) goal.now Done) ((sight_from at.now).visible name.now)) }
{
    let visible = at.visible(alloc, name)?;
    visible
        .iter()
        .filter_map(|id| declaration_way(at, goal, &State::Done, *id))
        .collect(alloc)
}

/// The ways of the first piece of a name.
pub fn head_ways(
    at: &Surroundings<'_>,
    alloc: Global,
    kind: Kind,
    goal: &Want,
    text: &[u8],
) -> Result<Vec<Way>, AllocError>
    ensures { IfOk result (λ ways. ways.items ≡ head_ways kind (sight_from at.now) goal.now text.now) }
{
    match kind {
        Kind::Identifier => visible_ways(at, alloc, goal, text),
        Kind::Quoted => {
            let name = symbol_name(alloc, text)?;
            visible_ways(at, alloc, goal, &name)
        }
        _ => Ok(Vec::new(alloc)),
    }
}
