//! The one interpretation of an expression.

ghost use Rattle.std.specs.Prelude.{◌≡◌, ◌≤◌, [], true, false, IfOk, Err, length, map};
ghost use Rattle.std.specs.List.{filter, flat_map};
ghost use Rattle.vd_bytes.specs.declared.answers.Refused.{Refused};
ghost use Rattle.vd_forest.specs.Store.{Holds, Extends};
ghost use Rattle.vd_readings.specs.Found.{HoldsOnly, IsFound};
ghost use Rattle.vd_overloads.specs.Interpretations.{alone, value_of, discrete_range_of, states_of, first_place, implied_by, implied, interpretations, refusal, IsNotOne};

use crate::setting::Setting;
use crate::wanted::Wanted;
use std::alloc::{AllocError, Global};
use vd_bytes::{Place, Refusal, Refused};
use vd_declarations::{DeclId, TypeId};
use vd_forest::{Cursor, Store};
use vd_forms::Form;
use vd_predefined::numbers::BOOLEAN;
use vd_readings::{Found, read};
use vd_resolved::Resolved;
use vd_states::{State, Want};
use vd_trees::Revision;

/// The one interpretation of the first tree of a forest, made in a store, or the rule that is broken.
pub fn resolve_expr<S: Setting>(
    alloc: Global,
    setting: &S,
    tree: &Cursor<'_, Form>,
    wanted: &Wanted,
    out: &mut Store<Resolved>,
) -> Result<u32, Refusal>
    ensures only { IfOk result (λ number. HoldsOnly out.new number (interpretations (S.rules setting.now) (S.scene setting.now) wanted.now (alone tree.now))) }
    ensures not_one { (r : Refused) → result ≡ Err (Refusal.Refused r)
        → IsNotOne (interpretations (S.rules setting.now) (S.scene setting.now) wanted.now (alone tree.now)) }
    ensures refused { (r : Refused) → result ≡ Err (Refusal.Refused r)
        → r ≡ refusal ((S.scene setting.now).refused wanted.now (alone tree.now)) ((S.scene setting.now).unknown (alone tree.now)) (first_place (alone tree.now))
        (interpretations (S.rules setting.now) (S.scene setting.now) wanted.now (alone tree.now)) }
    ensures extends { Extends out.old out.new }
{
    let mut single = Store::new(alloc);
    let number = match alone(tree, &mut single) {
        Ok(number) => number,
        Err(_) => return Err(Refusal::Memory),
    };
    resolve_alone(alloc, setting, &single.cursor(number), wanted, out)
}

/// The first tree of a forest, in a store where nothing is behind it.
#[tactic(auto, using(vd_forest::proofs::StoreLemmas::growing))]
fn alone(tree: &Cursor<'_, Form>, single: &mut Store<Form>) -> Result<u32, AllocError>
    ensures { IfOk result (λ number. Holds single.new number (alone tree.now)) }
{
    match tree.open() {
        None => Ok(0),
        Some(first) => {
            let parts = single.copy(&first.parts)?;
            let made = single.add(first.form, first.text, first.place, parts, 0)?;
            Ok(made)
        }
    }
}

/// The one interpretation of an expression, or the rule that is broken.
fn resolve_alone<S: Setting>(
    alloc: Global,
    setting: &S,
    tree: &Cursor<'_, Form>,
    wanted: &Wanted,
    out: &mut Store<Resolved>,
) -> Result<u32, Refusal>
    ensures only { IfOk result (λ number. HoldsOnly out.new number (interpretations (S.rules setting.now) (S.scene setting.now) wanted.now tree.now)) }
    ensures not_one { (r : Refused) → result ≡ Err (Refusal.Refused r)
        → IsNotOne (interpretations (S.rules setting.now) (S.scene setting.now) wanted.now tree.now) }
    ensures refused { (r : Refused) → result ≡ Err (Refusal.Refused r)
        → r ≡ refusal ((S.scene setting.now).refused wanted.now tree.now) ((S.scene setting.now).unknown tree.now) (first_place tree.now)
        (interpretations (S.rules setting.now) (S.scene setting.now) wanted.now tree.now) }
    ensures extends { Extends out.old out.new }
{
    let found = match interpret(alloc, setting, tree, wanted, out) {
        Ok(found) => found,
        Err(_) => return Err(Refusal::Memory),
    };
    let several = match found {
        Found::Nothing => false,
        Found::Only(number) => return Ok(number),
        Found::Several => true,
    };
    match refuse(alloc, setting, tree, wanted, several) {
        Ok(refused) => Err(Refusal::Refused(refused)),
        Err(_) => Err(Refusal::Memory),
    }
}

/// Why an expression isn't resolved that has several interpretations or none.
fn refuse<S: Setting>(
    alloc: Global,
    setting: &S,
    tree: &Cursor<'_, Form>,
    wanted: &Wanted,
    several: bool,
) -> Result<Refused, AllocError>
    requires none { several ≡ false → interpretations (S.rules setting.now) (S.scene setting.now) wanted.now tree.now ≡ [] }
    requires several { several ≡ true → 2 ≤ length (interpretations (S.rules setting.now) (S.scene setting.now) wanted.now tree.now) }
    ensures { IfOk result (λ r. r ≡ refusal ((S.scene setting.now).refused wanted.now tree.now) ((S.scene setting.now).unknown tree.now)
        (first_place tree.now) (interpretations (S.rules setting.now) (S.scene setting.now) wanted.now tree.now)) }
{
    if let Some(name) = setting.refused(alloc, wanted, tree)? {
        return Ok(name);
    }
    let place = first_place(tree);
    if several {
        return Ok(Refused { place, rule: 306 });
    }
    match setting.unknown(alloc, tree)? {
        None => Ok(Refused { place, rule: 305 }),
        Some(choice) => Ok(Refused {
            place: choice,
            rule: 303,
        }),
    }
}

/// The place of an expression's first token.
fn first_place(tree: &Cursor<'_, Form>) -> Place
    ensures { result ≡ first_place tree.now }
{
    match tree.open() {
        None => Place {
            file: 0,
            line: 0,
            column: 0,
        },
        Some(first) => first.place,
    }
}

/// What is found of the interpretations of an expression.
#[tactic(auto, using(crate::proofs::OverloadLemmas::overloading, vd_forest::proofs::StoreLemmas::growing))]
fn interpret<S: Setting>(
    alloc: Global,
    setting: &S,
    tree: &Cursor<'_, Form>,
    wanted: &Wanted,
    out: &mut Store<Resolved>,
) -> Result<Found, AllocError>
    ensures found { IfOk result (λ found. IsFound out.new found (interpretations (S.rules setting.now) (S.scene setting.now) wanted.now tree.now)) }
    ensures extends { Extends out.old out.new }
{
    let wanted_states = states_of(alloc, setting, wanted)?;
    let states = setting.possible(alloc, tree, wanted_states)?;
    let found = read(alloc, setting, tree, &states, out)?;
    match wanted {
        Wanted::Condition => match found {
            Found::Nothing => {
                let implied = imply(alloc, setting, tree, out)?;
                Ok(implied)
            }
            Found::Only(_) | Found::Several => Ok(found),
        },
        Wanted::OfType(_)
        | Wanted::Discrete
        | Wanted::Free
        | Wanted::Range(_)
        | Wanted::DiscreteRange(_)
        | Wanted::AnyDiscreteRange
        | Wanted::Choice(_) => Ok(found),
    }
}

/// The states in which an expression is read.
fn states_of<S: Setting>(
    alloc: Global,
    setting: &S,
    wanted: &Wanted,
) -> Result<Vec<State>, AllocError>
    ensures { IfOk result (λ found. found.items ≡ states_of (S.scene setting.now) wanted.now) }
{
    match wanted {
        Wanted::OfType(mark) => Vec::from_slice(alloc, &[State::Only(Want::Value(*mark))]),
        Wanted::Condition => {
            Vec::from_slice(alloc, &[State::Only(Want::Value(TypeId::of(BOOLEAN)))])
        }
        Wanted::Discrete => values_of(alloc, discrete_types(alloc, setting)?.as_slice()),
        Wanted::Free => values_of(alloc, setting.types()),
        Wanted::Range(mark) => Vec::from_slice(alloc, &[State::Only(Want::Range(*mark))]),
        Wanted::DiscreteRange(mark) => {
            Vec::from_slice(alloc, &[State::Only(Want::DiscreteRange(*mark))])
        }
        Wanted::AnyDiscreteRange => ranges_of(alloc, discrete_types(alloc, setting)?.as_slice()),
        Wanted::Choice(mark) => Vec::from_slice(alloc, &[State::Only(Want::Choice(*mark))]),
    }
}

/// The discrete types that are declared so far.
fn discrete_types<S: Setting>(alloc: Global, setting: &S) -> Result<Vec<TypeId>, AllocError>
    ensures { IfOk result (λ found. found.items ≡ filter (S.scene setting.now).is_discrete (S.scene setting.now).types) }
{
    let marks = setting.types();
    let mut found = Vec::new(alloc);
    for mark in marks {
        if setting.is_discrete(*mark) {
            found.push(*mark)?;
        }
    }
    Ok(found)
}

/// Values of these types.
fn values_of(alloc: Global, marks: &[TypeId]) -> Result<Vec<State>, AllocError>
    ensures { IfOk result (λ found. found.items ≡ map value_of marks.now) }
{
    marks
        .iter()
        .map(|mark| State::Only(Want::Value(*mark)))
        .collect(alloc)
}

/// Discrete ranges of these types.
fn ranges_of(alloc: Global, marks: &[TypeId]) -> Result<Vec<State>, AllocError>
    ensures { IfOk result (λ found. found.items ≡ map discrete_range_of marks.now) }
{
    marks
        .iter()
        .map(|mark| State::Only(Want::DiscreteRange(*mark)))
        .collect(alloc)
}

/// What is found of a condition in which an operator is implied.
fn imply<S: Setting>(
    alloc: Global,
    setting: &S,
    tree: &Cursor<'_, Form>,
    out: &mut Store<Resolved>,
) -> Result<Found, AllocError>
    ensures found { IfOk result (λ found. IsFound out.new found (implied (S.rules setting.now) (S.scene setting.now) tree.now)) }
    ensures extends { Extends out.old out.new }
{
    match setting.revision() {
        Revision::V2019 => {
            let found = imply_any(alloc, setting, tree, out)?;
            Ok(found)
        }
        Revision::V1993 => Ok(Found::Nothing),
    }
}

/// What is found under any of the operators that can be implied.
#[tactic(auto, using(vd_readings::proofs::FoundLemmas::giving, vd_forest::proofs::StoreLemmas::growing))]
fn imply_any<S: Setting>(
    alloc: Global,
    setting: &S,
    tree: &Cursor<'_, Form>,
    out: &mut Store<Resolved>,
) -> Result<Found, AllocError>
    ensures found { IfOk result (λ found. IsFound out.new found
        (flat_map (implied_by (S.rules setting.now) (S.scene setting.now) tree.now) (S.scene setting.now).operators)) }
    ensures extends { Extends out.old out.new }
{
    let operators = setting.operators(alloc)?;
    let mut found = Found::Nothing;
    for operator in &operators {
        let more = imply_one(alloc, setting, tree, *operator, out)?;
        found = found.and(more);
    }
    Ok(found)
}

/// What is found under one operator.
#[tactic(auto, using(crate::proofs::OverloadLemmas::overloading, vd_forest::proofs::StoreLemmas::growing))]
fn imply_one<S: Setting>(
    alloc: Global,
    setting: &S,
    tree: &Cursor<'_, Form>,
    operator: DeclId,
    out: &mut Store<Resolved>,
) -> Result<Found, AllocError>
    ensures found { IfOk result (λ found. IsFound out.new found (implied_by (S.rules setting.now) (S.scene setting.now) tree.now operator)) }
    ensures extends { Extends out.old out.new }
{
    let operand = State::Arguments {
        function: operator,
        index: 0,
    };
    let inner = read(alloc, setting, tree, &[operand], out)?;
    match inner {
        Found::Nothing => Ok(Found::Nothing),
        Found::Only(number) => {
            let node = Resolved {
                form: Form::Condition,
                declaration: Some(operator),
                mark: Some(TypeId::of(BOOLEAN)),
                position: 0,
            };
            let made = out.add(node, &[], first_place(tree), number, 0)?;
            Ok(Found::Only(made))
        }
        Found::Several => Ok(Found::Several),
    }
}
