//! Expressions that are read in small languages, which are written as tables.

ghost use Rattle.std.specs.Prelude.{◌≤◌, IfOk, length};

use anyhow::bail;
use std::alloc::{AllocError, Global};
use vd_bytes::Place;
use vd_declarations::{DeclId, TypeId};
use vd_forest::{Cursor, Opened, Store};
use vd_forms::Form;
use vd_readings::{Found, Language, count, read};
use vd_resolved::Resolved;
use vd_states::{State, Want, Way};

/// A way of the nodes of a form in a state.
#[derive(Clone, Copy)]
struct Row {
    state: State,
    form: Form,
    way: Way,
}

/// A language that is written as a table. A list ends where nothing is wanted.
#[derive(Drop)]
struct Table {
    rows: Vec<Row>,
}

impl Language for Table {
    ghost use Rattle.std.specs.Prelude.{map, filter, ◌&&◌};
    ghost use Rattle.vd_states.specs.declared.states.State.TheVariants.{Done};
    ghost use Rattle.vd_readings.specs.Readings.{Rules};

    ghost rules = { λ table. record {
      ways = λ state form text parts.
          map (λ r. r.way) (filter (λ r. ⟦<State as PartialEq>⟧.eq r.state state && ⟦<Form as PartialEq>⟧.eq r.form form) table.rows.items);
      ends = λ state. ⟦<State as PartialEq>⟧.eq state Done;
    } };

    fn ends(&self, state: State) -> bool {
        state == State::Done
    }

    fn ways(
        &self,
        alloc: Global,
        state: State,
        node: &Opened<'_, Form>,
    ) -> Result<Vec<Way>, AllocError> {
        self.rows
            .iter()
            .filter(|r| r.state == state && r.form == node.form)
            .map(|r| r.way)
            .collect(alloc)
    }
}

fn value(mark: u32) -> State {
    State::Only(Want::Value(TypeId::of(mark)))
}

fn operand(function: u32, index: u32) -> State {
    State::Arguments {
        function: DeclId::of(function),
        index,
    }
}

fn way(declaration: u32, mark: u32, inside: State, after: State) -> Way {
    Way {
        declaration: Some(DeclId::of(declaration)),
        mark: Some(TypeId::of(mark)),
        position: 0,
        inside,
        after,
    }
}

/// The functions `&` of the array types from 1 on, of which 0 is the element type: of two arrays, of an array and an element, of
/// an element and an array, of two elements. Each name is an element.
fn concatenations(alloc: Global, arrays: u32) -> Result<Table, AllocError> {
    let mut rows = Vec::new(alloc);
    for array in 0..arrays {
        let mark = array.wrapping_add(1);
        for kind in 0..4u32 {
            let function = array.wrapping_mul(4).wrapping_add(kind);
            rows.push(Row {
                state: value(mark),
                form: Form::Concatenate,
                way: way(function, mark, operand(function, 0), State::Done),
            })?;
            for index in 0..2u32 {
                let here = operand(function, index);
                let after = if index == 0 {
                    operand(function, 1)
                } else {
                    State::Done
                };
                let element = if index == 0 { kind >= 2 } else { kind % 2 == 1 };
                add_operand(&mut rows, &here, &after, mark, array, element)?;
            }
        }
    }
    Ok(Table { rows })
}

fn add_operand(
    rows: &mut Vec<Row>,
    here: &State,
    after: &State,
    mark: u32,
    array: u32,
    element: bool,
) -> Result<(), AllocError> {
    if element {
        rows.push(Row {
            state: *here,
            form: Form::Identifier,
            way: way(1000, 0, State::Done, *after),
        })?;
        return Ok(());
    }
    for kind in 0..4u32 {
        let function = array.wrapping_mul(4).wrapping_add(kind);
        rows.push(Row {
            state: *here,
            form: Form::Concatenate,
            way: way(function, mark, operand(function, 0), *after),
        })?;
    }
    Ok(())
}

fn place() -> Place {
    Place {
        file: 0,
        line: 1,
        column: 1,
    }
}

/// So many `&` from left to right.
#[tactic(auto, using(vd_forest::proofs::StoreLemmas::growing))]
fn chain(store: &mut Store<Form>, operators: u32) -> Result<u32, AllocError>
    ensures { IfOk result (λ number. number ≤ length store.new) }
{
    let mut made = store.add(Form::Identifier, b"a", place(), 0, 0)?;
    for _ in 0..operators {
        let right = store.add(Form::Identifier, b"a", place(), 0, 0)?;
        let first = store.relink(made, right)?;
        made = store.add(Form::Concatenate, b"", place(), first, 0)?;
    }
    Ok(made)
}

/// Two functions of which the second takes names.
fn functions(alloc: Global) -> Result<Table, AllocError> {
    let mut rows = Vec::new(alloc);
    for function in 7..9u32 {
        rows.push(Row {
            state: value(1),
            form: Form::Concatenate,
            way: way(function, 1, operand(function, 0), State::Done),
        })?;
    }
    rows.push(Row {
        state: operand(8, 0),
        form: Form::Identifier,
        way: way(2, 0, State::Done, operand(8, 1)),
    })?;
    rows.push(Row {
        state: operand(8, 1),
        form: Form::Identifier,
        way: way(2, 0, State::Done, State::Done),
    })?;
    Ok(Table { rows })
}

/// The numbers of some words.
fn numbers(alloc: Global, words: &str) -> anyhow::Result<Vec<u32>> {
    let mut found = Vec::new(alloc);
    for word in words.split(' ') {
        let Ok(number) = word.parse::<u32>() else {
            bail!("{word} is no number");
        };
        found.push(number)?;
    }
    Ok(found)
}

/// A node's declaration and type.
fn node(alloc: Global, at: &Cursor<'_, Resolved>) -> anyhow::Result<String> {
    let Some(form) = at.form() else {
        bail!("there is no node");
    };
    let (Some(declaration), Some(mark)) = (form.declaration, form.mark) else {
        bail!("a node has no declaration or type");
    };
    let (declaration, mark) = (declaration.number(), mark.number());
    Ok(format!(in alloc; "{declaration} of {mark}")?)
}

/// The only reading: its node, and its first part.
fn reading(alloc: Global, at: &Cursor<'_, Resolved>) -> anyhow::Result<String> {
    let whole = node(alloc, at)?;
    let left = node(alloc, &at.parts())?;
    Ok(format!(in alloc; "{whole}, left {left}")?)
}

/// What is found of a tree's readings.
fn found(
    alloc: Global,
    table: &Table,
    tree: &Cursor<'_, Form>,
    states: &[State],
) -> anyhow::Result<String> {
    let mut out: Store<Resolved> = Store::new(alloc);
    match read(alloc, table, tree, states, &mut out)? {
        Found::Nothing => Ok(String::from_str(alloc, "nothing")?),
        Found::Several => Ok(String::from_str(alloc, "several")?),
        Found::Only(made) => reading(alloc, &out.cursor(made)),
    }
}

/// How many readings a chain has, and what is found of them.
fn asked(alloc: Global, table: &Table, operators: u32, states: &[State]) -> anyhow::Result<String> {
    let mut store = Store::new(alloc);
    let number = chain(&mut store, operators)?;
    let tree = store.cursor(number);
    let many = count(alloc, table, &tree, states)?;
    let text = found(alloc, table, &tree, states)?;
    Ok(format!(in alloc; "{many}, {text}")?)
}

/// The same of what none, one or two types want.
fn asked_for(
    alloc: Global,
    table: &Table,
    operators: u32,
    marks: &[u32],
) -> anyhow::Result<String> {
    match marks {
        [] => asked(alloc, table, operators, &[]),
        [one] => asked(alloc, table, operators, &[value(*one)]),
        [one, other] => asked(alloc, table, operators, &[value(*one), value(*other)]),
        _ => bail!("at most two types are wanted"),
    }
}

/// `ARRAYS OPERATORS TYPE ..` is a chain over so many array types; with no array type it is one over the two functions.
pub fn answer(alloc: Global, words: &str) -> anyhow::Result<String> {
    let given = numbers(alloc, words)?;
    let [arrays, operators, marks @ ..] = given.as_slice() else {
        bail!("a chain has numbers of array types and of operators");
    };
    let table = if *arrays == 0 {
        functions(alloc)?
    } else {
        concatenations(alloc, *arrays)?
    };
    asked_for(alloc, &table, *operators, marks)
}
