//! Forests that are searched, judged and walked.

ghost use Rattle.std.specs.Prelude.{◌≤◌, IfOk, length};

use anyhow::bail;
use std::alloc::{AllocError, Global};
use vd_bytes::{Place, Refused};
use vd_forest::{Cursor, Opened, Store};
use vd_walks::{Entry, Finding, Judging, Outcome, Walking, find_all, find_first, find_least, walk};

/// A sum has parts; names and wrong ones have none.
#[derive(Clone, Copy, PartialEq, Eq)]
enum Form {
    Sum,
    Name,
    Wrong,
}

/// The line of a name that stands at this depth, counted from 0.
#[derive(Drop)]
struct AtDepth {
    depth: u8,
}

impl Finding<Form, u8, u32> for AtDepth {
    ghost use Rattle.std.specs.Prelude.{◌==◌, ◌+◌, min, Some, None, if◌then◌else◌, ◌&&◌};
    ghost use Rattle.vd_walks.specs.Finding.{Finder};
    ghost use Rattle.vd_value_tests.specs.declared.walkers.Form.TheVariants.{Sum, Name};

    ghost finder = { λ by. record {
      answer = λ depth form text place parts. if ⟦<Form as PartialEq>⟧.eq form Name && (depth == by.depth) then Some place.line else None;
      down = λ depth form text place parts. min (depth + 1) 255;
      along = λ depth form text place parts. depth;
    } };

    fn answer(
        &self,
        _alloc: Global,
        state: &u8,
        node: &Opened<'_, Form>,
    ) -> Result<Option<u32>, AllocError> {
        if node.form == Form::Name && *state == self.depth {
            return Ok(Some(node.place.line));
        }
        Ok(None)
    }

    fn down(&self, _alloc: Global, state: &u8, _node: &Opened<'_, Form>) -> Result<u8, AllocError> {
        Ok(state.saturating_add(1))
    }

    fn along(
        &self,
        _alloc: Global,
        state: &u8,
        _node: &Opened<'_, Form>,
    ) -> Result<u8, AllocError> {
        Ok(*state)
    }
}

/// The lines of names.
#[derive(Drop)]
struct Lines {
    most: u32,
}

impl Finding<Form, u8, u32> for Lines {
    ghost use Rattle.std.specs.Prelude.{nat_le, Some, None, if◌then◌else◌, ◌&&◌};
    ghost use Rattle.vd_walks.specs.Finding.{Finder};
    ghost use Rattle.vd_value_tests.specs.declared.walkers.Form.TheVariants.{Sum, Name};

    ghost finder = { λ by. record {
      answer = λ state form text place parts. if ⟦<Form as PartialEq>⟧.eq form Name && nat_le place.line by.most then Some place.line else None;
      down = λ state form text place parts. state;
      along = λ state form text place parts. state;
    } };

    fn answer(
        &self,
        _alloc: Global,
        _state: &u8,
        node: &Opened<'_, Form>,
    ) -> Result<Option<u32>, AllocError> {
        if node.form == Form::Name && node.place.line <= self.most {
            return Ok(Some(node.place.line));
        }
        Ok(None)
    }

    fn down(&self, _alloc: Global, state: &u8, _node: &Opened<'_, Form>) -> Result<u8, AllocError> {
        Ok(*state)
    }

    fn along(
        &self,
        _alloc: Global,
        state: &u8,
        _node: &Opened<'_, Form>,
    ) -> Result<u8, AllocError> {
        Ok(*state)
    }
}

/// Names deeper than this depth, counted from 0, break a rule that is their text's length.
#[derive(Drop)]
struct NotDeeper {
    depth: u8,
}

impl Judging<Form, u8> for NotDeeper {
    ghost use Rattle.std.specs.Prelude.{nat_lt, ◌+◌, min, [], ◌∷◌, length, if◌then◌else◌, ◌&&◌};
    ghost use Rattle.vd_walks.specs.Least.{Judge};
    ghost use Rattle.vd_value_tests.specs.declared.walkers.Form.TheVariants.{Sum, Name};

    ghost judge = { λ by. record {
      broken = λ depth form text place parts.
          if ⟦<Form as PartialEq>⟧.eq form Name && nat_lt by.depth depth then record { place = place; rule = min (length text) 65535 } ∷ [] else [];
      down = λ depth form text place parts. min (depth + 1) 255;
      along = λ depth form text place parts. depth;
    } };

    fn broken(
        &self,
        _alloc: Global,
        state: &u8,
        node: &Opened<'_, Form>,
    ) -> Result<Option<Refused>, AllocError> {
        if node.form == Form::Name && self.depth < *state {
            let rule = if node.text.len() < 65535 {
                node.text.len() as u16
            } else {
                65535
            };
            return Ok(Some(Refused {
                place: node.place,
                rule,
            }));
        }
        Ok(None)
    }

    fn down(&self, _alloc: Global, state: &u8, _node: &Opened<'_, Form>) -> Result<u8, AllocError> {
        Ok(state.saturating_add(1))
    }

    fn along(
        &self,
        _alloc: Global,
        state: &u8,
        _node: &Opened<'_, Form>,
    ) -> Result<u8, AllocError> {
        Ok(*state)
    }
}

/// Each node becomes one whose form is its depth, counted from the state. The table counts the names, and each wrong one breaks a rule
/// that is its depth.
#[derive(Drop)]
struct Depths;

impl<'a> Walking<'a, Form, u8, u8, u32, u8> for Depths {
    ghost use Rattle.std.specs.Prelude.{◌+◌, min, Some, None, if◌then◌else◌};
    ghost use Rattle.vd_forest.specs.Forest.{leaf, more, nothing};
    ghost use Rattle.vd_walks.specs.Walking.{Walker, Entry, Done, Inside};
    ghost use Rattle.vd_value_tests.specs.declared.walkers.Form.TheVariants.{Sum, Name, Wrong};

    ghost walker = { λ _. record {
      enter = λ form text place parts at design.
          if ⟦<Form as PartialEq>⟧.eq form Sum then Inside (min (at + 1) 255) design at
          else Done (record {
            tree = leaf at text place nothing;
            at = at;
            design = if ⟦<Form as PartialEq>⟧.eq form Name then min (design + 1) 4294967295 else design;
            first = if ⟦<Form as PartialEq>⟧.eq form Wrong then Some (record { place = place; rule = at }) else None;
          });
      leave = λ kept form text place parts inner.
          record { tree = more kept text place inner.tree nothing; at = kept; design = inner.design; first = inner.first };
    } };

    fn enter(
        &self,
        _alloc: Global,
        node: &Opened<'a, Form>,
        at: u8,
        design: &mut u32,
        out: &mut Store<u8>,
    ) -> Result<Entry<u8, u8>, AllocError> {
        if node.form == Form::Sum {
            return Ok(Entry::Inside {
                at: at.saturating_add(1),
                kept: at,
            });
        }
        let tree = out.add(at, node.text, node.place, 0, 0)?;
        if node.form == Form::Name {
            *design = design.saturating_add(1);
        }
        let first = if node.form == Form::Wrong {
            Some(Refused {
                place: node.place,
                rule: u16::from(at),
            })
        } else {
            None
        };
        Ok(Entry::Done(Outcome { tree, at, first }))
    }

    fn leave(
        &self,
        _alloc: Global,
        kept: u8,
        node: &Opened<'a, Form>,
        outcome: &mut Outcome<u8>,
        _design: &mut u32,
        out: &mut Store<u8>,
    ) -> Result<(), AllocError> {
        outcome.tree = out.add(kept, node.text, node.place, outcome.tree, 0)?;
        outcome.at = kept;
        Ok(())
    }
}

/// The text and the form of each node, and its parts between brackets.
fn shown(alloc: Global, trees: &Cursor<'_, u8>) -> Result<Vec<u8>, AllocError> {
    let mut text = Vec::new(alloc);
    let mut outer = Vec::new(alloc);
    let mut left = trees.fork();
    for _ in 0..1000 {
        if let Some(first) = left.open() {
            text.extend_from_slice(first.text)?;
            text.push(b'0' + first.form % 10)?;
            text.push(b'(')?;
            outer.push(first.next)?;
            left = first.parts;
        } else if let Some(next) = outer.pop() {
            text.push(b')')?;
            left = next;
        } else {
            break;
        }
    }
    Ok(text)
}

/// The number in a field of a word.
fn number(word: &str, at: usize) -> u32 {
    match word.split(':').nth(at) {
        Some(digits) => digits.parse::<u32>().unwrap_or(0),
        None => 0,
    }
}

/// The form of a word.
fn form_named(word: &str) -> Form {
    match word {
        "sum" => Form::Sum,
        "name" => Form::Name,
        _ => Form::Wrong,
    }
}

/// The place `FILE:LINE:COLUMN`.
fn place(word: &str) -> Place {
    Place {
        file: number(word, 0),
        line: number(word, 1),
        column: number(word, 2),
    }
}

/// Adds the node `FORM TEXT FILE:LINE:COLUMN PARTS:NEXT` behind so many.
fn add(store: &mut Store<Form>, nodes: u32, words: &[&str]) -> anyhow::Result<u32>
    requires { nodes ≤ length store.old }
    ensures { IfOk result (λ made. made ≤ length store.new) }
{
    let [own, text, at, links] = words else {
        bail!("a node has four words");
    };
    let parts = number(links, 0);
    let next = number(links, 1);
    if parts > nodes || next > nodes {
        bail!("there are too few nodes");
    }
    let made = store.add(form_named(own), text.as_bytes(), place(at), parts, next)?;
    Ok(made)
}

/// Adds the node of some words behind so many.
fn add_words(alloc: Global, store: &mut Store<Form>, nodes: u32, words: &str) -> anyhow::Result<u32>
    requires { nodes ≤ length store.old }
    ensures { IfOk result (λ made. made ≤ length store.new) }
{
    let words: Vec<&str> = words.split_whitespace().collect(alloc)?;
    add(store, nodes, &words)
}

/// Adds nodes, of which the last one stands for the forest.
fn add_all(alloc: Global, store: &mut Store<Form>, nodes: &str) -> anyhow::Result<u32>
    ensures { IfOk result (λ made. made ≤ length store.new) }
{
    let mut made = 0;
    for words in nodes.split(',') {
        made = add_words(alloc, store, made, words)?;
    }
    Ok(made)
}

/// A line, or that there is none.
fn line(alloc: Global, found: Option<u32>) -> Result<String, AllocError> {
    match found {
        Some(line) => format!(in alloc; "{line}"),
        None => String::from_str(alloc, "none"),
    }
}

/// A place and a rule, or that there are none.
fn refused(alloc: Global, found: Option<Refused>) -> Result<String, AllocError> {
    match found {
        Some(first) => {
            let Place { file, line, column } = first.place;
            let rule = first.rule;
            format!(in alloc; "{file}:{line}:{column} {rule}")
        }
        None => String::from_str(alloc, "none"),
    }
}

/// The lines of all names up to a line.
fn gathered(alloc: Global, tree: &Cursor<'_, Form>, most: u32) -> Result<String, AllocError> {
    let lines = find_all(alloc, tree, 0, &Lines { most })?;
    let lines = lines.as_slice();
    format!(in alloc; "{lines:?}")
}

/// What a walk comes to: trees, names, state, refusal.
fn walked(alloc: Global, tree: &Cursor<'_, Form>, at: u8, names: u32) -> anyhow::Result<String> {
    let mut names = names;
    let mut out = Store::new(alloc);
    let outcome = walk(alloc, tree, at, &mut names, &mut out, &Depths)?;
    let trees = shown(alloc, &out.cursor(outcome.tree))?;
    let first = refused(alloc, outcome.first)?;
    let trees = str::from_utf8(&trees).unwrap_or("?");
    let first = first.as_str();
    let at = outcome.at;
    Ok(format!(in alloc; "{trees} {names} {at} {first}")?)
}

/// What is asked of a forest.
fn asked(
    alloc: Global,
    tree: &Cursor<'_, Form>,
    kind: &str,
    state: u8,
    number: u32,
) -> anyhow::Result<String> {
    let depth = (number % 256) as u8;
    match kind {
        "find" => Ok(line(alloc, find_first(alloc, tree, state, &AtDepth { depth })?)?),
        "gather" => Ok(gathered(alloc, tree, number)?),
        "least" => Ok(refused(alloc, find_least(alloc, tree, state, &NotDeeper { depth })?)?),
        "walk" => walked(alloc, tree, state, number),
        _ => bail!("there is no call {kind}"),
    }
}

/// What is asked, by words, of the forest with a number.
fn asked_of(alloc: Global, tree: &Cursor<'_, Form>, words: &str) -> anyhow::Result<String> {
    let words: Vec<&str> = words.split(' ').collect(alloc)?;
    let [kind, state, number] = words.as_slice() else {
        bail!("a call has two numbers");
    };
    asked(
        alloc,
        tree,
        kind,
        state.parse::<u8>()?,
        number.parse::<u32>()?,
    )
}

/// The answer of `NODE, NODE, .. : CALL STATE NUMBER`, or of `: CALL STATE NUMBER` for the empty forest.
pub fn answer(alloc: Global, words: &str) -> anyhow::Result<String> {
    let Some((nodes, call)) = words.split_once(": ") else {
        bail!("there is no call");
    };
    let mut store = Store::new(alloc);
    let number = if nodes.is_empty() {
        0
    } else {
        add_all(alloc, &mut store, nodes)?
    };
    asked_of(alloc, &store.cursor(number), call)
}
