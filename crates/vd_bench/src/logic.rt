//! A small logic with two passes and a meaning.

ghost use Rattle.std.specs.Prelude.{◌≡◌, ◌≤◌, length};
ghost use Rattle.vd_forest.specs.Store.{at};
ghost use Rattle.vd_bench.specs.Logic.{negated, without_pairs, settling, depth};

use std::alloc::AllocError;
use vd_bytes::Place;
use vd_forest::{Opened, Store};
use vd_rewriting::{Folding, Inheriting, Rewriting};

#[derive(Clone, Copy, PartialEq, Eq, Debug)]
pub(crate) enum Form {
    Not,
    And,
    Or,
    Name,
}

/// A negation of a negation becomes what that negates.
#[derive(Clone, Copy, Drop)]
pub(crate) struct WithoutPairs;

impl Rewriting<Form, Form> for WithoutPairs {
    ghost pass = { λ _. without_pairs };

    fn make(
        &mut self,
        out: &mut Store<Form>,
        node: &Opened<'_, Form>,
        parts: u32,
        next: u32,
    ) -> Result<u32, AllocError> {
        if node.form == Form::Not {
            let inner = negated_at(out, parts);
            let is_empty = out.head(inner).is_none();
            if !is_empty {
                return out.relink(inner, next);
            }
        }
        out.add(node.form, node.text, node.place, parts, next)
    }
}

/// What the first tree of a forest negates, where it is a negation.
fn negated_at(out: &Store<Form>, number: u32) -> u32
    requires { number ≤ length out.now }
    ensures within { result ≤ length out.now }
    ensures is { at out.now result ≡ negated (at out.now number) }
{
    match out.head(number) {
        None => 0,
        Some(first) => {
            if first.form == Form::Not {
                first.parts
            } else {
                0
            }
        }
    }
}

/// Negations go down to names, where conjunctions become disjunctions on the way.
#[derive(Clone, Copy, Drop)]
pub(crate) struct Settling;

impl Inheriting<Form, Form, bool> for Settling {
    ghost rules = { λ _. settling };

    fn down(&mut self, negated: bool, node: &Opened<'_, Form>) -> Result<bool, AllocError> {
        if node.form == Form::Not {
            Ok(!negated)
        } else {
            Ok(negated)
        }
    }

    fn along(&mut self, negated: bool, _node: &Opened<'_, Form>) -> Result<bool, AllocError> {
        Ok(negated)
    }

    fn make(
        &mut self,
        out: &mut Store<Form>,
        negated: bool,
        node: &Opened<'_, Form>,
        parts: u32,
        next: u32,
    ) -> Result<u32, AllocError> {
        match node.form {
            Form::Not => {
                let is_empty = out.head(parts).is_none();
                if is_empty {
                    out.add(Form::Not, node.text, node.place, parts, next)
                } else {
                    out.relink(parts, next)
                }
            }
            Form::And => {
                let form = if negated { Form::Or } else { Form::And };
                out.add(form, node.text, node.place, parts, next)
            }
            Form::Or => {
                let form = if negated { Form::And } else { Form::Or };
                out.add(form, node.text, node.place, parts, next)
            }
            Form::Name => {
                if negated {
                    let name = out.add(Form::Name, node.text, node.place, parts, 0)?;
                    out.add(Form::Not, b"", node.place, name, next)
                } else {
                    out.add(Form::Name, node.text, node.place, parts, next)
                }
            }
        }
    }
}

/// How many nodes stand above one another, down by first parts.
#[derive(Clone, Copy, Drop)]
pub(crate) struct Depth;

impl Folding<Form, u32> for Depth {
    ghost meaning = { λ _. depth };

    fn node(
        &mut self,
        _form: Form,
        _text: &[u8],
        _place: Place,
        parts: &[u32],
    ) -> Result<u32, AllocError> {
        match parts.first() {
            None => Ok(1),
            Some(below) => Ok(below.saturating_add(1)),
        }
    }
}
