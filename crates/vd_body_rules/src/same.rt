//! Trees that say the same, where some declarations stand for others.

ghost use Rattle.std.specs.Prelude.{◌≡◌, ◌<◌, ◌&&◌, IfOk, bytes_eq};
ghost use Rattle.vd_body_rules.specs.Comparing.{is_left_same, work, work_left};
ghost use Rattle.vd_forms.specs.Forms.{form_number as number_of_form, same_form as of_same_form};
ghost use Rattle.vd_value_rules.specs.Bodies.{means_same as meanings_same, same_node as nodes_same, say_same as forests_same};

use crate::pairs::Pairs;
use std::alloc::{AllocError, Global};
use vd_declarations::{DeclId, TypeId};
use vd_forest::{Cursor, Opened};
use vd_forms::Form;
use vd_resolved::Resolved;

fn form_number(form: Form) -> u16
    ensures { result ≡ number_of_form form }
{
    form as u16
}

pub fn same_form(f: Form, g: Form) -> bool
    ensures { result ≡ of_same_form f g }
{
    form_number(f) == form_number(g)
}

fn number_of(id: Option<DeclId>) -> Option<u32>
    ensures { result ≡ id }
{
    match id {
        None => None,
        Some(number) => Some(number.number()),
    }
}

fn number_of_type(id: Option<TypeId>) -> Option<u32>
    ensures { result ≡ id }
{
    match id {
        None => None,
        Some(number) => Some(number.number()),
    }
}

/// Whether two numbers are the same, or a pair.
fn means_same(pairs: &Pairs, m: Option<u32>, n: Option<u32>) -> bool
    ensures { result ≡ meanings_same pairs.now m n }
{
    match (m, n) {
        (None, None) => true,
        (Some(a), Some(b)) => a == b || pairs.has(a, b),
        _ => false,
    }
}

/// Whether two nodes say the same.
fn same_node(pairs: &Pairs, m: &Resolved, n: &Resolved) -> bool
    ensures { result ≡ nodes_same pairs.now m.now n.now }
{
    same_form(m.form, n.form)
        && means_same(pairs, number_of(m.declaration), number_of(n.declaration))
        && means_same(pairs, number_of_type(m.mark), number_of_type(n.mark))
        && m.position == n.position
}

/// Two forests that are still to be compared.
#[derive(Drop)]
pub struct Both<'a> {
    pub one: Cursor<'a, Resolved>,
    pub other: Cursor<'a, Resolved>,
}

/// What is left to compare of two forests.
#[derive(Drop)]
enum Compared<'a> {
    Nothing,
    /// Their first nodes differ already.
    Different,
    Further { parts: Both<'a>, next: Both<'a> },
}

/// Whether the first nodes of two forests say the same.
pub fn same_first(pairs: &Pairs, x: &Opened<'_, Resolved>, y: &Opened<'_, Resolved>) -> bool
    ensures { result ≡ (nodes_same pairs.now x.now.form y.now.form && bytes_eq x.now.text.now y.now.text.now) }
{
    same_node(pairs, &x.form, &y.form) && x.text == y.text
}

/// Compares the first nodes of two forests.
fn compare<'a>(pairs: &Pairs, both: &Both<'a>) -> Compared<'a>
    ensures same { is_left_same pairs.now result ≡ forests_same pairs.now both.now.one both.now.other }
    ensures less { work_left result < work both.now }
{
    match (both.one.open(), both.other.open()) {
        (None, None) => Compared::Nothing,
        (Some(x), Some(y)) => {
            if same_first(pairs, &x, &y) {
                Compared::Further {
                    parts: Both {
                        one: x.parts,
                        other: y.parts,
                    },
                    next: Both {
                        one: x.next,
                        other: y.next,
                    },
                }
            } else {
                Compared::Different
            }
        }
        _ => Compared::Different,
    }
}

/// Whether two forests say the same.
#[tactic(auto, using(crate::proofs::SameLemmas::same_steps))]
pub fn say_same(
    alloc: Global,
    pairs: &Pairs,
    f: &Cursor<'_, Resolved>,
    g: &Cursor<'_, Resolved>,
) -> Result<bool, AllocError>
    ensures { IfOk result (λ same. same ≡ forests_same pairs.now f.now g.now) }
{
    let mut left = Vec::new(alloc);
    left.push(Both {
        one: f.fork(),
        other: g.fork(),
    })?;
    while let Some(both) = left.pop() {
        match compare(pairs, &both) {
            Compared::Nothing => {}
            Compared::Different => return Ok(false),
            Compared::Further { parts, next } => {
                left.push(next)?;
                left.push(parts)?;
            }
        }
    }
    Ok(true)
}
