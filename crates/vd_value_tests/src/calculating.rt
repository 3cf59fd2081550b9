//! Expressions of the first language in postfix form, and their values.

use anyhow::bail;
use std::alloc::{AllocError, Global};
use vd_first_processes::evaluation::evaluate;
use vd_first_processes::expressions::Operation;
use vd_first_trees::Form;
use vd_kernel::SignalId;
use vd_simulation::Seen;
use vd_values::Scalar;

/// An operation that names an object, or 2 where it names none.
fn operation(form: Form, object: usize, parts: usize) -> Operation {
    Operation {
        form,
        object: SignalId::of(object),
        parts,
    }
}

/// Adds the operation of a word: `and`, `not`, or the number of an object, which is a name.
fn add(operations: &mut Vec<Operation>, word: &str) -> anyhow::Result<()> {
    match word {
        "and" => operations.push(operation(Form::And, 2, 2))?,
        "not" => operations.push(operation(Form::Not, 2, 1))?,
        _ => {
            operations.push(operation(Form::Identifier, word.parse::<usize>()?, 0))?;
            operations.push(operation(Form::Name, 2, 1))?;
        }
    }
    Ok(())
}

/// The operations of some words.
fn operations(alloc: Global, words: &str) -> anyhow::Result<Vec<Operation>> {
    let mut operations = Vec::new(alloc);
    for word in words.split_whitespace() {
        add(&mut operations, word)?;
    }
    Ok(operations)
}

/// The values of some positions.
fn values(alloc: Global, words: &str) -> anyhow::Result<Vec<Scalar>> {
    let mut values = Vec::new(alloc);
    for word in words.split_whitespace() {
        values.push(Scalar::Literal(word.parse::<u32>()?))?;
    }
    Ok(values)
}

/// The value of an expression where signals have these values.
fn calculated(
    alloc: Global,
    operations: &[Operation],
    values: Vec<Scalar>,
) -> Result<Scalar, AllocError> {
    let seen = Seen {
        time: 0,
        values,
        before: Vec::new(alloc),
    };
    let mut stack = Vec::new(alloc);
    evaluate(&mut stack, operations, &seen)
}

/// The answer of `OPERATION .. : VALUE ..`.
pub fn answer(alloc: Global, words: &str) -> anyhow::Result<String> {
    let Some((left, right)) = words.split_once(" : ") else {
        bail!("there are no values");
    };
    let operations = operations(alloc, left)?;
    match calculated(alloc, &operations, values(alloc, right)?)? {
        Scalar::Literal(position) => Ok(format!(in alloc; "{position}")?),
        _ => bail!("the value is no literal"),
    }
}
