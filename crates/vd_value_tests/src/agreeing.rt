//! Tables of operators. Each line says what an operator gives of its operands, behind ` = `, and which expression that is, behind ` ; `.

use crate::operators::operator_of;
use crate::values::{Given, wanted};
use anyhow::bail;
use std::alloc::Global;
use vd_composites::{Value, ValueEnd};
use vd_operators::apply;

/// The values of some words.
fn operands_of(alloc: Global, words: &str) -> anyhow::Result<Vec<Value>> {
    let mut operands: Vec<Value> = Vec::new(alloc);
    for word in words.split(' ') {
        match wanted(alloc, word)? {
            Given::Something(value) => operands.push(value)?,
            Given::Stop(_) => bail!("an operand is a stop"),
        }
    }
    Ok(operands)
}

/// What the operator of a name gives of some operands.
fn given(alloc: Global, name: &str, operands: &[Value]) -> anyhow::Result<Result<Value, ValueEnd>> {
    let Some(operator) = operator_of(alloc, name)? else {
        bail!("there is no operator {name}");
    };
    Ok(apply(alloc, &operator, operands))
}

/// Whether an answer is what is wanted.
fn is_wanted(given: &Result<Value, ValueEnd>, wanted: &Given) -> bool {
    match (given, wanted) {
        (Ok(value), Given::Something(other)) => {
            value.equals(other) && value.bounds() == other.bounds()
        }
        (Err(ValueEnd::Stop(kind)), Given::Stop(other)) => kind == other,
        _ => false,
    }
}

/// Whether an operator gives of its operands what is wanted.
fn gives(alloc: Global, call: &str, answer: &str) -> anyhow::Result<bool> {
    let Some((name, words)) = call.split_once(' ') else {
        bail!("a line has no operand");
    };
    let operands = operands_of(alloc, words)?;
    let given = given(alloc, name, &operands)?;
    let wanted = wanted(alloc, answer)?;
    Ok(is_wanted(&given, &wanted))
}

/// Whether a line says what its operator gives.
fn agrees(alloc: Global, line: &str) -> anyhow::Result<bool> {
    let Some((call, rest)) = line.split_once(" = ") else {
        bail!("a line has no result");
    };
    let Some((answer, _)) = rest.split_once(" ; ") else {
        bail!("a line has no expression");
    };
    gives(alloc, call, answer)
}

/// Says which lines of a table differ from what the operators give, and how many lines there are.
pub fn compare_operators(rt: HostRuntime, name: &str, text: &str) -> anyhow::Result<()> {
    let mut cases: usize = 0;
    let mut wrong: usize = 0;
    for line in text.lines() {
        cases = cases.saturating_add(1);
        if !agrees(rt.alloc(), line)? {
            wrong = wrong.saturating_add(1);
            println!(rt; "{line}")?;
        }
    }
    println!(rt; "{name}: {cases} cases, {wrong} differ")?;
    Ok(())
}
