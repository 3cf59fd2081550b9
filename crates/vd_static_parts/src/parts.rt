//! What is known of the parts of a node.

ghost use Rattle.std.specs.Prelude.{◌≡◌, IfOk, List, true};
ghost use Rattle.vd_environments.specs.Environments.{Env};
ghost use Rattle.vd_forest.specs.Forest.{Forest};
ghost use Rattle.vd_value_rules.specs.Indicated.{static_of};
ghost use Rattle.vd_value_rules.specs.declared.forms.IndicatedForm.{IndicatedForm};
ghost use Rattle.vd_meaning.specs.Facets.{Meaning, arguments, known_of as known_in, nth};
ghost use Rattle.vd_static_values.specs.Names.{IsRanging};
ghost use Rattle.vd_static_values.specs.Nodes.{AreNodes};
ghost use Rattle.vd_static_values.specs.Operands.{AreOperands};

use std::alloc::{AllocError, Global};
use vd_composites::Value;
use vd_static_names::copies::value_again;
use vd_static_values::{Node, Ranging};
use vd_value_rules::StaticSort;

// ---- all parts

/// How static an expression is that is as static as each of its parts.
pub fn known_of(parts: &[Node<'_>]) -> StaticSort
    ensures { (subtypes : List (Forest IndicatedForm)) (e : Env) (ms : List Meaning) → AreNodes subtypes e parts.now ms → static_of result ≡ known_in ms e }
{
    let mut known = StaticSort::always();
    for part in parts {
        known = known.both(part.sense.known);
    }
    known
}

/// The values of the parts.
pub fn operands(alloc: Global, parts: &[Node<'_>]) -> Result<Vec<Option<Value>>, AllocError>
    ensures { (subtypes : List (Forest IndicatedForm)) (e : Env) (ms : List Meaning) → AreNodes subtypes e parts.now ms → (known_in ms e).is_local ≡ true
        → IfOk result (λ v. AreOperands (arguments ms e) v.items) }
{
    let mut values: Vec<Option<Value>> = Vec::new(alloc);
    for part in parts {
        let value = value_again(alloc, &part.sense.value)?;
        values.push(value)?;
    }
    Ok(values)
}

// ---- one part

/// How static the first part is.
pub fn first_known(parts: &[Node<'_>]) -> StaticSort
    ensures { (subtypes : List (Forest IndicatedForm)) (e : Env) (ms : List Meaning) → AreNodes subtypes e parts.now ms → static_of result ≡ (nth 0 ms).known e }
{
    match parts.first() {
        Some(first) => first.sense.known,
        None => StaticSort::never(),
    }
}

/// The range that the first part stands for, if it stands for one.
pub fn first_range(parts: &[Node<'_>]) -> Ranging
    ensures { (subtypes : List (Forest IndicatedForm)) (e : Env) (ms : List Meaning) → AreNodes subtypes e parts.now ms
        → IsRanging result (nth 0 ms).range ((nth 0 ms).known e) e }
{
    match parts.first() {
        Some(first) => first.sense.range,
        None => Ranging::NoRange,
    }
}

/// The text of a part.
pub fn text_of<'a>(parts: &[Node<'a>], number: usize) -> &'a [u8]
    ensures { (subtypes : List (Forest IndicatedForm)) (e : Env) (ms : List Meaning) → AreNodes subtypes e parts.now ms → result.now ≡ (nth number ms).text }
{
    match parts.get(number) {
        Some(part) => part.sense.text,
        None => &[],
    }
}
