//! Type conversions. (IEEE 1076, type conversions.) The elements of arrays are converted level by level, since arrays may be nested as deep as types
//! are.

ghost use Rattle.std.specs.Prelude.{IfOk};
ghost use Rattle.vd_value_rules.specs.Indicated.{indicated_in};
ghost use Rattle.vd_meaning.specs.Names.{converted};
ghost use Rattle.vd_static_values.specs.Entries.{IsFound};
ghost use Rattle.vd_static_values.specs.Finding.{IsListFound};
ghost use Rattle.vd_static_values.specs.Levels.{IsOpened, all_whole, inside_converted};

use crate::elements::all_elements;
use crate::finding::found;
use crate::fitting::fit_whole;
use crate::regrouping::closed;
use std::alloc::{AllocError, Global};
use vd_composites::Value;
use vd_forest::Cursor;
use vd_value_rules::IndicatedForm;
use vd_value_rules::array_facts::index;
use vd_value_rules::part_facts::element;
use vd_value_rules::subtypes::head;

/// Arrays of arrays: those of each level but the innermost, the outermost level first, and the values of the innermost.
#[derive(Drop)]
struct Levels {
    outer: Vec<Vec<Value>>,
    inner: Vec<Value>,
}

/// Each value made one of a subtype.
fn all_fitted(
    alloc: Global,
    subtype: &Cursor<'_, IndicatedForm>,
    values: &[Value],
) -> Result<Option<Vec<Value>>, AllocError>
    ensures { IfOk result (λ made. IsListFound made (all_whole (indicated_in subtype.now).subtype values.now)) }
{
    let head = head(subtype)?;
    let mut made: Vec<Value> = Vec::new(alloc);
    for value in values {
        match found(vd_subtypes::fit(alloc, head, value))? {
            Some(fitted) => made.push(fitted)?,
            None => return Ok(None),
        }
    }
    Ok(Some(made))
}

/// The levels of a value that was made one of a subtype already, each converted.
fn opened(
    alloc: Global,
    subtype: &Cursor<'_, IndicatedForm>,
    whole: Value,
) -> Result<Option<Levels>, AllocError>
    ensures { IfOk result (λ levels. IsOpened levels (inside_converted (indicated_in subtype.now).subtype whole)) }
{
    let mut outer: Vec<Vec<Value>> = Vec::new(alloc);
    let mut inner: Vec<Value> = Vec::new(alloc);
    inner.push(whole)?;
    let mut of = subtype.fork();
    while index(&of).is_some() {
        of = element(&of);
        let elements = all_elements(alloc, &inner)?;
        let Some(converted) = all_fitted(alloc, &of, &elements)? else {
            return Ok(None);
        };
        outer.push(inner)?;
        inner = converted;
    }
    Ok(Some(Levels { outer, inner }))
}

/// The value of a conversion. For each level of arrays it takes as many steps as there are scalars, times the logarithm of the length of arrays.
pub fn convert(
    alloc: Global,
    subtype: &Cursor<'_, IndicatedForm>,
    value: &Value,
) -> Result<Option<Value>, AllocError>
    ensures { IfOk result (λ found. IsFound found (converted (indicated_in subtype.now).subtype value.now)) }
{
    let Some(whole) = fit_whole(alloc, subtype, value)? else {
        return Ok(None);
    };
    let Some(levels) = opened(alloc, subtype, whole)? else {
        return Ok(None);
    };
    let Levels { outer, inner } = levels;
    let mut values = closed(alloc, outer, inner)?;
    match values.pop() {
        Some(value) => Ok(Some(value)),
        None => Err(AllocError),
    }
}
