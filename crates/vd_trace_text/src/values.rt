//! The texts of values, and the lines of signals.

ghost use Rattle.std.specs.Prelude.{◌≡◌, ◌++◌, [], OnOk, drop, if◌then◌else◌};
ghost use Rattle.vd_trees.specs.ValueTexts.{value_text, same_scalar};
ghost use Rattle.vd_trees.specs.TraceText.{value_line, value_lines, is_new};
ghost use Rattle.vd_trace_text.specs.Types.{types_behind};

use crate::paths::add_path;
use crate::types::{Kind, TypeText};
use std::alloc::AllocError;
use vd_trees::Path;
use vd_values::Scalar;

/// The signals whose values are new. There are no earlier values in the initialisation.
pub(crate) fn add_values(
    text: &mut Vec<u8>,
    paths: &[Path],
    types: &[&TypeText],
    earlier: &[Scalar],
    values: &[Scalar],
) -> Result<(), AllocError>
    ensures { OnOk result (text.new.items ≡ text.old.items ++ value_lines paths.now (types_behind types.now) earlier.now values.now) }
{
    for (index, value) in values.iter().enumerate() {
        let (Some(path), Some(type_text)) = (paths.get(index), types.get(index)) else {
            return Ok(());
        };
        let is_new = is_new(earlier, index, *value);
        add_if_new(text, is_new, path, type_text, *value)?;
    }
    Ok(())
}

// Whether the value isn't the earlier one at this place, if there is one.
fn is_new(earlier: &[Scalar], index: usize, value: Scalar) -> bool
    ensures { result ≡ is_new (drop index earlier.now) value }
{
    match earlier.get(index) {
        None => true,
        Some(old) => !is_same(*old, value),
    }
}

fn is_same(left: Scalar, right: Scalar) -> bool
    ensures { result ≡ same_scalar left right }
{
    left == right
}

fn add_if_new(
    text: &mut Vec<u8>,
    is_new: bool,
    path: &Path,
    type_text: &TypeText,
    value: Scalar,
) -> Result<(), AllocError>
    ensures { OnOk result (text.new.items ≡ text.old.items ++ (if is_new then value_line path.now type_text.now value else [])) }
{
    if is_new {
        add_value_line(text, path, type_text, value)?;
    }
    Ok(())
}

// `PATH = VALUE`
fn add_value_line(
    text: &mut Vec<u8>,
    path: &Path,
    type_text: &TypeText,
    value: Scalar,
) -> Result<(), AllocError>
    ensures { OnOk result (text.new.items ≡ text.old.items ++ value_line path.now type_text.now value) }
{
    add_path(text, path)?;
    text.extend_from_slice(b" = ")?;
    add_value(text, type_text, value)?;
    text.push(b'\n')?;
    Ok(())
}

fn add_value(text: &mut Vec<u8>, type_text: &TypeText, value: Scalar) -> Result<(), AllocError>
    ensures { OnOk result (text.new.items ≡ text.old.items ++ value_text type_text.now value) }
{
    let alloc = *text.allocator();
    match (&type_text.kind, value) {
        (Kind::Integers, Scalar::Integer(number)) => {
            let number = format!(in alloc; "{number}")?;
            text.extend_from_slice(number.as_bytes())
        }
        (Kind::Times, Scalar::Time(number)) => {
            let time = format!(in alloc; "{number} fs")?;
            text.extend_from_slice(time.as_bytes())
        }
        (Kind::Enumeration(literals), Scalar::Literal(position)) => {
            match literals.get(position as usize) {
                None => Ok(()),
                Some(literal) => text.extend_from_slice(literal.as_slice()),
            }
        }
        _ => Ok(()),
    }
}
