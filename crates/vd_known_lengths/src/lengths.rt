//! Lengths of operators, by those of their operands.

ghost use Rattle.std.specs.Prelude.{◌≡◌, IfOk};
ghost use Rattle.vd_meaning.specs.Operators.{operand_kind};
ghost use Rattle.vd_value_rules.specs.Lengths.{Shaped, joined_length, plus_length};

use crate::operands::same_type;
use std::alloc::AllocError;
use vd_declarations::TypeId;

/// How many elements an operand of `&` gives: one of the type of the result all of its own, and an element one.
pub(crate) fn joined(
    of_result: Option<TypeId>,
    of_operand: Option<TypeId>,
    length: Option<u128>,
) -> Option<u128>
    ensures { (x : Shaped) → x.length ≡ length → joined_length (operand_kind of_result of_operand) x ≡ result }
{
    if same_type(of_result, of_operand) {
        length
    } else {
        Some(1)
    }
}

/// The sum of two lengths that are known.
pub fn sum(left: Option<u128>, right: Option<u128>) -> Result<Option<u128>, AllocError>
    ensures { IfOk result (λ n. plus_length left right ≡ n) }
{
    let (Some(left), Some(right)) = (left, right) else {
        return Ok(None);
    };
    // no text is so long
    let Some(sum) = left.checked_add(right) else {
        return Err(AllocError);
    };
    Ok(Some(sum))
}
