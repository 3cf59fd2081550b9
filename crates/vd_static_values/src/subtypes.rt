//! Array subtypes as trees.

ghost use Rattle.std.specs.Prelude.{◌≡◌, IfOk};
ghost use Rattle.vd_value_rules.specs.Indicated.{indicated_in};
ghost use Rattle.vd_plain_values.specs.Plain.{array_in};

use std::alloc::AllocError;
use vd_forest::Cursor;
use vd_plain_values::environment::ArrayHead;
use vd_value_rules::IndicatedForm;
use vd_value_rules::subtypes::head;

/// The array subtype that a subtype is.
pub(crate) fn array_head(
    subtype: &Cursor<'_, IndicatedForm>,
) -> Result<Option<ArrayHead>, AllocError>
    ensures { IfOk result (λ array. array_in (indicated_in subtype.now).subtype ≡ array) }
{
    let Some(first) = subtype.open() else {
        return Ok(None);
    };
    match first.form {
        IndicatedForm::Unbounded { index, .. } => {
            let element = head(&first.parts)?;
            Ok(Some(ArrayHead {
                index,
                bounds: None,
                element,
            }))
        }
        IndicatedForm::Bounded { index, bounds, .. } => {
            let element = head(&first.parts)?;
            Ok(Some(ArrayHead {
                index,
                bounds: Some(bounds),
                element,
            }))
        }
        _ => Ok(None),
    }
}
