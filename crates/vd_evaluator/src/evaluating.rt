//! The value of an expression.

ghost use Rattle.std.specs.Prelude.{◌≡◌, IfOk};
ghost use Rattle.vd_environments.specs.Environments.{Env};
ghost use Rattle.vd_environments.specs.Got.{Got};
ghost use Rattle.vd_composites.specs.Subtypes.{Subtype};
ghost use Rattle.vd_meaning.specs.Facets.{nth};
ghost use Rattle.vd_meaning.specs.Meanings.{meanings};
ghost use Rattle.vd_meaning.specs.Tables.{table};
ghost use Rattle.vd_evaluator.specs.Evaluated.{Evaluates, IsFound, IsTakenSo};
ghost use Rattle.vd_evaluator.specs.Outlines.{is_taken};
ghost use Rattle.vd_plain_values.specs.Plain.{Holds};

use crate::ends::EvaluateEnd;
use crate::nodes::sense;
use crate::senses::value_in;
use crate::stacking::senses;
use std::alloc::{AllocError, Global};
use vd_composites::Value;
use vd_declarations::Declaration;
use vd_forest::Cursor;
use vd_plain_values::Entry;
use vd_resolved::Resolved;
use vd_trees::Revision;
use vd_values::StopKind;

/// What the first tree of a forest comes to, where it is an expression that is taken.
fn find(
    alloc: Global,
    revision: Revision,
    declarations: &[Declaration],
    environment: &[Entry<'_>],
    expression: &Cursor<'_, Resolved>,
) -> Result<Option<Result<Value, StopKind>>, AllocError>
    ensures { IfOk result (λ r. IsFound (table revision declarations.now) environment.now expression.now r) }
{
    let Some(first) = expression.open() else {
        return Ok(None);
    };
    let parts = senses(alloc, revision, declarations, environment, &first.parts)?;
    let made = sense(
        alloc,
        revision,
        declarations,
        environment,
        first.form,
        first.text,
        &parts,
    )?;
    value_in(alloc, &made.what)
}

/// The value of an expression, which is the first tree of a forest, where the declarations of the design stand for what the
/// environment has for them.
pub fn evaluate(
    alloc: Global,
    revision: Revision,
    declarations: &[Declaration],
    environment: &[Entry<'_>],
    expression: &Cursor<'_, Resolved>,
) -> Result<Value, EvaluateEnd>
    ensures value { (e : Env) → Holds environment.now e → (known : Got Subtype)
        → Evaluates result ((nth 0 (meanings (table revision declarations.now) expression.now)).value known e) }
    ensures taken { IsTakenSo result (is_taken (table revision declarations.now) expression.now) }
{
    match find(alloc, revision, declarations, environment, expression) {
        Ok(Some(Ok(value))) => Ok(value),
        Ok(Some(Err(kind))) => Err(EvaluateEnd::Stop(kind)),
        Ok(None) => Err(EvaluateEnd::NotTaken),
        Err(_) => Err(EvaluateEnd::Memory),
    }
}
