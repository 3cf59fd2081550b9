//! What pieces of names take from the parts of their nodes.

ghost use Rattle.std.specs.Prelude.{◌≡◌, All, IfOk, List, true};
ghost use Rattle.vd_environments.specs.Environments.{Env};
ghost use Rattle.vd_forest.specs.Forest.{Forest};
ghost use Rattle.vd_value_rules.specs.declared.forms.IndicatedForm.{IndicatedForm};
ghost use Rattle.vd_meaning.specs.Facets.{Meaning, nth, value_of};
ghost use Rattle.vd_static_values.specs.Entries.{IsFound};
ghost use Rattle.vd_static_values.specs.Names.{IsName};
ghost use Rattle.vd_static_values.specs.Nodes.{AreNodes};
ghost use Rattle.vd_static_names.specs.Known.{IsWithin};
ghost use Rattle.vd_static_parts.specs.Made.{IsSound};

use std::alloc::{AllocError, Global};
use vd_composites::Value;
use vd_static_names::copies::{again, value_again};
use vd_static_names::values::no_name;
use vd_static_values::{KnownName, Node};

/// The value of the first part, which counts only where it is locally static.
pub(crate) fn first_value(alloc: Global, parts: &[Node<'_>]) -> Result<Option<Value>, AllocError>
    ensures { (subtypes : List (Forest IndicatedForm)) (e : Env) (ms : List Meaning) → AreNodes subtypes e parts.now ms → ((nth 0 ms).known e).is_local ≡ true
        → IfOk result (λ v. IsFound v (value_of (nth 0 ms) e)) }
{
    match parts.first() {
        Some(first) => value_again(alloc, &first.sense.value),
        None => Ok(None),
    }
}

/// The name of the first part.
pub(crate) fn first_name(alloc: Global, parts: &[Node<'_>]) -> Result<KnownName, AllocError>
    ensures within { (subtypes : List (Forest IndicatedForm)) → All (IsSound subtypes) parts.now → IfOk result (IsWithin subtypes) }
    ensures named { (subtypes : List (Forest IndicatedForm)) (e : Env) (ms : List Meaning) → AreNodes subtypes e parts.now ms
        → IfOk result (λ x. IsName subtypes e x (nth 0 ms).name) }
{
    match parts.first() {
        Some(first) => again(alloc, &first.sense.name),
        None => Ok(no_name()),
    }
}
