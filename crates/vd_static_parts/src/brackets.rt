//! Lists in brackets: one expression alone, or an aggregate. (IEEE 1076, aggregates; primaries)

ghost use Rattle.std.specs.Prelude.{◌≡◌, ◌∷◌, [], IfOk, List, Option, true, ℕ};
ghost use Rattle.vd_composites.specs.Subtypes.{Subtype};
ghost use Rattle.vd_environments.specs.Environments.{Env};
ghost use Rattle.vd_environments.specs.Got.{Got};
ghost use Rattle.vd_forest.specs.Forest.{Forest};
ghost use Rattle.vd_value_rules.specs.Indicated.{static_of};
ghost use Rattle.vd_value_rules.specs.declared.forms.IndicatedForm.{IndicatedForm};
ghost use Rattle.vd_meaning.specs.Brackets.{bracketed_known as known_of_brackets, bracketed_value as value_of_brackets};
ghost use Rattle.vd_meaning.specs.Facets.{Meaning};
ghost use Rattle.vd_static_values.specs.Entries.{IsFound};
ghost use Rattle.vd_static_values.specs.Nodes.{AreNodes, IsNode};

use crate::parts::known_of;
use std::alloc::{AllocError, Global};
use vd_composites::Value;
use vd_static_names::copies::value_again;
use vd_static_values::{Association, Node};
use vd_value_rules::StaticSort;

/// How static a list in brackets with one part is.
fn alone_known(only: &Node<'_>) -> StaticSort
    ensures { (subtypes : List (Forest IndicatedForm)) (e : Env) (m : Meaning) → IsNode subtypes e only.now m → static_of result ≡ known_of_brackets (m ∷ []) e }
{
    match only.sense.association {
        Association::Positional => only.sense.known,
        _ => only.sense.known.only_global(),
    }
}

/// How static a list in brackets is: an aggregate is never locally static.
pub fn bracketed_known(parts: &[Node<'_>]) -> StaticSort
    ensures { (subtypes : List (Forest IndicatedForm)) (e : Env) (ms : List Meaning) → AreNodes subtypes e parts.now ms → static_of result ≡ known_of_brackets ms e }
{
    if parts.len() == 1 {
        alone_known(&parts[0])
    } else {
        known_of(parts).only_global()
    }
}

/// The value of a list in brackets.
pub fn bracketed_value(alloc: Global, parts: &[Node<'_>]) -> Result<Option<Value>, AllocError>
    ensures { (subtypes : List (Forest IndicatedForm)) (e : Env) (ms : List Meaning) (mark : Option ℕ) (given : Got Subtype) → AreNodes subtypes e parts.now ms
        → (known_of_brackets ms e).is_local ≡ true → IfOk result (λ v. IsFound v (value_of_brackets mark ms given e)) }
{
    if parts.len() == 1 {
        value_again(alloc, &parts[0].sense.value)
    } else {
        Ok(None)
    }
}
