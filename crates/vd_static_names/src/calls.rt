//! Calls. (IEEE 1076, function calls; static expressions.)

ghost use Rattle.std.specs.Prelude.{◌≡◌, ℕ, List, Option, true};
ghost use Rattle.vd_environments.specs.Environments.{Argument, Env, Signals, Static};
ghost use Rattle.vd_environments.specs.Got.{Got};
ghost use Rattle.vd_forest.specs.Forest.{Forest};
ghost use Rattle.vd_value_rules.specs.Indicated.{static_of};
ghost use Rattle.vd_value_rules.specs.declared.forms.IndicatedForm.{IndicatedForm as Form};
ghost use Rattle.vd_meaning.specs.Names.{call, call_known, calls_known as known_of_calls};
ghost use Rattle.vd_meaning.specs.Operators.{function_of};
ghost use Rattle.vd_meaning.specs.Tables.{Table};
ghost use Rattle.vd_static_values.specs.Entries.{IsFound, IsGround, table_of};
ghost use Rattle.vd_static_values.specs.Names.{IsName};
ghost use Rattle.vd_static_names.specs.Known.{IsWithin};

use crate::grounds::known_of;
use crate::operators::is_local_operator;
use crate::values::fresh;
use vd_composites::Value;
use vd_operations::is_predefined;
use vd_static_values::{Ground, KnownName};
use vd_value_rules::StaticSort;

/// How static the calls of a function can be.
pub fn calls_known(ground: &Ground<'_>, number: u32) -> StaticSort
    ensures { (e : Env) → IsGround ground.now e → static_of result ≡ known_of_calls (table_of ground.now) number e }
{
    if is_local_operator(ground.declarations, number) {
        StaticSort::always()
    } else if is_predefined(ground.revision, ground.declarations, number) {
        StaticSort::always().only_global()
    } else {
        known_of(ground, number)
    }
}

/// What a call gives, by how static its arguments and the calls of its function are.
pub fn called(value: Option<Value>, known: StaticSort, calls: StaticSort) -> KnownName
    ensures within { (subtypes : List (Forest Form)) → IsWithin subtypes result }
    ensures named { (subtypes : List (Forest Form)) (e : Env) (t : Table) (n : ℕ) (arguments : Env → List Argument) (m : Option ℕ) (kn : Env → Static) (inner : Env → Got (List Signals)) →
        static_of known ≡ kn e → static_of calls ≡ known_of_calls t n e
        → ((call_known t n (kn e) e).is_local ≡ true → IsFound value (function_of t n e (arguments e)))
        → IsName subtypes e result (call t n arguments m kn inner) }
{
    fresh(value, calls.both(known))
}
