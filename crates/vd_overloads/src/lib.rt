//! What a name can come to at its end, whatever is wanted of it: so a name need not be read for each type there is. (IEEE 1076, names; overload resolution)
//!
//! Overload resolution: the one interpretation of an expression, or why it has none or several.
#![tactic(auto)]

pub mod around;
pub mod ends;
pub mod env;
pub mod goal_laws;
pub mod laws;
pub mod possible;
pub mod resolving;
pub mod setting;
mod unknown;
pub mod wanted;

pub use ends::ends_of_name;
pub use env::Env;
pub use goal_laws::{goals_are_met_at_ends, steps_keep_goals};
pub use laws::{interpretations_are_typed, interpretations_compared};
pub use possible::possible_states;
pub use resolving::resolve_expr;
pub use setting::Setting;
pub use wanted::Wanted;
