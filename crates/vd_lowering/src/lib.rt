//! Statements that revision 1993 lacks as others that it has: `if` and `case` in place of conditional and selected assignments and returns, a generate for
//! each alternative, signals for the expressions of port maps, the clauses of contexts; and all passes of statements one behind the other.
#![tactic(auto)]

pub mod actuals;
pub mod assignments;
pub mod conditionals;
pub mod conditions;
pub mod contexts;
pub mod generates;
mod indications;
pub mod lowering;
pub mod operators;
pub mod selections;

pub use actuals::lower_actuals;
pub use conditionals::lower_conditionals;
pub use contexts::lower_contexts;
pub use generates::lower_generates;
pub use lowering::lower_statements;
pub use selections::lower_selections;
