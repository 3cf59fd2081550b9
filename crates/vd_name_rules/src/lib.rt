//! The rules on how names of ports, signals and variables are used: where they are read, assigned or associated, and the views of ports.
//!
//! Signal assignments that do nothing whatever their conditions are, which one walk over a design finds.
//!
//! The ordering operators of matching on STD_ULOGIC, which no design may use: the first use of one in a design.
#![tactic(auto)]

pub mod coming;
mod elements;
mod instances;
mod judging;
mod looking;
pub mod names;
mod operators;
mod refusals;
pub mod rows;
pub mod views;

pub use judging::operator_refusals;
pub use names::name_refusals;
pub use refusals::assignment_refusals;
pub use views::view_port_refusals;
