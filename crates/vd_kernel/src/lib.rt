//! The simulation kernel: what drivers, signals, cycles and traces are, whatever language a design was written in, and the law
//! that designs which correspond have the same run.
#![tactic(auto)]

pub mod assignments;
mod beginnings;
pub mod composition;
pub mod correspondence;
pub mod driver_list;
pub mod drivers;
pub mod examples;
pub mod histories;
pub mod ids;
pub mod laws;
mod orders;
mod projections;
pub mod renumbering;
pub mod scalars;
pub mod shape;
mod values;
mod walks;

pub use assignments::{Assignment, Delay, Source, Transaction};
pub use composition::{Composition, Rejoining, same_run_rejoined, same_run_through};
pub use correspondence::{Correspondence, same_run, same_run_at_inputs, same_steps};
pub use driver_list::DriverList;
pub use drivers::Drivers;
pub use examples::{Itself, worked_correspondence, worked_drivers, worked_traces};
pub use histories::History;
pub use ids::{DriverId, SignalId};
pub use laws::{
    assignments_follow_the_standard, same_values_are_equal, values_solve_their_equations,
};
pub use renumbering::{Renumbering, renumbered_has_same_shape, same_run_renumbered};
pub use scalars::same_value;
pub use shape::{DriverShape, DriverShapes, ScalarShape, ScalarShapes, Shape, Sources};
