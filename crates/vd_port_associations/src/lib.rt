//! Signals as actuals of ports: whether the mode or view of the one agrees with that of the other, element by element. (IEEE 1076, port map aspects;
//! mode views)
//!
//! The associations of port maps: which port each element is for, and what stands for it. (IEEE 1076, port map aspects; association lists)
#![tactic(auto)]

pub mod actuals;
pub mod associations;
pub mod brackets;
pub mod elements;
pub mod formals;
pub mod numbers;
pub mod pairs;
pub mod signals;

pub use actuals::actual_sort;
pub use associations::port_associations;
pub use signals::refused_signal;
