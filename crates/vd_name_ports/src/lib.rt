//! Port maps of entity instances: what stands in front of `=>`, conversions of ports, and the element of each port. (IEEE 1076, component
//! instantiation statements; port map aspects; association lists)
#![tactic(auto)]

pub mod actuals;
pub mod associations;
pub mod conversions;
pub mod elements;
pub mod fronts;
pub mod instance;
pub mod maps;

pub use conversions::{among_ports, converted};
pub use elements::Mapped;
pub use fronts::{Front, front_of};
pub use instance::Instance;
pub use maps::port_map;
