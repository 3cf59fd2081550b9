//! What the interfaces of a design declare: its ports, its views and its instances of packages, as lists in the order of the text.
#![tactic(auto)]

pub mod elements;
pub mod entries;
pub mod instances;
pub mod modes;
pub mod ports;
mod seeking;
pub mod views;

pub use elements::Elements;
pub use entries::{ListedElement, ListedInstance, ListedPort};
pub use instances::listed_instances;
pub use modes::{Mode, PortMode};
pub use ports::listed_ports;
pub use views::{ListedView, listed_views};
