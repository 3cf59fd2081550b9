//! Ports with mode views as ports with modes. (IEEE 1076-2019, mode views; interface declarations)
//!
//! A port with a view becomes one port for each element of its view that has a mode, in the order of the record's elements, those of views inside views
//! in their places. What named an element names its port, and a map of such a port has an element for each of them. No view is left.
#![tactic(auto)]

mod declared;
mod leaves;
mod maps;
mod names;
mod ports;
pub mod splitting;
mod trees;
mod views;

pub use splitting::split;
