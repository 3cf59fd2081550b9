//! What trees declare for the text behind them, one after the other, in memory. (IEEE 1076, declarations; design units)
#![tactic(auto)]

mod copies;
pub mod declarations;
pub mod insides;
mod instances;
pub mod kinds;
pub mod passing;
pub mod states;
pub mod units;
pub mod walking;

pub use passing::{go_inside, go_outside};
pub use units::{unit_declared, units_declared};
