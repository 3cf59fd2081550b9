//! The passes from a 2019 tree to the 1993 tree that is written: `process (all)` gets its list, and units, ports and
//! processes get their written form.
#![tactic(auto)]

mod flavour;
mod lowering;
pub mod names;

pub use flavour::lower;
pub use names::NameSet;
