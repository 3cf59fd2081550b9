//! Names in the text that is written, and the map from the names of the source to them.
//!
//! The name that each declaration gets; the rows of the map; the map's text, and reading it.
#![tactic(auto)]

pub mod choosing;
pub mod chosen;
pub mod fresh;
mod naming;
pub mod reading;
mod row_making;
pub mod rows;
mod taken;
pub mod used;

pub use choosing::choose;
pub use chosen::Chosen;
pub use fresh::{Fresh, fresh_name};
pub use reading::{MapEnd, read_map};
pub use rows::rows_of;
pub use used::Used;
pub use vd_first_names::{NameMap, Rows, map_text};
