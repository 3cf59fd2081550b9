//! Declarations: what a name of a design can mean.
#![tactic(auto)]

pub mod classes;
pub mod declarations;
pub mod ids;

pub use classes::{Class, Made};
pub use declarations::{Declaration, Declarations};
pub use ids::{DeclId, RegionId, TypeId};
