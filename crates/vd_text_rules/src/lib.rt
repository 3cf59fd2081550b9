//! The rules that the words of a text break alone, without what its names mean.
#![tactic(auto)]

mod closings;
mod designators;
pub mod judging;
pub mod regions;

pub use designators::is_operator;
pub use judging::{Around, first_text_refusal};
pub use regions::Region;
