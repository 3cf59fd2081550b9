//! The operators and choices of revision 2019 in the text of 1993: which function of the support package, or which other operators, stand for each
//! operator; matching statements as matches of a variable; and statements with choices over arrays that have no name as revision 1993 has them.
#![tactic(auto)]

mod branches;
pub mod choices;
mod choosing;
mod flavours;
mod literals;
pub mod lowering;
pub mod operations;
pub mod packages;
pub mod support;
mod tests;
pub mod text;
mod trees;
mod variables;
pub mod writings;

pub use choices::lower_choices;
pub use lowering::{lower_matches, with_package};
pub use operations::{Operations, lower_operations};
pub use packages::{Shift, is_called, put_behind, put_in_front};
pub use support::{Function, Support};
pub use text::support_text;
