//! The modes of the whole profile: `check`, the first broken rule of files of revision 2019, or that none is broken; and `convert`, their design as one
//! text of revision 1993, with a map of its names.
//!
//! What is about to be written is read again: by the lexis, the grammar and the rules of revision 1993. A text that doesn't pass isn't written.
#![tactic(auto)]

pub mod checking;
pub mod conversion;
pub mod converting;
pub mod lines;
mod lowering;
pub mod rereading;
mod sameness;
mod supporting;
pub mod verdicts;

pub use checking::Checking;
pub use conversion::{ConvertEnd, Converted, convert};
pub use converting::{Converting, conversion_line};
pub use lines::add_all_warnings;
pub use lowering::{Lowered, lower};
pub use rereading::{RereadEnd, reread};
pub use verdicts::refusal_due;
