//! The whole conversion of the first language.
#![tactic(auto)]

pub mod conversion;

pub use conversion::{Converted, convert, one_conversion};
pub use vd_first_accept::ConvertEnd;
