//! What stands between tokens, and that a layout is read back.
#![tactic(auto)]

mod laws;
mod spacing;

pub use laws::layouts_read_back;
pub use spacing::is_spaced;
