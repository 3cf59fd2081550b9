//! Files of texts with the answer in front of each, and answers as they are written there.
#![tactic(auto)]

pub mod answers;
pub mod texts;

pub use answers::{Answer, LONGEST};
pub use texts::{Text, texts_of};
