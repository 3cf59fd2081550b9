//! Places, refusals and limits, the channels and the files that a call reads and writes.
#![tactic(auto)]

pub mod answers;
pub mod begun;
mod calls;
pub mod channels;
mod folder;
pub mod memory_tray;
mod outs;
pub mod places;
pub mod reading;
pub mod sure_tray;
pub mod texts;
pub mod tray;
pub mod writing;

pub use answers::{Limit, PassEnd, Refusal, Refused};
pub use begun::BegunChannels;
pub use channels::{Channel, Failed, WriteFault};
pub use memory_tray::MemoryTray;
pub use places::Place;
pub use reading::{ReadEnd, read_all};
pub use sure_tray::SureTray;
pub use texts::{Bytes, Text};
pub use tray::Tray;
pub use writing::write_all;
