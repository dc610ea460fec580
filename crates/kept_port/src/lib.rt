//! A port that keeps what it reads in a log before it hands it on.
#![tactic(auto)]

mod keeper;
mod log;
mod port;
mod story;

pub use keeper::{Halt, Keeper};
pub use log::Log;
pub use port::KeptPort;
pub use story::Story;
