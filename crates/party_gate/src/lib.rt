//! The gates of parties: what a party is told of a live day.
#![tactic(auto)]

mod filter;
mod line_keeper;
mod line_port;
mod party;
mod passing;
mod top;

pub use line_port::LinePort;
pub use top::gate;
