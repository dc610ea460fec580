//! Workers that settle a day on a hall: each takes the messages of its lane, round by round.
#![tactic(auto)]

mod lanes;
mod rounds;
mod senders;
mod workers;

pub use lanes::Lanes;
pub use rounds::settle;
