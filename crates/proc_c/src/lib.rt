//! Procedure C: each entry of a batch is booked for itself, while the cycle is open in which the batch was taken.
#![tactic(auto)]

mod acceptance;
mod answers;
mod booking;
mod ending;
mod unfinished_wants;

pub use acceptance::{intake, open_cycle_of};
pub use answers::answer;
pub use unfinished_wants::unfinished;
