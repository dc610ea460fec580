//! Procedure D: what a batch moves from the technical account to cash accounts is decided as the batch is taken, and
//! nothing waits.
#![tactic(auto)]

mod acceptance;
mod booking;

pub use acceptance::intake;
