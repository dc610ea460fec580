//! Procedure A: the debits of a batch are booked before its credits, over a technical account of its system, and given back
//! where the batch isn't settled in time.
#![tactic(auto)]

mod acceptance;
mod answers;
mod booking;
mod ending;
mod unfinished_wants;

pub use acceptance::intake;
pub use answers::answer;
pub use unfinished_wants::unfinished;
