//! Procedure B: the entries of a batch go over a technical account, all of them at once or none.
#![tactic(auto)]

mod acceptance;
mod answers;
mod booking;
mod ending;
mod unfinished_wants;

pub use acceptance::intake;
pub use answers::answer;
pub use unfinished_wants::unfinished;
