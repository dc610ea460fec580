//! Procedure E: a bilateral batch. Each entry moves money from a dedicated cash account to another one, by itself. In the
//! information period a bank may object to the entries of which it is a party, which are then never booked.
#![tactic(auto)]

mod acceptance;
mod answers;
mod booking;
mod ending;
mod unfinished_wants;

pub use acceptance::intake;
pub use answers::answer;
pub use unfinished_wants::unfinished;
