//! The items of a day that are due, kept line by line, so that the next one is found at once.
#![tactic(auto)]

mod chain;
mod flags;
mod index;
mod items;
pub mod laws;
mod noting;
mod renewing;
mod row;
mod wants;

pub use items::DueItems;
pub use wants::want_of;
