//! The names of messages, which are a sender and an identification, and names by themselves, one by one, each with the first that
//! was equal to it.
#![tactic(auto)]

mod first_names;
mod names;
mod packing;

pub use first_names::FirstNames;
pub use names::MessageNames;
