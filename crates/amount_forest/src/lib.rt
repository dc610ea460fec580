//! Many lists of amounts that grow, each of which finds the first amount that is small enough.
#![tactic(auto)]

mod forest;
mod growing;
mod mending;
mod node;
mod search;

pub use forest::AmountForest;
