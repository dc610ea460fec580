//! A list of amounts that finds the first one that is small enough, in a time that grows with the logarithm of its length.
#![tactic(auto)]

mod mending;
mod node;
mod search;
mod tree;

pub use tree::LeastTree;
