//! A set of numbers below a bound, whose room is taken once.
#![tactic(auto)]

mod set;
mod tier;
mod word;

pub use set::NumberSet;
