//! A set of numbers whose bound rises within room that is taken once.
#![tactic(auto)]

mod growing;

pub use growing::GrowingSet;
