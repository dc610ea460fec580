//! The test of a floor that a live day grows.
#![tactic(auto)]

#[cfg(test)]
mod settle_floor_tests;
