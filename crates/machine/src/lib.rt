//! The definitions of the machine, by which a day is settled line by line, and the types that its answers are made of.
#![tactic(auto)]

mod answers;

pub use answers::{Item, Phase, Why};
