//! The legal journal that a text is of, and the programs that tell something of one.
#![tactic(auto)]

mod reading;
mod telling;

pub use reading::read_journal;
pub use telling::{OverJournal, Telling};
