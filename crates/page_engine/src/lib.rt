//! The program of a day to look at: from the words and the streams to the page and the status.
#![tactic(auto)]

mod top;

pub use top::page;
