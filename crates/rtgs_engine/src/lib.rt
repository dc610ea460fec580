//! The settlement of one business day: from the bytes of its file to the bytes of its output.
#![tactic(auto)]

mod follow;
mod laws;
mod output;
mod run;
mod top;
mod trials;
mod words;
mod working;

pub use laws::{one_journal_each, views_of_outputs};
pub use top::{rtgs, rtgs_alone};
pub use words::{Command, Trial, command_of, worker_count};
