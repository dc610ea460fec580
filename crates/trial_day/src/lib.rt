//! The day of a trial, which is made of a seed, and its summary, which is the same for every schedule.
#![tactic(auto)]

mod day;
mod draws;
mod entries;
mod laws;
mod names;
mod setup;
mod summary;

pub use day::{MAX_BATCHES, SEEDS, generate};
pub use laws::summary_is_every_journals;
pub use summary::put_summary;
