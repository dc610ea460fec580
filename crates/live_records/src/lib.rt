//! Which records of a live day count: its whole records, what becomes of each, and the day that they make.
#![tactic(auto)]

mod ear;
mod kinds;
mod laws;
mod opened;
mod setup;

pub use ear::{Ear, Outcome};
pub use laws::{
    accepted_days_are_sound, calls_are_of_the_day, day_parts_end_as_seen, each_record_is_told_once,
    fronts_stay, records_are_heard_as_they_come,
};
pub use opened::OpenBatch;
pub use setup::Setup;
