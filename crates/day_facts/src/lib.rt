//! What a journal tells, kept line by line: an index that answers each question at once.
#![tactic(auto)]

mod aims;
mod booked;
mod cycles;
mod facts;
mod flag_tables;
mod flags;
mod growing;
mod left;
mod noting;
mod objectors;
mod openings;
mod own;
mod places;
mod revoked;
mod stages;
mod told;
mod watched;

pub use aims::batch_named;
pub use facts::DayFacts;
pub use growing::facts_grow_with_their_day;
pub use noting::note_at;
pub use told::takes_well;
