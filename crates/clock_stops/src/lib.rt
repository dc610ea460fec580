//! The times of a day at which the clock may stop, kept line by line, so that the next one is found at once.
#![tactic(auto)]

mod laws;
mod stops;

pub use laws::message_stops_nothing;
pub use stops::ClockStops;
