//! The order of the scans as one row of items, of which only those that have a line need to be visited, and what each line leaves as it was.
#![tactic(auto)]

mod left_alone;
mod order;

pub use left_alone::{
    candidates_stay, facts_are_kept, queues_stay, readiness_is_seen, readiness_stays,
    time_meets_ends, unconcerned_is_unchanged, untouched_is_left_alone, waiting_is_seen,
};
pub use order::{
    candidates_are_kept, idle_stretches, items_are_numbered, lines_of_items, next_is_seen,
    numbers_are_sums, ready_is_seen, scans_are_flat, settles_quietly, visits_go_on,
};
