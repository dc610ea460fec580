//! What the parties are told of a line of the journal: the status messages, and their texts, written and read.
#![tactic(auto)]

mod banks;
mod laws;
mod noted;
mod reading;
mod revocations;
mod status;
mod text;
mod told;
mod walk;
mod whole;

pub use laws::{entries_of_d_are_told, stop_changes_no_walk};
pub use reading::{counted_status_fits, most_told, one_status_each, read_status};
pub use status::{Status, TurnCode};
pub use text::put_status;
pub use told::account_name;
pub use walk::StatusWalk;
pub use whole::put_statuses;
