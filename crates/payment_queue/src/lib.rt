//! The queue of pending items: by account, which item stands before which.
#![tactic(auto)]

mod chain;
mod index;
pub mod laws;
mod link;
mod queue;
mod row;
mod rows;

pub use queue::Queue;
pub use row::{Heads, Place, Priority, Row};
