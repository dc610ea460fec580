//! A day that survives a crash: each line of its journal is on a disk before it is acknowledged.
#![tactic(auto)]

// `inline(never)` keeps what is large in a frame of its own, so that what one call takes of the stack is there for the next one too:
// 128 KiB are to be enough for the program.
mod appending;
mod laws;
mod new_store;
mod onward;
mod open_fault;
mod output;
mod reading;
mod recovery;
mod room;
mod running;
mod sizes;
mod step;
mod store;
mod top;
mod words;

pub use laws::{crashes_are_survived, days_go_on, one_journal_each};
pub use new_store::{DiskFault, format};
pub use open_fault::OpenFault;
pub use step::StoreStep;
pub use store::Store;
pub use top::durable;
pub use words::{Request, request_of};
