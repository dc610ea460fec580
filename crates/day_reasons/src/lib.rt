//! Why: of each message of a day how far it has come by a journal, of each item that waits why it does, and of a journal that goes wrong
//! why the machine makes no such line.
#![tactic(auto)]

mod desk;
mod laws;
mod telling;
mod texts;
mod top;
mod waiting;
mod words;
mod work;
mod wrong;

pub use laws::{pending_items_wait, reasons_while_unmade};
pub use top::reasons;
pub use words::{Request, request_of};
