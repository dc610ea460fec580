//! The guarantee fund of a system: when it is asked for a batch of procedure A or B, what it pays, and how a batch ends that
//! it doesn't pay for.
#![tactic(auto)]

mod answers;
mod asking;
mod covering;
mod needs;
mod payments;
mod refusing;
mod states;

pub use answers::answer;
pub use asking::ask_due;
pub use covering::{cover_a, cover_b, may_cover};
pub use needs::{missing_a, shortfall_b};
pub use refusing::{may_refuse, refuse_due};
pub use rule_book::reasons::may_ask;
