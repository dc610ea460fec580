//! A bank's liquidity by a journal: what was settled, what is queued, and where the bank would stand if all of it were booked.
#![tactic(auto)]

mod counted;
mod laws;
mod past;
mod queue_sums;
mod report;
mod shares;
mod sides;
mod top;
mod view;
mod words;

pub use laws::others_have_no_figures;
pub use sides::Side;
pub use top::liquidity;
pub use view::{Figures, LiquidityView};
pub use words::{Request, request_of};
