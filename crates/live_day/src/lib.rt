//! A live day: a day whose records come one after the other, and whose lines are told as soon as they can be made.
#![tactic(auto)]

mod beginning;
mod catching_up;
mod comparing;
mod endings;
mod hearer;
mod hearing;
mod kept_input;
mod laws;
mod listening;
mod live_floor;
mod making;
mod reading;
mod refusals;
mod resuming;
mod rooms;
mod stage;
mod telling;
mod top;
mod work;

pub use laws::{answers_go_on_as_told, calls_are_events, longer_days_are_told_the_same};
pub use top::live;
