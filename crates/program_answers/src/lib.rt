//! What the answers of the programs have in common: their texts, and how they are given.
#![tactic(auto)]

mod command_words;
mod day_input;
mod giving;
mod limits;
mod live_serving;
mod numbers;
mod output;
mod serving;

pub use command_words::words_of;
pub use day_input::{Rest, read_input};
pub use giving::{hand_over, refuse, refuse_size, status_after};
pub use limits::{MAX_INPUT, MAX_LONG_INPUT};
pub use live_serving::{Listener, listen};
pub use numbers::{are_digits, number_of, value_of};
pub use output::{code_text, put_illegal, put_ok};
pub use serving::{Answering, serve, take_request};
