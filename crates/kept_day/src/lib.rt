//! A live day that keeps what it reads: told again where it was broken off, and never before what it follows from is kept.
#![tactic(auto)]

mod command;
mod lines;
mod top;

pub use command::{Command, bytes_of_word, command_of};
pub use lines::{put_busy, put_foreign, put_kept, put_short, put_usage};
pub use top::keep;
