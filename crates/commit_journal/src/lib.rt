//! The journal of a day: its lines in the order in which they were made, with their moves, and their texts.
#![tactic(auto)]

pub mod fields;
mod journal;
mod line;
mod move_list;
mod reading;
mod text;

pub use journal::Journal;
pub use line::{Code, Head, Kind, Move, Want};
pub use move_list::{MAX_MOVES, MoveList};
pub use reading::{JournalFault, one_line_each, read_line};
pub use text::{put_journal, put_line};
