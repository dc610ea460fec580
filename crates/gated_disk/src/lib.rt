//! Pieces that count only behind an open gate, on a disk.
#![tactic(auto)]

mod appending;

pub use appending::{append, put_down};
