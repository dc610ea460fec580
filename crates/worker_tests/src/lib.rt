//! The tests of the crates of workers: of passes, of the book with its locks, and of lanes.
#![tactic(auto)]

#[cfg(test)]
mod journal_pass_tests;
#[cfg(test)]
mod lane_workers_tests;
#[cfg(test)]
mod lock_book_tests;
