//! Tests of the crates that keep a live day on a file.
#![tactic(auto)]

#[cfg(test)]
mod file_disk_tests;
#[cfg(test)]
mod frame_log_tests;
