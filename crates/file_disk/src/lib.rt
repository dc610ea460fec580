//! A file as a disk.
#![tactic(auto)]

mod file;
mod opening;
mod record;

pub use file::FileDisk;
pub use opening::{OpenFault, open_alone, open_disk, open_to_read};
