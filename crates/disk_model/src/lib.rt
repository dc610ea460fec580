//! Disks: what a disk is to its user, what a crash may leave on it, and a disk in memory.
#![tactic(auto)]

mod disk;
mod memory;

pub use disk::Disk;
pub use memory::MemDisk;
