//! A text that is kept on a disk, frame by frame, and read again.
#![tactic(auto)]

mod disk_reader;
mod frames;
mod gate_log;
mod opening;
mod reader;
mod reading;
mod source_reader;

pub use disk_reader::DiskReader;
pub use gate_log::GateLog;
pub use opening::{Opened, open};
pub use reader::Reader;
pub use reading::{Kept, KeptText, read_text};
pub use source_reader::SourceReader;
