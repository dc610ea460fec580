//! Requests for the memory of the words of a command line.
use crate::Memory;
use crate::memory::refused;
use std::env;
use std::env::Args;
use std::io::ErrorKind;

/// The words of the command line of this process, the name of the program first; `None` where one is no text.
pub fn words(rt: &HostRuntime) -> Result<Option<Args>, Memory> {
    match env::args(rt) {
        Ok(args) => Ok(Some(args)),
        Err(e) if e.kind() == ErrorKind::OutOfMemory => Err(refused()),
        Err(_) => Ok(None),
    }
}
