//! How many checks passed, and what is printed of them.
use std::io;

/// How many passed, and how many failed.
#[derive(Clone, Copy, Debug, PartialEq, Eq)]
pub struct Tally {
    pub passed: u32,
    pub failed: u32,
}

impl Tally {
    /// Nothing was tried.
    pub const NONE: Tally = Tally {
        passed: 0,
        failed: 0,
    };

    /// Counts a check, and prints which one it was and what it shows where it failed.
    pub fn count(
        &mut self,
        rt: &impl Print,
        passed: bool,
        name: &str,
        about: &str,
    ) -> io::Result<()> {
        if passed {
            self.passed = self.passed.saturating_add(1);
            return Ok(());
        }
        self.failed = self.failed.saturating_add(1);
        let number = self.passed.saturating_add(self.failed);
        println!(rt; "{name}: {number} FAILED: {about}")
    }

    /// Both together.
    pub fn and(self, other: Tally) -> Tally {
        Tally {
            passed: self.passed.saturating_add(other.passed),
            failed: self.failed.saturating_add(other.failed),
        }
    }

    /// Prints the numbers after a name.
    pub fn say(self, rt: &impl Print, name: &str) -> io::Result<()> {
        println!(rt; "{name}: {} passed, {} failed", self.passed, self.failed)
    }
}
