//! What std answers, with a count of its faults.
ghost use Rattle.std.specs.Prelude.{◌≤◌};
ghost use Rattle.outside_io.specs.Adapters.{PassesOn};
ghost use Rattle.outside_io.specs.Causes.{CountsFaults};

use crate::Failed;
use std::io;

// What a reader or writer of std answered, where at least so many bytes came or went. All else is a fault, and is counted.
pub(crate) fn counted(
    faults: &mut u64,
    least: usize,
    answer: io::Result<usize>,
) -> Result<usize, Failed>
    ensures value { PassesOn least answer result }
    ensures later { faults.old ≤ faults.new }
    ensures count { CountsFaults faults.old faults.new result }
{
    match answer {
        Ok(count) if count >= least => Ok(count),
        _ => {
            *faults = faults.saturating_add(1);
            Err(Failed)
        }
    }
}
