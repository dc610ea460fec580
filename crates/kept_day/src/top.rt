//! A live day over a port that keeps.
ghost use Rattle.std.specs.Prelude.{◌≡◌, ◌∷◌, [], IfOk, codes};
ghost use Rattle.kept_day.specs.Promises.{IsFresh, KeptPromises, kept_run};
ghost use Rattle.kept_day.specs.Statuses.{status_of};

use cash_amounts::{Memory, Words};
use kept_port::{Halt, KeptPort, Log};
use live_day::live;
use outside_io::Port;
use std::alloc::Global;

// The words for a day from its beginning.
fn run_words(alloc: Global) -> Result<Words, Memory>
    ensures { IfOk result (λ words. words ≡ codes "run" ∷ []) }
{
    let mut words = Words::new(alloc);
    words.push("run")?;
    Ok(words)
}

// The status of a day that is kept, by that of the day, why nothing more was handed on, and how much of what was written before
// didn't come.
fn status_of(status: u8, halt: Option<Halt>, left: u64) -> u8
    ensures { result ≡ status_of status halt left }
{
    if status == 1 || status == 5 {
        return status;
    }
    if left > 0 {
        return 6;
    }
    if status != 4 {
        return status;
    }
    match halt {
        Some(Halt::Ended) => 3,
        Some(Halt::NotKept) => 8,
        Some(Halt::Short) => 6,
        Some(Halt::ReadFailed) => 4,
        None => 4,
    }
}

/// Settles a live day that is kept, and answers its status. What the log has at first is heard first, and of what is told the first bytes,
/// which were written before, are not written again.
///
/// - 0: `END` came, and the day was told to its end;
/// - 1: memory was wanting; nothing was read or written;
/// - 3: a bad record came before the day began, and that was told last; or the input ended without `END`, and the day may go on;
/// - 4: a read failed; what the bytes before it call for was written;
/// - 5: a write failed, and nothing was written after it: a front of what was due was written;
/// - 6: what is kept calls for less than was written before;
/// - 7: the input is too long; that was told last;
/// - 8: what came could not be kept; it was not heard, and nothing more was told.
pub fn keep<P: Port, L: Log>(alloc: Global, port: &mut KeptPort<P, L>) -> u8
    requires { IsFresh port.old }
    ensures { KeptPromises P.state port.old port.new result }
{
    let words = match run_words(alloc) {
        Ok(words) => words,
        Err(_) => return 1,
    };
    let status = live(alloc, &words, port);
    status_of(status, port.halt(), port.left_to_skip())
}
