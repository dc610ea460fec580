//! A day that hears what was read before a break, and goes on from there.
ghost use Rattle.std.specs.Prelude.{◌≡◌, ◌≤◌, ◌++◌, [], ℕ, List, length, IfOk, OnOk};
ghost use Rattle.outside_io.specs.Calls.{Puts};
ghost use Rattle.program_answers.specs.LivePrograms.{TellsMore};
ghost use Rattle.live_day.specs.Answers.{longest_input};
ghost use Rattle.live_day.specs.Comparing.{beyond, differing_line};
ghost use Rattle.outside_io.specs.GhostTexts.{bytes_of};
ghost use Rattle.live_day.specs.GoingOn.{HasGone};
ghost use Rattle.live_day.specs.Promises.{Runs, program_of};
ghost use Rattle.live_day.specs.Told.{told};

use crate::comparing::{Comparing, Past};
use outside_io::{Sink, WriteFault};
use program_answers::Listener;

/// A listener that runs a live day.
pub(crate) trait RunsDay: Listener {
    /// Its program is `run`.
    ghost runs: { Self.program ≡ program_of Runs };
}

// Lets a day hear what was read before, over a sink that compares what it tells.
fn hear_compared<D: RunsDay, S: Sink>(
    day: &mut D,
    read: &[u8],
    comparing: &mut Comparing<'_, S>,
) -> Result<(), WriteFault>
    requires first { D.has_heard day.old [] }
    requires within { length read.now ≤ longest_input }
    requires none { bytes_of comparing.old.past.now.text ≡ [] }
    requires below { comparing.old.past.now.first.value ≡ comparing.old.below.now }
    ensures same_reference { comparing.new.below.ghost_name ≡ comparing.old.below.ghost_name }
    ensures told { Puts (S.state comparing.old.below.now) (S.state comparing.new.below.now)
        (beyond comparing.old.wanted.now (told read.now)) result }
    ensures line { OnOk result (differing_line comparing.new.wanted.now (bytes_of comparing.new.past.now.text)
        ≡ differing_line comparing.old.wanted.now (told read.now)) }
    ensures heard { OnOk result (D.has_heard day.new read.now) }
{
    day.hear(read, comparing)
}

/// Lets a day hear what was read before. What it tells is compared with what was written before, and what goes beyond that is written.
/// Gives the line in which what was written isn't what it tells, where it doesn't begin that.
pub(crate) fn catch_up<D: RunsDay, S: Sink>(
    day: &mut D,
    read: &[u8],
    written: &[u8],
    sink: &mut S,
) -> Result<Option<usize>, WriteFault>
    requires first { D.has_heard day.old [] }
    requires within { length read.now ≤ longest_input }
    ensures told { Puts (S.state sink.old) (S.state sink.new) (beyond written.now (told read.now))
        result }
    ensures line { IfOk result (λ line. line ≡ differing_line written.now (told read.now)) }
    ensures heard { OnOk result (D.has_heard day.new read.now) }
{
    let mut past = Past::before(&*sink);
    let mut comparing = Comparing::over(sink, written, &mut past);
    match hear_compared(day, read, &mut comparing) {
        Ok(()) => Ok(comparing.other_line()),
        Err(fault) => Err(fault),
    }
}

/// Lets a day hear what comes next, as far as that counts.
pub(crate) fn go_on<D: RunsDay, S: Sink>(
    day: &mut D,
    piece: &[u8],
    sink: &mut S,
) -> Result<(), WriteFault>
    requires { (bytes : List ℕ) × HasGone (D.has_heard day.old) bytes }
    ensures told { (bytes : List ℕ) → HasGone (D.has_heard day.old) bytes
        → TellsMore (program_of Runs) bytes (bytes ++ piece.now) (S.state sink.old)
        (S.state sink.new) result }
    ensures heard { (bytes : List ℕ) → HasGone (D.has_heard day.old) bytes
        → OnOk result (HasGone (D.has_heard day.new) (bytes ++ piece.now)) }
{
    if day.is_settled() {
        return Ok(());
    }
    let count = day.most().min(piece.len());
    day.hear(&piece[..count], sink)
}
