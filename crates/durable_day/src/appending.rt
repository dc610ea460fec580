//! A line is put down after the last one.
ghost use Rattle.std.specs.Prelude.{◌≡◌, ◌⊎◌, ◌+◌, ◌^◌, ◌<◌, ◌≤◌, true, ◌∷◌, length, take, drop, is_ok, IfOk, OnOk};
ghost use Rattle.outside_io.specs.Causes.{CountsFaults};
ghost use Rattle.machine.specs.Legal.{IsLegal};
ghost use Rattle.disk_model.specs.Crashes.{Only, Torn, overwritten};
ghost use Rattle.disk_model.specs.Cut.{IsCut, once};
ghost use Rattle.disk_model.specs.Runs.{LeavesOnly};
ghost use Rattle.disk_model.specs.Lasting.{StillLasts};
ghost use Rattle.durable_day.specs.Appending.{HasGrown, MayHaveGrown, appended_by, newest_by, newest_bytes};
ghost use Rattle.durable_day.specs.Bytes.{StandsFor, is_closed};
ghost use Rattle.durable_day.specs.Stores.{IsDurable};

use crate::room::{PieceRoom, fill};
use commit_journal::Journal;
use disk_model::Disk;
use outside_io::Failed;
use rule_book::Setting;

// Writes the piece and makes sure of it. Until then a crash may leave anything in its place.
fn put_down<D: Disk>(disk: &mut D, at: u64, piece: &[u8]) -> Result<(), Failed>
    requires only { Only (D.seen disk.old) (D.image disk.old) }
    requires some { 0 < length piece.now }
    requires within { at ≤ length (D.seen disk.old) }
    requires end { at + length piece.now ≤ 2 ^ 40 }
    ensures bytes { OnOk result (D.seen disk.new ≡ overwritten at piece.now (D.seen disk.old)) }
    ensures only { OnOk result (Only (D.seen disk.new) (D.image disk.new)) }
    ensures moments { LeavesOnly D.clock D.since disk.old disk.new
        (Torn at (length piece.now) (D.seen disk.old)) }
    ensures time { D.clock disk.new ≤ D.clock disk.old + 2 }
    ensures count { CountsFaults (D.faults disk.old) (D.faults disk.new) result }
    ensures sure { StillLasts D.lasts D.faults disk.old disk.new 2 2 (length piece.now) }
    ensures cut { IsCut D.seen D.cut_after disk.old disk.new (is_ok result) 2 2 (length piece.now)
        (once (D.seen disk.old) (overwritten at piece.now (D.seen disk.old))) }
{
    disk.write(at, piece)?;
    disk.sync()
}

// Puts the piece after the gate at `end`, and opens the gate only when the piece is sure to be there.
fn append<D: Disk>(disk: &mut D, end: u64, piece: &[u8]) -> Result<(), Failed>
    requires only { Only (D.seen disk.old) (D.image disk.old) }
    requires closed { is_closed (drop end (D.seen disk.old)) ≡ true }
    requires some { 0 < length piece.now }
    requires small { end + 1 + length piece.now ≤ 2 ^ 40 }
    ensures bytes { OnOk result (HasGrown (take end (D.seen disk.old)) piece.now
        (D.seen disk.new)) }
    ensures only { OnOk result (Only (D.seen disk.new) (D.image disk.new)) }
    ensures moments { LeavesOnly D.clock D.since disk.old disk.new
        (MayHaveGrown (take end (D.seen disk.old)) piece.now) }
    ensures time { D.clock disk.new ≤ D.clock disk.old + 4 }
    ensures count { CountsFaults (D.faults disk.old) (D.faults disk.new) result }
    ensures sure { StillLasts D.lasts D.faults disk.old disk.new 4 4 (length piece.now + 1) }
    ensures cut { IsCut D.seen D.cut_after disk.old disk.new (is_ok result) 4 4
        (length piece.now + 1) (appended_by end piece.now (D.seen disk.old)) }
{
    put_down(disk, end + 1, piece)?;
    put_down(disk, end, &[1])
}

/// Puts the newest line of the journal down after the lines before it, whose closed gate stands at `end`, and answers where the
/// gate after it stands. From then on it is there whatever a crash leaves; where a call of the disk fails, or a crash comes before,
/// the line is there or not.
pub(crate) fn store_line<D: Disk>(
    setting: &Setting,
    journal: &Journal,
    piece: &mut PieceRoom,
    disk: &mut D,
    end: u64,
) -> Result<u64, Failed>
    requires legal { IsLegal setting.now.day journal.now.history }
    requires some { 0 < length journal.now.history }
    requires older { IsDurable D.seen D.image (drop 1 journal.now.history) end disk.old }
    ensures stored { IfOk result (λ later. IsDurable D.seen D.image journal.now.history later
        disk.new) }
    ensures moments { LeavesOnly D.clock D.since disk.old disk.new
        (λ c. StandsFor (drop 1 journal.now.history) c ⊎ StandsFor journal.now.history c) }
    ensures time { D.clock disk.new ≤ D.clock disk.old + 4 }
    ensures count { CountsFaults (D.faults disk.old) (D.faults disk.new) result }
    ensures sure { StillLasts D.lasts D.faults disk.old disk.new 4 4
        (newest_bytes journal.now.history) }
    ensures cut { IsCut D.seen D.cut_after disk.old disk.new (is_ok result) 4 4
        (newest_bytes journal.now.history)
        (newest_by journal.now.history (D.seen disk.old)) }
{
    let place = journal.len();
    let (head, moves) = journal.line(place);
    fill(piece, place, head, moves);
    let bytes = piece.bytes();
    append(disk, end, bytes)?;
    Ok(end + bytes.len() as u64)
}
