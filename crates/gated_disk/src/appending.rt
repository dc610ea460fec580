//! A piece is put down behind a closed gate, and then the gate is opened.
ghost use Rattle.std.specs.Prelude.{◌≡◌, ◌+◌, ◌^◌, ◌<◌, ◌≤◌, true, ◌∷◌, length, take, drop, is_ok, OnOk};
ghost use Rattle.outside_io.specs.Causes.{CountsFaults};
ghost use Rattle.disk_model.specs.Crashes.{Only, Torn, overwritten};
ghost use Rattle.disk_model.specs.Cut.{IsCut, once};
ghost use Rattle.disk_model.specs.Lasting.{StillLasts};
ghost use Rattle.disk_model.specs.Runs.{LeavesOnly};
ghost use Rattle.gated_disk.specs.Gates.{HasGrown, MayHaveGrown, RunsOn, appended_by, is_closed};

use disk_model::Disk;
use outside_io::Failed;

/// Writes the piece and makes sure of it. Until then a crash may leave anything in its place.
pub fn put_down<D: Disk>(disk: &mut D, at: u64, piece: &[u8]) -> Result<(), Failed>
    requires only { Only (D.seen disk.old) (D.image disk.old) }
    requires some { 0 < length piece.now }
    requires within { at ≤ length (D.seen disk.old) }
    requires end { at + length piece.now ≤ 2 ^ 40 }
    ensures bytes { OnOk result (D.seen disk.new ≡ overwritten at piece.now (D.seen disk.old)) }
    ensures only { OnOk result (Only (D.seen disk.new) (D.image disk.new)) }
    ensures moments { LeavesOnly D.clock D.since disk.old disk.new
        (Torn at (length piece.now) (D.seen disk.old)) }
    ensures runs { RunsOn D.clock D.since disk.old disk.new }
    ensures time { D.clock disk.new ≤ D.clock disk.old + 2 }
    ensures count { CountsFaults (D.faults disk.old) (D.faults disk.new) result }
    ensures sure { StillLasts D.lasts D.faults disk.old disk.new 2 2 (length piece.now) }
    ensures cut { IsCut D.seen D.cut_after disk.old disk.new (is_ok result) 2 2 (length piece.now)
        (once (D.seen disk.old) (overwritten at piece.now (D.seen disk.old))) }
{
    disk.write(at, piece)?;
    disk.sync()
}

/// Puts the piece after the closed gate at `end`, and opens the gate only when the piece is sure to be there. A crash at any moment
/// meanwhile leaves the bytes before the gate, the gate as any byte, and where it is open the whole piece.
pub fn append<D: Disk>(disk: &mut D, end: u64, piece: &[u8]) -> Result<(), Failed>
    requires only { Only (D.seen disk.old) (D.image disk.old) }
    requires closed { is_closed (drop end (D.seen disk.old)) ≡ true }
    requires some { 0 < length piece.now }
    requires small { end + 1 + length piece.now ≤ 2 ^ 40 }
    ensures bytes { OnOk result (HasGrown (take end (D.seen disk.old)) piece.now
        (D.seen disk.new)) }
    ensures only { OnOk result (Only (D.seen disk.new) (D.image disk.new)) }
    ensures moments { LeavesOnly D.clock D.since disk.old disk.new
        (MayHaveGrown (take end (D.seen disk.old)) piece.now) }
    ensures runs { RunsOn D.clock D.since disk.old disk.new }
    ensures time { D.clock disk.new ≤ D.clock disk.old + 4 }
    ensures count { CountsFaults (D.faults disk.old) (D.faults disk.new) result }
    ensures sure { StillLasts D.lasts D.faults disk.old disk.new 4 4 (length piece.now + 1) }
    ensures cut { IsCut D.seen D.cut_after disk.old disk.new (is_ok result) 4 4
        (length piece.now + 1) (appended_by end piece.now (D.seen disk.old)) }
{
    put_down(disk, end + 1, piece)?;
    put_down(disk, end, &[1])
}
