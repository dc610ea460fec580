//! A new store.
ghost use Rattle.std.specs.Prelude.{◌≡◌, ◌⊎◌, ℕ, ◌+◌, ◌≤◌, [], ◌∷◌, length, is_ok, OnErr, OnOk};
ghost use Rattle.outside_io.specs.Causes.{CountsFaults};
ghost use Rattle.disk_model.specs.Crashes.{Only};
ghost use Rattle.disk_model.specs.Cut.{IsCut, once};
ghost use Rattle.disk_model.specs.Lasting.{StillLasts};

use disk_model::Disk;
use outside_io::Failed;

/// A call of the disk failed.
#[derive(Clone, Copy, Debug, PartialEq, Eq)]
pub struct DiskFault;

impl From<Failed> for DiskFault {
    ghost use Rattle.std.specs.Prelude.{⊤};

    ghost from_gives = { λ _ _. ⊤ };

    fn from(_: Failed) -> Self {
        DiskFault
    }
}

/// Makes an empty disk the store of a journal of no lines: a closed gate. Where it fails, or where a crash comes within it, the
/// disk is to be made anew; no line was acknowledged. Where a write that fails leaves the bytes, the disk then has none, or the gate.
pub fn format<D: Disk>(disk: &mut D) -> Result<(), DiskFault>
    requires { length (D.seen disk.old) ≡ 0 }
    ensures bytes { OnOk result (D.seen disk.new ≡ 0 ∷ []) }
    ensures durable { OnOk result (Only (D.seen disk.new) (D.image disk.new)) }
    ensures time { D.clock disk.new ≤ D.clock disk.old + 2 }
    ensures count { CountsFaults (D.faults disk.old) (D.faults disk.new) result }
    ensures clean { D.fails_clean
        → OnErr result ((D.seen disk.new ≡ []) ⊎ (D.seen disk.new ≡ 0 ∷ [])) }
    ensures sure { StillLasts D.lasts D.faults disk.old disk.new 2 2 1 }
    ensures cut { IsCut D.seen D.cut_after disk.old disk.new (is_ok result) 2 2 1
        (once (D.seen disk.old) (0 ∷ [])) }
{
    disk.write(0, &[0])?;
    disk.sync()?;
    Ok(())
}
