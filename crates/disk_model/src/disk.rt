//! What a disk is: bytes that are written in place, and that a crash may tear until they are synced.
ghost use Rattle.std.specs.Prelude.{◌≡◌, ℕ, ◌+◌, ◌^◌, ◌<◌, ◌≤◌, List, length, take, drop, is_ok, OnOk, OnErr};
ghost use Rattle.outside_io.specs.Causes.{CountsFaults};
ghost use Rattle.disk_model.specs.Crashes.{overwritten, AddsNone, Follows, Torn, Only, Elapses};
ghost use Rattle.disk_model.specs.Cut.{IsCut, IsCutForLess, once};
ghost use Rattle.disk_model.specs.Lasting.{LastsForLess, StillLasts};

use outside_io::Failed;

/// A disk. What was written is sure to outlive a crash only once a sync after it has succeeded. Nobody else writes to it.
pub trait Disk {
    /// The bytes as a read gives them.
    ghost seen: { Self → List ℕ };

    /// What a crash at this moment may leave: the images of the disk.
    ghost image: { Self → List ℕ → Type 0 };

    /// A clock, which doesn't fall.
    ghost clock: { Self → ℕ };

    /// What a crash at some moment from that time on may have left, inside a call or between two.
    ghost since: { Self → ℕ → List ℕ → Type 0 };

    /// How often a call has failed.
    ghost faults: { Self → ℕ };

    /// For how many calls from now on it is sure to last, for how many writes and syncs among them, and for how many bytes in what
    /// is written: no such call fails. A disk need not be sure of anything.
    ghost lasts: { Self → ℕ → ℕ → ℕ → Type 0 };

    /// That a write that fails leaves the bytes as a read gives them. It need not be so.
    ghost fails_clean: { Type 0 };

    /// That exactly so many calls from now on pass, and the next one fails and leaves the bytes as a read gives them, while there are no
    /// more than so many writes and syncs, and no more than so many bytes in what is written. Of a disk this need not be known.
    ghost cut_after: { Self → ℕ → ℕ → ℕ → Type 0 };

    /// How many bytes there are.
    fn size(&self) -> u64
        ensures { result ≡ length (seen self.now) };

    /// Fills the buffer with the bytes from `at` on. Bytes and images stay, or there are fewer images.
    fn read(&mut self, at: u64, buf: &mut [u8]) -> Result<(), Failed>
        requires within { at + length buf.old ≤ length (seen self.old) }
        ensures bytes { OnOk result (buf.new ≡ take (length buf.old) (drop at (seen self.old))) }
        ensures same { seen self.new ≡ seen self.old }
        ensures images { AddsNone (image self.old) (image self.new) }
        ensures time { Elapses seen image clock since self.old self.new }
        ensures count { CountsFaults (faults self.old) (faults self.new) result }
        ensures sure { StillLasts lasts faults self.old self.new 1 0 0 }
        ensures cut { IsCut seen cut_after self.old self.new (is_ok result) 1 0 0 (λ _. seen self.old) };

    /// Puts the piece in the place of the bytes from `at` on, and past the end. Until a sync, a crash may leave any bytes in this
    /// range, and where it goes past the old end any number of any bytes after that, also where the write fails.
    fn write(&mut self, at: u64, piece: &[u8]) -> Result<(), Failed>
        requires some { 0 < length piece.now }
        requires within { at ≤ length (seen self.old) }
        requires end { at + length piece.now ≤ 2 ^ 40 }
        ensures written { OnOk result (seen self.new ≡ overwritten at piece.now (seen self.old)) }
        ensures clean { fails_clean → OnErr result (seen self.new ≡ seen self.old) }
        ensures images { Follows (Torn at (length piece.now)) (image self.old) (image self.new) }
        ensures time { Elapses seen image clock since self.old self.new }
        ensures count { CountsFaults (faults self.old) (faults self.new) result }
        ensures sure { StillLasts lasts faults self.old self.new 1 1 (length piece.now) }
        ensures cut { IsCut seen cut_after self.old self.new (is_ok result) 1 1 (length piece.now)
            (once (seen self.old) (overwritten at piece.now (seen self.old))) };

    /// After it a crash leaves what a read gives. Where it fails, bytes and images stay, or there are fewer images.
    fn sync(&mut self) -> Result<(), Failed>
        ensures durable { OnOk result (Only (seen self.old) (image self.new)) }
        ensures same { seen self.new ≡ seen self.old }
        ensures images { AddsNone (image self.old) (image self.new) }
        ensures time { Elapses seen image clock since self.old self.new }
        ensures count { CountsFaults (faults self.old) (faults self.new) result }
        ensures sure { StillLasts lasts faults self.old self.new 1 1 0 }
        ensures cut { IsCut seen cut_after self.old self.new (is_ok result) 1 1 0 (λ _. seen self.old) };

    /// What a read gives is one of the images.
    ghost reads_an_image: { (disk : Self) → image disk (seen disk) };

    /// This moment is one of those since an earlier one.
    ghost counts_now: { (disk : Self) (t : ℕ) (c : List ℕ) → t ≤ clock disk → image disk c
        → since disk t c };

    /// Since this moment there is no other.
    ghost only_now: { (disk : Self) (c : List ℕ) → since disk (clock disk) c → image disk c };

    /// Where it is sure to last for some calls, it is for fewer.
    ghost lasts_for_less: { LastsForLess lasts };

    /// Where it is known after how many calls it is cut, it is for fewer writes, syncs and bytes.
    ghost cut_for_less: { IsCutForLess cut_after };
}
