//! A text that is kept on a disk.
ghost use Rattle.std.specs.Prelude.{◌≡◌, ◌^◌, ◌<◌, ◌≤◌, true, length, take, drop, OnOk};
ghost use Rattle.disk_model.specs.Crashes.{Only};
ghost use Rattle.disk_model.specs.Runs.{LeavesOnly};
ghost use Rattle.gated_disk.specs.Gates.{HasGrown, MayHaveGrown, RunsOn, is_closed};
ghost use Rattle.kept_text.specs.Frames.{text_in};
ghost use Rattle.frame_log.specs.Standing.{FindsAll, FindsAll-prop, IsStanding, Stands, Stands-prop, frame_with, text_up_to};

use crate::frames::{ROOM, digest_of, put_frame};
use disk_model::Disk;
use gated_disk::append;
use kept_port::Log;
use outside_io::Failed;

// Above it nothing more is kept.
const LAST: u64 = 1 << 39;

/// A text on a disk, in frames behind gates. Whatever a crash leaves, an opening finds the text that is sure, and after it at most the
/// whole piece that was being kept. After a call that failed every call fails, and the disk isn't touched.
#[derive(Drop)]
pub struct GateLog<D: Disk> {
    disk: D,
    // Where the closed gate stands.
    end: u64,
    // The digest of the last frame.
    digest: [u8; 32],
    faults: u64,
    ghost finds: { FindsAll D.seen D.image end disk } by { FindsAll-prop D.seen D.image end disk },
    ghost stands: { Stands D.seen D.image end digest faults disk } by { Stands-prop D.seen D.image end digest faults disk },
}

impl<D: Disk> GateLog<D> {
    // The log on a disk on which a text stands.
    pub(crate) fn over(disk: D, end: u64, digest: [u8; 32]) -> GateLog<D>
        requires { IsStanding D.seen D.image end digest disk }
        ensures disk { result.disk ≡ disk }
        ensures end { result.end ≡ end }
        ensures digest { result.digest ≡ digest }
        ensures faults { result.faults ≡ 0 }
    {
        GateLog {
            disk,
            end,
            digest,
            faults: 0,
        }
    }

    /// The disk.
    pub fn into_disk(self) -> D
        ensures { result ≡ self.disk }
    {
        let GateLog { disk, .. } = self;
        disk
    }

    /// The digest of the last frame, and of the header where there is none.
    pub fn digest(&self) -> [u8; 32]
        ensures { result ≡ self.now.digest }
    {
        self.digest
    }
}

// Puts the frame of a piece down behind the gate at `end`, and opens the gate.
fn put_down<D: Disk>(disk: &mut D, end: u64, digest: &[u8; 32], piece: &[u8]) -> Result<(), Failed>
    requires some { 0 < length piece.now }
    requires small { length piece.now ≤ 16384 }
    requires end { end ≤ 2 ^ 39 }
    requires only { Only (D.seen disk.old) (D.image disk.old) }
    requires closed { is_closed (drop end (D.seen disk.old)) ≡ true }
    ensures bytes { OnOk result (HasGrown (take end (D.seen disk.old))
        (frame_with digest.now piece.now) (D.seen disk.new)) }
    ensures only { OnOk result (Only (D.seen disk.new) (D.image disk.new)) }
    ensures moments { LeavesOnly D.clock D.since disk.old disk.new
        (MayHaveGrown (take end (D.seen disk.old)) (frame_with digest.now piece.now)) }
    ensures runs { RunsOn D.clock D.since disk.old disk.new }
{
    let mut room = [0; ROOM];
    let count = put_frame(&mut room, digest, piece);
    append(disk, end, &room[..count])
}

impl<D: Disk> Log for GateLog<D> {
    ghost use Rattle.frame_log.specs.Sureness.{finds_it};

    ghost sure = { λ log. text_up_to log.end (D.seen log.disk) };

    ghost image = { λ log. D.image log.disk };

    ghost clock = { λ log. D.clock log.disk };

    ghost since = { λ log. D.since log.disk };

    ghost text_in = { text_in };

    ghost faults = { λ log. log.faults };

    ghost finds_sure = { λ log c left. finds_it (text_up_to log.end (D.seen log.disk)) c
        (log.finds c left) };

    ghost only_now = { λ log. D.only_now log.disk };

    ghost counts_now = { λ log. D.counts_now log.disk };

    fn append(&mut self, piece: &[u8]) -> Result<(), Failed> {
        if self.faults > 0 || self.end > LAST {
            self.faults = self.faults.saturating_add(1);
            return Err(Failed);
        }
        let digest = digest_of(&self.digest, piece);
        if put_down(&mut self.disk, self.end, &digest, piece).is_err() {
            self.faults = self.faults.saturating_add(1);
            return Err(Failed);
        }
        self.end += 37 + piece.len() as u64;
        self.digest = digest;
        Ok(())
    }
}
