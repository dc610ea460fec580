//! A disk, read so many bytes at a time.
ghost use Rattle.std.specs.Prelude.{◌≡◌, ◌<◌, ◌≤◌, length, drop, Some, IfOk};

use crate::reader::Reader;
use disk_model::Disk;
use outside_io::Failed;

/// A reader over a disk, which begins at a place.
#[derive(Drop)]
pub struct DiskReader<D: Disk> {
    disk: D,
    at: u64,
    ghost within: { at ≤ length (D.seen disk) },
}

impl<D: Disk> DiskReader<D> {
    /// From the first byte on.
    pub fn over(disk: D) -> DiskReader<D>
        ensures disk { result.disk ≡ disk }
        ensures at { result.at ≡ 0 }
    {
        DiskReader { disk, at: 0 }
    }

    /// The disk.
    pub fn into_disk(self) -> D
        ensures { result ≡ self.disk }
    {
        let DiskReader { disk, .. } = self;
        disk
    }
}

impl<D: Disk> Reader for DiskReader<D> {
    ghost use Rattle.frame_log.specs.Reads.{IsLookedAt};
    ghost use Rattle.frame_log.specs.Looking.{looked_on};

    ghost left = { λ reader. Some (drop reader.at (D.seen reader.disk)) };

    ghost faults = { λ reader. D.faults reader.disk };

    ghost looks = { λ old new. IsLookedAt D.seen D.image D.clock D.since old.disk new.disk };

    ghost looks_on = { λ a b c first second. looked_on D.seen D.image D.clock D.since a.disk b.disk
        c.disk first second };

    fn take(&mut self, buf: &mut [u8]) -> Result<bool, Failed> {
        if self.disk.size() - self.at < buf.len() as u64 {
            return Ok(false);
        }
        self.disk.read(self.at, buf)?;
        self.at += buf.len() as u64;
        Ok(true)
    }
}
