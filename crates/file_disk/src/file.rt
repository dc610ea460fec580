//! A file of the operating system as a disk.
ghost use Rattle.std.specs.Prelude.{◌≡◌, ◌+◌, ◌^◌, ◌<◌, ◌≤◌, length, take, drop, true, false, is_ok, OnErr, OnOk};
ghost use Rattle.std.proofs.Common.{inl};
ghost use Rattle.outside_io.specs.Causes.{CountsFaults};
ghost use Rattle.disk_model.specs.Crashes.{AddsNone, Elapses, Follows, Only, Torn, overwritten};
ghost use Rattle.disk_model.specs.Cut.{IsCut, once};
ghost use Rattle.disk_model.specs.Lasting.{StillLasts};
ghost use Rattle.disk_model.specs.Memory.{MemoryDisk, disk_seen, disk_image, disk_since, failed, none_but_now, read_is_image};
ghost use Rattle.file_disk.specs.Files.{NotSure, cut_for_less, lasts_for_less, opened};

use crate::record::Record;
use cash_amounts::Memory;
use disk_model::Disk;
use outside_io::Failed;
use refused_memory::extend_from_slice;
use std::fs::File;
use std::marker::Model;
use std::os::unix::fs::FileExt;

const HELD: u64 = 0;

const WRITTEN: u64 = 1;

const SYNCED: u64 = 2;

/// A file of the operating system, which nobody else writes to. After a call that failed every call fails.
///
/// What a file is supposed to do stands here alone: at each moment a crash leaves one of the images that this disk has then, and what
/// was read when it was opened is what the disk has. All else is proved.
#[derive(Drop)]
pub struct FileDisk {
    file: File,
    bytes: Vec<u8>,
    clock: u64,
    faults: u64,
    record: Record,
}

impl Model for FileDisk {
    ghost use Rattle.disk_model.specs.Memory.{MemoryDisk};

    ghost Value = { MemoryDisk };

    ghost use Rattle.file_disk.specs.Files.{disk_of, IsNoted};

    ghost view = { disk_of };

    ghost invariant = { IsNoted };
}

// Puts the piece in the place of the bytes from `at` on, and past the end, where there is memory for it.
fn overwrite(bytes: &mut Vec<u8>, at: usize, piece: &[u8]) -> Result<(), Memory>
    requires within { at ≤ length bytes.old.items }
    ensures bytes { OnOk result (bytes.new.items ≡ overwritten at piece.now bytes.old.items) }
    ensures kept { OnErr result (bytes.new.items ≡ bytes.old.items) }
{
    let inside = (bytes.len() - at).min(piece.len());
    extend_from_slice(bytes, &piece[inside..])?;
    bytes[at..at + inside].copy_from_slice(&piece[..inside]);
    Ok(())
}

// Fills the buffer with the bytes from `at` on.
fn copy_out(bytes: &[u8], at: usize, buf: &mut [u8])
    requires { at + length buf.old ≤ length bytes.now }
    ensures { buf.new ≡ take (length buf.old) (drop at bytes.now) }
{
    buf.copy_from_slice(&bytes[at..at + buf.len()]);
}

impl FileDisk {
    /// The disk over an open file, of which these bytes were read and are on the disk.
    pub(crate) fn over(file: File, bytes: Vec<u8>) -> FileDisk
        ensures { result ≡ opened bytes.items }
    {
        let mut record = Record::Nothing;
        record.note(HELD, 0, 0, &bytes);
        FileDisk {
            file,
            bytes,
            clock: 0,
            faults: 0,
            record,
        }
    }

    // Whether no call has failed, and the clock can go on.
    fn may_be_asked(&self) -> bool
        ensures clock { result ≡ true → self.now.clock + 1 < 2 ^ 64 }
        ensures faults { result ≡ true → self.now.faults ≡ 0 }
    {
        self.faults == 0 && self.clock < u64::MAX
    }

    // A call fails, and all after it.
    fn fail(&mut self)
        ensures is { self.new ≡ failed self.old }
        ensures time { Elapses disk_seen disk_image (λ disk. disk.clock) disk_since self.old
            self.new }
    {
        self.clock = self.clock.saturating_add(1);
        self.faults = self.faults.saturating_add(1);
    }
}

impl Disk for FileDisk {
    ghost seen = { disk_seen };

    ghost image = { disk_image };

    ghost clock = { λ disk. disk.clock };

    ghost since = { disk_since };

    ghost faults = { λ disk. disk.faults };

    ghost reads_an_image = { λ disk. read_is_image disk.first disk.past };

    ghost counts_now = { λ disk t c le now. inl now };

    ghost lasts = { NotSure };

    ghost fails_clean = { ⊥ };

    ghost only_now = { none_but_now };

    ghost lasts_for_less = { lasts_for_less };

    ghost cut_after = { NotSure };

    ghost cut_for_less = { cut_for_less };

    fn size(&self) -> u64 {
        self.bytes.len() as u64
    }

    fn read(&mut self, at: u64, buf: &mut [u8]) -> Result<(), Failed>
        requires within { at + length buf.old ≤ length (disk_seen self.old) }
        ensures bytes { OnOk result (buf.new
            ≡ take (length buf.old) (drop at (disk_seen self.old))) }
        ensures same { disk_seen self.new ≡ disk_seen self.old }
        ensures images { AddsNone (disk_image self.old) (disk_image self.new) }
        ensures time { Elapses disk_seen disk_image (λ disk. disk.clock) disk_since self.old
            self.new }
        ensures count { CountsFaults self.old.faults self.new.faults result }
        ensures sure { StillLasts NotSure (λ disk. disk.faults) self.old self.new 1 0 0 }
        ensures cut { IsCut disk_seen NotSure self.old self.new (is_ok result) 1 0 0
            (λ _. disk_seen self.old) }
        ensures stopped { 0 < self.old.faults → is_ok result ≡ false }
    {
        if !self.may_be_asked() {
            self.fail();
            return Err(Failed);
        }
        copy_out(&self.bytes, at as usize, buf);
        Ok(())
    }

    fn write(&mut self, at: u64, piece: &[u8]) -> Result<(), Failed>
        requires some { 0 < length piece.now }
        requires within { at ≤ length (disk_seen self.old) }
        requires end { at + length piece.now ≤ 2 ^ 40 }
        ensures written { OnOk result (disk_seen self.new
            ≡ overwritten at piece.now (disk_seen self.old)) }
        ensures clean { ⊥ → OnErr result (disk_seen self.new ≡ disk_seen self.old) }
        ensures images { Follows (Torn at (length piece.now)) (disk_image self.old)
            (disk_image self.new) }
        ensures time { Elapses disk_seen disk_image (λ disk. disk.clock) disk_since self.old
            self.new }
        ensures count { CountsFaults self.old.faults self.new.faults result }
        ensures sure { StillLasts NotSure (λ disk. disk.faults) self.old self.new 1 1
            (length piece.now) }
        ensures cut { IsCut disk_seen NotSure self.old self.new (is_ok result) 1 1
            (length piece.now)
            (once (disk_seen self.old) (overwritten at piece.now (disk_seen self.old))) }
        ensures stopped { 0 < self.old.faults → is_ok result ≡ false }
    {
        if !self.may_be_asked() {
            self.fail();
            return Err(Failed);
        }
        if overwrite(&mut self.bytes, at as usize, piece).is_err() {
            self.fail();
            return Err(Failed);
        }
        self.clock += 1;
        self.record.note(WRITTEN, self.clock, at, piece);
        if self.file.write_all_at(piece, at).is_err() {
            self.faults = self.faults.saturating_add(1);
            return Err(Failed);
        }
        Ok(())
    }

    fn sync(&mut self) -> Result<(), Failed>
        ensures durable { OnOk result (Only (disk_seen self.old) (disk_image self.new)) }
        ensures same { disk_seen self.new ≡ disk_seen self.old }
        ensures images { AddsNone (disk_image self.old) (disk_image self.new) }
        ensures time { Elapses disk_seen disk_image (λ disk. disk.clock) disk_since self.old
            self.new }
        ensures count { CountsFaults self.old.faults self.new.faults result }
        ensures sure { StillLasts NotSure (λ disk. disk.faults) self.old self.new 1 1 0 }
        ensures cut { IsCut disk_seen NotSure self.old self.new (is_ok result) 1 1 0
            (λ _. disk_seen self.old) }
        ensures stopped { 0 < self.old.faults → is_ok result ≡ false }
    {
        if !self.may_be_asked() {
            self.fail();
            return Err(Failed);
        }
        if self.file.sync_data().is_err() {
            self.fail();
            return Err(Failed);
        }
        self.clock += 1;
        self.record.note(SYNCED, self.clock, 0, &[]);
        Ok(())
    }
}
