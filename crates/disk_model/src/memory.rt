//! A disk in memory, which keeps all that was written, so that the images of each earlier moment are known.
ghost use Rattle.std.specs.Prelude.{◌≡◌, ℕ, ◌+◌, ◌^◌, ◌<◌, ◌≤◌, ◌&&◌, length, take, drop, vec_len, vec_capacity, nat_lt, nat_le, is_ok, IfOk, OnErr, OnOk, ⊤};
ghost use Rattle.std.proofs.Common.{inl};
ghost use Rattle.refused_memory.specs.declared.lists.TheConstants.{MOST};
ghost use Rattle.outside_io.specs.Causes.{CountsFaults};
ghost use Rattle.disk_model.specs.Crashes.{overwritten, AddsNone, Follows, Torn, Only, Elapses};
ghost use Rattle.disk_model.specs.Cut.{IsCut, once};
ghost use Rattle.disk_model.specs.Lasting.{StillLasts};
ghost use Rattle.disk_model.specs.Memory.{CutAfter, MemoryDisk, LastsFor, cut_for_less, lasts_for_less, new_disk, disk_seen, disk_image, disk_since, read_is_image, none_but_now, passes_now, can_record, ticked, wrote, synced, failed, Decides};

use crate::Disk;
use cash_amounts::Memory;
use outside_io::Failed;
use refused_memory::{copied, reserve, with_capacity};
use std::alloc::Global;
use std::marker::Model;

// What was done to the disk. A piece lies after those that were written before it.
#[derive(Clone, Copy)]
enum Call {
    Write { at: u64, count: usize },
    Sync,
}

// A call that succeeded, and what the clock showed after it.
#[derive(Clone, Copy)]
struct Done {
    moment: u64,
    call: Call,
}

/// A disk in memory. A write that fails changes nothing. Of one that succeeds a crash may leave any bytes in its range, and where it
/// goes past the old end any number of any bytes after that, until a sync.
#[derive(Drop)]
pub struct MemDisk {
    first: Vec<u8>,
    bytes: Vec<u8>,
    pieces: Vec<u8>,
    done: Vec<Done>,
    room: usize,
    records: usize,
    passes: u32,
    clock: u64,
    faults: u64,
}

impl Model for MemDisk {
    ghost use Rattle.disk_model.specs.Memory.{MemoryDisk};

    ghost Value = { MemoryDisk };

    ghost use Rattle.disk_model.specs.Stored.{disk_of, IsStored};

    ghost view = { disk_of };

    ghost invariant = { IsStored };
}

// Whether the clock hasn't come to its last pass.
fn passes_at(clock: u64, passes: u32) -> bool
    ensures { result ≡ nat_lt clock passes }
{
    clock < u64::from(passes)
}

// Puts the piece in the place of the bytes from `at` on, and past the end.
fn overwrite(bytes: &mut Vec<u8>, at: usize, piece: &[u8])
    requires within { at ≤ length bytes.old.items }
    requires room { vec_len bytes.old + length piece.now ≤ vec_capacity bytes.old }
    ensures bytes { bytes.new.items ≡ overwritten at piece.now bytes.old.items }
    ensures grown { vec_len bytes.new ≤ vec_len bytes.old + length piece.now }
    ensures room { vec_capacity bytes.old ≤ vec_capacity bytes.new }
{
    let inside = (bytes.len() - at).min(piece.len());
    bytes[at..at + inside].copy_from_slice(&piece[..inside]);
    bytes.extend_from_slice(&piece[inside..]).unwrap();
}

// Fills the buffer with the bytes from `at` on.
fn copy_out(bytes: &[u8], at: usize, buf: &mut [u8])
    requires { at + length buf.old ≤ length bytes.now }
    ensures { buf.new ≡ take (length buf.old) (drop at bytes.now) }
{
    buf.copy_from_slice(&bytes[at..at + buf.len()]);
}

impl MemDisk {
    /// A disk with these bytes as its only image, of which so many reads, writes and syncs pass, with room for so many bytes
    /// to be written and for so many writes and syncs. All memory is taken here, and `Memory` says that there wasn't that
    /// much.
    pub fn make(
        alloc: Global,
        bytes: Vec<u8>,
        room: usize,
        records: usize,
        passes: u32,
    ) -> Result<MemDisk, Memory>
        requires { (room ≤ MOST) × (records ≤ MOST) }
        ensures { IfOk result (λ disk. disk ≡ new_disk bytes.items room records passes) }
    {
        let first = copied(alloc, &bytes)?;
        let pieces = with_capacity(alloc, room)?;
        let done = with_capacity(alloc, records)?;
        let mut bytes = bytes;
        reserve(&mut bytes, room)?;
        Ok(MemDisk {
            first,
            bytes,
            pieces,
            done,
            room,
            records,
            passes,
            clock: 0,
            faults: 0,
        })
    }

    /// The bytes as a read gives them.
    pub fn bytes(&self) -> &[u8]
        ensures { result.now ≡ disk_seen self.now }
    {
        &self.bytes
    }
}

impl Disk for MemDisk {
    ghost seen = { disk_seen };

    ghost image = { disk_image };

    ghost clock = { λ disk. disk.clock };

    ghost since = { disk_since };

    ghost faults = { λ disk. disk.faults };

    ghost reads_an_image = { λ disk. read_is_image disk.first disk.past };

    ghost counts_now = { λ disk t c le now. inl now };

    ghost lasts = { LastsFor };

    ghost fails_clean = { ⊤ };

    ghost only_now = { none_but_now };

    ghost lasts_for_less = { lasts_for_less };

    ghost cut_after = { CutAfter };

    ghost cut_for_less = { cut_for_less };

    fn size(&self) -> u64 {
        self.bytes.len() as u64
    }

    fn read(&mut self, at: u64, buf: &mut [u8]) -> Result<(), Failed>
        requires within { at + length buf.old ≤ length (disk_seen self.old) }
        ensures bytes { OnOk result (buf.new
            ≡ take (length buf.old) (drop at (disk_seen self.old))) }
        ensures same { disk_seen self.new ≡ disk_seen self.old }
        ensures images { AddsNone (disk_image self.old) (disk_image self.new) }
        ensures time { Elapses disk_seen disk_image (λ disk. disk.clock) disk_since self.old
            self.new }
        ensures count { CountsFaults self.old.faults self.new.faults result }
        ensures sure { StillLasts LastsFor (λ disk. disk.faults) self.old self.new 1 0 0 }
        ensures cut { IsCut disk_seen CutAfter self.old self.new (is_ok result) 1 0 0
            (λ _. disk_seen self.old) }
        ensures exact { Decides (passes_now self.old) (ticked self.old) (failed self.old) self.new
            result }
    {
        if !passes_at(self.clock, self.passes) {
            self.clock = self.clock.saturating_add(1);
            self.faults = self.faults.saturating_add(1);
            return Err(Failed);
        }
        copy_out(&self.bytes, at as usize, buf);
        self.clock += 1;
        Ok(())
    }

    fn write(&mut self, at: u64, piece: &[u8]) -> Result<(), Failed>
        requires some { 0 < length piece.now }
        requires within { at ≤ length (disk_seen self.old) }
        requires end { at + length piece.now ≤ 2 ^ 40 }
        ensures written { OnOk result (disk_seen self.new
            ≡ overwritten at piece.now (disk_seen self.old)) }
        ensures clean { ⊤ → OnErr result (disk_seen self.new ≡ disk_seen self.old) }
        ensures images { Follows (Torn at (length piece.now)) (disk_image self.old)
            (disk_image self.new) }
        ensures time { Elapses disk_seen disk_image (λ disk. disk.clock) disk_since self.old
            self.new }
        ensures count { CountsFaults self.old.faults self.new.faults result }
        ensures sure { StillLasts LastsFor (λ disk. disk.faults) self.old self.new 1 1
            (length piece.now) }
        ensures cut { IsCut disk_seen CutAfter self.old self.new (is_ok result) 1 1
            (length piece.now)
            (once (disk_seen self.old) (overwritten at piece.now (disk_seen self.old))) }
        ensures exact { Decides (can_record self.old && nat_le (length piece.now) self.old.room)
            (wrote self.old at piece.now) (failed self.old) self.new result }
    {
        if !passes_at(self.clock, self.passes) || self.records == 0 || self.room < piece.len() {
            self.clock = self.clock.saturating_add(1);
            self.faults = self.faults.saturating_add(1);
            return Err(Failed);
        }
        self.clock += 1;
        overwrite(&mut self.bytes, at as usize, piece);
        self.pieces.extend_from_slice(piece).unwrap();
        self.done
            .push(Done {
                moment: self.clock,
                call: Call::Write {
                    at,
                    count: piece.len(),
                },
            })
            .unwrap();
        self.records -= 1;
        self.room -= piece.len();
        Ok(())
    }

    fn sync(&mut self) -> Result<(), Failed>
        ensures durable { OnOk result (Only (disk_seen self.old) (disk_image self.new)) }
        ensures same { disk_seen self.new ≡ disk_seen self.old }
        ensures images { AddsNone (disk_image self.old) (disk_image self.new) }
        ensures time { Elapses disk_seen disk_image (λ disk. disk.clock) disk_since self.old
            self.new }
        ensures count { CountsFaults self.old.faults self.new.faults result }
        ensures sure { StillLasts LastsFor (λ disk. disk.faults) self.old self.new 1 1 0 }
        ensures cut { IsCut disk_seen CutAfter self.old self.new (is_ok result) 1 1 0
            (λ _. disk_seen self.old) }
        ensures exact { Decides (can_record self.old) (synced self.old) (failed self.old) self.new
            result }
    {
        if !passes_at(self.clock, self.passes) || self.records == 0 {
            self.clock = self.clock.saturating_add(1);
            self.faults = self.faults.saturating_add(1);
            return Err(Failed);
        }
        self.clock += 1;
        self.done
            .push(Done {
                moment: self.clock,
                call: Call::Sync,
            })
            .unwrap();
        self.records -= 1;
        Ok(())
    }
}
