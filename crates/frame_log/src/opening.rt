//! A log on a disk is found, or made.
ghost use Rattle.std.specs.Prelude.{◌≡◌, ◌^◌, ◌<◌, ◌≤◌, [], length};
ghost use Rattle.disk_model.specs.Crashes.{Only};
ghost use Rattle.frame_log.specs.Opens.{Opens};

use crate::disk_reader::DiskReader;
use crate::frames::{HEADER, first_digest};
use crate::gate_log::GateLog;
use crate::reading::{Kept, KeptText, read_text};
use disk_model::Disk;
use gated_disk::put_down;
use outside_io::ReadEnd;
use refused_memory::Memory;
use std::alloc::Global;

/// What an opening finds on a disk.
#[derive(Drop)]
pub enum Opened<D: Disk> {
    /// A log, and the text that it has.
    Log { log: GateLog<D>, text: Vec<u8> },
    /// Foreign bytes: this frame, from 1, makes them so, and 0 stands for the header.
    Foreign { disk: D, frame: u64 },
    /// A call of the disk failed.
    Fault { disk: D },
    /// The text is longer than the limit.
    Size { disk: D },
    /// Memory was wanting.
    Memory { disk: D, memory: Memory },
}

// A new log on an empty disk.
fn make<D: Disk>(alloc: Global, disk: D) -> Opened<D>
    requires only { Only (D.seen disk) (D.image disk) }
    requires empty { D.seen disk ≡ [] }
    ensures { Opens D.seen D.image D.clock D.since D.faults disk result }
{
    let mut disk = disk;
    let mut first = [0; 17];
    first[..16].copy_from_slice(&HEADER);
    match put_down(&mut disk, 0, &first) {
        Ok(()) => Opened::Log {
            log: GateLog::over(disk, 16, first_digest()),
            text: Vec::new(alloc),
        },
        Err(_) => Opened::Fault { disk },
    }
}

// The log on a disk that has bytes.
fn find<D: Disk>(alloc: Global, disk: D, limit: usize) -> Opened<D>
    requires only { Only (D.seen disk) (D.image disk) }
    requires some { 0 < length (D.seen disk) }
    requires limit { limit ≤ 2 ^ 40 }
    ensures { Opens D.seen D.image D.clock D.since D.faults disk result }
{
    let mut reader = DiskReader::over(disk);
    let found = read_text(alloc, &mut reader, limit);
    let disk = reader.into_disk();
    match found {
        Ok(Kept::Text(kept)) => {
            let KeptText { text, digest, end } = kept;
            Opened::Log {
                log: GateLog::over(disk, end, digest),
                text,
            }
        }
        Ok(Kept::Foreign { frame }) => Opened::Foreign { disk, frame },
        Err(ReadEnd::Fault) => Opened::Fault { disk },
        Err(ReadEnd::Size) => Opened::Size { disk },
        Err(ReadEnd::Memory(memory)) => Opened::Memory { disk, memory },
    }
}

/// Finds the log on a disk, whose text has at most so many bytes, and makes one where the disk has none. It begins with a sync, and
/// writes nothing where the disk has bytes. Otherwise the disk is handed back.
pub fn open<D: Disk>(alloc: Global, disk: D, limit: usize) -> Opened<D>
    requires { limit ≤ 2 ^ 40 }
    ensures { Opens D.seen D.image D.clock D.since D.faults disk result }
{
    let mut disk = disk;
    if disk.sync().is_err() {
        return Opened::Fault { disk };
    }
    if disk.size() == 0 {
        make(alloc, disk)
    } else {
        find(alloc, disk, limit)
    }
}
