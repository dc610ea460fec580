//! What stands at a place of a store's disk. Nothing is written here.
ghost use Rattle.std.specs.Prelude.{◌≡◌, ◌≢◌, ℕ, ◌+◌, ◌^◌, ◌<◌, ◌≤◌, List, ◌∷◌, ◌++◌, length, take, drop, is_ok, IfOk, OnOk};
ghost use Rattle.std.specs.Int.{w32, to_be_bytes};
ghost use Rattle.outside_io.specs.Causes.{CountsFaults};
ghost use Rattle.durable_day.specs.Entries.{IsEntry, IsTextOrNot};
ghost use Rattle.durable_day.specs.Pieces.{room_size};
ghost use Rattle.durable_day.specs.Reads.{ReadsOnly, reads_at, reads_of_text};

use disk_model::Disk;
use outside_io::Failed;

/// What stands at a place.
#[derive(Clone, Copy)]
pub(crate) enum Entry {
    /// An open gate and a text of so many bytes, which stands in front in the room for one now.
    Text { count: usize },
    /// A closed gate.
    Closed,
    /// Neither of them, or a text for which there is no room.
    Neither,
}

fn read_at<D: Disk>(disk: &mut D, at: u64, buf: &mut [u8]) -> Result<(), Failed>
    requires { at + length buf.old ≤ length (D.seen disk.old) }
    ensures bytes { OnOk result (buf.new ≡ take (length buf.old) (drop at (D.seen disk.old))) }
    ensures reads { ReadsOnly D.seen D.image D.clock D.since D.lasts D.faults D.cut_after disk.old
        disk.new (is_ok result) 1 }
    ensures count { CountsFaults (D.faults disk.old) (D.faults disk.new) result }
{
    disk.read(at, buf)
}

fn byte_at<D: Disk>(disk: &mut D, at: u64) -> Result<u8, Failed>
    requires { at < length (D.seen disk.old) }
    ensures byte { IfOk result (λ byte. drop at (D.seen disk.old)
        ≡ byte ∷ drop (at + 1) (D.seen disk.old)) }
    ensures reads { ReadsOnly D.seen D.image D.clock D.since D.lasts D.faults D.cut_after disk.old
        disk.new (is_ok result) 1 }
    ensures count { CountsFaults (D.faults disk.old) (D.faults disk.new) result }
{
    let mut one = [0];
    read_at(disk, at, &mut one)?;
    Ok(one[0])
}

// The number of four bytes, the highest first.
fn number_of(four: &[u8]) -> u32
    requires { length four.now ≡ 4 }
    ensures { to_be_bytes w32 result ≡ four.now }
{
    u32::from_be_bytes([four[0], four[1], four[2], four[3]])
}

fn number_at<D: Disk>(disk: &mut D, at: u64) -> Result<u32, Failed>
    requires { at + 4 ≤ length (D.seen disk.old) }
    ensures number { IfOk result (λ number. to_be_bytes w32 number
        ≡ take 4 (drop at (D.seen disk.old))) }
    ensures reads { ReadsOnly D.seen D.image D.clock D.since D.lasts D.faults D.cut_after disk.old
        disk.new (is_ok result) 1 }
    ensures count { CountsFaults (D.faults disk.old) (D.faults disk.new) result }
{
    let mut four = [0; 4];
    read_at(disk, at, &mut four)?;
    Ok(number_of(&four))
}

// The text after an open gate, with so many bytes left after its length: how long it is, where it stands there whole and there
// is room for it.
fn text_at<D: Disk>(
    disk: &mut D,
    text: &mut [u8],
    at: u64,
    left: u64,
) -> Result<Option<usize>, Failed>
    requires left { at + 5 + left ≡ length (D.seen disk.old) }
    requires small { at + 5 + left < 2 ^ 64 }
    requires gate { drop at (D.seen disk.old) ≡ 1 ∷ drop (at + 1) (D.seen disk.old) }
    requires room { length text.old ≤ room_size }
    ensures found { IfOk result (λ found. IsTextOrNot (drop at (D.seen disk.old)) text.new found) }
    ensures reads { ReadsOnly D.seen D.image D.clock D.since D.lasts D.faults D.cut_after disk.old
        disk.new (is_ok result) (reads_of_text (length text.old)
        (drop (at + 1) (D.seen disk.old))) }
    ensures count { CountsFaults (D.faults disk.old) (D.faults disk.new) result }
{
    let count = number_at(disk, at + 1)?;
    if left < u64::from(count) {
        return Ok(None);
    }
    if text.len() < count as usize {
        return Ok(None);
    }
    read_at(disk, at + 5, &mut text[..count as usize])?;
    Ok(Some(count as usize))
}

/// What stands at a place of the disk, or after its end. The room for a text holds the text, where one stands there.
pub(crate) fn entry_at<D: Disk>(disk: &mut D, text: &mut [u8], at: u64) -> Result<Entry, Failed>
    requires within { at ≤ length (D.seen disk.old) }
    requires room { length text.old ≤ room_size }
    ensures entry { IfOk result (λ entry. IsEntry (drop at (D.seen disk.old)) text.new entry) }
    ensures reads { ReadsOnly D.seen D.image D.clock D.since D.lasts D.faults D.cut_after disk.old
        disk.new (is_ok result) (reads_at (length text.old) (drop at (D.seen disk.old))) }
    ensures count { CountsFaults (D.faults disk.old) (D.faults disk.new) result }
{
    let left = disk.size() - at;
    if left == 0 {
        return Ok(Entry::Neither);
    }
    let gate = byte_at(disk, at)?;
    if gate != 1 {
        return Ok(Entry::Closed);
    }
    if left < 5 {
        return Ok(Entry::Neither);
    }
    match text_at(disk, text, at, left - 5)? {
        Some(count) => Ok(Entry::Text { count }),
        None => Ok(Entry::Neither),
    }
}
