//! The journal on a disk is found: its lines are read one after the other, and the machine makes each of them again.
ghost use Rattle.std.specs.Prelude.{◌≡◌, ◌+◌, ◌^◌, ◌≤◌, true, false, [], ◌∷◌, length, drop, Some, is_ok, IfOk};
ghost use Rattle.cash_amounts.specs.Numbers.{numbered};
ghost use Rattle.outside_io.specs.Causes.{CountsFaults};
ghost use Rattle.commit_journal.specs.declared.move_list.TheConstants.{MAX_MOVES};
ghost use Rattle.commit_journal.specs.Line.{Line};
ghost use Rattle.settle_floor.specs.Floors.{AtWork};
ghost use Rattle.journal_replay.specs.Verdicts.{next_line};
ghost use Rattle.durable_day.specs.Found.{IsNext, IsFound};
ghost use Rattle.durable_day.specs.Pieces.{room_size};
ghost use Rattle.durable_day.specs.Reads.{ReadsOnly, finding_time, reads_at};

use crate::reading::{Entry, entry_at};
use account_book::OneTill;
use commit_journal::{MAX_MOVES, MoveList};
use disk_model::Disk;
use journal_replay::follow_line;
use outside_io::Failed;
use rule_book::Setting;
use settle_floor::Floor;

/// What was found on a disk.
#[derive(Clone, Copy)]
pub(crate) enum Found {
    /// A legal journal, whose closed gate stands at this place.
    Stands { end: u64 },
    /// None. At this place, from 1, no line of one stands.
    Foreign { place: u32 },
}

// Whether the text is that of the machine's next line and of nothing else. If it is, floor and till have the line; if not, they are
// of no more use.
fn takes(
    setting: &Setting,
    floor: &mut Floor,
    till: &mut OneTill,
    moves: &mut MoveList,
    text: &[u8],
) -> bool
    requires at_work { AtWork setting.now.day floor.old (numbered till.old) }
    requires moves { moves.old ≡ record { moves = []; room = MAX_MOVES } }
    ensures taken { result ≡ true
        → (l : Line) × (next_line setting.now.day floor.old.journal.history text.now ≡ Some (l, []))
        × (floor.new.journal.history ≡ l ∷ floor.old.journal.history) }
    ensures other { result ≡ false → (l : Line)
        → next_line setting.now.day floor.old.journal.history text.now ≡ Some (l, []) → ⊥ }
    ensures at_work { AtWork setting.now.day floor.new (numbered till.new) }
    ensures moves { moves.new ≡ record { moves = []; room = MAX_MOVES } }
{
    match follow_line(setting, floor, till, moves, text) {
        Some((_, rest)) => rest.is_empty(),
        None => false,
    }
}

// What stands at a place of the disk, where a line counts only if it is the machine's next one.
fn next_at<D: Disk>(
    setting: &Setting,
    floor: &mut Floor,
    till: &mut OneTill,
    moves: &mut MoveList,
    text: &mut [u8],
    disk: &mut D,
    at: u64,
) -> Result<Entry, Failed>
    requires at_work { AtWork setting.now.day floor.old (numbered till.old) }
    requires moves { moves.old ≡ record { moves = []; room = MAX_MOVES } }
    requires room { length text.old ≡ room_size }
    requires within { at ≤ length (D.seen disk.old) }
    ensures next { IfOk result (λ entry. IsNext setting.now.day floor.old.journal.history
        (drop at (D.seen disk.old)) floor.new.journal.history entry) }
    ensures reads { ReadsOnly D.seen D.image D.clock D.since D.lasts D.faults D.cut_after disk.old
        disk.new (is_ok result) (reads_at room_size (drop at (D.seen disk.old))) }
    ensures count { CountsFaults (D.faults disk.old) (D.faults disk.new) result }
    ensures at_work { AtWork setting.now.day floor.new (numbered till.new) }
    ensures moves { moves.new ≡ record { moves = []; room = MAX_MOVES } }
{
    match entry_at(disk, text, at)? {
        Entry::Text { count } => {
            if takes(setting, floor, till, moves, &text[..count]) {
                Ok(Entry::Text { count })
            } else {
                Ok(Entry::Neither)
            }
        }
        Entry::Closed => Ok(Entry::Closed),
        Entry::Neither => Ok(Entry::Neither),
    }
}

/// Finds the journal on the disk. Floor and till, which are those of the opening of the day, then have its lines; where none is
/// found they are of no more use. Nothing is written, and each line takes three calls of the disk. The room is for the text of one
/// line.
#[inline(never)]
pub(crate) fn recover<D: Disk>(
    setting: &Setting,
    floor: &mut Floor,
    till: &mut OneTill,
    moves: &mut MoveList,
    text: &mut [u8],
    disk: &mut D,
) -> Result<Found, Failed>
    requires at_work { AtWork setting.now.day floor.old (numbered till.old) }
    requires empty { floor.old.journal.history ≡ [] }
    requires moves { moves.old ≡ record { moves = []; room = MAX_MOVES } }
    requires room { length text.old ≡ room_size }
    ensures found { IfOk result (λ found. IsFound setting.now.day (D.seen disk.old)
        floor.new.journal.history found) }
    ensures reads { ReadsOnly D.seen D.image D.clock D.since D.lasts D.faults D.cut_after disk.old
        disk.new (is_ok result) (finding_time setting.now.day (D.seen disk.old)) }
    ensures count { CountsFaults (D.faults disk.old) (D.faults disk.new) result }
    ensures at_work { AtWork setting.now.day floor.new (numbered till.new) }
{
    let mut at = 0;
    let mut lines = 0;
    'lines: loop {
        match next_at(setting, floor, till, moves, text, disk, at) {
            Ok(Entry::Text { count }) => {
                at += 5 + count as u64;
                lines += 1;
            }
            Ok(Entry::Closed) => return Ok(Found::Stands { end: at }),
            Ok(Entry::Neither) => return Ok(Found::Foreign { place: lines + 1 }),
            Err(failed) => return Err(failed),
        }
    }
}
