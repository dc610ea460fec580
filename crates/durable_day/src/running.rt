//! What is answered over a day and the bytes after it.
ghost use Rattle.std.specs.Prelude.{◌≡◌, ◌≤◌, ℕ, ◌+◌, ◌*◌, List, length, is_ok, IfOk};
ghost use Rattle.refused_memory.specs.declared.lists.TheConstants.{MOST};
ghost use Rattle.outside_io.specs.Calls.{Puts};
ghost use Rattle.machine.specs.Orders.Bounds.{most_lines};
ghost use Rattle.disk_model.specs.Cut.{IsCut, once};
ghost use Rattle.disk_model.specs.Memory.{CutAfter, disk_seen, new_disk};
ghost use Rattle.durable_day.specs.declared.words.Request.TheVariants as requests;
ghost use Rattle.program_answers.specs.Giving.{Says, SaysOneIfRoom};
ghost use Rattle.durable_day.specs.Answers.{AnswersOver, SaysOne, foreign_text, making_time, shown_text, store_of};
ghost use Rattle.durable_day.specs.Running.{IsFresh, IsMadeOf, IsReady, RunsOut, SaysOneOrBack, either, most_bytes, status_of};

use crate::new_store::format;
use crate::open_fault::OpenFault;
use crate::output::{put_foreign, put_shown};
use crate::sizes::{records_for, room_for};
use crate::store::Store;
use crate::words::Request;
use cash_amounts::Memory;
use commit_journal::Journal;
use disk_model::{Disk, MemDisk};
use outside_io::{Sink, put_all};
use program_answers::{Rest, status_after};
use refused_memory::copied;
use rule_book::Setting;
use std::alloc::Global;

// ---- what is written

fn say_bytes<S: Sink>(status: u8, bytes: &[u8], output: &mut S) -> u8
    ensures { Says (S.state output.old) (S.state output.new)
        (record { status = status; text = bytes.now }) result }
{
    status_after(status, put_all(output, bytes))
}

// Writes the bytes of a disk as a read gives them.
fn say_disk<S: Sink>(status: u8, disk: &MemDisk, output: &mut S) -> u8
    ensures { Says (S.state output.old) (S.state output.new)
        (record { status = status; text = disk_seen disk.now }) result }
{
    say_bytes(status, disk.bytes(), output)
}

fn say_foreign<S: Sink>(place: u32, output: &mut S) -> u8
    ensures { Says (S.state output.old) (S.state output.new)
        (record { status = 9; text = foreign_text place }) result }
{
    status_after(9, put_foreign(place, output))
}

fn say_journal<S: Sink>(journal: &Journal, output: &mut S) -> u8
    ensures { Says (S.state output.old) (S.state output.new)
        (record { status = 0; text = shown_text journal.now.history }) result }
{
    status_after(0, put_shown(journal, output))
}

// ---- the disk

// A disk with the bytes after a day, of which so many calls pass. The input is let go.
fn disk_over(
    alloc: Global,
    rest: Rest,
    room: usize,
    records: usize,
    passes: u32,
) -> Result<MemDisk, Memory>
    requires { (room ≤ MOST) × (records ≤ MOST) }
    ensures { IfOk result (λ disk. disk ≡ new_disk rest room records passes) }
{
    let bytes = copied(alloc, rest.as_slice())?;
    MemDisk::make(alloc, bytes, room, records, passes)
}

// The disk, which is made a new store where it has no bytes.
fn made(disk: MemDisk) -> Result<MemDisk, MemDisk>
    ensures store { IfOk result (λ new. disk_seen new ≡ store_of (disk_seen disk)) }
    ensures kept { IfOk result (λ new. new.faults ≡ disk.faults) }
    ensures cut { IsCut disk_seen CutAfter disk (either result) (is_ok result)
        (making_time (disk_seen disk)) 2 1
        (once (disk_seen disk) (store_of (disk_seen disk))) }
{
    let mut disk = disk;
    if disk.size() != 0 {
        return Ok(disk);
    }
    match format(&mut disk) {
        Ok(()) => Ok(disk),
        Err(_) => Err(disk),
    }
}

// ---- a run

// Goes on to the end of the day, and writes the bytes of the disk.
#[inline(never)]
fn run_store<S: Sink>(store: Store<MemDisk>, output: &mut S) -> u8
    ensures { (calls : ℕ) → IsReady calls store.day store.history store.disk
        → SaysOne (S.state output.old) (S.state output.new)
        (RunsOut calls store.day store.history (disk_seen store.disk)) result }
{
    match store.go_on() {
        Ok(store) => {
            let (_, disk) = store.close();
            say_disk(0, &disk, output)
        }
        Err(disk) => say_disk(8, &disk, output),
    }
}

// Where memory is wanting the disk is handed back: no call of it failed.
fn run_opened<S: Sink>(
    alloc: Global,
    setting: Setting,
    disk: MemDisk,
    output: &mut S,
) -> Result<u8, MemDisk>
    ensures { (calls : ℕ) (rest : List ℕ)
        → IsMadeOf calls (1 + 4 * most_lines setting.day) (most_bytes setting.day) rest disk
        → SaysOneOrBack S.state output.old output.new
        (AnswersOver (requests.Run calls) setting.day rest) result }
{
    match Store::open(alloc, setting, disk) {
        Ok(store) => Ok(run_store(store, output)),
        Err(OpenFault::Fault { disk }) => Ok(say_disk(8, &disk, output)),
        Err(OpenFault::Foreign { disk: _, place }) => Ok(say_foreign(place, output)),
        Err(OpenFault::Memory { disk, .. }) => Err(disk),
    }
}

fn run_disk<S: Sink>(
    alloc: Global,
    setting: Setting,
    disk: MemDisk,
    output: &mut S,
) -> Result<u8, MemDisk>
    ensures { (calls : ℕ) (rest : List ℕ)
        → IsFresh calls (3 + 4 * most_lines setting.day) (1 + most_bytes setting.day) rest disk
        → SaysOneOrBack S.state output.old output.new
        (AnswersOver (requests.Run calls) setting.day rest) result }
{
    match made(disk) {
        Ok(disk) => run_opened(alloc, setting, disk, output),
        Err(disk) => Ok(say_disk(8, &disk, output)),
    }
}

// The status of a run that came to its end, or whose disk was handed back.
fn status_of(ended: Result<u8, MemDisk>) -> u8
    ensures { result ≡ status_of ended }
{
    match ended {
        Ok(status) => status,
        Err(_) => 1,
    }
}

#[inline(never)]
fn run_rest<S: Sink>(alloc: Global, setting: Setting, calls: u32, rest: Rest, output: &mut S) -> u8
    ensures { SaysOneIfRoom S.state output.old output.new
        (AnswersOver (requests.Run calls) setting.day rest) result }
{
    let room = room_for(&setting);
    let records = records_for(&setting);
    match disk_over(alloc, rest, room, records, calls) {
        Ok(disk) => status_of(run_disk(alloc, setting, disk, output)),
        Err(_) => 1,
    }
}

// ---- what is shown

fn show_store<S: Sink>(store: Store<MemDisk>, output: &mut S) -> u8
    ensures { Says (S.state output.old) (S.state output.new)
        (record { status = 0; text = shown_text store.history }) result }
{
    let (journal, _) = store.close();
    say_journal(&journal, output)
}

fn show_opened<S: Sink>(alloc: Global, setting: Setting, disk: MemDisk, output: &mut S) -> u8
    requires made { (rest : List ℕ) × IsMadeOf 4294967295 1 0 rest disk }
    ensures { (rest : List ℕ) → IsMadeOf 4294967295 1 0 rest disk
        → SaysOneIfRoom S.state output.old output.new (AnswersOver requests.Show setting.day rest)
        result }
{
    match Store::open(alloc, setting, disk) {
        Ok(store) => show_store(store, output),
        Err(OpenFault::Fault { disk: _ }) => unreachable!(),
        Err(OpenFault::Foreign { disk: _, place }) => say_foreign(place, output),
        Err(OpenFault::Memory { .. }) => 1,
    }
}

fn show_disk<S: Sink>(alloc: Global, setting: Setting, disk: MemDisk, output: &mut S) -> u8
    requires fresh { (rest : List ℕ) × IsFresh 4294967295 3 1 rest disk }
    ensures { (rest : List ℕ) → IsFresh 4294967295 3 1 rest disk
        → SaysOneIfRoom S.state output.old output.new (AnswersOver requests.Show setting.day rest)
        result }
{
    match made(disk) {
        Ok(disk) => show_opened(alloc, setting, disk, output),
        Err(_) => unreachable!(),
    }
}

#[inline(never)]
fn show_rest<S: Sink>(alloc: Global, setting: Setting, rest: Rest, output: &mut S) -> u8
    ensures { SaysOneIfRoom S.state output.old output.new
        (AnswersOver requests.Show setting.day rest) result }
{
    match disk_over(alloc, rest, 1, 3, u32::MAX) {
        Ok(disk) => show_disk(alloc, setting, disk, output),
        Err(_) => 1,
    }
}

/// Answers over a day and the bytes after it.
pub(crate) fn answer_rest<S: Sink>(
    alloc: Global,
    request: Request,
    setting: Setting,
    rest: Rest,
    output: &mut S,
) -> u8
    ensures { SaysOneIfRoom S.state output.old output.new (AnswersOver request setting.day rest)
        result }
{
    match request {
        Request::Run { calls } => run_rest(alloc, setting, calls, rest, output),
        Request::Show => show_rest(alloc, setting, rest, output),
    }
}
