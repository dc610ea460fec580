//! A store: the journal of a day at work, each line of which is on a disk before it is acknowledged.
ghost use Rattle.std.specs.Prelude.{◌≡◌, ◌⊎◌, ◌+◌, ◌<◌, ◌≤◌, [], length, drop, map, is_ok, IfOk, OnErr};
ghost use Rattle.cash_amounts.specs.Numbers.{numbered};
ghost use Rattle.outside_io.specs.Causes.{one_more};
ghost use Rattle.commit_journal.specs.declared.move_list.TheConstants.{MAX_MOVES};
ghost use Rattle.disk_model.specs.Crashes.{Only};
ghost use Rattle.disk_model.specs.Cut.{IsCut};
ghost use Rattle.disk_model.specs.Lasting.{StillLasts};
ghost use Rattle.disk_model.specs.Runs.{LeavesOnly, OnlyLooks};
ghost use Rattle.settle_floor.specs.Floors.{AtWork};
ghost use Rattle.durable_day.specs.Appending.{newest_by, newest_bytes};
ghost use Rattle.durable_day.specs.Bytes.{StandsFor};
ghost use Rattle.durable_day.specs.Pieces.{room_size};
ghost use Rattle.durable_day.specs.Reads.{finding_time};
ghost use Rattle.durable_day.specs.Stores.{CutsOpening, IsDurable, IsStore, Opens, disk_at_end, disk_of, opening_time};

use crate::appending::store_line;
use crate::open_fault::OpenFault;
use crate::recovery::{Found, recover};
use crate::room::{PieceRoom, ROOM_SIZE};
use account_book::OneTill;
use cash_amounts::Memory;
use commit_journal::{MAX_MOVES, MoveList};
use disk_model::Disk;
use refused_memory::filled;
use rule_book::Setting;
use settle_floor::Floor;
use std::alloc::Global;
use std::marker::Model;

/// The journal of a day on a disk, at work. Contracts see the day, the lines of the journal, and the disk. The journal is always a
/// legal one of the day, and the disk stands for it whatever a crash leaves.
#[derive(Drop)]
pub struct Store<D: Disk> {
    pub(crate) setting: Setting,
    pub(crate) floor: Floor,
    pub(crate) till: OneTill,
    pub(crate) piece: PieceRoom,
    pub(crate) end: u64,
    pub(crate) disk: D,
}

impl<D: Disk> Model for Store<D> {
    ghost use Rattle.durable_day.specs.OpenStores.{IsOpen};
    ghost use Rattle.durable_day.specs.Stores.{OnStore};

    ghost Value = { OnStore D };

    ghost view = { λ s. record {
      day = s.setting.day;
      history = s.floor.journal.history;
      disk = s.disk;
    } };

    ghost invariant = { λ s. IsOpen D.seen D.image s.setting.day s.floor s.till s.end s.disk };
}

// What an opening needs besides the floor.
#[derive(Drop)]
struct Kit {
    till: OneTill,
    moves: MoveList,
    room: Vec<u8>,
}

fn new_kit(alloc: Global, setting: &Setting) -> Result<Kit, Memory>
    ensures till { IfOk result (λ kit. kit.till ≡ map (λ r. r.opening) setting.now.book.accounts) }
    ensures moves { IfOk result (λ kit. kit.moves ≡ record { moves = []; room = MAX_MOVES }) }
    ensures room { IfOk result (λ kit. length kit.room.items ≡ room_size) }
{
    let till = OneTill::open(alloc, &setting.book)?;
    let moves = MoveList::with_room(alloc, MAX_MOVES)?;
    let room = filled(alloc, 0u8, ROOM_SIZE)?;
    Ok(Kit { till, moves, room })
}

// A floor for an opening.
#[inline(never)]
fn new_floor(alloc: Global, setting: &Setting) -> Result<Floor, Memory>
    ensures empty { IfOk result (λ floor. floor.journal.history ≡ []) }
    ensures at_work { IfOk result (λ floor. AtWork setting.now.day floor
        (numbered (map (λ r. r.opening) setting.now.book.accounts))) }
{
    Floor::open(alloc, setting)
}

// A floor that is of no more use.
#[inline(never)]
fn let_go(floor: Floor) {
    drop(floor.into_journal());
}

// The store of these parts, with room for a line's bytes.
#[inline(never)]
fn store_over<D: Disk>(
    setting: Setting,
    floor: Floor,
    till: OneTill,
    room: Vec<u8>,
    end: u64,
    disk: D,
) -> Store<D>
    requires at_work { AtWork setting.day floor (numbered till) }
    requires room { length room.items ≡ room_size }
    requires durable { IsDurable D.seen D.image floor.journal.history end disk }
    ensures parts { result ≡ record {
      day = setting.day;
      history = floor.journal.history;
      disk = disk;
    } }
    ensures known { IsStore D.seen D.image result }
{
    let piece = PieceRoom::over(room);
    Store::of(setting, floor, till, piece, end, disk)
}

// The store of what is found on a disk that was synced.
fn found<D: Disk>(
    setting: Setting,
    floor: Floor,
    kit: Kit,
    disk: D,
) -> Result<Store<D>, OpenFault<D>>
    requires at_work { AtWork setting.day floor (numbered kit.till) }
    requires empty { floor.journal.history ≡ [] }
    requires moves { kit.moves ≡ record { moves = []; room = MAX_MOVES } }
    requires room { length kit.room.items ≡ room_size }
    requires synced { Only (D.seen disk) (D.image disk) }
    ensures looks { OnlyLooks D.seen D.image D.clock D.since disk (disk_of result)
        (finding_time setting.day (D.seen disk)) }
    ensures opens { Opens D.seen D.image D.faults setting.day disk result }
    ensures sure { StillLasts D.lasts D.faults disk (disk_of result)
        (finding_time setting.day (D.seen disk)) 0 0 }
    ensures cut { CutsOpening D.seen D.cut_after disk (finding_time setting.day (D.seen disk)) 0
        result }
{
    let Kit { till, moves, room } = kit;
    let mut floor = floor;
    let mut till = till;
    let mut moves = moves;
    let mut room = room;
    let mut disk = disk;
    match recover(
        &setting, &mut floor, &mut till, &mut moves, &mut room, &mut disk,
    ) {
        Ok(Found::Stands { end }) => Ok(store_over(setting, floor, till, room, end, disk)),
        Ok(Found::Foreign { place }) => {
            let_go(floor);
            drop(setting);
            Err(OpenFault::Foreign { disk, place })
        }
        Err(_) => {
            let_go(floor);
            drop(setting);
            Err(OpenFault::Fault { disk })
        }
    }
}

// The same, with the rest of what it needs.
#[inline(never)]
fn find_by<D: Disk>(
    alloc: Global,
    setting: Setting,
    floor: Floor,
    disk: D,
) -> Result<Store<D>, OpenFault<D>>
    requires at_work { AtWork setting.day floor
        (numbered (map (λ r. r.opening) setting.book.accounts)) }
    requires empty { floor.journal.history ≡ [] }
    requires synced { Only (D.seen disk) (D.image disk) }
    ensures looks { OnlyLooks D.seen D.image D.clock D.since disk (disk_of result)
        (finding_time setting.day (D.seen disk)) }
    ensures opens { Opens D.seen D.image D.faults setting.day disk result }
    ensures sure { StillLasts D.lasts D.faults disk (disk_of result)
        (finding_time setting.day (D.seen disk)) 0 0 }
    ensures cut { CutsOpening D.seen D.cut_after disk (finding_time setting.day (D.seen disk)) 0
        result }
{
    match new_kit(alloc, &setting) {
        Ok(kit) => found(setting, floor, kit, disk),
        Err(memory) => {
            let_go(floor);
            drop(setting);
            Err(OpenFault::Memory { disk, memory })
        }
    }
}

// The same, with a floor that is opened for it.
fn find<D: Disk>(alloc: Global, setting: Setting, disk: D) -> Result<Store<D>, OpenFault<D>>
    requires synced { Only (D.seen disk) (D.image disk) }
    ensures looks { OnlyLooks D.seen D.image D.clock D.since disk (disk_of result)
        (finding_time setting.day (D.seen disk)) }
    ensures opens { Opens D.seen D.image D.faults setting.day disk result }
    ensures sure { StillLasts D.lasts D.faults disk (disk_of result)
        (finding_time setting.day (D.seen disk)) 0 0 }
    ensures cut { CutsOpening D.seen D.cut_after disk (finding_time setting.day (D.seen disk)) 0
        result }
{
    match new_floor(alloc, &setting) {
        Ok(floor) => find_by(alloc, setting, floor, disk),
        Err(memory) => {
            drop(setting);
            Err(OpenFault::Memory { disk, memory })
        }
    }
}

impl<D: Disk> Store<D> {
    // The store of these parts.
    pub(crate) fn of(
        setting: Setting,
        floor: Floor,
        till: OneTill,
        piece: PieceRoom,
        end: u64,
        disk: D,
    ) -> Store<D>
        requires at_work { AtWork setting.day floor (numbered till) }
        requires durable { IsDurable D.seen D.image floor.journal.history end disk }
        ensures parts { result ≡ record {
          day = setting.day;
          history = floor.journal.history;
          disk = disk;
        } }
        ensures known { IsStore D.seen D.image result }
    {
        Store {
            setting,
            floor,
            till,
            piece,
            end,
            disk,
        }
    }

    // The store with the newest line of the floor, once this line is on the disk after those before it.
    pub(crate) fn with_newest(
        setting: Setting,
        floor: Floor,
        till: OneTill,
        mut piece: PieceRoom,
        end: u64,
        mut disk: D,
    ) -> Result<Store<D>, D>
        requires at_work { AtWork setting.day floor (numbered till) }
        requires some { 0 < length floor.journal.history }
        requires older { IsDurable D.seen D.image (drop 1 floor.journal.history) end disk }
        ensures made { IfOk result (λ store. (store.day ≡ setting.day)
            × (store.history ≡ floor.journal.history) × IsStore D.seen D.image store
            × (D.faults store.disk ≡ D.faults disk)) }
        ensures fault { OnErr result (D.faults (disk_at_end result) ≡ one_more (D.faults disk)) }
        ensures moments { LeavesOnly D.clock D.since disk (disk_at_end result)
            (λ c. StandsFor (drop 1 floor.journal.history) c ⊎ StandsFor floor.journal.history c) }
        ensures time { D.clock (disk_at_end result) ≤ D.clock disk + 4 }
        ensures sure { StillLasts D.lasts D.faults disk (disk_at_end result) 4 4
            (newest_bytes floor.journal.history) }
        ensures cut { IsCut D.seen D.cut_after disk (disk_at_end result) (is_ok result) 4 4
            (newest_bytes floor.journal.history)
            (newest_by floor.journal.history (D.seen disk)) }
    {
        match store_line(&setting, floor.journal(), &mut piece, &mut disk, end) {
            Ok(end) => Ok(Store::of(setting, floor, till, piece, end, disk)),
            Err(_) => {
                let_go(floor);
                drop(setting);
                Err(disk)
            }
        }
    }

    /// Opens the store on a disk for the day of the setting, and finds the journal that its bytes stand for. It begins with a sync and
    /// writes nothing, and takes all memory that the day can need. With `OpenFault` the disk is handed back.
    #[inline(never)]
    pub fn open(alloc: Global, setting: Setting, disk: D) -> Result<Store<D>, OpenFault<D>>
        ensures looks { OnlyLooks D.seen D.image D.clock D.since disk (disk_of result)
            (opening_time setting.day (D.seen disk)) }
        ensures opens { Opens D.seen D.image D.faults setting.day disk result }
        ensures sure { StillLasts D.lasts D.faults disk (disk_of result)
            (opening_time setting.day (D.seen disk)) 1 0 }
        ensures cut { CutsOpening D.seen D.cut_after disk (opening_time setting.day (D.seen disk)) 1
            result }
    {
        let mut disk = disk;
        match disk.sync() {
            Ok(()) => find(alloc, setting, disk),
            Err(_) => {
                drop(setting);
                Err(OpenFault::Fault { disk })
            }
        }
    }
}
