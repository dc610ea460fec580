//! What a live day takes before its first record comes: all its memory.
ghost use Rattle.std.specs.Prelude.{◌≡◌, None, [], IfOk};
ghost use Rattle.cash_amounts.specs.declared.limits.TheConstants.{MAX_ACCOUNTS, MAX_ENTRIES, MAX_ENTRIES_OF_DAY, MAX_MESSAGES, MAX_SYSTEMS};
ghost use Rattle.batch_records.specs.DayRecord.{Day};
ghost use Rattle.day_facts.specs.Room.{HasRoom};
ghost use Rattle.live_order.specs.Coming.{setup};
ghost use Rattle.live_records.specs.Ears.{HasAllRoom};
ghost use Rattle.settle_floor.specs.Room.{IsOpen};
ghost use Rattle.status_messages.specs.Walks.{Stands};
ghost use Rattle.live_day.specs.Rooms.{AreRooms, IsWithin};

use account_book::{BookRoom, TillRoom};
use batch_records::DayRoom;
use cash_amounts::{
    MAX_ACCOUNTS, MAX_ENTRIES, MAX_ENTRIES_OF_DAY, MAX_MESSAGES, MAX_SYSTEMS, Memory,
};
use live_records::OpenBatch;
use period_calendar::MIDNIGHT;
use rule_book::{KeptRoom, SettingRoom};
use settle_floor::Floor;
use status_messages::StatusWalk;
use std::alloc::Global;

/// Room for the greatest day.
#[derive(Drop)]
pub(crate) struct Rooms {
    pub coming: OpenBatch,
    pub day: DayRoom,
    pub book: BookRoom,
    pub kept: KeptRoom,
    pub till: TillRoom,
    pub setting: SettingRoom,
    pub floor: Floor,
    pub walk: StatusWalk,
}

// For the batch that is open, and the day.
fn day_room(alloc: Global) -> Result<(OpenBatch, DayRoom), Memory>
    ensures coming { IfOk result (λ parts. parts.0 ≡ record { batch = None; most = MAX_ENTRIES }) }
    ensures day { IfOk result (λ parts. HasAllRoom parts.1) }
{
    let coming = OpenBatch::with_room(alloc, MAX_ENTRIES)?;
    let day = DayRoom::take(alloc, MAX_MESSAGES, MAX_ENTRIES_OF_DAY, MIDNIGHT as usize)?;
    Ok((coming, day))
}

// For the book, what the accounts keep, and what they hold.
fn book_room(alloc: Global) -> Result<(BookRoom, KeptRoom, TillRoom), Memory>
    ensures book { IfOk result (λ parts. parts.0
        ≡ record { accounts = MAX_ACCOUNTS; systems = MAX_SYSTEMS }) }
    ensures kept { IfOk result (λ parts. parts.1 ≡ MAX_ACCOUNTS) }
    ensures till { IfOk result (λ parts. parts.2 ≡ MAX_ACCOUNTS) }
{
    let book = BookRoom::take(alloc, MAX_ACCOUNTS, MAX_SYSTEMS)?;
    let kept = KeptRoom::take(alloc, MAX_ACCOUNTS)?;
    let till = TillRoom::take(alloc, MAX_ACCOUNTS)?;
    Ok((book, kept, till))
}

// All these, and what is found out about a day.
fn small_rooms(
    alloc: Global,
) -> Result<
    (
        (OpenBatch, DayRoom),
        (BookRoom, KeptRoom, TillRoom),
        SettingRoom,
    ),
    Memory,
>
    ensures coming { IfOk result (λ parts. parts.0.0
        ≡ record { batch = None; most = MAX_ENTRIES }) }
    ensures day { IfOk result (λ parts. HasAllRoom parts.0.1) }
    ensures book { IfOk result (λ parts. parts.1.0
        ≡ record { accounts = MAX_ACCOUNTS; systems = MAX_SYSTEMS }) }
    ensures kept { IfOk result (λ parts. parts.1.1 ≡ MAX_ACCOUNTS) }
    ensures till { IfOk result (λ parts. parts.1.2 ≡ MAX_ACCOUNTS) }
    ensures setting { IfOk result (λ parts. parts.2 ≡ record {
      accounts = MAX_ACCOUNTS;
      messages = MAX_MESSAGES;
      entries = MAX_ENTRIES_OF_DAY;
    }) }
{
    match day_room(alloc) {
        Ok(heard) => match book_room(alloc) {
            Ok(booked) => match SettingRoom::take(
                alloc,
                MAX_ACCOUNTS,
                MAX_MESSAGES as u32,
                MAX_ENTRIES_OF_DAY as u32,
            ) {
                Ok(setting) => Ok((heard, booked, setting)),
                Err(fault) => {
                    drop(heard);
                    drop(booked);
                    Err(fault)
                }
            },
            Err(fault) => {
                drop(heard);
                Err(fault)
            }
        },
        Err(fault) => Err(fault),
    }
}

// The walk along the lines of any day of which nothing but its setup has come, and the floor on which they are made.
fn first_floor(alloc: Global) -> Result<(StatusWalk, Floor), Memory>
    ensures stands { (day : Day) → IsWithin day
        → IfOk result (λ parts. Stands (setup day) [] parts.0) }
    ensures told { IfOk result (λ parts. HasRoom MAX_MESSAGES MAX_ENTRIES_OF_DAY parts.0.facts) }
    ensures empty { IfOk result (λ parts. parts.1.journal.history ≡ []) }
    ensures opened { (day : Day) → IsWithin day
        → IfOk result (λ parts. IsOpen (setup day) MAX_MESSAGES MAX_ENTRIES_OF_DAY parts.1) }
{
    let accounts = MAX_ACCOUNTS as u32;
    let systems = MAX_SYSTEMS as u32;
    let messages = MAX_MESSAGES as u32;
    let entries = MAX_ENTRIES_OF_DAY as u32;
    match StatusWalk::empty(alloc, accounts, systems, messages, entries) {
        Ok(walk) => match Floor::empty(alloc, accounts, systems, messages, entries) {
            Ok(floor) => Ok((walk, floor)),
            Err(fault) => {
                drop(walk);
                Err(fault)
            }
        },
        Err(fault) => Err(fault),
    }
}

impl Rooms {
    /// Room for the greatest day, before there is any. All memory of a live day but that of its setup is taken here, and `Memory` says
    /// that there wasn't that much.
    pub(crate) fn take(alloc: Global) -> Result<Rooms, Memory>
        ensures { IfOk result (λ rooms. AreRooms rooms) }
    {
        match first_floor(alloc) {
            Ok((walk, floor)) => match small_rooms(alloc) {
                Ok(((coming, day), (book, kept, till), setting)) => Ok(Rooms {
                    coming,
                    day,
                    book,
                    kept,
                    till,
                    setting,
                    floor,
                    walk,
                }),
                Err(fault) => {
                    drop(walk);
                    drop(floor);
                    Err(fault)
                }
            },
            Err(fault) => Err(fault),
        }
    }
}
