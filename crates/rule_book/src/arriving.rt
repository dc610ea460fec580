//! A setting whose day grows, within room that was taken before.
ghost use Rattle.std.specs.Prelude.{◌≡◌, ◌≤◌, ◌<◌, ◌+◌, ℕ, [], length, true, IfOk};
ghost use Rattle.refused_memory.specs.declared.lists.TheConstants.{MOST};
ghost use Rattle.batch_records.specs.Sound.{is_sound};
ghost use Rattle.rule_book.specs.Coming.{LacksLast, last_entries};
ghost use Rattle.rule_book.specs.Room.{DayHasRoom, FoundHasRoom, HasRoom, TablesHaveRoom};
ghost use Rattle.rule_book.specs.Settings.{IsFound, kept_of, setup_of};
ghost use Rattle.rule_book.specs.Tables.{AreTables};

use crate::batch_tables::BatchTables;
use crate::debtor_sums::DebtorSums;
use crate::found::Found;
use crate::kept::Kept;
use crate::parties::PartiesRoom;
use crate::setting::Setting;
use account_book::Book;
use batch_records::Day;
use cash_amounts::Memory;
use std::alloc::Global;
use std::marker::Model;

/// Takes the last message of a sound day, by its book, into what is found out about the day as it was before that message came. Takes no
/// memory. It is for one who has put a message to the day of a setting, which is that of the day again with it.
pub fn take_last(day: &Day, book: &Book, found: &mut Found, tables: &mut BatchTables)
    requires sound { is_sound day.now ≡ true }
    requires filed { book.now ≡ setup_of day.now }
    requires next { LacksLast day.now found.old tables.old }
    requires found_room { FoundHasRoom 1 (last_entries day.now) found.old }
    requires tables_room { TablesHaveRoom (last_entries day.now) tables.old }
    ensures found_out { IsFound day.now found.new }
    ensures tabled { AreTables day.now tables.new }
    ensures found_room { (messages more : ℕ)
        → FoundHasRoom (messages + 1) (more + last_entries day.now) found.old
        → FoundHasRoom messages more found.new }
    ensures tables_room { (more : ℕ) → TablesHaveRoom (more + last_entries day.now) tables.old
        → TablesHaveRoom more tables.new }
{
    let n = day.message_count() as u32;
    found.arrive(day, book, n);
    tables.arrive(day, book, found, n);
}

/// Room for what is found out about a day, which is taken before there is one. Contracts see for how many accounts, messages and entries
/// of all messages.
#[derive(Drop)]
pub struct SettingRoom {
    found: Found,
    debts: DebtorSums,
    parties: PartiesRoom,
    accounts: usize,
    messages: u32,
    entries: u32,
}

impl Model for SettingRoom {
    ghost use Rattle.rule_book.specs.Free.{HasNothing};
    ghost use Rattle.rule_book.specs.Room.{SettingRoom};

    ghost Value = { SettingRoom };

    ghost view = { λ r. record {
      accounts = r.accounts;
      messages = r.messages;
      entries = r.entries;
    } };

    ghost invariant = { λ r. HasNothing r.found r.debts r.parties r.accounts r.messages r.entries };
}

impl SettingRoom {
    /// Room for so many accounts, messages, and entries of all messages. `Memory` says that there wasn't that much.
    pub fn take(
        alloc: Global,
        accounts: usize,
        messages: u32,
        entries: u32,
    ) -> Result<SettingRoom, Memory>
        requires { accounts ≤ MOST }
        ensures { IfOk result (λ room. room
            ≡ record { accounts = accounts; messages = messages; entries = entries }) }
    {
        let found = Found::with_room(alloc, messages, entries)?;
        let debts = DebtorSums::with_room(alloc, entries)?;
        let parties = PartiesRoom::take(alloc, accounts, entries)?;
        Ok(SettingRoom {
            found,
            debts,
            parties,
            accounts,
            messages,
            entries,
        })
    }
}

impl Setting {
    /// The setting of a sound day to which no message has come, in room that was taken for it, by the book of the day and what its
    /// accounts keep. Takes no memory.
    pub fn in_room(room: SettingRoom, day: Day, book: Book, kept: Kept) -> Setting
        requires sound { is_sound day ≡ true }
        requires none { day.messages ≡ [] }
        requires filed { book ≡ setup_of day }
        requires entered { kept ≡ kept_of day }
        requires accounts { length day.accounts ≤ room.accounts }
        requires room { DayHasRoom room.messages room.entries day }
        ensures day { result.day ≡ day }
        ensures room { HasRoom room.messages room.entries result.day result.found result.tables }
    {
        let tables = BatchTables::in_room(room.debts, room.parties, &day, &book);
        Setting {
            day,
            book,
            kept,
            found: room.found,
            tables,
        }
    }
}
