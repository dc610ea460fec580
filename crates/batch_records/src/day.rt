//! A day, as its file states it.

ghost use Rattle.std.specs.Prelude.{◌+◌, ◌≡◌, ◌<◌, ◌≤◌, [], IfOk, Some, length, map, position, slice_get, sum_by, true};
ghost use Rattle.refused_memory.specs.declared.lists.TheConstants.{MOST};
ghost use Rattle.batch_records.specs.DayRecord.{no_room};
ghost use Rattle.batch_records.specs.Flat.{with_entries, without_entries};
ghost use Rattle.batch_records.specs.Growing.{entries_of, with_last_entry, with_record, with_stop, without_last};
ghost use Rattle.batch_records.specs.Counts.{one_if, record_count};
ghost use Rattle.batch_records.specs.Meets.{migrated};
ghost use Rattle.batch_records.specs.Parts.{entries_at};
ghost use Rattle.batch_records.specs.Versions.{begins_with_ver};
ghost use Rattle.batch_records.specs.Repeats.{is_named};
ghost use Rattle.batch_records.specs.RepeatsInWords.{earlier};
ghost use Rattle.batch_records.specs.Sound.{entries_in, is_sound};
ghost use Rattle.cash_amounts.specs.declared.limits.TheConstants.{MAX_ENTRIES_OF_DAY, MAX_MESSAGES};

use crate::held::{HeldMessages, HeldStops};
use crate::lists::{Accounts, Entries, Messages, Reserves, Stops, Systems};
use crate::versions::{begins_with_ver, migrated_version};
use cash_amounts::{
    AccountRecord, Cents, Memory, MessageNumber, MsgId, Name, Procedure, SystemRecord,
};
use period_calendar::BusinessDate;
use std::alloc::Global;
use std::marker::Model;

/// One move of a batch, between two accounts by name.
#[derive(Drop)]
pub struct Entry {
    /// The account that the money leaves.
    pub debit: Name,
    /// The account that it comes to.
    pub credit: Name,
    /// How much, in cents.
    pub amount: Cents,
}

/// What a dedicated cash account keeps for items of higher priority, in cents. Normal payments and liquidity transfers leave both
/// amounts on it, high payments the urgent one, and everything else leaves nothing.
#[derive(Drop)]
pub struct Reserve {
    /// The number of the account, from 1 in file order.
    pub account: u32,
    /// What it keeps for urgent items.
    pub urgent: Cents,
    /// What it keeps for high payments.
    pub high: Cents,
}

/// What a message asks for.
#[derive(Drop)]
pub enum Body {
    /// A batch of an ancillary system.
    Batch {
        /// The procedure by which it is settled.
        procedure: Procedure,
        /// The end of the information period, in seconds from midnight, where one is stated.
        info: Option<u32>,
        /// The time before which it isn't settled, in seconds from midnight, where one is stated: by a batch of A or B alone.
        from: Option<u32>,
        /// The end of the settlement period, in seconds from midnight, where one is stated.
        till: Option<u32>,
        /// How many entries the batch says it has.
        count: u32,
        /// What it says their amounts sum to, in cents.
        sum: Cents,
        /// The entries that it has, in file order.
        entries: Entries,
    },
    /// A payment of a bank.
    Pay {
        /// Of high priority, and else of normal.
        high: bool,
        /// The account that the money leaves.
        debit: Name,
        /// The account that it comes to.
        credit: Name,
        /// How much, in cents.
        amount: Cents,
    },
    /// A liquidity transfer of a bank.
    Liquidity {
        /// The account that the money leaves.
        debit: Name,
        /// The account that it comes to.
        credit: Name,
        /// How much, in cents.
        amount: Cents,
    },
    /// A bank's objection to a batch.
    Object {
        /// The system that sent the batch.
        system: Name,
        /// The identification of the batch.
        batch: MsgId,
    },
    /// A system's answer on the use of its fund for a batch.
    Confirm {
        /// The identification of the batch, which the system itself sent.
        batch: MsgId,
        /// The fund may be used for it.
        yes: bool,
    },
    /// The start or the end of a system's cycle.
    Cycle {
        /// It starts, and else it ends.
        start: bool,
    },
}

/// A message.
#[derive(Drop)]
pub struct Message {
    /// How many stops stand before it.
    pub round: u32,
    /// The name of the bank or system that sends it.
    pub sender: Name,
    /// The identification that its sender gave it.
    pub id: MsgId,
    /// What it asks for.
    pub body: Body,
}

/// What a message asks for, by its own record: a batch without its entries.
#[derive(Drop)]
pub enum RecordBody {
    /// A batch of an ancillary system.
    Batch {
        /// The procedure by which it is settled.
        procedure: Procedure,
        /// The end of the information period, in seconds from midnight, where one is stated.
        info: Option<u32>,
        /// The time before which it isn't settled, in seconds from midnight, where one is stated: by a batch of A or B alone.
        from: Option<u32>,
        /// The end of the settlement period, in seconds from midnight, where one is stated.
        till: Option<u32>,
        /// How many entries the batch says it has.
        count: u32,
        /// What it says their amounts sum to, in cents.
        sum: Cents,
    },
    /// A payment of a bank.
    Pay {
        /// Of high priority, and else of normal.
        high: bool,
        /// The account that the money leaves.
        debit: Name,
        /// The account that it comes to.
        credit: Name,
        /// How much, in cents.
        amount: Cents,
    },
    /// A liquidity transfer of a bank.
    Liquidity {
        /// The account that the money leaves.
        debit: Name,
        /// The account that it comes to.
        credit: Name,
        /// How much, in cents.
        amount: Cents,
    },
    /// A bank's objection to a batch.
    Object {
        /// The system that sent the batch.
        system: Name,
        /// The identification of the batch.
        batch: MsgId,
    },
    /// A system's answer on the use of its fund for a batch.
    Confirm {
        /// The identification of the batch, which the system itself sent.
        batch: MsgId,
        /// The fund may be used for it.
        yes: bool,
    },
    /// The start or the end of a system's cycle.
    Cycle {
        /// It starts, and else it ends.
        start: bool,
    },
}

/// A message's own record, without the entries of a batch.
#[derive(Drop)]
pub struct MessageRecord {
    /// How many stops stand before it.
    pub round: u32,
    /// The name of the bank or system that sends it.
    pub sender: Name,
    /// The identification that its sender gave it.
    pub id: MsgId,
    /// What it asks for.
    pub body: RecordBody,
}

/// A day: the version of its file, 1 to 3, its date, its accounts and systems, what accounts keep, its stops in seconds from
/// midnight and its messages, each in file order, and the room that it has for more of these: how many messages, entries of all
/// batches and stops it can have in all without taking memory. The machine doesn't look at the version, nor at the room.
#[derive(Drop)]
pub struct Day {
    version: u8,
    date: BusinessDate,
    accounts: Accounts,
    systems: Systems,
    reserves: Reserves,
    stops: HeldStops,
    messages: HeldMessages,
}

impl Model for Day {
    ghost use Rattle.batch_records.specs.DayRecord.{Day};

    ghost Value = { Day };

    ghost view = { λ d. record {
      version = d.version;
      date = d.date;
      accounts = d.accounts;
      systems = d.systems;
      reserves = d.reserves;
      stops = d.stops.list;
      messages = d.messages.list;
      room = record {
        messages = d.messages.most_messages;
        entries = d.messages.most_entries;
        stops = d.stops.most;
      };
    } };
}

/// Room for the messages and stops of a day, none of which has come.
#[derive(Drop)]
pub struct DayRoom {
    stops: HeldStops,
    messages: HeldMessages,
}

impl Model for DayRoom {
    ghost use Rattle.std.specs.Prelude.{◌≡◌, []};
    ghost use Rattle.batch_records.specs.DayRecord.{Room};

    ghost Value = { Room };

    ghost view = { λ r. record {
      messages = r.messages.most_messages;
      entries = r.messages.most_entries;
      stops = r.stops.most;
    } };

    ghost invariant = { λ r. (r.stops.list ≡ []) × (r.messages.list ≡ []) };
}

/// What is wrong with a record, in the order in which it is told.
#[derive(Clone, Copy, Debug, PartialEq, Eq)]
pub enum DayCode {
    /// It has another number of fields than its kind has; or it is a batch of a day of version 2 or 3 whose fields after the sixth
    /// aren't its information end, its earliest time and its settlement end, in this order, each at most once, or that has an
    /// earliest time and is of procedure C, D or E.
    Fields,
    /// Its first field is no kind of record, as RES is none in version 1; or a field that has to be one of some words is none of
    /// them.
    Kind,
    /// It stands first and is neither VER nor DAY, or stands after VER and isn't DAY; it is VER and doesn't stand first, or DAY
    /// and stands neither first nor after VER; it is a system, an account or what one keeps after a message or a stop, an entry after neither
    /// a batch nor an entry, or stands after END.
    Place,
    /// Its date is no date, or one of a year before 2023 or after 2099.
    Date,
    /// TARGET is closed on its date.
    Closed,
    /// A field that has to be a name is none.
    Name,
    /// A field that has to be an identification is none.
    Id,
    /// A field that has to be a count is none.
    Number,
    /// A field that has to be an amount is none, or one that a message or entry may not move.
    Amount,
    /// A time that a batch states is none; or a stop of time is none, is midnight or the end of the day, or is
    /// not above the stop before it.
    Time,
    /// It states what an earlier record stated: the name of a system, the name of an account, a system's technical
    /// account of a procedure, a system's fund, or what an account keeps.
    Twice,
    /// It doesn't fit the records before it: a system of a bank's name; a dedicated cash account with a link or of a
    /// system; a sub-account of no bank, without a system that lists C, or with money; a technical account of no system
    /// that lists its procedure, or with money; a fund of no system, or with a link; what no dedicated cash account keeps.
    Setup,
    /// With it there would be more than 256 systems, 4,096 accounts or 10^18 cents of openings; more messages, entries of the
    /// day or entries of a batch than the version has: 100,000, 1,000,000 and 10,000 in version 1, 100,000, 1,000,000 and
    /// 50,000 in version 2, 1,000,000, 2,000,000 and 50,000 in version 3; or an account would keep more than 10^18 cents.
    Limit,
    /// It is missing: the records end without END.
    Cut,
}

/// Why there is no day.
#[derive(Drop, Debug)]
pub enum DayFault {
    /// The first bad record, by its number from 1, and the first code that applies to it.
    Record { number: u32, code: DayCode },
    /// There was no memory left.
    Memory(Memory),
}

impl DayRoom {
    /// Room for so many messages, entries of all batches and stops. `Memory` says that there wasn't that much.
    pub fn take(
        alloc: Global,
        messages: usize,
        entries: usize,
        stops: usize,
    ) -> Result<DayRoom, Memory>
        requires { (messages ≤ MOST) × (entries ≤ MOST) × (stops ≤ MOST) }
        ensures { IfOk result (λ room. room
            ≡ record { messages = messages; entries = entries; stops = stops }) }
    {
        let stops = HeldStops::with_room(alloc, stops)?;
        let messages = HeldMessages::with_room(alloc, messages, entries)?;
        Ok(DayRoom { stops, messages })
    }
}

impl Day {
    /// The day that states this. It promises no room for more.
    pub fn of(
        version: u8,
        date: BusinessDate,
        accounts: Accounts,
        systems: Systems,
        reserves: Reserves,
        stops: Stops,
        messages: Messages,
    ) -> Day
        ensures { result ≡ record {
          version = version;
          date = date;
          accounts = accounts;
          systems = systems;
          reserves = reserves;
          stops = stops;
          messages = messages;
          room = no_room;
        } }
    {
        Day {
            version,
            date,
            accounts,
            systems,
            reserves,
            stops: HeldStops::of(stops),
            messages: HeldMessages::of(messages),
        }
    }

    /// The day that states this, to which no message and no stop has come, with this room for them. Takes no memory.
    pub fn in_room(
        version: u8,
        date: BusinessDate,
        accounts: Accounts,
        systems: Systems,
        reserves: Reserves,
        room: DayRoom,
    ) -> Day
        ensures { result ≡ record {
          version = version;
          date = date;
          accounts = accounts;
          systems = systems;
          reserves = reserves;
          stops = [];
          messages = [];
          room = room;
        } }
    {
        Day {
            version,
            date,
            accounts,
            systems,
            reserves,
            stops: room.stops,
            messages: room.messages,
        }
    }

    /// How many messages it can have in all without taking memory.
    pub fn most_messages(&self) -> usize
        ensures { result ≡ self.now.room.messages }
    {
        self.messages.most_messages()
    }

    /// How many entries of all batches it can have in all without taking memory.
    pub fn most_entries(&self) -> usize
        ensures { result ≡ self.now.room.entries }
    {
        self.messages.most_entries()
    }

    /// Puts a message at the end, a batch without entries. Takes no memory, but needs room for it.
    pub fn push_in_room(&mut self, message: MessageRecord)
        requires { length self.old.messages < self.old.room.messages }
        ensures { self.new ≡ with_record message self.old }
    {
        self.messages.push_in_room(message);
    }

    /// Puts an entry at the end of the last message, where that is a batch, and else drops it. Takes no memory, but needs room
    /// for it.
    pub fn push_entry_in_room(&mut self, entry: Entry)
        requires { entries_of self.old.messages < self.old.room.entries }
        ensures { self.new ≡ with_last_entry entry self.old }
    {
        self.messages.push_entry_in_room(entry);
    }

    /// Drops the last message, a batch with its entries. Their room is free again.
    pub fn drop_last(&mut self)
        requires { 0 < length self.old.messages }
        ensures { self.new ≡ without_last self.old }
    {
        self.messages.drop_last();
    }

    /// Puts a stop at the end, in seconds from midnight. Takes no memory, but needs room for it.
    pub fn stop_in_room(&mut self, stop: u32)
        requires { length self.old.stops < self.old.room.stops }
        ensures { self.new ≡ with_stop stop self.old }
    {
        self.stops.push_in_room(stop);
    }

    /// Makes it a day of the version to which it migrates, which states the same.
    pub fn migrate(&mut self)
        ensures { self.new ≡ migrated self.old }
    {
        self.version = migrated_version(self.version);
    }

    /// Its accounts and its systems.
    pub fn into_setup(self) -> (Accounts, Systems)
        ensures accounts { result.0 ≡ self.accounts }
        ensures systems { result.1 ≡ self.systems }
    {
        (self.accounts, self.systems)
    }

    /// The version of its file.
    pub fn version(&self) -> u8
        ensures { result ≡ self.now.version }
    {
        self.version
    }

    /// Its date.
    pub fn date(&self) -> BusinessDate
        ensures { result ≡ self.now.date }
    {
        self.date
    }

    /// Its accounts, in file order: account number a is the item at a - 1.
    pub fn accounts(&self) -> &[AccountRecord]
        ensures { result.now ≡ self.now.accounts }
    {
        self.accounts.as_slice()
    }

    /// Its systems, in file order.
    pub fn systems(&self) -> &[SystemRecord]
        ensures { result.now ≡ self.now.systems }
    {
        self.systems.as_slice()
    }

    /// What its accounts keep, in file order.
    pub fn reserves(&self) -> &[Reserve]
        ensures { result.now ≡ self.now.reserves }
    {
        self.reserves.as_slice()
    }

    /// Its stops, in file order, in seconds from midnight.
    pub fn stops(&self) -> &[u32]
        ensures { result.now ≡ self.now.stops }
    {
        self.stops.as_slice()
    }

    /// How many messages it has.
    pub fn message_count(&self) -> usize
        ensures { result ≡ length self.now.messages }
    {
        self.messages.len()
    }

    /// How many entries its messages have together.
    pub fn entry_count(&self) -> usize
        ensures { result ≡ sum_by (λ m. length (entries_in m.body)) self.now.messages }
    {
        self.messages.entry_count()
    }

    /// The message at an index, without the entries of a batch.
    pub fn message(&self, i: usize) -> &MessageRecord
        requires { i < length self.now.messages }
        ensures { slice_get self.now.messages i
            ≡ Some (with_entries result.now (entries_at self.now.messages i)) }
    {
        self.messages.message(i)
    }

    /// All messages, without the entries of batches.
    pub fn message_records(&self) -> &[MessageRecord]
        ensures { result.now ≡ map without_entries self.now.messages }
    {
        self.messages.records()
    }

    /// The entries of the batch at an index, in file order: entry number k is the item at k - 1. None where there is no such
    /// message, or it is no batch.
    pub fn entries(&self, i: usize) -> &[Entry]
        ensures { result.now ≡ entries_at self.now.messages i }
    {
        self.messages.entries(i)
    }

    /// How many records the day part has: VER in version 2 or 3, DAY, one for each system, account, account that keeps amounts,
    /// stop, message and entry, and END.
    /// There are fewer than 100,000 besides messages and entries.
    pub fn records(&self) -> u32
        requires { is_sound self.now ≡ true }
        ensures count { result ≡ record_count self.now }
        ensures few { result < MAX_MESSAGES + MAX_ENTRIES_OF_DAY + 100000 }
    {
        let entries = self.entry_count();
        let accounts = self.systems().len() + self.accounts().len();
        let setup = accounts + self.reserves().len();
        let inner = setup + self.stops().len() + self.message_count() + entries;
        inner as u32 + 2 + head_count(self.version())
    }

    /// The number of the first message with the sender and the identification of message n, where it stands before n.
    /// Messages are numbered from 1 in file order.
    pub fn earlier(&self, n: MessageNumber) -> Option<u32>
        requires from_one { 1 ≤ n }
        requires within { n ≤ length self.now.messages }
        ensures { result ≡ earlier self.now n }
    {
        let at = n as usize - 1;
        let messages = self.message_records();
        let first = first_like(&messages[..at], &messages[at])?;
        Some(first as u32 + 1)
    }
}

// How many records stand in front of DAY.
fn head_count(version: u8) -> u32
    ensures { result ≡ one_if (begins_with_ver version) }
{
    if begins_with_ver(version) { 1 } else { 0 }
}

// Whether a message has the sender and the identification of another.
fn is_like(message: &MessageRecord, own: &MessageRecord) -> bool
    ensures { result ≡ is_named own.now.sender own.now.id (with_entries message.now []) }
{
    message.sender.as_bytes() == own.sender.as_bytes() && message.id.as_bytes() == own.id.as_bytes()
}

// The index of the first message with the sender and the identification of another.
fn first_like(messages: &[MessageRecord], own: &MessageRecord) -> Option<usize>
    ensures { result
        ≡ position (λ m. is_named own.now.sender own.now.id (with_entries m [])) messages.now }
{
    messages.iter().position(|m| is_like(m, own))
}
