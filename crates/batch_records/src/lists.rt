//! The lists of a day, each seen as the list of its items.

ghost use Rattle.std.specs.Prelude.{◌≡◌, ◌-◌, [], ◌∷◌, ◌++◌, OnOk, OnErr, false, length, slice_get};
ghost use Rattle.std.specs.Option.{option_map_or};
ghost use Rattle.batch_records.specs.Flat.{HaveRows, has_entries, joined, with_entries};
ghost use Rattle.batch_records.specs.Parts.{entries_at};
ghost use Rattle.batch_records.specs.Step.{with_entry, with_last};

use crate::day::{Entry, MessageRecord, RecordBody, Reserve};
use cash_amounts::{AccountRecord, Memory, SystemRecord};
use refused_memory::{push, reserve};
use row_list::RowList;
use std::alloc::Global;
use std::marker::Model;

/// The entries of a batch, in file order: entry number k is the item at k - 1.
#[derive(Drop)]
pub struct Entries {
    items: Vec<Entry>,
}

impl Model for Entries {
    ghost use Rattle.std.specs.Prelude.{List, ℕ};
    ghost use Rattle.batch_records.specs.declared.day.Entry.{Entry};

    ghost Value = { List Entry };

    ghost view = { λ a. a.items.items };
}

impl Entries {
    /// The empty list, which takes no memory.
    pub fn new(alloc: Global) -> Entries
        ensures { result ≡ [] }
    {
        Entries {
            items: Vec::new(alloc),
        }
    }

    /// Puts an item at the end. Where that finds no memory, the item is dropped and the list stays.
    pub fn push(&mut self, item: Entry) -> Result<(), Memory>
        ensures ok { OnOk result (self.new ≡ self.old ++ item ∷ []) }
        ensures err { OnErr result (self.new ≡ self.old) }
    {
        push(&mut self.items, item)
    }

    /// The items.
    pub fn as_slice(&self) -> &[Entry]
        ensures { result.now ≡ self.now }
    {
        self.items.as_slice()
    }

    /// The items, one after another.
    pub fn into_items(self) -> Vec<Entry>
        ensures { result.items ≡ self }
    {
        self.items
    }
}

/// The accounts of a day, in file order: account number a is the item at a - 1.
#[derive(Drop)]
pub struct Accounts {
    items: Vec<AccountRecord>,
}

impl Model for Accounts {
    ghost use Rattle.std.specs.Prelude.{List, ℕ};
    ghost use Rattle.cash_amounts.specs.declared.records.AccountRecord.{AccountRecord};

    ghost Value = { List AccountRecord };

    ghost view = { λ a. a.items.items };
}

impl Accounts {
    // The list of these items.
    pub(crate) fn of(items: Vec<AccountRecord>) -> Accounts
        ensures { result ≡ items.items }
    {
        Accounts { items }
    }

    /// The empty list, which takes no memory.
    pub fn new(alloc: Global) -> Accounts
        ensures { result ≡ [] }
    {
        Accounts {
            items: Vec::new(alloc),
        }
    }

    /// Puts an item at the end. Where that finds no memory, the item is dropped and the list stays.
    pub fn push(&mut self, item: AccountRecord) -> Result<(), Memory>
        ensures ok { OnOk result (self.new ≡ self.old ++ item ∷ []) }
        ensures err { OnErr result (self.new ≡ self.old) }
    {
        push(&mut self.items, item)
    }

    /// The items.
    pub fn as_slice(&self) -> &[AccountRecord]
        ensures { result.now ≡ self.now }
    {
        self.items.as_slice()
    }
}

/// The ancillary systems of a day, in file order.
#[derive(Drop)]
pub struct Systems {
    items: Vec<SystemRecord>,
}

impl Model for Systems {
    ghost use Rattle.std.specs.Prelude.{List, ℕ};
    ghost use Rattle.cash_amounts.specs.declared.records.SystemRecord.{SystemRecord};

    ghost Value = { List SystemRecord };

    ghost view = { λ a. a.items.items };
}

impl Systems {
    // The list of these items.
    pub(crate) fn of(items: Vec<SystemRecord>) -> Systems
        ensures { result ≡ items.items }
    {
        Systems { items }
    }

    /// The empty list, which takes no memory.
    pub fn new(alloc: Global) -> Systems
        ensures { result ≡ [] }
    {
        Systems {
            items: Vec::new(alloc),
        }
    }

    /// Puts an item at the end. Where that finds no memory, the item is dropped and the list stays.
    pub fn push(&mut self, item: SystemRecord) -> Result<(), Memory>
        ensures ok { OnOk result (self.new ≡ self.old ++ item ∷ []) }
        ensures err { OnErr result (self.new ≡ self.old) }
    {
        push(&mut self.items, item)
    }

    /// The items.
    pub fn as_slice(&self) -> &[SystemRecord]
        ensures { result.now ≡ self.now }
    {
        self.items.as_slice()
    }
}

/// What the accounts of a day keep, in file order: of each account at most one item.
#[derive(Drop)]
pub struct Reserves {
    items: Vec<Reserve>,
}

impl Model for Reserves {
    ghost use Rattle.std.specs.Prelude.{List, ℕ};
    ghost use Rattle.batch_records.specs.declared.day.Reserve.{Reserve};

    ghost Value = { List Reserve };

    ghost view = { λ a. a.items.items };
}

impl Reserves {
    // The list of these items.
    pub(crate) fn of(items: Vec<Reserve>) -> Reserves
        ensures { result ≡ items.items }
    {
        Reserves { items }
    }

    /// The empty list, which takes no memory.
    pub fn new(alloc: Global) -> Reserves
        ensures { result ≡ [] }
    {
        Reserves {
            items: Vec::new(alloc),
        }
    }

    /// Puts an item at the end. Where that finds no memory, the item is dropped and the list stays.
    pub fn push(&mut self, item: Reserve) -> Result<(), Memory>
        ensures ok { OnOk result (self.new ≡ self.old ++ item ∷ []) }
        ensures err { OnErr result (self.new ≡ self.old) }
    {
        push(&mut self.items, item)
    }

    /// The items.
    pub fn as_slice(&self) -> &[Reserve]
        ensures { result.now ≡ self.now }
    {
        self.items.as_slice()
    }
}

/// The stops of time of a day that is put together, in seconds, in file order.
#[derive(Drop)]
pub struct Stops {
    items: Vec<u32>,
}

impl Model for Stops {
    ghost use Rattle.std.specs.Prelude.{List, ℕ};

    ghost Value = { List ℕ };

    ghost view = { λ a. a.items.items };
}

impl Stops {
    /// The empty list, which takes no memory.
    pub fn new(alloc: Global) -> Stops
        ensures { result ≡ [] }
    {
        Stops {
            items: Vec::new(alloc),
        }
    }

    /// Puts an item at the end. Where that finds no memory, the item is dropped and the list stays.
    pub fn push(&mut self, item: u32) -> Result<(), Memory>
        ensures ok { OnOk result (self.new ≡ self.old ++ item ∷ []) }
        ensures err { OnErr result (self.new ≡ self.old) }
    {
        push(&mut self.items, item)
    }

    /// The items.
    pub fn as_slice(&self) -> &[u32]
        ensures { result.now ≡ self.now }
    {
        self.items.as_slice()
    }

    // The items, one after another.
    pub(crate) fn into_items(self) -> Vec<u32>
        ensures { result.items ≡ self }
    {
        self.items
    }
}

/// The messages of a day that is put together, in file order: message number n is the item at n - 1. The records of all messages
/// stand in one list, and the entries of all batches in another.
#[derive(Drop)]
pub struct Messages {
    records: Vec<MessageRecord>,
    entries: RowList<Entry>,
}

impl Model for Messages {
    ghost use Rattle.std.specs.Prelude.{List, ℕ};
    ghost use Rattle.batch_records.specs.declared.day.Message.{Message};

    ghost Value = { List Message };

    ghost use Rattle.batch_records.specs.Flat.{HaveRows, joined};

    ghost view = { λ a. joined a.records.items a.entries.rows };

    ghost invariant = { λ a. HaveRows a.records.items a.entries.rows };
}

impl Messages {
    /// The empty list, which takes no memory.
    pub fn new(alloc: Global) -> Messages
        ensures { result ≡ [] }
    {
        Messages {
            records: Vec::new(alloc),
            entries: RowList::new(alloc),
        }
    }

    /// Puts a message at the end, a batch without entries. Where that finds no memory, the record is dropped and the list stays.
    pub fn push(&mut self, message: MessageRecord) -> Result<(), Memory>
        ensures ok { OnOk result (self.new ≡ self.old ++ with_entries message [] ∷ []) }
        ensures err { OnErr result (self.new ≡ self.old) }
    {
        reserve(&mut self.records, 1)?;
        self.entries.begin_row()?;
        self.records.push_reserved(message);
        Ok(())
    }

    /// Puts an entry at the end of the last message, where that is a batch. Where that finds no memory, the entry is dropped and
    /// the list stays.
    pub fn push_entry(&mut self, entry: Entry) -> Result<(), Memory>
        ensures ok { OnOk result (self.new ≡ with_last (with_entry entry) self.old) }
        ensures err { OnErr result (self.new ≡ self.old) }
    {
        if !is_last_batch(self.records.as_slice()) {
            return Ok(());
        }
        self.entries.push(entry)?;
        Ok(())
    }

    /// How many messages there are.
    pub fn len(&self) -> usize
        ensures { result ≡ length self.now }
    {
        self.records.len()
    }

    /// The entries of the batch at an index, in file order: entry number k is the item at k - 1. None where there is no such
    /// message, or it is no batch.
    pub fn entries(&self, i: usize) -> &[Entry]
        ensures { result.now ≡ entries_at self.now i }
    {
        self.entries.row(i)
    }

    // The records of the messages, and the entries of each.
    pub(crate) fn into_parts(self) -> (Vec<MessageRecord>, RowList<Entry>)
        ensures joined { joined result.0.items result.1.rows ≡ self }
        ensures rows { HaveRows result.0.items result.1.rows }
    {
        (self.records, self.entries)
    }
}

// Whether the last of some records is a batch's.
pub(crate) fn is_last_batch(records: &[MessageRecord]) -> bool
    ensures { result
        ≡ option_map_or (λ r. has_entries r.body) (slice_get records.now (length records.now - 1))
        false }
{
    match records.last() {
        Some(last) => has_entries(&last.body),
        None => false,
    }
}

pub(crate) fn has_entries(body: &RecordBody) -> bool
    ensures { result ≡ has_entries body.now }
{
    matches!(body, RecordBody::Batch { .. })
}
