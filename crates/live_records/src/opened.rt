//! A batch whose entries are still coming, kept apart from its day until it has come whole.

ghost use Rattle.std.specs.Prelude.{◌≡◌, ◌<◌, ◌≤◌, ◌+◌, ◌∷◌, ◌++◌, [], List, None, Some, IfOk, false, is_some, length, option_map};
ghost use Rattle.std.specs.Option.{option_map_or};
ghost use Rattle.refused_memory.specs.declared.lists.TheConstants.{MOST};
ghost use Rattle.batch_records.specs.Flat.{FitsRow, body_with_entries, has_entries, with_entries};
ghost use Rattle.batch_records.specs.Growing.{entries_of};
ghost use Rattle.live_records.specs.OpenRecord.{entries_open, has_said, is_whole, with_open};
ghost use Rattle.batch_records.specs.Step.{with_entry};
ghost use Rattle.batch_records.specs.declared.day.Entry.{Entry};
ghost use Rattle.batch_records.specs.declared.day.Message.{Message};
ghost use Rattle.batch_records.specs.declared.day.MessageRecord.{MessageRecord};

use crate::kinds::is_batch_body;
use batch_records::{Day, Entry, MessageRecord, RecordBody};
use cash_amounts::Memory;
use refused_memory::with_capacity;
use std::alloc::Global;
use std::marker::Model;

/// A batch whose entries are still coming, where one is open, with room for so many entries. A day is as it was until the batch
/// comes to it.
#[derive(Drop)]
pub struct OpenBatch {
    record: Option<MessageRecord>,
    entries: Vec<Entry>,
    most: usize,
}

impl Model for OpenBatch {
    ghost use Rattle.std.specs.Prelude.{◌≤◌, option_map, vec_capacity};
    ghost use Rattle.batch_records.specs.Flat.{with_entries};
    ghost use Rattle.live_records.specs.OpenRecord.{FitsOpen, OpenBatch};

    ghost Value = { OpenBatch };

    ghost view = { λ b. record {
      batch = option_map (λ r. with_entries r b.entries.items) b.record;
      most = b.most;
    } };

    ghost invariant = { λ b. (b.most ≤ vec_capacity b.entries) × FitsOpen b.record b.entries.items };
}

// Whether a record is there, and is a batch's.
fn is_batch(message: &Option<MessageRecord>) -> bool
    ensures { result ≡ option_map_or (λ r. has_entries r.body) message.now false }
{
    match message {
        Some(message) => is_batch_body(&message.body),
        None => false,
    }
}

// Whether so many entries are as many as a record says.
fn says(message: &MessageRecord, entries: usize) -> bool
    ensures { (es : List Entry) → entries ≡ length es
        → result ≡ has_said (body_with_entries message.now.body es) }
{
    match &message.body {
        RecordBody::Batch { count, .. } => *count as usize == entries,
        _ => false,
    }
}

impl OpenBatch {
    /// None is open. There is room for so many entries; `Memory` says that there wasn't that much.
    pub fn with_room(alloc: Global, most: usize) -> Result<OpenBatch, Memory>
        requires { most ≤ MOST }
        ensures { IfOk result (λ b. b ≡ record { batch = None; most = most }) }
    {
        let entries = with_capacity(alloc, most)?;
        Ok(OpenBatch {
            record: None,
            entries,
            most,
        })
    }

    /// Opens a batch, of which no entry has come. What was open is dropped. Takes no memory.
    pub fn begin(&mut self, message: MessageRecord)
        ensures { self.new ≡ record self.old { batch = Some (with_entries message []) } }
    {
        self.entries.truncate(0);
        self.record = Some(message);
    }

    /// Puts an entry at the end of the open batch; where none is open, drops it. Takes no memory, but needs room for it.
    pub fn push(&mut self, entry: Entry)
        requires { length (entries_open self.old.batch) < self.old.most }
        ensures { self.new
            ≡ record self.old { batch = option_map (with_entry entry) self.old.batch } }
    {
        if is_batch(&self.record) {
            self.entries.push_reserved(entry);
        }
    }

    /// Drops the open batch, whose room is free again.
    pub fn discard(&mut self)
        ensures { self.new ≡ record self.old { batch = None } }
    {
        self.entries.truncate(0);
        self.record = None;
    }

    /// Whether one is open.
    pub fn is_open(&self) -> bool
        ensures { result ≡ is_some self.now.batch }
    {
        self.record.is_some()
    }

    /// Whether a batch is open that has as many entries as its own record says.
    pub fn is_whole(&self) -> bool
        ensures { result ≡ is_whole self.now.batch }
    {
        match &self.record {
            Some(message) => says(message, self.entries.len()),
            None => false,
        }
    }

    /// Puts the open batch with its entries at the end of a day's messages; where none is open, the day stays. None is open then.
    /// Takes no memory, but needs room for it in the day.
    pub fn move_to(&mut self, day: &mut Day)
        requires message { length day.old.messages < day.old.room.messages }
        requires entries { entries_of day.old.messages + length (entries_open self.old.batch)
            ≤ day.old.room.entries }
        ensures day { day.new ≡ with_open self.old.batch day.old }
        ensures none { self.new ≡ record self.old { batch = None } }
    {
        match self.record.take() {
            Some(message) => {
                day.push_in_room(message);
                push_all(day, self.entries.as_slice());
                self.entries.truncate(0);
            }
            None => {}
        }
    }
}

// An equal entry.
fn copy_of(entry: &Entry) -> Entry
    ensures { result ≡ entry.now }
{
    Entry {
        debit: entry.debit.copy(),
        credit: entry.credit.copy(),
        amount: entry.amount,
    }
}

// Puts equal entries at the end of the last message, where that is a batch without entries.
fn push_all(day: &mut Day, entries: &[Entry])
    requires { entries_of day.old.messages + length entries.now ≤ day.old.room.entries }
    ensures { (before : List Message) (r : MessageRecord)
        → day.old.messages ≡ before ++ with_entries r [] ∷ []
        → FitsRow r.body entries.now
        → day.new ≡ record day.old { messages = before ++ with_entries r entries.now ∷ [] } }
{
    for entry in entries {
        day.push_entry_in_room(copy_of(entry));
    }
}
