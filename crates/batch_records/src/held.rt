//! The messages and the stops of a day, with the room that was taken for more of them.

ghost use Rattle.std.specs.Prelude.{◌≡◌, ◌<◌, ◌-◌, [], ◌∷◌, ◌++◌, IfOk, Some, length, map, slice_get, take, ◌≤◌};
ghost use Rattle.refused_memory.specs.declared.lists.TheConstants.{MOST};
ghost use Rattle.batch_records.specs.Flat.{with_entries, without_entries};
ghost use Rattle.batch_records.specs.Growing.{entries_of};
ghost use Rattle.batch_records.specs.Parts.{entries_at};
ghost use Rattle.batch_records.specs.Step.{with_entry, with_last};

use crate::day::{Entry, MessageRecord};
use crate::lists::{Messages, Stops, is_last_batch};
use cash_amounts::Memory;
use refused_memory::with_capacity;
use row_list::RowList;
use std::alloc::Global;
use std::marker::Model;

/// Messages in file order, with room for so many messages, and entries of all of them. The records of all messages stand in one
/// list, and the entries of all batches in another.
#[derive(Drop)]
pub(crate) struct HeldMessages {
    records: Vec<MessageRecord>,
    entries: RowList<Entry>,
    most_messages: usize,
    most_entries: usize,
}

impl Model for HeldMessages {
    ghost use Rattle.std.specs.Prelude.{vec_capacity};
    ghost use Rattle.batch_records.specs.Flat.{HaveRows, joined};
    ghost use Rattle.batch_records.specs.Held.{HaveRoom, HeldMessages};

    ghost Value = { HeldMessages };

    ghost view = { λ a. record {
      list = joined a.records.items a.entries.rows;
      most_messages = a.most_messages;
      most_entries = a.most_entries;
    } };

    ghost invariant = { λ a. HaveRows a.records.items a.entries.rows
        × HaveRoom a.most_messages a.most_entries (vec_capacity a.records) a.entries };
}

impl HeldMessages {
    // These messages, and no room for more.
    pub(crate) fn of(messages: Messages) -> HeldMessages
        ensures { result ≡ record { list = messages; most_messages = 0; most_entries = 0 } }
    {
        let (records, entries) = messages.into_parts();
        HeldMessages {
            records,
            entries,
            most_messages: 0,
            most_entries: 0,
        }
    }

    // No messages, with room for so many, and for so many entries of all of them.
    pub(crate) fn with_room(
        alloc: Global,
        messages: usize,
        entries: usize,
    ) -> Result<HeldMessages, Memory>
        requires { (messages ≤ MOST) × (entries ≤ MOST) }
        ensures { IfOk result (λ held. held
            ≡ record { list = []; most_messages = messages; most_entries = entries }) }
    {
        let records = with_capacity(alloc, messages)?;
        let rows = RowList::with_room(alloc, messages, entries)?;
        Ok(HeldMessages {
            records,
            entries: rows,
            most_messages: messages,
            most_entries: entries,
        })
    }

    // Puts a message at the end, a batch without entries. Takes no memory.
    pub(crate) fn push_in_room(&mut self, message: MessageRecord)
        requires { length self.old.list < self.old.most_messages }
        ensures { self.new
            ≡ record self.old { list = self.old.list ++ with_entries message [] ∷ [] } }
    {
        self.entries.begin_row_in_room();
        self.records.push_reserved(message);
    }

    // Puts an entry at the end of the last message, where that is a batch. Takes no memory.
    pub(crate) fn push_entry_in_room(&mut self, entry: Entry)
        requires { entries_of self.old.list < self.old.most_entries }
        ensures { self.new
            ≡ record self.old { list = with_last (with_entry entry) self.old.list } }
    {
        if is_last_batch(self.records.as_slice()) {
            self.entries.push_in_room(entry);
        }
    }

    // Drops the last message, a batch with its entries. Their room is free again.
    pub(crate) fn drop_last(&mut self)
        requires { 0 < length self.old.list }
        ensures { self.new
            ≡ record self.old { list = take (length self.old.list - 1) self.old.list } }
    {
        self.entries.drop_last_row();
        self.records.truncate(self.records.len() - 1);
    }

    // How many messages there can be.
    pub(crate) fn most_messages(&self) -> usize
        ensures { result ≡ self.now.most_messages }
    {
        self.most_messages
    }

    // How many entries of all of them there can be.
    pub(crate) fn most_entries(&self) -> usize
        ensures { result ≡ self.now.most_entries }
    {
        self.most_entries
    }

    pub(crate) fn len(&self) -> usize
        ensures { result ≡ length self.now.list }
    {
        self.records.len()
    }

    pub(crate) fn entry_count(&self) -> usize
        ensures { result ≡ entries_of self.now.list }
    {
        self.entries.item_count()
    }

    pub(crate) fn message(&self, i: usize) -> &MessageRecord
        requires { i < length self.now.list }
        ensures { slice_get self.now.list i
            ≡ Some (with_entries result.now (entries_at self.now.list i)) }
    {
        &self.records[i]
    }

    pub(crate) fn records(&self) -> &[MessageRecord]
        ensures { result.now ≡ map without_entries self.now.list }
    {
        self.records.as_slice()
    }

    pub(crate) fn entries(&self, i: usize) -> &[Entry]
        ensures { result.now ≡ entries_at self.now.list i }
    {
        self.entries.row(i)
    }
}

/// Stops in file order, in seconds from midnight, with room for so many.
#[derive(Drop)]
pub(crate) struct HeldStops {
    items: Vec<u32>,
    most: usize,
}

impl Model for HeldStops {
    ghost use Rattle.std.specs.Prelude.{◌≤◌, vec_capacity};
    ghost use Rattle.batch_records.specs.Held.{HeldStops};

    ghost Value = { HeldStops };

    ghost view = { λ a. record { list = a.items.items; most = a.most } };

    ghost invariant = { λ a. a.most ≤ vec_capacity a.items };
}

impl HeldStops {
    // These stops, and no room for more.
    pub(crate) fn of(stops: Stops) -> HeldStops
        ensures { result ≡ record { list = stops; most = 0 } }
    {
        HeldStops {
            items: stops.into_items(),
            most: 0,
        }
    }

    // No stops, with room for so many.
    pub(crate) fn with_room(alloc: Global, most: usize) -> Result<HeldStops, Memory>
        requires { most ≤ MOST }
        ensures { IfOk result (λ held. held ≡ record { list = []; most = most }) }
    {
        let items = with_capacity(alloc, most)?;
        Ok(HeldStops { items, most })
    }

    // Puts a stop at the end. Takes no memory.
    pub(crate) fn push_in_room(&mut self, stop: u32)
        requires { length self.old.list < self.old.most }
        ensures { self.new ≡ record self.old { list = self.old.list ++ stop ∷ [] } }
    {
        self.items.push_reserved(stop);
    }

    pub(crate) fn as_slice(&self) -> &[u32]
        ensures { result.now ≡ self.now.list }
    {
        self.items.as_slice()
    }
}
