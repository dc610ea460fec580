//! The items of a day in one row, numbered from 0: message by message, item 0 of each and then its entries.
ghost use Rattle.std.specs.Prelude.{◌≡◌, ◌≤◌, ◌<◌, ◌+◌, ◌-◌, ◌^◌, [], ◌∷◌, ◌++◌, ◌&&◌, ℕ, IfOk, length, map, nat_eq, nat_le, slice_get, slice_index_or, vec_capacity, vec_len};
ghost use Rattle.std.specs.List.{range_with_len};
ghost use Rattle.batch_records.specs.DayRecord.{Day};
ghost use Rattle.machine.specs.Words.{some_passes};
ghost use Rattle.machine.specs.Stages.Pending.{item};
ghost use Rattle.due_items.specs.Row.{HasRoomFor, IsNumber, IsPlace, IsRowOf, items_kept, no_row, row_upto, spent};

use cash_amounts::{EntryNumber, Memory, MessageNumber};
use refused_memory::with_capacity;
use rule_book::parts::entry_count;
use rule_book::{Item, Setting};
use std::alloc::Global;
use std::marker::Model;

/// For how many more messages and items there is room.
#[derive(Clone, Copy)]
pub struct Room {
    pub messages: u32,
    pub items: u32,
}

// Adds message n for each of its items, for which there is room.
fn push_items(messages: &mut Vec<u32>, n: u32, count: u32)
    requires { vec_len messages.old + count ≤ vec_capacity messages.old }
    ensures messages { messages.new.items
        ≡ messages.old.items ++ map (λ k. n) (range_with_len 0 count) }
    ensures len { vec_len messages.new ≡ vec_len messages.old + count }
    ensures capacity { vec_capacity messages.old ≤ vec_capacity messages.new }
{
    for _k in 0..count {
        messages.push_reserved(n);
    }
}

// Where the items of each message begin, and at the end how many there are; and the message of each number. Its entry is how far it
// stands behind the first item of the message.
#[derive(Drop)]
pub struct ItemRow {
    starts: Vec<u32>,
    messages: Vec<u32>,
    room: Room,
}

impl Model for ItemRow {
    ghost use Rattle.std.specs.Prelude.{◌<◌, ◌≤◌, ◌+◌, ◌^◌, length, vec_len, vec_capacity};
    ghost use Rattle.due_items.specs.Row.{AreKept, Row, items_kept};

    ghost Value = { Row };

    ghost view = { λ row. record {
      starts = row.starts.items;
      items = items_kept row.starts.items row.messages.items;
      room = row.room;
    } };

    ghost invariant = { λ row. AreKept row.starts.items row.messages.items
        × (vec_len row.starts + row.room.messages ≤ vec_capacity row.starts)
        × (vec_len row.messages + row.room.items ≤ vec_capacity row.messages)
        × (length row.messages.items + row.room.items < 2 ^ 32) };
}

fn start_at(starts: &[u32], i: usize) -> u32
    ensures { result ≡ slice_index_or starts.now i 0 }
{
    match starts.get(i) {
        Some(start) => *start,
        None => 0,
    }
}

// The entry of the item of number i, of message n.
fn entry_at(starts: &[u32], n: u32, i: usize) -> u32
    requires { i < 2 ^ 32 }
    ensures { result ≡ i - slice_index_or starts.now (n - 1) 0 }
{
    (i as u32).saturating_sub(start_at(starts, (n as usize).saturating_sub(1)))
}

fn item_at(starts: &[u32], messages: &[u32], i: usize) -> Option<Item>
    requires { length messages.now < 2 ^ 32 }
    ensures { result ≡ slice_get (items_kept starts.now messages.now) i }
{
    match messages.get(i) {
        Some(n) => Some(Item {
            msg: *n,
            entry: entry_at(starts, *n, i),
        }),
        None => None,
    }
}

impl ItemRow {
    // No message, and room for so many messages and items.
    pub fn empty(alloc: Global, room: Room) -> Result<ItemRow, Memory>
        ensures { IfOk result (λ row. row ≡ no_row room) }
    {
        let mut starts = with_capacity(alloc, room.messages as usize + 1)?;
        starts.push_reserved(0);
        let messages = with_capacity(alloc, room.items as usize)?;
        Ok(ItemRow {
            starts,
            messages,
            room,
        })
    }

    // Leaves room for one message less, and so many items.
    fn spend(&mut self, count: u32)
        requires messages { 1 ≤ self.old.room.messages }
        requires items { count ≤ self.old.room.items }
        ensures { self.new.room ≡ record {
          messages = self.old.room.messages - 1;
          items = self.old.room.items - count;
        } }
    {
        self.room.messages -= 1;
        self.room.items -= count;
    }

    fn push(&mut self, n: u32, count: u32)
        requires messages { 1 ≤ self.old.room.messages }
        requires items { count ≤ self.old.room.items }
        requires next { n ≡ length self.old.starts }
        ensures items { self.new.items ≡ self.old.items ++ map (item n) (range_with_len 0 count) }
        ensures starts { self.new.starts ≡ self.old.starts ++ length self.new.items ∷ [] }
        ensures room { self.new.room ≡ record {
          messages = self.old.room.messages - 1;
          items = self.old.room.items - count;
        } }
    {
        push_items(&mut self.messages, n, count);
        self.starts.push_reserved(self.messages.len() as u32);
        self.room.messages -= 1;
        self.room.items -= count;
    }

    // The next message comes, with its items. Takes no memory, but room for one and these.
    pub fn arrive(&mut self, setting: &Setting, n: MessageNumber)
        ensures room { HasRoomFor setting.now.day n self.old.room
            → self.new.room ≡ spent setting.now.day n self.old.room }
        ensures row { (k : ℕ) → n ≡ k + 1 → n ≤ length setting.now.day.messages
            → HasRoomFor setting.now.day n self.old.room
            → self.old ≡ row_upto setting.now.day k self.old.room
            → self.new ≡ row_upto setting.now.day n (spent setting.now.day n self.old.room) }
    {
        let count = entry_count(setting, n) + 1;
        if self.room.messages == 0 {
            return;
        }
        if self.room.items < count {
            return;
        }
        if self.starts.len() != n as usize {
            self.spend(count);
            return;
        }
        self.push(n, count);
    }

    // How many items there are.
    pub fn count(&self) -> usize
        ensures count { result ≡ length self.now.items }
        ensures small { result < 2 ^ 32 }
    {
        self.messages.as_slice().len()
    }

    // The item of a number.
    pub fn item(&self, i: usize) -> Option<Item>
        ensures { result ≡ slice_get self.now.items i }
    {
        item_at(self.starts.as_slice(), self.messages.as_slice(), i)
    }

    // Where the items of message n begin.
    fn start(&self, n: u32) -> u32
        requires { 1 ≤ n }
        ensures { result ≡ slice_index_or self.now.starts (n - 1) 0 }
    {
        start_at(self.starts.as_slice(), n as usize - 1)
    }

    // Where they end.
    fn end(&self, n: u32) -> u32
        ensures { result ≡ slice_index_or self.now.starts n 0 }
    {
        start_at(self.starts.as_slice(), n as usize)
    }

    // Whether it is above the numbers of the messages.
    fn is_past(&self, n: u32) -> bool
        ensures { result ≡ nat_le (length self.now.starts) n }
    {
        self.starts.as_slice().len() <= n as usize
    }

    // Whether this number is that of item k of message n.
    fn is_at(&self, i: usize, n: u32, k: u32) -> bool
        ensures { result ≡ some_passes (λ x. nat_eq x.msg n && nat_eq x.entry k)
            (slice_get self.now.items i) }
    {
        match self.item(i) {
            Some(item) => item.msg == n && item.entry == k,
            None => false,
        }
    }

    // The number of item k of message n, where the day has it.
    pub fn number(&self, n: MessageNumber, k: EntryNumber) -> Option<usize>
        ensures { (day : Day) → IsRowOf day self.now → IsNumber day n k result }
    {
        if n == 0 {
            return None;
        }
        let i = self.start(n) as usize + k as usize;
        if self.is_at(i, n, k) { Some(i) } else { None }
    }

    // The number of the first item of the day that doesn't stand before this one; how many there are, where all do.
    pub fn place(&self, from: Item) -> u32
        ensures { (day : Day) → IsRowOf day self.now → IsPlace day from result }
    {
        if from.msg == 0 {
            return 0;
        }
        if self.is_past(from.msg) {
            return self.count() as u32;
        }
        let start = self.start(from.msg);
        let end = self.end(from.msg);
        (start as usize + from.entry as usize).min(end as usize) as u32
    }
}
