//! The rows of the pending items of a day, by account.
ghost use Rattle.std.specs.Prelude.{◌≡◌, ◌≤◌, ◌<◌, ◌+◌, ◌++◌, ◌^◌, [], Some, None, true, if◌then◌else◌, length, nat_le, nat_lt, replicate, vec_capacity, vec_len, IfOk};
ghost use Rattle.commit_journal.specs.Line.{History};
ghost use Rattle.machine.specs.Records.Messages.{entries};
ghost use Rattle.machine.specs.Stages.Blockers.{first_blocker};
ghost use Rattle.day_facts.specs.Facts.{StandsFor};
ghost use Rattle.pending_items.specs.Heads.{IsHeadOn};
ghost use Rattle.pending_items.specs.Numbers.{is_item, number_in};
ghost use Rattle.pending_items.specs.Parts.{row_of, waits};
ghost use Rattle.pending_items.specs.Items.{Fits, IsAny, KeepsRows, RenewsBy, arrived, entered, left, none_arrived, slot_at};

use crate::numbers::{is_item, new_starts, number};
use crate::parts::{account, place, priority, waits};
use crate::slot::{Slot, no_slot, slot_is};
use crate::standing::{ahead, head_of, stands_at};
use cash_amounts::{AccountNumber, Memory, MessageNumber};
use day_facts::DayFacts;
use payment_queue::laws::foremost_is_first;
use payment_queue::{Place, Priority, Queue};
use refused_memory::{filled, with_capacity};
use rule_book::parts::{account_count, entry_count, message_count};
use rule_book::{Item, Setting};
use std::alloc::Global;
use std::marker::Model;

// The rows of the pending items of a day.
#[derive(Drop)]
pub struct ItemRows {
    // By message the number of its item 0.
    starts: Vec<u32>,
    // By number of an item the slot of its row, where it has one.
    slots: Vec<Slot>,
    queue: Queue,
    accounts: u32,
    // For how many more messages there is room; for how many more items the queue knows.
    room: u32,
}

impl Model for ItemRows {
    ghost use Rattle.std.specs.Prelude.{◌≤◌, ◌<◌, ◌+◌, ◌^◌, length, max, vec_len, vec_capacity};
    ghost use Rattle.pending_items.specs.Items.{Lists, IsSound};

    ghost Value = { Lists };

    ghost view = { λ items. record {
      starts = items.starts.items;
      slots = items.slots.items;
      queue = items.queue;
      accounts = items.accounts;
      room = items.room;
    } };

    ghost invariant = { λ items. IsSound
        (record {
          starts = items.starts.items;
          slots = items.slots.items;
          queue = items.queue;
          accounts = items.accounts;
          room = items.room;
        })
        × (vec_len items.starts + items.room ≤ max (vec_len items.starts) (vec_capacity items.starts))
        × (vec_len items.slots + items.queue.room ≤ max (vec_len items.slots) (vec_capacity items.slots))
        × (length items.slots.items + items.queue.room < 2 ^ 32) };
}

// So many items without a slot.
fn no_slots(alloc: Global, count: u32) -> Result<Vec<Slot>, Memory>
    ensures { IfOk result (λ slots. slots.items ≡ replicate count None) }
{
    filled(alloc, no_slot(), count as usize)
}

// So many items more without a slot. There is room for them.
fn push_slots(slots: &mut Vec<Slot>, by: u32)
    requires { vec_len slots.old + by ≤ vec_capacity slots.old }
    ensures slots { slots.new.items ≡ slots.old.items ++ replicate by None }
    ensures len { vec_len slots.new ≡ vec_len slots.old + by }
    ensures capacity { vec_capacity slots.old ≤ vec_capacity slots.new }
{
    for _i in 0..by {
        slots.push_reserved(no_slot());
    }
}

fn slot_at(slots: &[Slot], number: u32) -> Option<u32>
    ensures { result ≡ slot_at slots.now number }
{
    match slots.get(number as usize) {
        Some(slot) => slot.get(),
        None => None,
    }
}

impl ItemRows {
    // No rows, and room for those of the day.
    pub fn with_room(alloc: Global, setting: &Setting) -> Result<ItemRows, Memory>
        ensures { IfOk result (λ rows. KeepsRows setting.now.day [] rows) }
    {
        let (starts, count) = new_starts(alloc, setting)?;
        let slots = no_slots(alloc, count)?;
        let accounts = account_count(setting) + 1;
        let queue = Queue::with_room(alloc, accounts, count)?;
        Ok(ItemRows {
            starts,
            slots,
            queue,
            accounts,
            room: 0,
        })
    }

    // No message, and room for so many, with so many items in all, and so many bands.
    pub fn empty(
        alloc: Global,
        accounts: u32,
        messages: u32,
        items: u32,
    ) -> Result<ItemRows, Memory>
        requires { items + 1 < 2 ^ 32 }
        ensures { IfOk result (λ rows. rows
            ≡ none_arrived accounts messages items) }
    {
        let starts = with_capacity(alloc, messages as usize)?;
        let mut slots = with_capacity(alloc, items as usize + 1)?;
        slots.push_reserved(no_slot());
        let mut queue = Queue::empty(alloc, accounts, items + 1)?;
        queue.grow(1);
        Ok(ItemRows {
            starts,
            slots,
            queue,
            accounts,
            room: messages,
        })
    }

    fn push(&mut self, items: u32)
        requires messages { 1 ≤ self.old.room }
        requires items { items ≤ self.old.queue.room }
        ensures rows { self.new ≡ arrived items self.old }
        ensures few { length self.old.slots + items < 2 ^ 32 }
    {
        self.starts.push_reserved(self.slots.len() as u32);
        push_slots(&mut self.slots, items);
        self.queue.grow(items);
        self.room -= 1;
    }

    // Message n comes, and none of its items has a row. Takes no memory, but room for it and them.
    pub fn arrive(&mut self, setting: &Setting, n: MessageNumber)
        requires messages { 1 ≤ self.old.room }
        requires items { length (entries setting.now.day n) + 1 ≤ self.old.queue.room }
        ensures rows { self.new ≡ arrived (length (entries setting.now.day n) + 1) self.old }
        ensures few { length self.old.slots + (length (entries setting.now.day n) + 1) < 2 ^ 32 }
    {
        self.push(entry_count(setting, n) + 1);
    }

    // ---- one item

    fn has_start(&self, n: u32) -> bool
        ensures { result ≡ nat_le n (length self.now.starts) }
    {
        n as usize <= self.starts.len()
    }

    fn has_band(&self, account: u32) -> bool
        ensures within { result ≡ nat_lt account self.now.accounts }

        // so that the number after an account is a `u32`
        ensures small { self.now.accounts < 2 ^ 32 }
    {
        account < self.accounts
    }

    fn has_number(&self, number: u32) -> bool
        ensures { result ≡ nat_lt number (length self.now.slots) }
    {
        (number as usize) < self.slots.len()
    }

    // The row of an item of this number enters.
    fn put(&mut self, number: u32, band: u32, item: Item, priority: Priority, place: Place)
        requires none { slot_at self.old.slots number ≡ None }
        requires within { number < length self.old.slots }
        requires own { number ≡ number_in self.old.starts item }
        requires from { 1 ≤ band }
        requires to { band ≤ self.old.accounts }
        requires entry { place.entry ≡ number }
        requires there { nat_le item.msg (length self.old.starts) ≡ true }
        ensures { self.new ≡ entered self.old number
            (record { account = band; item = item; priority = priority; place = place }) }
    {
        let slot = self.queue.enter(band, item, priority, place);
        self.slots[number as usize] = slot_is(slot);
    }

    // The row at a slot leaves, which is that of the item of this number.
    fn leave(&mut self, number: u32, slot: u32)
        requires { slot_at self.old.slots number ≡ Some slot }
        ensures { self.new ≡ left self.old number slot }
    {
        self.queue.leave_at(slot);
        self.slots[number as usize] = no_slot();
    }

    fn enter(&mut self, setting: &Setting, facts: &DayFacts, item: Item, number: u32)
        requires none { slot_at self.old.slots number ≡ None }
        requires own { number ≡ number_in self.old.starts item }
        requires item { is_item setting.now.day item ≡ true }
        ensures { (J : History) → StandsFor setting.now.day J facts.now
            → Fits setting.now.day J self.old → waits setting.now.day J item ≡ true
            → self.new ≡ entered self.old number (row_of setting.now.day J item) }
    {
        let account = match account(setting, item) {
            Some(account) => account,
            None => return,
        };
        if !self.has_band(account) {
            return;
        }
        if !self.has_number(number) {
            return;
        }
        if !self.has_start(item.msg) {
            return;
        }
        let place = place(setting, facts, item, number);
        self.put(
            number,
            account + 1,
            item,
            priority(setting, item.msg),
            place,
        );
    }

    fn stay_or_leave(&mut self, stays: bool, number: u32, slot: u32)
        requires { slot_at self.old.slots number ≡ Some slot }
        ensures { self.new ≡ (if stays then self.old else left self.old number slot) }
    {
        if !stays {
            self.leave(number, slot);
        }
    }

    fn stay_or_enter(&mut self, setting: &Setting, facts: &DayFacts, item: Item, number: u32)
        requires none { slot_at self.old.slots number ≡ None }
        requires own { number ≡ number_in self.old.starts item }
        requires item { is_item setting.now.day item ≡ true }
        ensures { (J : History) → StandsFor setting.now.day J facts.now
            → Fits setting.now.day J self.old
            → self.new ≡ (if waits setting.now.day J item then entered self.old number
            (row_of setting.now.day J item) else self.old) }
    {
        if waits(setting, facts, item) {
            self.enter(setting, facts, item, number);
        }
    }

    fn renew_item(&mut self, setting: &Setting, facts: &DayFacts, item: Item)
        requires { is_item setting.now.day item ≡ true }
        ensures { RenewsBy setting.now.day facts.now (λ J x. x ≡ item) self.old self.new }
    {
        let number = number(self.starts.as_slice(), item);
        match slot_at(self.slots.as_slice(), number) {
            Some(slot) => self.stay_or_leave(waits(setting, facts, item), number, slot),
            None => self.stay_or_enter(setting, facts, item, number),
        }
    }

    // The row of an item enters or leaves, if the facts say so.
    pub fn renew(&mut self, setting: &Setting, facts: &DayFacts, item: Item)
        ensures { RenewsBy setting.now.day facts.now (λ J x. x ≡ item) self.old self.new }
    {
        if !is_item(setting, item) {
            return;
        }
        self.renew_item(setting, facts, item);
    }

    // ---- items of messages

    pub fn renew_message(&mut self, setting: &Setting, facts: &DayFacts, n: MessageNumber)
        ensures { RenewsBy setting.now.day facts.now (λ J x. x.msg ≡ n) self.old self.new }
    {
        for k in 0..entry_count(setting, n) + 1 {
            self.renew(setting, facts, Item { msg: n, entry: k });
        }
    }

    pub fn renew_all(&mut self, setting: &Setting, facts: &DayFacts)
        ensures { RenewsBy setting.now.day facts.now (λ J. IsAny) self.old self.new }
    {
        for before in 0..message_count(setting) {
            self.renew_message(setting, facts, before + 1);
        }
    }

    // The item at the head of account a, of those that stand before others.
    pub fn head(&self, setting: &Setting, a: AccountNumber) -> Option<Item>
        ensures { (J : History) → KeepsRows setting.now.day J self.now
            → IsHeadOn setting.now.day J a result }
    {
        if !self.has_band(a) {
            return None;
        }
        foremost_is_first();
        head_of(setting, self.queue.heads(a + 1))
    }

    // Of the pending items on account a that stand before an item, the foremost.
    pub fn first_blocker(
        &self,
        setting: &Setting,
        facts: &DayFacts,
        item: Item,
        a: AccountNumber,
    ) -> Option<Item>
        ensures { (J : History) → StandsFor setting.now.day J facts.now
            → KeepsRows setting.now.day J self.now
            → result ≡ first_blocker setting.now.day J item a }
    {
        if !self.has_band(a) {
            return None;
        }
        foremost_is_first();
        let heads = self.queue.heads(a + 1);
        let own = stands_at(setting, facts, item);
        match ahead(setting, facts, heads.urgent, own) {
            Some(first) => Some(first),
            None => ahead(setting, facts, heads.high, own),
        }
    }
}
