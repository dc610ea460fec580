//! The queue. To a contract it is its slots, each with the row that stands there, if one does.
ghost use Rattle.std.specs.Prelude.{◌≡◌, ◌<◌, ◌≤◌, false, true, None, length, IfOk, IsSome};
ghost use Rattle.payment_queue.specs.Queued.{blocker, blocker_at, cleared, empty, first_free, grown, has_place, heads, left, placed, row, row_in, rows, stands_on, with_room};

use crate::index::{Index, empty_index, grow_index, link, row_at, unlink};
use crate::row::{Heads, Place, Priority, Row};
use crate::rows::{find, first_before, first_free, free_more, head_item, push_rows};
use cash_amounts::{AccountNumber, Memory};
use growing_set::GrowingSet;
use refused_memory::with_capacity;
use rule_book::Item;
use std::alloc::Global;
use std::marker::Model;

/// Items that wait on accounts. The room for them is taken at the start. Each stands at a slot, which stays its own as long as
/// it stands, and is another's afterwards.
#[derive(Drop)]
pub struct Queue {
    // For each slot the row that stands there.
    rows: Vec<Option<Row>>,
    // The slots at which none stands.
    free: GrowingSet,
    index: Index,
    accounts: u32,
    // For how many more slots there is room.
    room: u32,
}

impl Model for Queue {
    ghost use Rattle.payment_queue.specs.Queued.{Queued};

    ghost Value = { Queued };

    ghost use Rattle.payment_queue.specs.Kept.{queued_of, IsQueue};

    ghost view = { queued_of };

    ghost invariant = { IsQueue };
}

impl Queue {
    /// The queue of no slots for accounts from 1 to `accounts`, with room for so many slots. `Memory` says that there wasn't that much.
    pub fn empty(alloc: Global, accounts: u32, most: u32) -> Result<Queue, Memory>
        ensures { IfOk result (λ queue. queue ≡ empty accounts most) }
    {
        let rows = with_capacity(alloc, most as usize)?;
        let free = GrowingSet::with_room(alloc, most)?;
        let index = empty_index(alloc, most as usize, 3 * accounts as usize + 3)?;
        Ok(Queue {
            rows,
            free,
            index,
            accounts,
            room: most,
        })
    }

    /// So many slots more, at which nothing stands; those that are there stay as they are. Takes no memory, but room for them.
    pub fn grow(&mut self, by: u32)
        requires { by ≤ self.old.room }
        ensures { self.new ≡ grown self.old by }
    {
        push_rows(&mut self.rows, by);
        free_more(&mut self.free, by);
        grow_index(&mut self.index, by);
        self.room -= by;
    }

    /// For how many more slots there is room.
    pub fn room(&self) -> u32
        ensures { result ≡ self.now.room }
    {
        self.room
    }

    /// The empty queue for accounts from 1 to `accounts`, with slots for so many items on all of them together. `Memory` says
    /// that there wasn't that much.
    pub fn with_room(alloc: Global, accounts: u32, items: u32) -> Result<Queue, Memory>
        ensures { IfOk result (λ queue. queue ≡ with_room accounts items) }
    {
        let mut queue = Queue::empty(alloc, accounts, items)?;
        queue.grow(items);
        Ok(queue)
    }

    /// Puts an item on an account, with its priority and place, and answers its slot, the first at which nothing stood. The others stay. Takes no memory, but
    /// needs room for one more. The account is one of the queue's, the item isn't on it, and no other item has that place there.
    /// Where the item is the last of its account and priority, this takes a few steps; else one more for each after it.
    pub fn enter(&mut self, a: AccountNumber, item: Item, priority: Priority, place: Place) -> u32
        requires spare { length (rows self.old) < length self.old.slots }
        requires from { 1 ≤ a }
        requires to { a ≤ self.old.accounts }
        requires absent { stands_on (rows self.old) a item ≡ false }
        requires place_free { has_place (rows self.old) a place ≡ false }
        ensures within { result < length self.old.slots }
        ensures free { row_in self.old.slots result ≡ None }
        ensures first { result ≡ first_free self.old.slots }
        ensures entered { self.new ≡ placed self.old result (row a item priority place) }
    {
        let row = Row {
            account: a,
            item,
            priority,
            place,
        };
        let slot = first_free(&self.rows, &self.free);
        link(&self.rows, &mut self.index, slot, row);
        self.free.remove(slot);
        self.rows[slot as usize] = Some(row);
        slot
    }

    /// Takes off the item that stands at a slot. The others stay, and there is room for one more. Takes a few steps.
    pub fn leave_at(&mut self, slot: u32)
        requires { IsSome (row_in self.old.slots slot) }
        ensures { self.new ≡ cleared self.old slot }
    {
        unlink(&self.rows, &mut self.index, slot);
        self.free.insert(slot);
        self.rows[slot as usize] = None;
    }

    /// Takes an item off an account on which it stands. The others stay, and there is room for one more. This walks over the
    /// slots; who has the item's slot calls `leave_at`.
    pub fn leave(&mut self, a: AccountNumber, item: Item)
        requires { stands_on (rows self.old) a item ≡ true }
        ensures { self.new ≡ left self.old a item }
    {
        match find(&self.rows, a, item) {
            Some(slot) => self.leave_at(slot),
            None => {}
        }
    }

    /// Of the items on the account of the one at a slot that stand before it, the foremost: that of the highest priority, and
    /// then of the earliest place. `None` exactly where none stands before it. Takes a few steps.
    pub fn blocker_at(&self, slot: u32) -> Option<Item>
        requires { IsSome (row_in self.now.slots slot) }
        ensures { result ≡ blocker_at self.now slot }
    {
        first_before(&self.rows, &self.index, row_at(&self.rows, slot))
    }

    /// The same of an item that stands on an account. This walks over the slots; who has the item's slot calls `blocker_at`.
    pub fn blocker(&self, a: AccountNumber, item: Item) -> Option<Item>
        requires { stands_on (rows self.now) a item ≡ true }
        ensures { result ≡ blocker (rows self.now) a item }
    {
        match find(&self.rows, a, item) {
            Some(slot) => self.blocker_at(slot),
            None => None,
        }
    }

    /// Of each priority the item of the earliest place on an account of the queue; `None` where it has none of that priority.
    pub fn heads(&self, a: AccountNumber) -> Heads
        requires from { 1 ≤ a }
        requires to { a ≤ self.now.accounts }
        ensures { result ≡ heads (rows self.now) a }
    {
        Heads {
            urgent: head_item(&self.rows, &self.index, a, Priority::Urgent),
            high: head_item(&self.rows, &self.index, a, Priority::High),
            normal: head_item(&self.rows, &self.index, a, Priority::Normal),
        }
    }
}
