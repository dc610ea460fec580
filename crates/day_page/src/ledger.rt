//! What each item of a day waits with, and what the items of each priority do, kept line by line.
ghost use Rattle.std.specs.Prelude.{◌≡◌, ◌<◌, ◌≤◌, IfOk, length, replicate, slice_index_or, slice_set};
ghost use Rattle.commit_journal.specs.Histories.{oldest};
ghost use Rattle.number_set.specs.Members.{IsEmpty};
ghost use Rattle.scan_laws.specs.Numbers.{item_count, item_of};
ghost use Rattle.due_items.specs.Kept.{KeepsDue};
ghost use Rattle.day_page.specs.Stakes.{IsKept, IsKeptBut, IsTallied, TakesStake, stake, stake_at, with_stake};
ghost use Rattle.day_page.specs.Waits.{most_taken};

use crate::past::Past;
use crate::waits::{Queue, cents_of, has_priority, one_if, waits};
use crate::words::Request;
use cash_amounts::Memory;
use due_items::DueItems;
use refused_memory::push;
use rule_book::Setting;
use rule_book::sorts::is_b;
use std::alloc::Global;

/// What each item of a day takes from the accounts of the party once it is booked, where it waits, in cents, by its number; and
/// what waits of each priority.
#[derive(Drop)]
pub struct Ledger {
    stakes: Vec<u128>,
    pub urgent: Queue,
    pub high: Queue,
    pub normal: Queue,
}

// ---- an item

// What an item takes once it is booked, in cents, where it waits: a batch of B all that its debits take, by its item 0.
fn stake(past: &Past, request: &Request, n: u32, k: u32) -> u128
    ensures value { result ≡ stake past.now.setting.now.day request.now
        (oldest past.now.journal.now.history past.now.place) n k }
    ensures small { result ≤ most_taken }
{
    if !is_b(past.setting, n) {
        return u128::from(waits(past, request, n, k));
    }
    if k == 0 {
        cents_of(past, request, n)
    } else {
        0
    }
}

fn at(stakes: &[u128], i: usize) -> u128
    ensures { result ≡ slice_index_or stakes.now i 0 }
{
    match stakes.get(i) {
        Some(cents) => *cents,
        None => 0,
    }
}

fn put(stakes: &mut [u128], i: usize, cents: u128)
    ensures { stakes.new ≡ slice_set stakes.old i cents }
{
    if i < stakes.len() {
        stakes[i] = cents;
    }
}

// ---- a priority

// What waits of a priority, where an item waits with another amount, if it has the priority.
fn renewed(queue: Queue, counts: bool, old: u128, new: u128) -> Queue
    requires { TakesStake queue counts old new }
    ensures { result ≡ with_stake queue counts old new }
{
    if counts {
        Queue {
            count: queue.count + u64::from(one_if(new)) - u64::from(one_if(old)),
            cents: queue.cents + new - old,
        }
    } else {
        queue
    }
}

fn no_stakes(alloc: Global, count: u32) -> Result<Vec<u128>, Memory>
    ensures { IfOk result (λ stakes. stakes.items ≡ replicate count 0) }
{
    let mut stakes = Vec::new(alloc);
    for _i in 0..count {
        push(&mut stakes, 0)?;
    }
    Ok(stakes)
}

impl Ledger {
    // Nothing waits.
    fn with_room(alloc: Global, setting: &Setting, count: u32) -> Result<Ledger, Memory>
        ensures tallied { IfOk result (λ ledger. IsTallied setting.now.day ledger) }
        ensures size { IfOk result (λ ledger. length ledger.stakes.items ≡ count) }
    {
        let stakes = no_stakes(alloc, count)?;
        let none = Queue { count: 0, cents: 0 };
        Ok(Ledger {
            stakes,
            urgent: none,
            high: none,
            normal: none,
        })
    }

    // The item of number i, which is one of message n, waits with another amount.
    fn put(&mut self, setting: &Setting, i: u32, n: u32, new: u128)
        requires tallied { IsTallied setting.now.day self.old }
        requires within { i < length self.old.stakes.items }
        requires item { n ≡ (item_of setting.now.day i).msg }
        requires small { new ≤ most_taken }
        ensures tallied { IsTallied setting.now.day self.new }
        ensures stakes { self.new.stakes.items ≡ slice_set self.old.stakes.items i new }
    {
        let old = at(self.stakes.as_slice(), i as usize);
        self.urgent = renewed(self.urgent, has_priority(setting, 0, n), old, new);
        self.high = renewed(self.high, has_priority(setting, 1, n), old, new);
        self.normal = renewed(self.normal, has_priority(setting, 2, n), old, new);
        put(self.stakes.as_mut_slice(), i as usize, new);
    }

    // Brings up to date what the item of a number waits with.
    fn renew_item(&mut self, past: &Past, request: &Request, due: &DueItems, i: u32)
        requires due { KeepsDue past.now.setting.now.day
            (oldest past.now.journal.now.history past.now.place) due.now }
        requires within { i < item_count past.now.setting.now.day }
        requires tallied { IsTallied past.now.setting.now.day self.old }
        requires size { length self.old.stakes.items ≡ item_count past.now.setting.now.day }
        ensures tallied { IsTallied past.now.setting.now.day self.new }
        ensures stakes { self.new.stakes.items
            ≡ slice_set self.old.stakes.items i
            (stake_at past.now.setting.now.day request.now
            (oldest past.now.journal.now.history past.now.place) i) }
    {
        match due.item(i) {
            Some(item) => {
                let new = stake(past, request, item.msg, item.entry);
                self.put(past.setting, i, item.msg, new);
            }
            None => {}
        }
    }

    // Brings up to date what all items wait with.
    fn renew_all(&mut self, past: &Past, request: &Request, due: &DueItems)
        requires due { KeepsDue past.now.setting.now.day
            (oldest past.now.journal.now.history past.now.place) due.now }
        requires tallied { IsTallied past.now.setting.now.day self.old }
        requires size { length self.old.stakes.items ≡ item_count past.now.setting.now.day }
        ensures { IsKept past.now.setting.now.day request.now
            (oldest past.now.journal.now.history past.now.place) self.new }
    {
        for number in 0..due.count() {
            self.renew_item(past, request, due, number);
        }
    }

    /// What the items of a day wait with after the lines so far. `Memory` says that there wasn't enough of it.
    pub fn over(
        alloc: Global,
        past: &Past,
        request: &Request,
        due: &DueItems,
    ) -> Result<Ledger, Memory>
        requires { KeepsDue past.now.setting.now.day
            (oldest past.now.journal.now.history past.now.place) due.now }
        ensures { IfOk result (λ ledger. IsKept past.now.setting.now.day request.now
            (oldest past.now.journal.now.history past.now.place) ledger) }
    {
        let mut ledger = Ledger::with_room(alloc, past.setting, due.count())?;
        ledger.renew_all(past, request, due);
        Ok(ledger)
    }

    /// Brings up to date what the items wait with that a line may have changed, and forgets that these were.
    pub fn renew(&mut self, past: &Past, request: &Request, due: &mut DueItems)
        requires due { KeepsDue past.now.setting.now.day
            (oldest past.now.journal.now.history past.now.place) due.old }
        requires kept { IsKeptBut past.now.setting.now.day request.now
            (oldest past.now.journal.now.history past.now.place) due.old.renewed self.old }
        ensures kept { IsKept past.now.setting.now.day request.now
            (oldest past.now.journal.now.history past.now.place) self.new }
        ensures due { KeepsDue past.now.setting.now.day
            (oldest past.now.journal.now.history past.now.place) due.new }
        ensures forgotten { IsEmpty due.new.renewed }
    {
        let mut from = 0;
        while let Some(i) = due.next_renewed(from) {
            self.renew_item(past, request, due, i);
            due.forget(i);
            from = i + 1;
        }
    }
}
