//! What rows and their index tell: the first of a band, and what stands before a row.
ghost use Rattle.std.specs.Prelude.{◌≡◌, ◌+◌, ◌++◌, ◌*◌, ◌^◌, ◌<◌, ◌≤◌, ℕ, false, true, None, length, map, replicate, vec_len, vec_capacity, MatchOption, is_none};
ghost use Rattle.payment_queue.specs.Chains.{IsFirst};
ghost use Rattle.payment_queue.specs.Standing.{rank};
ghost use Rattle.payment_queue.specs.Queued.{first_before, first_free, head, is_row_of, row_in, standing};
ghost use Rattle.payment_queue.specs.Indexed.{IsLive, IsSmall, item_at, band, live, position, slot_ahead};
ghost use Rattle.payment_queue.specs.Kept.{IsKept};

use crate::chain::step;
use crate::index::{Index, band_of, row_at};
use crate::row::{Priority, Row, is_ahead, is_item};
use growing_set::GrowingSet;
use rule_book::Item;

// ---- slots

// So many slots more, at which nothing stands. There is room for them.
pub(crate) fn push_rows(rows: &mut Vec<Option<Row>>, by: u32)
    requires { vec_len rows.old + by ≤ vec_capacity rows.old }
    ensures rows { rows.new.items ≡ rows.old.items ++ replicate by None }
    ensures len { vec_len rows.new ≡ vec_len rows.old + by }
    ensures capacity { vec_capacity rows.old ≤ vec_capacity rows.new }
{
    for _i in 0..by {
        rows.push_reserved(None);
    }
}

// So many numbers more, all of them members. There is room for them.
pub(crate) fn free_more(free: &mut GrowingSet, by: u32)
    requires { by ≤ free.old.room }
    ensures set { free.new.set ≡ free.old.set ++ replicate by true }
    ensures room { free.new.room + by ≡ free.old.room }
{
    let first = free.bound();
    free.grow(by);
    let end = free.bound();
    for n in first..end {
        free.insert(n);
    }
}

// The first slot at which nothing stands.
pub(crate) fn first_free(rows: &[Option<Row>], free: &GrowingSet) -> u32
    requires flags { free.now.set ≡ map is_none rows.now }
    requires spare { length (standing rows.now) < length rows.now }
    ensures within { result < length rows.now }
    ensures free { live rows.now result ≡ false }
    ensures first { result ≡ first_free rows.now }
{
    free.next(0).unwrap()
}

// Whether an item stands on an account by the row of a slot.
fn is_item_at(rows: &[Option<Row>], slot: u32, account: u32, item: Item) -> bool
    requires { slot < length rows.now }
    ensures { result ≡ is_row_of account item (row_in rows.now slot) }
{
    match rows[slot as usize] {
        Some(row) => is_item(account, item, row),
        None => false,
    }
}

// The slot at which an item stands on an account, found by a walk over all slots.
pub(crate) fn find(rows: &[Option<Row>], account: u32, item: Item) -> Option<u32>
    requires { length rows.now < 2 ^ 32 }
    ensures { MatchOption result ((u : ℕ) → is_row_of account item (row_in rows.now u) ≡ false)
        (λ s. is_row_of account item (row_in rows.now s) ≡ true) }
{
    for slot in 0..rows.len() as u32 {
        if is_item_at(rows, slot, account, item) {
            return Some(slot);
        }
    }
    None
}

// ---- heads

// Of an account's rows of a priority, the one of the earliest place.
fn head(rows: &[Option<Row>], index: &Index, account: u32, priority: Priority) -> Option<u32>
    requires kept { IsKept rows.now index.now }
    requires band { 3 * account + rank priority < length index.now.forward.ends.items }
    ensures { IsFirst (live rows.now) (band rows.now) (position rows.now)
        (3 * account + rank priority) 0 result }
{
    step(&index.forward, None, band_of(account, priority))
}

fn item_at(rows: &[Option<Row>], slot: Option<u32>) -> Option<Item>
    requires { IsLive rows.now slot }
    ensures { result ≡ item_at rows.now slot }
{
    match slot {
        Some(slot) => Some(row_at(rows, slot).item),
        None => None,
    }
}

pub(crate) fn head_item(
    rows: &[Option<Row>],
    index: &Index,
    account: u32,
    priority: Priority,
) -> Option<Item>
    requires kept { IsKept rows.now index.now }
    requires band { 3 * account + rank priority < length index.now.forward.ends.items }
    ensures { result ≡ head (standing rows.now) account priority }
{
    item_at(rows, head(rows, index, account, priority))
}

// ---- blockers

fn is_slot_ahead(rows: &[Option<Row>], slot: Option<u32>, x: Row) -> bool
    requires { IsLive rows.now slot }
    ensures { result ≡ slot_ahead rows.now slot x }
{
    match slot {
        Some(slot) => is_ahead(row_at(rows, slot), x),
        None => false,
    }
}

// An urgent row stands before all that it is ahead of; a high one is looked at where no urgent one does.
pub(crate) fn first_before(rows: &[Option<Row>], index: &Index, x: Row) -> Option<Item>
    requires kept { IsKept rows.now index.now }
    requires band { 3 * x.account + 2 < length index.now.forward.ends.items }
    requires small { IsSmall x.place }
    ensures { result ≡ first_before (standing rows.now) x.account x }
{
    let urgent = head(rows, index, x.account, Priority::Urgent);
    if is_slot_ahead(rows, urgent, x) {
        return item_at(rows, urgent);
    }
    let high = head(rows, index, x.account, Priority::High);
    if is_slot_ahead(rows, high, x) {
        return item_at(rows, high);
    }
    None
}
