//! The index of rows: those of one account and priority in the order of their places. A row is named by its slot, its number
//! in the list of rows.
ghost use Rattle.std.specs.Prelude.{◌≡◌, ◌+◌, ◌-◌, ◌*◌, ◌^◌, ◌<◌, false, true, Some, None, length, slice_set, IfOk, ◌≤◌};
ghost use Rattle.refused_memory.specs.declared.lists.TheConstants.{MOST};
ghost use Rattle.payment_queue.specs.Chains.{AreApart, IsChained, IsFirst};
ghost use Rattle.payment_queue.specs.Linked.{step_of};
ghost use Rattle.payment_queue.specs.Standing.{rank};
ghost use Rattle.payment_queue.specs.Indexed;
ghost use Rattle.payment_queue.specs.Kept.{HasRoom};
ghost use Rattle.payment_queue.specs.Indexed.{AreSound, IsEmpty, IsFree, IsGrown, IsIndex, IsSized, IsSmall, KeepsSize, key, band, live, position, row_at, row_band, reversed};

use crate::chain::{Chain, empty_chain, grow, hook, put, step};
use crate::row::{Place, Priority, Row, is_earlier, rank};
use refused_memory::Memory;
use std::alloc::Global;

/// From each slot at which a row stands to the next one of its account and priority, and to the one before.
#[derive(Drop)]
pub(crate) struct Index {
    pub(crate) forward: Chain,
    pub(crate) backward: Chain,
}

/// An index of no slots, with nothing in it, and room for so many. `Err` says that there wasn't enough memory.
pub(crate) fn empty_index(alloc: Global, most: usize, bands: usize) -> Result<Index, Memory>
    requires { (most ≤ MOST) × (bands ≤ MOST) }
    ensures empty { IfOk result IsEmpty }
    ensures sized { IfOk result (IsSized 0) }
    ensures bands { IfOk result (λ index. length index.forward.ends.items ≡ bands) }
    ensures room { IfOk result (HasRoom most) }
{
    let forward = empty_chain(alloc, most, bands)?;
    let backward = empty_chain(alloc, most, bands)?;
    Ok(Index { forward, backward })
}

// So many slots more, at which nothing stands. There is room for them.
pub(crate) fn grow_index(index: &mut Index, by: u32)
    requires { HasRoom by index.old }
    ensures { IsGrown by index.old index.new }
{
    grow(&mut index.forward, by);
    grow(&mut index.backward, by);
}

// Each account has a band for each priority.
pub(crate) fn band_of(account: u32, priority: Priority) -> usize
    ensures { result ≡ 3 * account + rank priority }
{
    3 * account as usize + rank(priority) as usize
}

// The row that stands at a slot.
pub(crate) fn row_at(rows: &[Option<Row>], slot: u32) -> Row
    requires { live rows.now slot ≡ true }
    ensures { result ≡ row_at rows.now slot }
{
    rows[slot as usize].unwrap()
}

// The last slot of a band whose place is before this one.
fn last_before(rows: &[Option<Row>], index: &Index, band: usize, place: Place) -> Option<u32>
    requires backward { IsChained (live rows.now) (Indexed.band rows.now) (reversed rows.now)
        (step_of index.now.backward) }
    requires sized { IsSized (length rows.now) index.now }
    requires sound { AreSound rows.now }
    requires small { IsSmall place }
    requires band { band < length index.now.backward.ends.items }
    ensures { IsFirst (live rows.now) (Indexed.band rows.now) (reversed rows.now) band
        (2 ^ 96 - key place + 1) result }
{
    let mut at = step(&index.backward, None, band);
    while let Some(slot) = at {
        if is_earlier(row_at(rows, slot).place, place) {
            return at;
        }
        at = step(&index.backward, at, band);
    }
    None
}

// Takes up a row that is to stand at a slot at which none stands.
pub(crate) fn link(rows: &[Option<Row>], index: &mut Index, slot: u32, row: Row)
    requires index { IsIndex rows.now index.old }
    requires sized { IsSized (length rows.now) index.old }
    requires sound { AreSound rows.now }
    requires small { IsSmall row.place }
    requires apart { AreApart (live rows.now) (band rows.now) (position rows.now) }
    requires slot { slot < length rows.now }
    requires none { live rows.now slot ≡ false }
    requires few { length rows.now < 2 ^ 32 }
    requires band { row_band row < length index.old.forward.ends.items }
    requires free { IsFree rows.now row }
    ensures index { IsIndex (slice_set rows.now slot (Some row)) index.new }
    ensures size { KeepsSize index.old index.new }
{
    let band = band_of(row.account, row.priority);
    let before = last_before(rows, index, band, row.place);
    let after = step(&index.forward, before, band);
    put(&mut index.forward, slot, band, before, after);
    put(&mut index.backward, slot, band, after, before);
}

// Takes out a row that stands at a slot.
pub(crate) fn unlink(rows: &[Option<Row>], index: &mut Index, slot: u32)
    requires index { IsIndex rows.now index.old }
    requires sized { IsSized (length rows.now) index.old }
    requires sound { AreSound rows.now }
    requires apart { AreApart (live rows.now) (band rows.now) (position rows.now) }
    requires slot { live rows.now slot ≡ true }
    requires band { band rows.now slot < length index.old.forward.ends.items }
    requires few { length rows.now < 2 ^ 32 }
    ensures index { IsIndex (slice_set rows.now slot None) index.new }
    ensures size { KeepsSize index.old index.new }
{
    let row = row_at(rows, slot);
    let band = band_of(row.account, row.priority);
    let before = step(&index.backward, Some(slot), band);
    let after = step(&index.forward, Some(slot), band);
    hook(&mut index.forward, before, band, after);
    hook(&mut index.backward, after, band, before);
}
