//! What the dedicated cash accounts of a day keep.
ghost use Rattle.std.specs.Prelude.{◌≡◌, ◌-◌, ◌≤◌, Some, find, nat_eq, option_map, true, slice_get, length, IfOk};
ghost use Rattle.refused_memory.specs.declared.lists.TheConstants.{MOST};
ghost use Rattle.batch_records.specs.Sound.{is_sound};
ghost use Rattle.machine.specs.Records.Reserves.{kept_high, kept_of, kept_urgent};

use batch_records::{Day, Reserve};
use cash_amounts::{Cents, Memory};
use refused_memory::with_capacity;
use std::alloc::Global;
use std::marker::Model;

/// For each account of a day, in file order, what it keeps for urgent items and for high payments.
#[derive(Drop)]
pub struct Kept {
    items: Vec<(Cents, Cents)>,
}

impl Model for Kept {
    ghost use Rattle.std.specs.Prelude.{List, ℕ};

    ghost Value = { List (ℕ × ℕ) };

    ghost view = { λ kept. kept.items.items };
}

/// Room for what so many accounts keep. Contracts see how many.
#[derive(Drop)]
pub struct KeptRoom {
    most: usize,
    items: Vec<(Cents, Cents)>,
}

impl Model for KeptRoom {
    ghost use Rattle.std.specs.Prelude.{◌≡◌, ◌≤◌, ℕ, [], vec_capacity};

    ghost Value = { ℕ };

    ghost view = { λ r. r.most };

    ghost invariant = { λ r. (r.items.items ≡ []) × (r.most ≤ vec_capacity r.items) };
}

fn nothing() -> Cents
    ensures { result ≡ 0 }
{
    Cents::of(0).unwrap()
}

// What a day says of account a.
fn reserve_of(reserves: &[Reserve], a: u32) -> Option<&Reserve>
    ensures { option_map (λ r. r.now) result ≡ find (λ x. nat_eq x.account a) reserves.now }
{
    reserves.iter().find(|reserve| reserve.account == a)
}

fn amounts_of(day: &Day, a: u32) -> (Cents, Cents)
    ensures { result ≡ (kept_urgent day.now a, kept_high day.now a) }
{
    match reserve_of(day.reserves(), a) {
        Some(reserve) => (reserve.urgent, reserve.high),
        None => (nothing(), nothing()),
    }
}

impl KeptRoom {
    /// Room for so many accounts. `Memory` says that there wasn't that much.
    pub fn take(alloc: Global, accounts: usize) -> Result<KeptRoom, Memory>
        requires { accounts ≤ MOST }
        ensures { IfOk result (λ room. room ≡ accounts) }
    {
        let items = with_capacity(alloc, accounts)?;
        Ok(KeptRoom {
            most: accounts,
            items,
        })
    }
}

impl Kept {
    /// What the accounts of a sound day keep, in room that was taken for them. Takes no memory.
    pub fn in_room(room: KeptRoom, day: &Day) -> Kept
        requires sound { is_sound day.now ≡ true }
        requires room { length day.now.accounts ≤ room }
        ensures { result ≡ kept_of day.now }
    {
        let count = day.accounts().len();
        let mut items = room.items;
        for before in 0..count as u32 {
            items.push_reserved(amounts_of(day, before + 1));
        }
        Kept { items }
    }

    // What the accounts of a sound day keep. `Memory` says that there wasn't enough of it.
    pub(crate) fn build(alloc: Global, day: &Day) -> Result<Kept, Memory>
        requires { is_sound day.now ≡ true }
        ensures { IfOk result (λ kept. kept ≡ kept_of day.now) }
    {
        let room = KeptRoom::take(alloc, day.accounts().len())?;
        Ok(Kept::in_room(room, day))
    }

    // What account a keeps for urgent items, and for high payments.
    pub(crate) fn at(&self, a: u32) -> (Cents, Cents)
        requires from_one { 1 ≤ a }
        requires within { a ≤ length self.now }
        ensures { slice_get self.now (a - 1) ≡ Some result }
    {
        self.items.as_slice()[a as usize - 1]
    }
}
