//! Many lists of amounts. Contracts see them as lists.
ghost use Rattle.std.specs.Prelude.{◌≡◌, ◌+◌, ◌^◌, ◌<◌, ◌≤◌, IfOk, IfSome, Some, None, [], ◌∷◌, ◌++◌, length, replicate, slice_index, slice_set};
ghost use Rattle.std.specs.List.Sorted.{IsStrictlyIncreasing};
ghost use Rattle.least_tree.specs.Amounts.{amount_at, fits_at};
ghost use Rattle.number_set.specs.Next.{IsNext};
ghost use Rattle.amount_forest.specs.declared.node.TheConstants.{NONE};
ghost use Rattle.amount_forest.specs.Lists.{list_at, numbers_at};
ghost use Rattle.amount_forest.specs.Places.{IsPlace};

use crate::growing::grow;
use crate::mending::mend;
use crate::node::{Entry, Link, NONE};
use crate::search::{find, find_by, first, place};
use cash_amounts::Memory;
use refused_memory::{filled, with_capacity};
use std::alloc::Global;
use std::marker::Model;

/// Lists of amounts, to which amounts are added at their ends. The room is taken at the start. A push takes a few steps, all
/// else a few for each doubling of the length of the list. Amounts are in the caller's unit, as cents, and places count from 0.
#[derive(Drop)]
pub struct AmountForest {
    entries: Vec<Entry>,
    links: Vec<Link>,
    // Of each node the least of the amounts that it stands over.
    leasts: Vec<Option<u64>>,
    // Of each list the node of its last amount.
    lasts: Vec<u32>,
    spare: u32,
}

impl Model for AmountForest {
    ghost use Rattle.amount_forest.specs.Lists.{Amounts};
    ghost use Rattle.amount_forest.specs.Forests.{seen, IsForest};

    ghost Value = { Amounts };

    ghost view = { seen };

    ghost invariant = { IsForest };
}

// So many lists without an amount.
fn no_lasts(alloc: Global, lists: u32) -> Result<Vec<u32>, Memory>
    ensures { IfOk result (λ lasts. lasts.items ≡ replicate lists NONE) }
{
    filled(alloc, NONE, lists as usize)
}

impl AmountForest {
    /// So many lists, all empty, and room for so many pushes. `Memory` says that there wasn't enough of it.
    pub fn with_room(alloc: Global, lists: u32, amounts: u32) -> Result<AmountForest, Memory>
        ensures { IfOk result (λ forest. forest ≡ record { lists = replicate lists []; numbers = replicate lists []; spare = amounts }) }
    {
        let room = amounts as usize;
        let lasts = no_lasts(alloc, lists)?;
        let entries = with_capacity(alloc, room)?;
        let links = with_capacity(alloc, room)?;
        let leasts = with_capacity(alloc, room)?;
        Ok(AmountForest {
            entries,
            links,
            leasts,
            lasts,
            spare: amounts,
        })
    }

    /// How many lists there are.
    pub fn lists(&self) -> u32
        ensures { result ≡ length self.now.lists }
    {
        self.lasts.len() as u32
    }

    /// How many more amounts can be pushed.
    pub fn spare(&self) -> u32
        ensures { result ≡ self.now.spare }
    {
        self.spare
    }

    /// How many places a list has.
    pub fn len(&self, list: u32) -> u32
        requires { list < length self.now.lists }
        ensures { result ≡ length (list_at self.now.lists list) }
    {
        let last = self.lasts[list as usize];
        if last == NONE {
            return 0;
        }
        self.links[last as usize].place + 1
    }

    /// The amount at a place of a list, where there is one.
    pub fn get(&self, list: u32, place: u32) -> Option<u64>
        requires { list < length self.now.lists }
        ensures { result ≡ amount_at (list_at self.now.lists list) place }
    {
        if place >= self.len(list) {
            return None;
        }
        let node = find(&self.entries, &self.links, self.lasts[list as usize], place);
        self.entries[node as usize].amount
    }

    /// The number that came with the amount at a place of a list, also where that was taken.
    pub fn number(&self, list: u32, place: u32) -> u32
        requires list { list < length self.now.lists }
        requires place { place < length (list_at self.now.lists list) }
        ensures { result ≡ slice_index (numbers_at self.now.numbers list) place }
    {
        let node = find(&self.entries, &self.links, self.lasts[list as usize], place);
        self.entries[node as usize].number
    }

    /// Adds a place at the end of a list, with an amount or none yet, and with a number of the caller's own, as that of a payment.
    /// The other lists stay as they are. Answers how many pushes there were before, its order. Takes no memory, but one of the
    /// spare pushes.
    pub fn push(&mut self, list: u32, number: u32, amount: Option<u64>) -> u32
        requires list { list < length self.old.lists }
        requires spare { 0 < self.old.spare }
        ensures lists { self.new.lists ≡ slice_set self.old.lists list (list_at self.old.lists list ++ amount ∷ []) }
        ensures numbers { self.new.numbers ≡ slice_set self.old.numbers list (numbers_at self.old.numbers list ++ number ∷ []) }
        ensures spare { self.new.spare + 1 ≡ self.old.spare }
    {
        let node = self.entries.len() as u32;
        let entry = Entry {
            list,
            number,
            amount,
        };
        grow(
            &mut self.entries,
            &mut self.links,
            &mut self.leasts,
            entry,
            self.lasts[list as usize],
        );
        self.lasts[list as usize] = node;
        self.spare -= 1;
        node
    }

    fn write(&mut self, list: u32, place: u32, order: u32, amount: Option<u64>)
        requires list { list < length self.old.lists }
        requires place { place < length (list_at self.old.lists list) }
        ensures lists { self.new.lists ≡ slice_set self.old.lists list (slice_set (list_at self.old.lists list) place amount) }
        ensures numbers { self.new.numbers ≡ self.old.numbers }
        ensures spare { self.new.spare ≡ self.old.spare }
    {
        let node = find_by(
            &self.entries,
            &self.links,
            self.lasts[list as usize],
            place,
            order,
        );
        let number = self.entries[node as usize].number;
        self.entries[node as usize] = Entry {
            list,
            number,
            amount,
        };
        mend(&self.entries, &self.links, &mut self.leasts, node);
    }

    /// Puts an amount at a place of a list, for what was there. All else stays as it is. The order is what `push` answered for the
    /// place; where it isn't, the place is looked for. Takes no memory.
    pub fn put(&mut self, list: u32, place: u32, order: u32, amount: u64)
        requires list { list < length self.old.lists }
        requires place { place < length (list_at self.old.lists list) }
        ensures lists { self.new.lists ≡ slice_set self.old.lists list (slice_set (list_at self.old.lists list) place (Some amount)) }
        ensures numbers { self.new.numbers ≡ self.old.numbers }
        ensures spare { self.new.spare ≡ self.old.spare }
    {
        self.write(list, place, order, Some(amount));
    }

    /// Makes the amount at a place of a list absent. All else stays as it is. The order is as for `put`.
    pub fn take(&mut self, list: u32, place: u32, order: u32)
        requires list { list < length self.old.lists }
        requires place { place < length (list_at self.old.lists list) }
        ensures lists { self.new.lists ≡ slice_set self.old.lists list (slice_set (list_at self.old.lists list) place None) }
        ensures numbers { self.new.numbers ≡ self.old.numbers }
        ensures spare { self.new.spare ≡ self.old.spare }
    {
        self.write(list, place, order, None);
    }

    /// Where a number stands among those of a list, or would stand, if they rise from place to place: all before it are less, and
    /// none from it on.
    pub fn place(&self, list: u32, number: u32) -> u32
        requires { list < length self.now.lists }
        ensures { IsStrictlyIncreasing (numbers_at self.now.numbers list)
            → IsPlace (numbers_at self.now.numbers list) number result }
    {
        let last = self.lasts[list as usize];
        if last == NONE {
            return 0;
        }
        place(&self.entries, &self.links, last, number)
    }

    /// The first place of a list, from the given one on, whose amount is there and at most this much. None exactly where there
    /// is none.
    pub fn first(&self, list: u32, from: u32, most: u64) -> Option<u32>
        requires { list < length self.now.lists }
        ensures within { IfSome result (λ place. place < length (list_at self.now.lists list)) }
        ensures first { IsNext (fits_at (list_at self.now.lists list) most) from result }

        // so that the place after one that is found is a `u32`
        ensures small { length (list_at self.now.lists list) < 2 ^ 32 }
    {
        if from >= self.len(list) {
            return None;
        }
        first(
            &self.entries,
            &self.links,
            &self.leasts,
            self.lasts[list as usize],
            from,
            most,
        )
    }
}
