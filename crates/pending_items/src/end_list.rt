//! A list of times that grows at its end, in which the first one that is early enough is found in a few steps.
ghost use Rattle.std.specs.Prelude.{◌≡◌, ◌≤◌, ◌<◌, ◌+◌, ◌^◌, [], ◌∷◌, ◌++◌, None, Some, IfOk, IfSome, length, slice_set};
ghost use Rattle.least_tree.specs.Amounts.{fits_at};
ghost use Rattle.number_set.specs.Next.{IsNext};

use amount_forest::AmountForest;
use cash_amounts::Memory;
use std::alloc::Global;
use std::marker::Model;

// One list of a forest. Times are in seconds, and may be absent.
#[derive(Drop)]
pub struct EndList {
    times: AmountForest,
}

impl Model for EndList {
    ghost use Rattle.std.specs.Prelude.{◌≡◌, length};
    ghost use Rattle.amount_forest.specs.Lists.{list_at};
    ghost use Rattle.pending_items.specs.Ends.{EndTimes};

    ghost Value = { EndTimes };

    ghost view = { λ ends. record { times = list_at ends.times.lists 0; room = ends.times.spare } };

    ghost invariant = { λ ends. length ends.times.lists ≡ 1 };
}

impl EndList {
    // No times, and room for so many.
    pub fn with_room(alloc: Global, most: u32) -> Result<EndList, Memory>
        ensures { IfOk result (λ ends. ends ≡ record { times = []; room = most }) }
    {
        let times = AmountForest::with_room(alloc, 1, most)?;
        Ok(EndList { times })
    }

    // A time more at the end, or none. Takes no memory, but room for one.
    pub fn push(&mut self, time: Option<u64>)
        requires { 0 < self.old.room }
        ensures times { self.new.times ≡ self.old.times ++ time ∷ [] }
        ensures room { self.new.room + 1 ≡ self.old.room }
    {
        self.times.push(0, 0, time);
    }

    // Each place came as the push of its own number, as there is one list.
    pub fn put(&mut self, n: u32, time: u64)
        requires { n < length self.old.times }
        ensures times { self.new.times ≡ slice_set self.old.times n (Some time) }
        ensures room { self.new.room ≡ self.old.room }
    {
        self.times.put(0, n, n, time);
    }

    pub fn take(&mut self, n: u32)
        requires { n < length self.old.times }
        ensures times { self.new.times ≡ slice_set self.old.times n None }
        ensures room { self.new.room ≡ self.old.room }
    {
        self.times.take(0, n, n);
    }

    // The first place, from the given one on, whose time is there and at most this one.
    pub fn first(&self, from: u32, most: u64) -> Option<u32>
        ensures within { IfSome result (λ n. n < length self.now.times) }
        ensures first { IsNext (fits_at self.now.times most) from result }
        ensures small { length self.now.times < 2 ^ 32 }
    {
        self.times.first(0, from, most)
    }
}
