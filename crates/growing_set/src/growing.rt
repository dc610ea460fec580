//! A set of numbers whose bound rises. Contracts see the flags of the numbers below the bound, and by how much it can rise.
ghost use Rattle.std.specs.Prelude.{◌≡◌, ◌^◌, ◌<◌, ◌≤◌, ◌+◌, ◌++◌, [], false, true, IfOk, IfSome, length, replicate, slice_set};
ghost use Rattle.number_set.specs.Members.{has};
ghost use Rattle.number_set.specs.Next.{IsNext};

use cash_amounts::Memory;
use number_set::NumberSet;
use std::alloc::Global;
use std::marker::Model;

/// Numbers below a bound, each a member or not, and room for the bound to rise. The room is taken at the start, so that what comes
/// later is taken up without memory.
#[derive(Drop)]
pub struct GrowingSet {
    numbers: NumberSet,
    count: u32,
    room: u32,
}

impl Model for GrowingSet {
    ghost use Rattle.growing_set.specs.Growing.{Growing, IsGrowing};
    ghost use Rattle.number_set.specs.Members.{flags, has};

    ghost Value = { Growing };

    ghost view = { λ set. record { set = flags (has set.numbers) set.count; room = set.room } };

    ghost invariant = { λ set. IsGrowing set.numbers set.count set.room };
}

impl GrowingSet {
    /// The empty set below the bound 0, which can rise by so much. `Memory` says that there wasn't enough of it.
    pub fn with_room(alloc: Global, most: u32) -> Result<GrowingSet, Memory>
        ensures { IfOk result (λ set. set ≡ record { set = []; room = most }) }
    {
        let numbers = NumberSet::with_room(alloc, most)?;
        Ok(GrowingSet {
            numbers,
            count: 0,
            room: most,
        })
    }

    /// The bound: the numbers below it can be members.
    pub fn bound(&self) -> u32
        ensures { result ≡ length self.now.set }
    {
        self.count
    }

    /// By how much the bound can rise.
    pub fn room(&self) -> u32
        ensures { result ≡ self.now.room }
    {
        self.room
    }

    /// The bound rises by so much. The new numbers are no members, and the others stay as they are. Takes no memory.
    pub fn grow(&mut self, by: u32)
        requires { by ≤ self.old.room }
        ensures set { self.new.set ≡ self.old.set ++ replicate by false }
        ensures room { self.new.room + by ≡ self.old.room }
    {
        self.count += by;
        self.room -= by;
    }

    /// Whether the number, which is below the bound, is a member.
    pub fn contains(&self, n: u32) -> bool
        requires { n < length self.now.set }
        ensures { result ≡ has self.now.set n }
    {
        self.numbers.contains(n)
    }

    /// Makes the number, which is below the bound, a member. The others stay as they are. Takes no memory.
    pub fn insert(&mut self, n: u32)
        requires { n < length self.old.set }
        ensures set { self.new.set ≡ slice_set self.old.set n true }
        ensures room { self.new.room ≡ self.old.room }
    {
        self.numbers.insert(n);
    }

    /// Makes the number, which is below the bound, no member. The others stay as they are.
    pub fn remove(&mut self, n: u32)
        requires { n < length self.old.set }
        ensures set { self.new.set ≡ slice_set self.old.set n false }
        ensures room { self.new.room ≡ self.old.room }
    {
        self.numbers.remove(n);
    }

    /// The least member at or above the number. None exactly where there is none.
    pub fn next(&self, from: u32) -> Option<u32>
        ensures within { IfSome result (λ n. n < length self.now.set) }
        ensures next { IsNext (has self.now.set) from result }

        // so that the number after a member is a `u32`
        ensures small { length self.now.set < 2 ^ 32 }
    {
        self.numbers.next(from)
    }
}
