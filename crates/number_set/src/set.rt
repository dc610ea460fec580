//! A set of the numbers below a bound. Contracts see it as the list of its flags, one for each number below the bound.
ghost use Rattle.std.specs.Prelude.{◌≡◌, ◌^◌, ◌<◌, ◌≤◌, ◌↔◌, ℕ, Bool, true, false, IfOk, IfSome, IsTrue, length, replicate, slice_set};
ghost use Rattle.number_set.specs.Members.{has, IsEmpty};
ghost use Rattle.number_set.specs.Next.{IsNext};

use crate::tier::{Members, Tier, Top};
use cash_amounts::Memory;
use std::alloc::Global;
use std::marker::Model;

/// Numbers below a bound, each a member or not. The room for all of them is taken at the start. A call takes a few steps
/// for each of six tiers of words, however many numbers there are.
#[derive(Drop)]
pub struct NumberSet {
    tiers: Tier<Tier<Tier<Tier<Tier<Top>>>>>,
    bound: u32,
}

impl Model for NumberSet {
    ghost use Rattle.std.specs.Prelude.{List, Bool, ◌*◌, ◌≤◌, vec_len};
    ghost use Rattle.number_set.specs.Members.{flags};
    ghost use Rattle.number_set.specs.Tiers.{has_number};

    ghost Value = { List Bool };

    ghost view = { λ set. flags (has_number set.tiers.words.items) set.bound };

    ghost invariant = { λ set. set.bound ≤ 64 * vec_len set.tiers.words };
}

impl NumberSet {
    /// The empty set, with room for the numbers below the bound. `Memory` says that there wasn't that much.
    pub fn with_room(alloc: Global, bound: u32) -> Result<NumberSet, Memory>
        ensures { IfOk result (λ set. set ≡ replicate bound false) }
    {
        let tiers = Tier::with_room(alloc, bound as usize)?;
        Ok(NumberSet { tiers, bound })
    }

    /// The bound: the numbers below it can be members.
    pub fn bound(&self) -> u32
        ensures { result ≡ length self.now }
    {
        self.bound
    }

    /// Whether the number, which is below the bound, is a member.
    pub fn contains(&self, n: u32) -> bool
        requires { n < length self.now }
        ensures { result ≡ has self.now n }
    {
        self.tiers.contains(n as usize)
    }

    /// Makes the number, which is below the bound, a member. The others stay as they are. Takes no memory.
    pub fn insert(&mut self, n: u32)
        requires { n < length self.old }
        ensures { self.new ≡ slice_set self.old n true }
    {
        self.tiers.insert(n as usize);
    }

    /// Makes the number, which is below the bound, no member. The others stay as they are.
    pub fn remove(&mut self, n: u32)
        requires { n < length self.old }
        ensures { self.new ≡ slice_set self.old n false }
    {
        self.tiers.remove(n as usize);
    }

    /// The least member at or above the number. None exactly where there is none.
    pub fn next(&self, from: u32) -> Option<u32>
        ensures within { IfSome result (λ n. n < length self.now) }
        ensures next { IsNext (has self.now) from result }

        // so that the number after a member is a `u32`
        ensures small { length self.now < 2 ^ 32 }
    {
        let bound = self.bound as usize;
        match self.tiers.next(from as usize) {
            Some(n) if n < bound => Some(n as u32),
            _ => None,
        }
    }

    /// Whether there is no member.
    pub fn is_empty(&self) -> bool
        ensures { IsTrue result ↔ IsEmpty self.now }
    {
        self.next(0).is_none()
    }
}
