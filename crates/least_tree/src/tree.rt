//! A list of amounts, some of them absent. Contracts see it as that list.
ghost use Rattle.std.specs.Prelude.{◌≡◌, ◌^◌, ◌<◌, ◌≤◌, IfOk, IfSome, Some, None, length, replicate, slice_set};
ghost use Rattle.refused_memory.specs.declared.lists.TheConstants.{MOST};
ghost use Rattle.least_tree.specs.Amounts.{amount_at, fits_at};
ghost use Rattle.number_set.specs.Next.{IsNext};

use crate::mending::mend;
use crate::search::first;
use refused_memory::{Memory, filled};
use std::alloc::Global;
use std::marker::Model;

/// An amount or none at each of a number of places, which stays. The room is taken at the start. A search and a change take
/// a few steps for each doubling of the number of places. Amounts are in the caller's unit, as cents.
#[derive(Drop)]
pub struct LeastTree {
    // Node i has the least amount of nodes 2 * i and 2 * i + 1, and the second half are the leaves. Node 0 is not used.
    nodes: Vec<Option<u64>>,
    leaves: usize,
    places: usize,
}

// So many nodes without an amount.
fn absent(alloc: Global, count: usize) -> Result<Vec<Option<u64>>, Memory>
    requires { count ≤ MOST }
    ensures { IfOk result (λ nodes. nodes.items ≡ replicate count None) }
{
    filled(alloc, None, count)
}

impl Model for LeastTree {
    ghost use Rattle.std.specs.Prelude.{List, Option, ℕ, ◌^◌, ◌≤◌};
    ghost use Rattle.least_tree.specs.Nodes.{IsTree, amounts_of};

    ghost Value = { List (Option ℕ) };

    ghost view = { λ tree. amounts_of tree.nodes.items tree.leaves tree.places };

    ghost invariant = { λ tree. IsTree tree.nodes.items tree.leaves × (tree.places ≤ tree.leaves)
        × (tree.places ≤ 2 ^ 32) };
}

impl LeastTree {
    /// A list of so many places, at most 4,294,967,296, with no amount at any of them. `Memory` says that there wasn't enough
    /// of it.
    pub fn with_room(alloc: Global, places: usize) -> Result<LeastTree, Memory>
        requires { places ≤ 2 ^ 32 }
        ensures { IfOk result (λ tree. tree ≡ replicate places None) }
    {
        let leaves = places.next_power_of_two();
        let nodes = absent(alloc, 2 * leaves)?;
        Ok(LeastTree {
            nodes,
            leaves,
            places,
        })
    }

    /// The number of places.
    pub fn places(&self) -> usize
        ensures { result ≡ length self.now }
    {
        self.places
    }

    /// The amount at a place, where there is one.
    pub fn get(&self, i: usize) -> Option<u64>
        requires { i < length self.now }
        ensures { result ≡ amount_at self.now i }
    {
        self.nodes[self.leaves + i]
    }

    fn write(&mut self, i: usize, amount: Option<u64>)
        requires { i < length self.old }
        ensures { self.new ≡ slice_set self.old i amount }
    {
        let leaf = self.leaves + i;
        self.nodes[leaf] = amount;
        mend(&mut self.nodes, leaf);
    }

    /// Puts an amount at a place, for what was there. The other places stay as they are. Takes no memory.
    pub fn put(&mut self, i: usize, amount: u64)
        requires { i < length self.old }
        ensures { self.new ≡ slice_set self.old i (Some amount) }
    {
        self.write(i, Some(amount));
    }

    /// Makes the amount at a place absent. The other places stay as they are.
    pub fn take(&mut self, i: usize)
        requires { i < length self.old }
        ensures { self.new ≡ slice_set self.old i None }
    {
        self.write(i, None);
    }

    /// The first place, from the given one on, whose amount is there and at most this much. None exactly where there is none.
    pub fn first(&self, from: usize, most: u64) -> Option<usize>
        ensures within { IfSome result (λ i. i < length self.now) }
        ensures first { IsNext (fits_at self.now most) from result }

        // so that the place after one that is found is a `usize`
        ensures small { length self.now ≤ 2 ^ 32 }
    {
        if from >= self.places {
            return None;
        }
        match first(&self.nodes, self.leaves + from, most) {
            Some(leaf) if leaf - self.leaves < self.places => Some(leaf - self.leaves),
            _ => None,
        }
    }
}
