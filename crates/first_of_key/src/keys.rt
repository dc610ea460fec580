//! Keys in the order in which they are entered. Contracts see them as a list, with the number of keys that there can be.
ghost use Rattle.std.specs.Prelude.{◌≡◌, ◌<◌, ◌≤◌, ◌+◌, ◌++◌, [], ◌∷◌, IfOk, length, map, replicate, slice_get, vec_len, vec_capacity};
ghost use Rattle.refused_memory.specs.declared.lists.TheConstants.{MOST};
ghost use Rattle.first_of_key.specs.declared.node.TheConstants.{NONE};
ghost use Rattle.first_of_key.specs.Paths.{tree, IsSearchable, IsEnd};
ghost use Rattle.first_of_key.specs.Sides.{IsWhole};
ghost use Rattle.first_of_key.specs.First.{IsFirstOf};

use crate::Key;
use crate::node::{NONE, Node, Place, hang, leaf, number};
use crate::search::end;
use cash_amounts::Memory;
use refused_memory::{filled, with_capacity};
use std::alloc::Global;
use std::marker::Model;

/// Keys, numbered from 0 in the order in which they are entered. The room for them is taken at the start. A search takes a
/// step or two on average, and at most 448 whatever the keys are.
#[derive(Drop)]
pub struct FirstKeys {
    heads: Vec<u32>,
    nodes: Vec<Node>,
    most: u32,
}

// So many heads that lead nowhere.
fn no_heads(alloc: Global, count: usize) -> Result<Vec<u32>, Memory>
    requires { count ≤ MOST }
    ensures { IfOk result (λ heads. heads.items ≡ replicate count NONE) }
{
    filled(alloc, NONE, count)
}

// A key after the others, where a search for it has ended at this place.
fn put(heads: &mut [u32], nodes: &mut Vec<Node>, key: Key, place: Place)
    requires searchable { IsSearchable (tree heads.old nodes.old.items) }
    requires whole { IsWhole key }
    requires end { IsEnd (tree heads.old nodes.old.items) key place }
    requires room { vec_len nodes.old < vec_capacity nodes.old }
    requires small { vec_len nodes.old < NONE }
    ensures searchable { IsSearchable (tree heads.new nodes.new.items) }
    ensures keys { map (λ n. n.key) nodes.new.items ≡ map (λ n. n.key) nodes.old.items ++ key ∷ [] }
    ensures len { vec_len nodes.new ≡ vec_len nodes.old + 1 }
    ensures room { vec_capacity nodes.old ≤ vec_capacity nodes.new }
{
    let to = nodes.len() as u32;
    hang(heads, nodes, place, to);
    nodes.push(leaf(key)).unwrap();
}

impl Model for FirstKeys {
    ghost use Rattle.first_of_key.specs.First.{Entered};
    ghost use Rattle.first_of_key.specs.Stored.{entered_of, IsStored};

    ghost Value = { Entered };

    ghost view = { entered_of };

    ghost invariant = { IsStored };
}

impl FirstKeys {
    /// No keys, with room for so many. `Memory` says that there wasn't that much.
    pub fn with_room(alloc: Global, most: u32) -> Result<FirstKeys, Memory>
        ensures { IfOk result (λ keys. keys ≡ record { keys = []; most = most }) }
    {
        let heads = no_heads(alloc, most as usize / 2 + 1)?;
        let nodes = with_capacity(alloc, most as usize)?;
        Ok(FirstKeys { heads, nodes, most })
    }

    /// How many keys there are.
    pub fn len(&self) -> u32
        ensures { result ≡ length self.now.keys }
    {
        self.nodes.len() as u32
    }

    /// The key of this number. None exactly where there are no more than that many.
    pub fn key(&self, i: u32) -> Option<Key>
        ensures { result ≡ slice_get self.now.keys i }
    {
        match self.nodes.as_slice().get(i as usize) {
            Some(node) => Some(node.key),
            None => None,
        }
    }

    /// The number of the first key that is equal to the given one. None exactly where there is none.
    pub fn first(&self, key: Key) -> Option<u32>
        ensures { IsFirstOf self.now.keys key result }
    {
        number(end(&self.heads, &self.nodes, key))
    }

    /// Enters a key, of which the number is how many there were before it. The answer is the number of the first that is equal
    /// to it, of those before it; None exactly where there is none. Takes no memory.
    pub fn enter(&mut self, key: Key) -> Option<u32>
        requires { length self.old.keys < self.old.most }
        ensures keys { self.new.keys ≡ self.old.keys ++ key ∷ [] }
        ensures most { self.new.most ≡ self.old.most }
        ensures first { IsFirstOf self.old.keys key result }
    {
        let place = end(&self.heads, &self.nodes, key);
        put(&mut self.heads, &mut self.nodes, key, place);
        number(place)
    }
}
