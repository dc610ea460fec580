//! Names of messages in the order in which they are entered. Contracts see them as a list, with the number of names that there
//! can be.
ghost use Rattle.std.specs.Prelude.{◌≡◌, ◌≤◌, ◌<◌, ◌^◌, ◌++◌, [], ◌∷◌, Some, IfOk, length, slice_get, vec_capacity, vec_len};
ghost use Rattle.message_names.specs.Names.{IsLastBefore, MessageName, first_of};
ghost use Rattle.message_names.specs.Stored.{linked};

use crate::packing::{name_key, sender_key};
use cash_amounts::{Memory, MsgId, Name};
use first_of_key::FirstKeys;
use refused_memory::with_capacity;
use std::alloc::Global;
use std::marker::Model;

/// Names of messages, numbered from 0 in the order in which they are entered. The room for them is taken at the start.
#[derive(Drop)]
pub struct MessageNames {
    // The senders of all names; and the identifications, each with the number of the first name with the same sender.
    senders: FirstKeys,
    ids: FirstKeys,
    // By the number of a name another of the same sender: where it is the sender's first the last of them, else the one before it.
    links: Vec<u32>,
}

// One link more, where the first name of its sender has this number, or is the new one.
fn link(links: &mut Vec<u32>, first: u32)
    requires room { vec_len links.old < vec_capacity links.old }
    requires small { vec_len links.old < 2 ^ 32 }
    ensures items { links.new.items ≡ linked first links.old.items }
    ensures room { vec_capacity links.old ≤ vec_capacity links.new }
{
    let own = links.len() as u32;
    let last = match links.as_slice().get(first as usize) {
        Some(last) => *last,
        None => own,
    };
    if first < own {
        links[first as usize] = own;
    }
    links.push_reserved(last);
}

impl Model for MessageNames {
    ghost use Rattle.message_names.specs.Names.{Named};
    ghost use Rattle.message_names.specs.Stored.{named_of, IsStored};

    ghost Value = { Named };

    ghost view = { named_of };

    ghost invariant = { IsStored };
}

impl MessageNames {
    /// No names, with room for so many. `Memory` says that there wasn't that much.
    pub fn with_room(alloc: Global, most: u32) -> Result<MessageNames, Memory>
        ensures { IfOk result (λ names. names ≡ record { names = []; most = most }) }
    {
        let senders = FirstKeys::with_room(alloc, most)?;
        let ids = FirstKeys::with_room(alloc, most)?;
        let links = with_capacity(alloc, most as usize)?;
        Ok(MessageNames {
            senders,
            ids,
            links,
        })
    }

    /// How many names there are.
    pub fn len(&self) -> u32
        ensures { result ≡ length self.now.names }
    {
        self.ids.len()
    }

    /// The number of the first name of this sender and this identification. None exactly where there is none.
    pub fn first(&self, sender: &Name, id: &MsgId) -> Option<u32>
        ensures { result ≡ first_of self.now.names sender.now id.now }
    {
        match self.senders.first(sender_key(sender)) {
            Some(first) => self.ids.first(name_key(first, id)),
            None => None,
        }
    }

    /// The number of the last name before this one with the same sender. None exactly where there is none.
    pub fn before(&self, i: u32) -> Option<u32>
        ensures { (name : MessageName) → slice_get self.now.names i ≡ Some name
            → IsLastBefore self.now.names name.sender i result }
    {
        match self.links.as_slice().get(i as usize) {
            Some(link) if *link < i => Some(*link),
            _ => None,
        }
    }

    /// Enters a name, of which the number is how many there were before it. The answer is the number of the first that is equal
    /// to it, of those before it; None exactly where there is none. Takes no memory.
    pub fn enter(&mut self, sender: &Name, id: &MsgId) -> Option<u32>
        requires { length self.old.names < self.old.most }
        ensures names { self.new.names
            ≡ self.old.names ++ record { sender = sender.now; id = id.now } ∷ [] }
        ensures most { self.new.most ≡ self.old.most }
        ensures first { result ≡ first_of self.old.names sender.now id.now }
    {
        let count = self.ids.len();
        let first = self.senders.enter(sender_key(sender)).unwrap_or(count);
        link(&mut self.links, first);
        self.ids.enter(name_key(first, id))
    }
}
