//! What is found out about a day once: the row of its items, and the chains of its messages.
ghost use Rattle.std.specs.Prelude.{◌≡◌, ◌≤◌, ◌<◌, ◌+◌, ◌-◌, ◌^◌, ℕ, IfOk, length, slice_get, slice_index_or};
ghost use Rattle.batch_records.specs.DayRecord.{Day};
ghost use Rattle.due_items.specs.Chains.{no_chain};
ghost use Rattle.due_items.specs.Index.{IsIndexOf, chain_in, index_upto, no_index};
ghost use Rattle.due_items.specs.Row.{HasRoomFor, IsNumber, IsPlace, spent};

use crate::chain::{Chain, Key};
use crate::row::{ItemRow, Room};
use cash_amounts::{EntryNumber, Memory, MessageNumber};
use rule_book::{Item, Setting};
use std::alloc::Global;
use std::marker::Model;

#[derive(Drop)]
pub struct Index {
    row: ItemRow,
    infos: Chain,
    froms: Chain,
    tills: Chain,
    cycles: Chain,
}

impl Model for Index {
    ghost use Rattle.due_items.specs.Index.{Index};

    ghost Value = { Index };

    ghost view = { λ index. record {
      row = index.row;
      infos = index.infos;
      froms = index.froms;
      tills = index.tills;
      cycles = index.cycles;
    } };
}

// Two at a time, as each failure drops what was made before it.
fn two_chains(alloc: Global, room: u32) -> Result<(Chain, Chain), Memory>
    ensures one { IfOk result (λ r. r.0 ≡ no_chain room) }
    ensures other { IfOk result (λ r. r.1 ≡ no_chain room) }
{
    let one = Chain::empty(alloc, room)?;
    match Chain::empty(alloc, room) {
        Ok(other) => Ok((one, other)),
        Err(e) => {
            drop(one);
            Err(e)
        }
    }
}

impl Index {
    // No message, and room for so many messages and items.
    pub fn empty(alloc: Global, room: Room) -> Result<Index, Memory>
        ensures { IfOk result (λ index. index ≡ no_index room) }
    {
        let row = ItemRow::empty(alloc, room)?;
        let (infos, froms) = two_chains(alloc, room.messages)?;
        let (tills, cycles) = two_chains(alloc, room.messages)?;
        Ok(Index {
            row,
            infos,
            froms,
            tills,
            cycles,
        })
    }

    // The next message comes. Takes no memory, but room for it and its items.
    pub fn arrive(&mut self, setting: &Setting, n: MessageNumber)
        ensures room { HasRoomFor setting.now.day n self.old.row.room
            → self.new.row.room ≡ spent setting.now.day n self.old.row.room }
        ensures index { (k : ℕ) → n ≡ k + 1 → n ≤ length setting.now.day.messages
            → HasRoomFor setting.now.day n self.old.row.room
            → self.old ≡ index_upto setting.now.day k self.old.row.room
            → self.new ≡ index_upto setting.now.day n (spent setting.now.day n self.old.row.room) }
    {
        self.row.arrive(setting, n);
        self.infos.arrive(setting, Key::Info, n);
        self.froms.arrive(setting, Key::From, n);
        self.tills.arrive(setting, Key::Till, n);
        self.cycles.arrive(setting, Key::Cycle, n);
    }

    // How many items there are.
    pub fn count(&self) -> usize
        ensures count { result ≡ length self.now.row.items }
        ensures small { result < 2 ^ 32 }
    {
        self.row.count()
    }

    // The item of a number.
    pub fn item(&self, i: usize) -> Option<Item>
        ensures { result ≡ slice_get self.now.row.items i }
    {
        self.row.item(i)
    }

    // The number of item k of message n, where the day has it.
    pub fn number(&self, n: MessageNumber, k: EntryNumber) -> Option<usize>
        ensures { (day : Day) → IsIndexOf day self.now → IsNumber day n k result }
    {
        self.row.number(n, k)
    }

    // The number of the first item of the day that doesn't stand before this one; how many there are, where all do.
    pub fn place(&self, from: Item) -> u32
        ensures { (day : Day) → IsIndexOf day self.now → IsPlace day from result }
    {
        self.row.place(from)
    }

    fn chain(&self, key: Key) -> &Chain
        ensures { result.now ≡ chain_in key self.now }
    {
        match key {
            Key::Info => &self.infos,
            Key::From => &self.froms,
            Key::Till => &self.tills,
            Key::Cycle => &self.cycles,
        }
    }

    // The last message that has this one of the keys, or 0.
    pub fn newest(&self, key: Key, t: u32) -> u32
        ensures { result ≡ slice_index_or (chain_in key self.now).newest t 0 }
    {
        self.chain(key).newest(t)
    }

    // The last message before message n that has its key, or 0.
    pub fn older(&self, key: Key, n: MessageNumber) -> u32
        requires { 1 ≤ n }
        ensures before { result < n }
        ensures is { result ≡ slice_index_or (chain_in key self.now).older (n - 1) 0 }
    {
        self.chain(key).older(n)
    }
}
