//! The items that are due, kept line by line.
ghost use Rattle.std.specs.Prelude.{◌≡◌, ◌<◌, ◌≤◌, ◌+◌, ◌^◌, ◌∷◌, [], ℕ, List, false, Some, length, slice_set, IfOk, IfSome};
ghost use Rattle.batch_records.specs.DayRecord.{Day};
ghost use Rattle.commit_journal.specs.Line.{Line, History};
ghost use Rattle.machine.specs.Orders.Hints.{hint};
ghost use Rattle.number_set.specs.Members.{has};
ghost use Rattle.number_set.specs.Next.{IsNext};
ghost use Rattle.scan_laws.specs.Numbers.{item_count, item_of};
ghost use Rattle.day_facts.specs.Facts.{StandsFor};
ghost use Rattle.due_items.specs.Due.{IsFirstDue};
ghost use Rattle.batch_records.specs.declared.day.Message.{Message};
ghost use Rattle.machine.specs.Records.Messages.{entries};
ghost use Rattle.live_order.specs.Coming.{ComesNext, setup, StaysLegal};
ghost use Rattle.live_order.specs.Longer.{SpeaksOf, longer};
ghost use Rattle.due_items.specs.Room.{HasRoom};
ghost use Rattle.due_items.specs.Kept.{HaveDue, KeepsDue, Tells};
ghost use Rattle.due_items.specs.Row.{HasRoomFor, IsNumber, spent};

use crate::flags::Flags;
use crate::index::Index;
use crate::noting::note_line;
use crate::row::Room;
use crate::wants::want_of;
use cash_amounts::{Memory, MessageNumber};
use commit_journal::{Head, Want};
use day_facts::DayFacts;
use rule_book::parts::{entry_count, message_count};
use rule_book::{Item, Setting};
use std::alloc::Global;
use std::marker::Model;

/// The items of a day that are due: the pending ones, and item 0 of each message whose phase asks for a line.
#[derive(Drop)]
pub struct DueItems {
    index: Index,
    flags: Flags,
}

impl Model for DueItems {
    ghost use Rattle.due_items.specs.Kept.{Due};

    ghost Value = { Due };

    ghost view = { λ due. record {
      index = due.index;
      set = due.flags.due;
      renewed = due.flags.renewed;
      room = due.flags.room;
    } };
}

// A number below a bound.
fn below(i: usize, bound: u32) -> Option<u32>
    ensures { i < bound → result ≡ Some i }
{
    if i < bound as usize {
        Some(i as u32)
    } else {
        None
    }
}

// How many items the messages of a day have.
fn item_total(setting: &Setting) -> u32
    ensures { result ≡ item_count setting.now.day }
{
    let mut total = 0;
    for before in 0..message_count(setting) {
        total += entry_count(setting, before + 1) + 1;
    }
    total
}

impl DueItems {
    // No message, and room for so many messages and items.
    fn of_none(alloc: Global, room: Room) -> Result<DueItems, Memory>
        ensures have { IfOk result (λ due. (day : Day) → HaveDue day 0 [] due) }
        ensures room { IfOk result (λ due. due.index.row.room ≡ room) }
    {
        let index = Index::empty(alloc, room)?;
        match Flags::with_room(alloc, room.items) {
            Ok(flags) => Ok(DueItems { index, flags }),
            // By one call: a `?` drops each list of the index by itself, and the proof takes several times as long.
            Err(e) => {
                drop(index);
                Err(e)
            }
        }
    }

    // The next message of the day comes, by its number. Nothing of it is due before it is taken, and all else stays. Takes no memory, but
    // room for one message and for its items: without it nothing happens.
    fn take_up(&mut self, setting: &Setting, n: MessageNumber)
        ensures left { HasRoomFor setting.now.day n self.old.index.row.room
            → self.new.index.row.room ≡ spent setting.now.day n self.old.index.row.room }
        ensures have { (J : History) (k : ℕ) → n ≡ k + 1 → n ≤ length setting.now.day.messages → SpeaksOf k J
            → HasRoomFor setting.now.day n self.old.index.row.room
            → HaveDue setting.now.day k J self.old → HaveDue setting.now.day n J self.new }
    {
        self.index.arrive(setting, n);
        self.flags.grow(entry_count(setting, n) + 1);
    }

    /// Of no messages and no lines, of any day, with room for so many messages, with so many entries in all. All memory is taken here, and
    /// `Memory` says that there wasn't that much.
    pub fn empty(alloc: Global, messages: u32, entries: u32) -> Result<DueItems, Memory>
        requires { messages + entries < 2 ^ 32 }
        ensures empty { (day : Day) → IfOk result (λ due. KeepsDue (setup day) [] due) }
        ensures room { IfOk result (λ due. HasRoom messages entries due) }
    {
        let room = Room {
            messages,
            items: messages + entries,
        };
        let due = DueItems::of_none(alloc, room)?;
        Ok(due)
    }

    /// Message n of the setting's day comes, which is the next. Nothing of it is due before it is taken, and all else stays. Takes no
    /// memory, but room for it.
    pub fn arrive(&mut self, setting: &Setting, n: MessageNumber)
        requires room { HasRoom 1 (length (entries setting.now.day n)) self.old }
        ensures room { (messages more : ℕ)
            → HasRoom (messages + 1) (more + length (entries setting.now.day n)) self.old
            → HasRoom messages more self.new }
        ensures day { (day : Day) (m : Message) (ms : List Message) (ss : List ℕ) (J : History)
            → ComesNext setting.now.day n day m ms ss → StaysLegal day m J
            → KeepsDue day J self.old → KeepsDue (longer day (m ∷ []) []) J self.new }
    {
        self.take_up(setting, n);
    }

    /// Over no lines: nothing is due. All memory that is needed is taken here, and `Memory` says that there wasn't that much.
    pub fn with_room(alloc: Global, setting: &Setting) -> Result<DueItems, Memory>
        ensures { IfOk result (λ due. KeepsDue setting.now.day [] due) }
    {
        let count = message_count(setting);
        let room = Room {
            messages: count,
            items: item_total(setting),
        };
        let mut due = DueItems::of_none(alloc, room)?;
        for before in 0..count {
            due.take_up(setting, before + 1);
        }
        Ok(due)
    }

    /// Notes the next line, of which the head is enough, by the facts that stand for it already. Where the set was that of the lines before
    /// it, it is that of these and it. Each item that the line concerns is among those that were brought up to date. The room for what is
    /// still to come stays.
    pub fn note(&mut self, setting: &Setting, facts: &DayFacts, head: Head)
        ensures told { (J : History) (l : Line) → l.head ≡ head
            → StandsFor setting.now.day (l ∷ J) facts.now → KeepsDue setting.now.day J self.old
            → Tells setting.now.day J l self.new.renewed }
        ensures kept { (J : History) (l : Line) → l.head ≡ head
            → StandsFor setting.now.day (l ∷ J) facts.now → KeepsDue setting.now.day J self.old
            → KeepsDue setting.now.day (l ∷ J) self.new }
        ensures room { self.new.index ≡ self.old.index }
    {
        note_line(&mut self.flags, &self.index, setting, facts, head);
    }

    /// The first item that is due and doesn't stand before this one, by message and then by entry. The item needn't be one of the day.
    pub fn first_at(&self, from: Item) -> Option<Item>
        ensures { (day : Day) (J : History) → KeepsDue day J self.now
            → IsFirstDue day J from result }
    {
        match self.flags.next_due(self.index.place(from)) {
            Some(i) => self.index.item(i as usize),
            None => None,
        }
    }

    /// The same by numbers: the least number at or above this one of an item that is due. Items are numbered from 0, by message and then by
    /// entry.
    pub fn next(&self, from: u32) -> Option<u32>
        ensures next { IsNext (has self.now.set) from result }
        ensures within { IfSome result (λ i. i < length self.now.set) }
        ensures small { length self.now.set < 2 ^ 32 }
    {
        self.flags.next_due(from)
    }

    /// The next item, by number, that was brought up to date and not forgotten since.
    pub fn next_renewed(&self, from: u32) -> Option<u32>
        ensures next { IsNext (has self.now.renewed) from result }
        ensures within { IfSome result (λ i. i < length self.now.renewed) }
        ensures small { length self.now.renewed < 2 ^ 32 }
    {
        self.flags.next_renewed(from)
    }

    /// Forgets that an item was brought up to date. What is due stays.
    pub fn forget(&mut self, number: u32)
        requires { number < length self.old.renewed }
        ensures { self.new ≡ record {
          index = self.old.index;
          set = self.old.set;
          renewed = slice_set self.old.renewed number false;
          room = self.old.room;
        } }
    {
        self.flags.forget(number);
    }

    /// How many items the day has.
    pub fn count(&self) -> u32
        ensures { result ≡ length self.now.set }
    {
        self.flags.count()
    }

    /// The number of an item, where the day has it.
    pub fn number(&self, item: Item) -> Option<u32>
        ensures { (day : Day) (J : History) → KeepsDue day J self.now
            → IsNumber day item.msg item.entry result }
    {
        match self.index.number(item.msg, item.entry) {
            Some(i) => below(i, self.count()),
            None => None,
        }
    }

    /// The item of a number.
    pub fn item(&self, number: u32) -> Option<Item>
        ensures { (day : Day) (J : History) → KeepsDue day J self.now → number < item_count day
            → result ≡ Some (item_of day number) }
    {
        self.index.item(number as usize)
    }

    /// The want of that item.
    pub fn hint(&self, setting: &Setting, facts: &DayFacts, from: Item) -> Option<Want>
        ensures { (J : History) → StandsFor setting.now.day J facts.now
            → KeepsDue setting.now.day J self.now → result ≡ hint setting.now.day J from }
    {
        match self.first_at(from) {
            Some(item) => want_of(setting, facts, item),
            None => None,
        }
    }
}
