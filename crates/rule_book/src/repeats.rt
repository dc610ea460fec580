//! The names of messages and the messages that repeat an earlier one, which grow message by message.
ghost use Rattle.std.specs.Prelude.{◌≡◌, ◌+◌, ◌<◌, ◌++◌, [], ◌∷◌, List, Some, length, option_map, slice_get, true, IfOk, IfSome};
ghost use Rattle.batch_records.specs.DayRecord.{Day};
ghost use Rattle.batch_records.specs.declared.day.Entry.{Entry};
ghost use Rattle.batch_records.specs.Flat.{with_entries};
ghost use Rattle.batch_records.specs.Sound.{is_sound};
ghost use Rattle.message_names.specs.Names.{IsLastBefore, MessageName, first_of};
ghost use Rattle.rule_book.specs.Repeated.{AreRepeats, first_number, with_one};

use batch_records::{Day, MessageRecord};
use cash_amounts::{Memory, MsgId, Name};
use message_names::MessageNames;
use refused_memory::with_capacity;
use std::alloc::Global;
use std::marker::Model;

/// Of some messages, one after another, the names, and for each the number of the first message with its sender and its
/// identification, where that is an earlier one. Messages are numbered from 1.
#[derive(Drop)]
pub struct Repeats {
    names: MessageNames,
    items: Vec<Option<u32>>,
}

impl Model for Repeats {
    ghost use Rattle.std.specs.Prelude.{◌≡◌, ◌≤◌, length, vec_capacity};
    ghost use Rattle.rule_book.specs.Repeated.{Repeated, HasItems};

    ghost Value = { Repeated };

    ghost view = { λ r. record {
      names = r.names.names;
      repeats = r.items.items;
      most = r.names.most;
    } };

    ghost invariant = { λ r. HasItems r.names (length r.items.items) (vec_capacity r.items) };
}

// The number of a name, from 1, of so many.
fn number(first: Option<u32>, count: u32) -> Option<u32>
    requires { IfSome first (λ i. i < count) }
    ensures { result ≡ option_map (λ i. i + 1) first }
{
    match first {
        Some(i) => Some(i + 1),
        None => None,
    }
}

impl Repeats {
    /// No messages, with room for so many. `Memory` says that there wasn't that much.
    pub fn with_room(alloc: Global, most: u32) -> Result<Repeats, Memory>
        ensures { IfOk result (λ repeats.
            repeats ≡ record { names = []; repeats = []; most = most }) }
    {
        let names = MessageNames::with_room(alloc, most)?;
        let items = with_capacity(alloc, most as usize)?;
        Ok(Repeats { names, items })
    }

    /// Takes the next message. Where these were the repeats of a day, they are those of the day with the message after its own.
    /// Takes no memory, and the time for it doesn't hang on what came before.
    pub fn arrive(&mut self, message: &MessageRecord)
        requires { length self.old.names < self.old.most }
        ensures names { self.new.names
            ≡ self.old.names ++ record { sender = message.now.sender; id = message.now.id } ∷ [] }
        ensures repeats { self.new.repeats ≡ self.old.repeats
            ++ first_number self.old.names message.now.sender message.now.id ∷ [] }
        ensures most { self.new.most ≡ self.old.most }
        ensures day { (day : Day) (entries : List Entry) → AreRepeats day self.old
            → AreRepeats (with_one day (with_entries message.now entries)) self.new }
    {
        let count = self.names.len();
        let first = self.names.enter(&message.sender, &message.id);
        self.items.push_reserved(number(first, count));
    }

    // The repeats of a sound day. `Memory` says that there wasn't enough of it.
    pub(crate) fn build(alloc: Global, day: &Day) -> Result<Repeats, Memory>
        requires { is_sound day.now ≡ true }
        ensures { IfOk result (λ repeats. AreRepeats day.now repeats) }
    {
        let count = day.message_count();
        let mut repeats = Repeats::with_room(alloc, count as u32)?;
        for i in 0..count {
            repeats.arrive(day.message(i));
        }
        Ok(repeats)
    }

    /// The number of the first message of this sender and this identification.
    pub fn first(&self, sender: &Name, id: &MsgId) -> Option<u32>
        ensures { result ≡ first_number self.now.names sender.now id.now }
    {
        number(self.names.first(sender, id), self.names.len())
    }

    /// The number, from 0, of the last name before name i with the same sender. None exactly where there is none.
    pub fn before(&self, i: u32) -> Option<u32>
        ensures { (name : MessageName) → slice_get self.now.names i ≡ Some name
            → IsLastBefore self.now.names name.sender i result }
    {
        self.names.before(i)
    }

    /// The items: that of message n is the item at n - 1.
    pub fn as_slice(&self) -> &[Option<u32>]
        ensures { result.now ≡ self.now.repeats }
    {
        self.items.as_slice()
    }
}
