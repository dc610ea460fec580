//! What is found out about the messages of a day once.
ghost use Rattle.std.specs.Prelude.{◌≡◌, ◌<◌, ◌+◌, ℕ, length, true, IfOk};
ghost use Rattle.batch_records.specs.DayRecord.{Day};
ghost use Rattle.batch_records.specs.declared.day.Message.{Message};
ghost use Rattle.batch_records.specs.Sound.{is_sound};
ghost use Rattle.machine.specs.Records.Messages.{entries};
ghost use Rattle.rule_book.specs.Repeated.{with_one};
ghost use Rattle.rule_book.specs.Room.{FoundHasRoom};
ghost use Rattle.rule_book.specs.Settings.{IsFound, IsNothing, setup_of};

use crate::item_moves::ItemMoves;
use crate::repeats::Repeats;
use crate::system_accounts::SenderAccounts;
use account_book::Book;
use batch_records::Day;
use cash_amounts::Memory;
use std::alloc::Global;

/// The repeats of a day, the moves of its items, and the accounts of the systems that sent its messages.
#[derive(Drop)]
pub struct Found {
    pub repeats: Repeats,
    pub moves: ItemMoves,
    pub accounts: SenderAccounts,
}

impl Found {
    // What is found out about a sound day, by its book. `Memory` says that there wasn't enough of it.
    pub(crate) fn build(alloc: Global, day: &Day, book: &Book) -> Result<Found, Memory>
        requires sound { is_sound day.now ≡ true }
        requires filed { book.now ≡ setup_of day.now }
        ensures { IfOk result (λ found. IsFound day.now found) }
    {
        let repeats = Repeats::build(alloc, day)?;
        let moves = ItemMoves::build(alloc, day, book)?;
        let accounts = SenderAccounts::build(alloc, day, book)?;
        Ok(Found {
            repeats,
            moves,
            accounts,
        })
    }

    // Of no messages, with room for so many, and for so many entries of all of them.
    pub(crate) fn with_room(alloc: Global, messages: u32, entries: u32) -> Result<Found, Memory>
        ensures none { IfOk result (λ found. IsNothing found) }
        ensures room { IfOk result (λ found. FoundHasRoom messages entries found) }
    {
        let repeats = Repeats::with_room(alloc, messages)?;
        let moves = ItemMoves::with_room(alloc, messages as usize, entries as usize)?;
        let accounts = SenderAccounts::with_room(alloc, messages as usize)?;
        Ok(Found {
            repeats,
            moves,
            accounts,
        })
    }

    // Takes the last message of a sound day, by its book, where all before it have come. Takes no memory.
    pub(crate) fn arrive(&mut self, day: &Day, book: &Book, n: u32)
        requires sound { is_sound day.now ≡ true }
        requires filed { book.now ≡ setup_of day.now }
        requires last { n ≡ length day.now.messages }
        requires there { 0 < n }
        requires room { FoundHasRoom 1 (length (entries day.now n)) self.old }
        ensures found { (before : Day) (m : Message) → day.now ≡ with_one before m
            → IsFound before self.old → IsFound day.now self.new }
        ensures room { (messages more : ℕ)
            → FoundHasRoom (messages + 1) (more + length (entries day.now n)) self.old
            → FoundHasRoom messages more self.new }
    {
        self.repeats.arrive(day.message(n as usize - 1));
        self.moves.arrive(day, book, n);
        self.accounts.take(day, book, n);
    }
}
