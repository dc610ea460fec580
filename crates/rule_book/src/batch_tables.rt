//! What is found out about the batches of a day once.
ghost use Rattle.std.specs.Prelude.{◌≡◌, ◌≤◌, ◌+◌, ◌*◌, ℕ, [], length, true, IfOk};
ghost use Rattle.batch_records.specs.DayRecord.{Day};
ghost use Rattle.batch_records.specs.declared.day.Message.{Message};
ghost use Rattle.batch_records.specs.Sound.{is_sound};
ghost use Rattle.machine.specs.Records.Messages.{entries};
ghost use Rattle.rule_book.specs.Repeated.{with_one};
ghost use Rattle.rule_book.specs.Room.{TablesHaveRoom};
ghost use Rattle.rule_book.specs.Tables.{AreTables, AreUpTo};
ghost use Rattle.rule_book.specs.Settings.{IsFound, setup_of};

use crate::debtor_sums::DebtorSums;
use crate::found::Found;
use crate::parties::{Parties, PartiesRoom};
use account_book::Book;
use batch_records::Day;
use cash_amounts::Memory;
use std::alloc::Global;

/// What the batches of procedure B take from each account, and which entries each bank has in a batch.
#[derive(Drop)]
pub struct BatchTables {
    pub debts: DebtorSums,
    pub parties: Parties,
}

impl BatchTables {
    // Those of a sound day, by its book and what is found out about its messages. `Memory` says that there wasn't enough of it.
    pub(crate) fn build(
        alloc: Global,
        day: &Day,
        book: &Book,
        found: &Found,
    ) -> Result<BatchTables, Memory>
        requires sound { is_sound day.now ≡ true }
        requires filed { book.now ≡ setup_of day.now }
        requires found_out { IsFound day.now found.now }
        ensures { IfOk result (λ tables. AreTables day.now tables) }
    {
        let debts = DebtorSums::build(alloc, day, book, &found.moves)?;
        let parties = Parties::build(alloc, day, book, &found.moves)?;
        Ok(BatchTables { debts, parties })
    }

    // Of no messages, where nothing is entered yet, by the book of a sound day. Takes no memory.
    pub(crate) fn in_room(
        debts: DebtorSums,
        room: PartiesRoom,
        day: &Day,
        book: &Book,
    ) -> BatchTables
        requires sound { is_sound day.now ≡ true }
        requires filed { book.now ≡ setup_of day.now }
        requires none { day.now.messages ≡ [] }
        requires nothing { debts ≡ record { keys = []; sums = []; most = debts.most } }
        requires fits { length day.now.accounts ≤ room.accounts }
        ensures tabled { AreTables day.now result }
        ensures room { (entries : ℕ) → debts.most ≡ entries → room.most ≡ 2 * entries
            → TablesHaveRoom entries result }
    {
        let parties = Parties::in_room(room, day, book);
        BatchTables { debts, parties }
    }

    // Takes the last message of a sound day, by its book and what is found out about its messages, where all before it have come.
    // Takes no memory.
    pub(crate) fn arrive(&mut self, day: &Day, book: &Book, found: &Found, n: u32)
        requires sound { is_sound day.now ≡ true }
        requires filed { book.now ≡ setup_of day.now }
        requires found_out { IsFound day.now found.now }
        requires last { n ≡ length day.now.messages }
        requires next { AreUpTo day.now n self.old }
        requires room { TablesHaveRoom (length (entries day.now n)) self.old }
        ensures tabled { (before : Day) (m : Message) → day.now ≡ with_one before m
            → AreTables before self.old → AreTables day.now self.new }
        ensures room { (more : ℕ) → TablesHaveRoom (more + length (entries day.now n)) self.old
            → TablesHaveRoom more self.new }
    {
        self.debts.arrive(day, book, &found.moves, n);
        self.parties.arrive(day, &found.moves, n);
    }
}
