//! The accounts that the senders of a day's messages have as systems, found once.
ghost use Rattle.std.specs.Prelude.{◌≡◌, ◌<◌, [], length, true, IfOk, ◌≤◌};
ghost use Rattle.refused_memory.specs.declared.lists.TheConstants.{MOST};
ghost use Rattle.batch_records.specs.Sound.{is_sound};
ghost use Rattle.machine.specs.Records.Messages.{procedure_of};
ghost use Rattle.rule_book.specs.Senders.{with_sender};
ghost use Rattle.rule_book.specs.Settings.{accounts_of, accounts_of_senders, setup_of};

use crate::book_names::system_number;
use crate::parts::{message, sender};
use account_book::Book;
use batch_records::{Day, RecordBody};
use cash_amounts::{Memory, Procedure};
use refused_memory::with_capacity;
use std::alloc::Global;
use std::marker::Model;

/// The accounts of a system: the technical account for the procedure of a message, and the guarantee fund account. `None`
/// where the system doesn't have it, or is none.
#[derive(Clone, Copy)]
pub struct SystemAccounts {
    pub technical: Option<u32>,
    pub fund: Option<u32>,
}

/// For each of some messages, one after another, the accounts of its sender.
#[derive(Drop)]
pub struct SenderAccounts {
    items: Vec<SystemAccounts>,
}

impl Model for SenderAccounts {
    ghost use Rattle.std.specs.Prelude.{vec_capacity};
    ghost use Rattle.rule_book.specs.Senders.{Senders};

    ghost Value = { Senders };

    ghost view = { λ accounts. record {
      accounts = accounts.items.items;
      most = vec_capacity accounts.items;
    } };
}

// The procedure of a batch; E, where the message is no batch.
pub(crate) fn procedure_of(day: &Day, n: u32) -> Procedure
    ensures { result ≡ procedure_of day.now n }
{
    match message(day, n) {
        Some(message) => match message.body {
            RecordBody::Batch { procedure, .. } => procedure,
            _ => Procedure::E,
        },
        None => Procedure::E,
    }
}

// The accounts of the sender of message n.
pub(crate) fn accounts_of(day: &Day, book: &Book, n: u32) -> SystemAccounts
    requires sound { is_sound day.now ≡ true }
    requires filed { book.now ≡ setup_of day.now }
    ensures { result ≡ accounts_of day.now n }
{
    match system_number(day, book, sender(day, n)) {
        Some(s) => SystemAccounts {
            technical: book.technical(s, procedure_of(day, n)),
            fund: book.fund(s),
        },
        None => SystemAccounts {
            technical: None,
            fund: None,
        },
    }
}

impl SenderAccounts {
    // No messages, with room for so many.
    pub(crate) fn with_room(alloc: Global, most: usize) -> Result<SenderAccounts, Memory>
        requires { most ≤ MOST }
        ensures { IfOk result (λ senders. senders ≡ record { accounts = []; most = most }) }
    {
        let items = with_capacity(alloc, most)?;
        Ok(SenderAccounts { items })
    }

    // Takes message n of a sound day, which comes next. Takes no memory.
    pub(crate) fn take(&mut self, day: &Day, book: &Book, n: u32)
        requires sound { is_sound day.now ≡ true }
        requires filed { book.now ≡ setup_of day.now }
        requires room { length self.old.accounts < self.old.most }
        ensures { self.new ≡ with_sender (accounts_of day.now n) self.old }
    {
        self.items.push_reserved(accounts_of(day, book, n));
    }

    // The accounts of the senders of a sound day, by its book. `Memory` says that there wasn't enough of it.
    pub(crate) fn build(alloc: Global, day: &Day, book: &Book) -> Result<SenderAccounts, Memory>
        requires sound { is_sound day.now ≡ true }
        requires filed { book.now ≡ setup_of day.now }
        ensures { IfOk result (λ senders. senders.accounts ≡ accounts_of_senders day.now) }
    {
        let count = day.message_count();
        let mut senders = SenderAccounts::with_room(alloc, count)?;
        for before in 0..count as u32 {
            senders.take(day, book, before + 1);
        }
        Ok(senders)
    }

    /// The items: that of message n is the item at n - 1.
    pub fn as_slice(&self) -> &[SystemAccounts]
        ensures { result.now ≡ self.now.accounts }
    {
        self.items.as_slice()
    }
}
