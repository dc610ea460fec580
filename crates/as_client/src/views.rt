//! The views of the parties.
ghost use Rattle.std.specs.Prelude.{◌≡◌, ℕ, List, [], true, length, IfOk, OnErr};
ghost use Rattle.outside_io.specs.Calls.{Puts};
ghost use Rattle.batch_records.specs.DayRecord.{Day};
ghost use Rattle.batch_records.specs.Sound.{is_sound};
ghost use Rattle.status_messages.specs.declared.status.Status.{Status};
ghost use Rattle.as_client.specs.KeptTexts.{report_kept};
ghost use Rattle.as_client.specs.Knowing.{Knows, Takes};
ghost use Rattle.as_client.specs.Views.{is_addressed, report_of};
ghost use Rattle.as_client.specs.ViewAnswers.{balance_told, is_asked, word_told};

use crate::party::Party;
use crate::report::put_kept;
use crate::view::{ViewFault, Word};
use batch_records::Day;
use cash_amounts::{Cents, Memory, MessageNumber, Name};
use outside_io::{Sink, WriteFault};
use status_messages::Status;
use std::alloc::Global;
use std::marker::Model;

/// What a bank knows of a day by the statuses that it took: what its accounts hold, and how far its messages have come.
#[derive(Drop)]
pub struct BankView {
    party: Party,
}

impl Model for BankView {
    ghost use Rattle.as_client.specs.Knowing.{Known};

    ghost Value = { Known };

    ghost view = { λ view. view.party };
}

impl BankView {
    /// The view of the party of this name, which took no status yet. `Memory` says that there wasn't enough of it.
    pub fn open(alloc: Global, day: &Day, name: &Name) -> Result<BankView, Memory>
        requires { is_sound day.now ≡ true }
        ensures { IfOk result (Knows day.now name.now []) }
    {
        let party = Party::open(alloc, day, name)?;
        Ok(BankView { party })
    }

    /// Whether a status is addressed to the party.
    pub fn is_addressed(&self, status: &Status) -> bool
        ensures { result ≡ is_addressed self.now.name status.now }
    {
        self.party.is_addressed(status)
    }

    /// Takes a status that is addressed to the party. An error says that it moves money on an account of others, or more of
    /// it than the account has or may hold; the view stays as it was then. Takes no memory.
    pub fn take(&mut self, status: &Status) -> Result<(), ViewFault>
        requires { is_addressed self.old.name status.now ≡ true }
        ensures told { (day : Day) (name : List ℕ) (ss : List Status) → Knows day name ss self.old
            → Takes day name ss status.now self.new result }
        ensures same { OnErr result (self.new ≡ self.old) }
    {
        self.party.take(status)
    }

    /// What the account of this name holds, in cents. None exactly where it isn't the party's.
    pub fn balance(&self, account: &Name) -> Option<Cents>
        ensures { (day : Day) (name : List ℕ) (ss : List Status) → Knows day name ss self.now
            → result ≡ balance_told day name ss account.now }
    {
        self.party.balance(account)
    }

    /// How far a message has come, by its number from 1. None exactly where the party sent no message of that number.
    pub fn word(&self, msg: MessageNumber) -> Option<Word>
        ensures { (day : Day) (name : List ℕ) (ss : List Status) → Knows day name ss self.now
            → result ≡ word_told day name ss msg }
    {
        self.party.word(msg)
    }

    /// Writes what the accounts of the party hold, how far its messages have come, and the count, which is the caller's. It is
    /// the report of the party where the day is the one of `open` and the count is that of the statuses it took. At an error
    /// a front of it was written, and the sink's count of faults has risen.
    pub fn put_report<S: Sink>(&self, day: &Day, count: u32, sink: &mut S) -> Result<(), WriteFault>
        requires { is_sound day.now ≡ true }
        ensures kept { Puts (S.state sink.old) (S.state sink.new)
            (report_kept day.now self.now count) result }
        ensures report { (name : List ℕ) (ss : List Status) → Knows day.now name ss self.now
            → length ss ≡ count
            → Puts (S.state sink.old) (S.state sink.new) (report_of day.now name ss) result }
    {
        put_kept(&self.party, day, count, sink)
    }
}

/// What an ancillary system knows of a day by the statuses that it took: what its accounts hold, and how far its messages
/// have come.
#[derive(Drop)]
pub struct AsView {
    party: Party,
}

impl Model for AsView {
    ghost use Rattle.as_client.specs.Knowing.{Known};

    ghost Value = { Known };

    ghost view = { λ view. view.party };
}

impl AsView {
    /// The view of the party of this name, which took no status yet. `Memory` says that there wasn't enough of it.
    pub fn open(alloc: Global, day: &Day, name: &Name) -> Result<AsView, Memory>
        requires { is_sound day.now ≡ true }
        ensures { IfOk result (Knows day.now name.now []) }
    {
        let party = Party::open(alloc, day, name)?;
        Ok(AsView { party })
    }

    /// Whether a status is addressed to the party.
    pub fn is_addressed(&self, status: &Status) -> bool
        ensures { result ≡ is_addressed self.now.name status.now }
    {
        self.party.is_addressed(status)
    }

    /// Takes a status that is addressed to the party. An error says that it moves money on an account of others, or more of
    /// it than the account has or may hold; the view stays as it was then. Takes no memory.
    pub fn take(&mut self, status: &Status) -> Result<(), ViewFault>
        requires { is_addressed self.old.name status.now ≡ true }
        ensures told { (day : Day) (name : List ℕ) (ss : List Status) → Knows day name ss self.old
            → Takes day name ss status.now self.new result }
        ensures same { OnErr result (self.new ≡ self.old) }
    {
        self.party.take(status)
    }

    /// What the account of this name holds, in cents. None exactly where it isn't the party's.
    pub fn balance(&self, account: &Name) -> Option<Cents>
        ensures { (day : Day) (name : List ℕ) (ss : List Status) → Knows day name ss self.now
            → result ≡ balance_told day name ss account.now }
    {
        self.party.balance(account)
    }

    /// How far a message has come, by its number from 1. None exactly where the party sent no message of that number.
    pub fn word(&self, msg: MessageNumber) -> Option<Word>
        ensures { (day : Day) (name : List ℕ) (ss : List Status) → Knows day name ss self.now
            → result ≡ word_told day name ss msg }
    {
        self.party.word(msg)
    }

    /// Whether the system is to answer for its guarantee fund: whether the word of the message is that it was asked.
    pub fn asked(&self, msg: MessageNumber) -> bool
        ensures { (day : Day) (name : List ℕ) (ss : List Status) → Knows day name ss self.now
            → result ≡ is_asked day name ss msg }
    {
        self.party.word(msg) == Some(Word::Asked)
    }

    /// Writes what the accounts of the party hold, how far its messages have come, and the count, which is the caller's. It is
    /// the report of the party where the day is the one of `open` and the count is that of the statuses it took. At an error
    /// a front of it was written, and the sink's count of faults has risen.
    pub fn put_report<S: Sink>(&self, day: &Day, count: u32, sink: &mut S) -> Result<(), WriteFault>
        requires { is_sound day.now ≡ true }
        ensures kept { Puts (S.state sink.old) (S.state sink.new)
            (report_kept day.now self.now count) result }
        ensures report { (name : List ℕ) (ss : List Status) → Knows day.now name ss self.now
            → length ss ≡ count
            → Puts (S.state sink.old) (S.state sink.new) (report_of day.now name ss) result }
    {
        put_kept(&self.party, day, count, sink)
    }
}
