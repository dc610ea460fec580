//! What both views are made of.
ghost use Rattle.batch_records.specs.declared.day.Entry.{Entry};
ghost use Rattle.batch_records.specs.Flat.{with_entries};
ghost use Rattle.std.specs.Prelude.{◌≡◌, ◌+◌, ◌-◌, ◌≤◌, ◌<◌, ℕ, List, [], ◌∷◌, true, false, None, Some, IfOk, MatchResult, OnErr, OnOk, if◌then◌else◌, length, map, is_some};
ghost use Rattle.std.specs.Option.{option_map};
ghost use Rattle.batch_records.specs.DayRecord.{Day};
ghost use Rattle.batch_records.specs.Sound.{is_sound};
ghost use Rattle.status_messages.specs.declared.status.Status.{Status};
ghost use Rattle.as_client.specs.Knowing.{HoldsNow, Known, Knows, Moves, Takes, Turned, balance_kept, kept_fault, moved_to, word_kept};
ghost use Rattle.as_client.specs.Openings.{opening_told, word_of_sender};
ghost use Rattle.as_client.specs.PartyWords.{word_after};
ghost use Rattle.as_client.specs.Views.{addressee, is_addressed, move_fault};

use crate::view::{ViewFault, Word};
use account_book::Book;
use batch_records::{Day, MessageRecord};
use cash_amounts::{AccountRecord, Cents, MAX_CENTS, Memory, Name};
use refused_memory::push;
use status_messages::{Status, TurnCode};
use std::alloc::Global;
use std::marker::Model;

// What a party knows: of each account of the day what it holds, and of each message how far it has come, where they are the
// party's.
#[derive(Drop)]
pub(crate) struct Party {
    name: Name,
    book: Book,
    balances: Vec<Option<Cents>>,
    words: Vec<Option<Word>>,
}

impl Model for Party {
    ghost use Rattle.std.specs.Prelude.{◌≡◌, length, vec_len};
    ghost use Rattle.as_client.specs.Knowing.{Known};

    ghost Value = { Known };

    ghost view = { λ p. record {
      name = p.name;
      setup = p.book;
      balances = p.balances.items;
      words = p.words.items;
    } };

    ghost invariant = { λ p. vec_len p.balances ≡ length p.book.accounts };
}

// What an account holds at the start, where it is the party's.
fn opening_told(account: &AccountRecord, name: &Name) -> Option<Cents>
    ensures { result ≡ opening_told name.now account.now }
{
    if account.owner == *name {
        Some(account.opening)
    } else {
        None
    }
}

fn openings(
    alloc: Global,
    accounts: &[AccountRecord],
    name: &Name,
) -> Result<Vec<Option<Cents>>, Memory>
    ensures { IfOk result (λ balances. balances.items ≡ map (opening_told name.now) accounts.now) }
{
    let mut balances = Vec::new(alloc);
    for account in accounts {
        push(&mut balances, opening_told(account, name))?;
    }
    Ok(balances)
}

// The word of a message before any status, where it is the party's.
fn word_of_sender(message: &MessageRecord, name: &Name) -> Option<Word>
    ensures { (entries : List Entry) → result
        ≡ word_of_sender name.now (with_entries message.now entries) }
{
    if message.sender == *name {
        Some(Word::Nothing)
    } else {
        None
    }
}

fn first_words(alloc: Global, day: &Day, name: &Name) -> Result<Vec<Option<Word>>, Memory>
    ensures { IfOk result (λ words. words.items ≡ map (word_of_sender name.now) day.now.messages) }
{
    let mut words = Vec::new(alloc);
    for i in 0..day.message_count() {
        push(&mut words, word_of_sender(day.message(i), name))?;
    }
    Ok(words)
}

// The word of a message that took a turn, after this one.
fn word_after(turn: TurnCode, word: Word) -> Word
    ensures { result ≡ word_after turn word }
{
    match turn {
        TurnCode::Acpt => Word::Accepted,
        TurnCode::Dupl => Word::Repeated,
        TurnCode::Rjct => Word::Rejected,
        TurnCode::Askg => Word::Asked,
        TurnCode::Fail => Word::Failed,
        TurnCode::Rvkd => Word::Revoked,
        TurnCode::Setl => Word::Settled,
        TurnCode::Info => word,
    }
}

// What an account holds after a move.
fn after_move(debit: bool, balance: Cents, amount: Cents) -> Result<Cents, ViewFault>
    ensures { MatchResult result
        (λ after. (move_fault debit balance amount ≡ None)
        × (after ≡ moved_to debit balance amount))
        (λ fault. move_fault debit balance amount ≡ Some fault) }
{
    let held = balance.get();
    if debit {
        if held < amount.get() {
            return Err(ViewFault::Short { balance });
        }
        return Ok(Cents::of(held - amount.get()).unwrap());
    }
    match Cents::of(held + amount.get()) {
        Some(after) => Ok(after),
        None => Err(ViewFault::Past { balance }),
    }
}

// Who is told.
fn addressee(status: &Status) -> &Name
    ensures { result.now ≡ addressee status.now }
{
    match status {
        Status::Turn { to, .. } => to,
        Status::Moved { to, .. } => to,
    }
}

impl Party {
    pub(crate) fn open(alloc: Global, day: &Day, name: &Name) -> Result<Party, Memory>
        requires { is_sound day.now ≡ true }
        ensures { IfOk result (Knows day.now name.now []) }
    {
        let accounts = day.accounts();
        let book = Book::build(alloc, accounts, day.systems())?;
        let balances = openings(alloc, accounts, name)?;
        let words = first_words(alloc, day, name)?;
        Ok(Party {
            name: name.copy(),
            book,
            balances,
            words,
        })
    }

    pub(crate) fn balance(&self, account: &Name) -> Option<Cents>
        ensures { result ≡ balance_kept self.now account.now }
    {
        match self.book.find(account) {
            Some(a) => self.balances[(a - 1) as usize],
            None => None,
        }
    }

    pub(crate) fn word(&self, msg: u32) -> Option<Word>
        ensures { result ≡ word_kept self.now msg }
    {
        if msg == 0 {
            return None;
        }
        match self.words.get(msg as usize - 1) {
            Some(word) => *word,
            None => None,
        }
    }

    // Sets what an account holds.
    fn hold(&mut self, account: &Name, balance: Cents)
        requires { is_some (balance_kept self.old account.now) ≡ true }
        ensures { HoldsNow self.old self.new account.now balance }
    {
        if let Some(a) = self.book.find(account) {
            self.balances[(a - 1) as usize] = Some(balance);
        }
    }

    fn take_move(&mut self, debit: bool, account: &Name, amount: Cents) -> Result<(), ViewFault>
        ensures told { MatchResult result
            (λ _. Moves self.old self.new debit account.now amount)
            (λ fault. kept_fault debit amount (balance_kept self.old account.now) ≡ Some fault) }
        ensures same { OnErr result (self.new ≡ self.old) }
    {
        let Some(balance) = self.balance(account) else {
            return Err(ViewFault::Account);
        };
        let after = after_move(debit, balance, amount)?;
        self.hold(account, after);
        Ok(())
    }

    fn take_turn(&mut self, turn: TurnCode, msg: u32, entry: u32)
        ensures { Turned self.old self.new turn msg entry }
    {
        if entry != 0 {
            return;
        }
        if let Some(word) = self.word(msg) {
            self.words[msg as usize - 1] = Some(word_after(turn, word));
        }
    }

    pub(crate) fn is_addressed(&self, status: &Status) -> bool
        ensures { result ≡ is_addressed self.now.name status.now }
    {
        *addressee(status) == self.name
    }

    pub(crate) fn take(&mut self, status: &Status) -> Result<(), ViewFault>
        requires { is_addressed self.old.name status.now ≡ true }
        ensures told { (day : Day) (name : List ℕ) (ss : List Status) → Knows day name ss self.old
            → Takes day name ss status.now self.new result }
        ensures same { OnErr result (self.new ≡ self.old) }
    {
        match status {
            Status::Moved {
                debit,
                account,
                amount,
                ..
            } => self.take_move(*debit, account, *amount),
            Status::Turn {
                code,
                msg,
                entry,
                ..
            } => {
                self.take_turn(*code, *msg, *entry);
                Ok(())
            }
        }
    }
}
