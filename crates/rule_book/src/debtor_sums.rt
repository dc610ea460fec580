//! What the batches of procedure B take from the accounts that they debit, added up as they come.
ghost use Rattle.std.specs.Prelude.{◌≡◌, ◌≤◌, ◌<◌, ◌+◌, ◌^◌, ℕ, [], Some, true, false, length, nat_eq, slice_get, sum_by, IfOk, if◌then◌else◌};
ghost use Rattle.first_of_key.specs.First.{IsFirstOf};
ghost use Rattle.batch_records.specs.Sound.{is_sound};
ghost use Rattle.machine.specs.Words.{same_account};
ghost use Rattle.machine.specs.Making.Lines.{gross};
ghost use Rattle.machine.specs.Records.Messages.{entries, is_b, sort_of};
ghost use Rattle.rule_book.specs.Owed.{AreDebts, account_of, b_size, debited, debtor_key, debtor_of, owed, size_of_b};
ghost use Rattle.rule_book.specs.Settings.{moves_of, setup_of};

use crate::item_moves::ItemMoves;
use crate::parts::entries;
use crate::sorts::is_b_of;
use crate::system_accounts::accounts_of;
use account_book::Book;
use batch_records::Day;
use cash_amounts::{AccountNumber, Memory, MessageNumber};
use commit_journal::Move;
use first_of_key::{FirstKeys, Key};
use refused_memory::with_capacity;
use std::alloc::Global;
use std::marker::Model;

/// For each batch of procedure B of a day and each account what the debit entries of the batch take from the account in all, in
/// cents.
#[derive(Drop)]
pub struct DebtorSums {
    keys: FirstKeys,
    sums: Vec<u64>,
}

impl Model for DebtorSums {
    ghost use Rattle.std.specs.Prelude.{length, vec_capacity};
    ghost use Rattle.rule_book.specs.Owed.{Debts, HasSums};

    ghost Value = { Debts };

    ghost view = { λ debts. record {
      keys = debts.keys.keys;
      sums = debts.sums.items;
      most = debts.keys.most;
    } };

    ghost invariant = { λ debts. HasSums debts.keys (length debts.sums.items) (vec_capacity debts.sums) };
}

fn debtor_key(n: u32, a: u32) -> Key
    ensures { result ≡ debtor_key n a }
{
    Key {
        words: [u64::from(n), u64::from(a), 0, 0, 0, 0],
    }
}

// The account of a key, where that is one of batch n.
fn account_of(n: u32, key: Key) -> Option<u32>
    ensures { result ≡ account_of n key }
{
    if key.words[0] == u64::from(n) && key.words[1] < 1 << 32 {
        Some(key.words[1] as u32)
    } else {
        None
    }
}

// ---- one entry

impl DebtorSums {
    // Adds an amount to what batch n takes from account a. Takes no memory.
    fn add(&mut self, n: u32, a: u32, amount: u64)
        requires small { owed self.old n a ≤ 10 ^ 18 }
        requires one { amount ≤ 10 ^ 18 }
        requires room { length self.old.keys < self.old.most }
        ensures sums { (m b : ℕ) → owed self.new m b
            ≡ owed self.old m b + (if nat_eq n m then (if nat_eq a b then amount else 0) else 0) }
        ensures count { length self.new.keys ≤ length self.old.keys + 1 }
        ensures most { self.new.most ≡ self.old.most }
    {
        let key = debtor_key(n, a);
        match self.keys.first(key) {
            Some(i) => self.sums[i as usize] += amount,
            None => {
                self.keys.enter(key);
                self.sums.push_reserved(amount);
            }
        }
    }
}

fn is_technical(a: u32, technical: Option<u32>) -> bool
    ensures { result ≡ same_account (Some a) technical }
{
    match technical {
        Some(technical) => a == technical,
        None => false,
    }
}

// Adds what a move takes from an account, if it goes to the technical account of batch n.
fn add_move(sums: &mut DebtorSums, n: u32, technical: Option<u32>, found: Move)
    requires small { (a : ℕ) → owed sums.old n a ≤ 10 ^ 18 }
    requires room { length sums.old.keys < sums.old.most }
    ensures sums { (m b : ℕ) → owed sums.new m b
        ≡ owed sums.old m b + (if nat_eq n m then debited technical (Some found) b else 0) }
    ensures count { length sums.new.keys ≤ length sums.old.keys + 1 }
    ensures most { sums.new.most ≡ sums.old.most }
{
    let Move {
        debit,
        credit,
        amount,
    } = found;
    if is_technical(credit, technical) {
        sums.add(n, debit, amount.get());
    }
}

// The same of what an entry moves.
fn add_entry(sums: &mut DebtorSums, n: u32, technical: Option<u32>, found: Option<Move>)
    requires small { (a : ℕ) → owed sums.old n a ≤ 10 ^ 18 }
    requires room { length sums.old.keys < sums.old.most }
    ensures sums { (m b : ℕ) → owed sums.new m b
        ≡ owed sums.old m b + (if nat_eq n m then debited technical found b else 0) }
    ensures count { length sums.new.keys ≤ length sums.old.keys + 1 }
    ensures most { sums.new.most ≡ sums.old.most }
{
    match found {
        Some(found) => add_move(sums, n, technical, found),
        None => {}
    }
}

// ---- all of them

// How many entries message n has, where it is a batch of procedure B.
fn b_size(day: &Day, n: u32) -> usize
    ensures { result ≡ b_size day.now n }
{
    if is_b_of(day, n) {
        entries(day, n).len()
    } else {
        0
    }
}

// How many entries the batches of procedure B have together.
fn b_entries(day: &Day) -> usize
    requires { is_sound day.now ≡ true }
    ensures { result ≡ sum_by size_of_b day.now.messages }
{
    let count = day.message_count();
    let mut total = 0;
    for before in 0..count as u32 {
        total += b_size(day, before + 1);
    }
    total
}

// Adds what the debit entries of batch n take.
fn add_entries(sums: &mut DebtorSums, day: &Day, book: &Book, moves: &ItemMoves, n: u32)
    requires sound { is_sound day.now ≡ true }
    requires filed { book.now ≡ setup_of day.now }
    requires moved { moves.now.list ≡ moves_of day.now }
    requires none { (a : ℕ) → owed sums.old n a ≡ 0 }
    requires room { length sums.old.keys + length (entries day.now n) ≤ sums.old.most }
    ensures own { (a : ℕ) → owed sums.new n a ≡ gross day.now n a }
    ensures others { (m a : ℕ) → nat_eq n m ≡ false → owed sums.new m a ≡ owed sums.old m a }
    ensures count { length sums.new.keys ≤ length sums.old.keys + length (entries day.now n) }
    ensures most { sums.new.most ≡ sums.old.most }
{
    let accounts = accounts_of(day, book, n);
    for before in 0..entries(day, n).len() as u32 {
        let found = moves.at(n, before + 1);
        add_entry(sums, n, accounts.technical, found);
    }
}

// The same where message n is a batch of procedure B.
fn add_message(sums: &mut DebtorSums, day: &Day, book: &Book, moves: &ItemMoves, n: u32)
    requires sound { is_sound day.now ≡ true }
    requires filed { book.now ≡ setup_of day.now }
    requires moved { moves.now.list ≡ moves_of day.now }
    requires none { (a : ℕ) → owed sums.old n a ≡ 0 }
    requires room { length sums.old.keys + b_size day.now n ≤ sums.old.most }
    ensures own { is_b (sort_of day.now n) ≡ true
        → (a : ℕ) → owed sums.new n a ≡ gross day.now n a }
    ensures others { (m a : ℕ) → nat_eq n m ≡ false → owed sums.new m a ≡ owed sums.old m a }
    ensures count { length sums.new.keys ≤ length sums.old.keys + b_size day.now n }
    ensures most { sums.new.most ≡ sums.old.most }
{
    if is_b_of(day, n) {
        add_entries(sums, day, book, moves, n);
    }
}

impl DebtorSums {
    // Nothing is entered, with room for so many accounts of batches.
    pub(crate) fn with_room(alloc: Global, most: u32) -> Result<DebtorSums, Memory>
        ensures { IfOk result (λ debts. debts ≡ record { keys = []; sums = []; most = most }) }
    {
        let keys = FirstKeys::with_room(alloc, most)?;
        let sums = with_capacity(alloc, most as usize)?;
        Ok(DebtorSums { keys, sums })
    }

    // Takes message n of a sound day, which comes next. Takes no memory.
    pub(crate) fn arrive(&mut self, day: &Day, book: &Book, moves: &ItemMoves, n: u32)
        requires sound { is_sound day.now ≡ true }
        requires filed { book.now ≡ setup_of day.now }
        requires moved { moves.now.list ≡ moves_of day.now }
        requires none { (a : ℕ) → owed self.old n a ≡ 0 }
        requires room { length self.old.keys + length (entries day.now n) ≤ self.old.most }
        ensures own { is_b (sort_of day.now n) ≡ true
            → (a : ℕ) → owed self.new n a ≡ gross day.now n a }
        ensures others { (m a : ℕ) → nat_eq n m ≡ false → owed self.new m a ≡ owed self.old m a }
        ensures count { length self.new.keys ≤ length self.old.keys + length (entries day.now n) }
        ensures most { self.new.most ≡ self.old.most }
    {
        add_message(self, day, book, moves, n);
    }

    // Those of a sound day, by its book and the moves of its items. `Memory` says that there wasn't enough of it.
    pub(crate) fn build(
        alloc: Global,
        day: &Day,
        book: &Book,
        moves: &ItemMoves,
    ) -> Result<DebtorSums, Memory>
        requires sound { is_sound day.now ≡ true }
        requires filed { book.now ≡ setup_of day.now }
        requires moved { moves.now.list ≡ moves_of day.now }
        ensures { IfOk result (λ debts. AreDebts day.now debts) }
    {
        let count = day.message_count();
        let mut debts = DebtorSums::with_room(alloc, b_entries(day) as u32)?;
        for before in 0..count as u32 {
            add_message(&mut debts, day, book, moves, before + 1);
        }
        Ok(debts)
    }

    /// The number under which account a of batch n is entered. None exactly where it isn't. All accounts of a batch are entered one after
    /// another.
    pub fn number(&self, n: MessageNumber, a: AccountNumber) -> Option<u32>
        ensures { IsFirstOf self.now.keys (debtor_key n a) result }
    {
        self.keys.first(debtor_key(n, a))
    }

    /// The account that is entered under a number, where it is one of batch n.
    pub fn debtor(&self, n: MessageNumber, i: u32) -> Option<AccountNumber>
        ensures { result ≡ debtor_of n (slice_get self.now.keys i) }
    {
        match self.keys.key(i) {
            Some(key) => account_of(n, key),
            None => None,
        }
    }

    /// What is entered of account a of batch n, in cents; 0 where nothing is.
    pub fn at(&self, n: MessageNumber, a: AccountNumber) -> u64
        ensures { result ≡ owed self.now n a }
    {
        match self.keys.first(debtor_key(n, a)) {
            Some(i) => self.sums[i as usize],
            None => 0,
        }
    }
}
