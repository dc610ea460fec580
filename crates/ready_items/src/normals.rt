//! The normal payments of a day by account, each with its amount while it is pending.
ghost use Rattle.std.specs.Prelude.{List, ◌≡◌, ◌<◌, ◌≤◌, ◌+◌, ℕ, None, true, [], IfOk, length, replicate};
ghost use Rattle.std.specs.List.Sorted.{IsStrictlyIncreasing};
ghost use Rattle.batch_records.specs.DayRecord.{Day};
ghost use Rattle.batch_records.specs.declared.day.Message.{Message};
ghost use Rattle.commit_journal.specs.Line.{History};
ghost use Rattle.live_order.specs.Longer.{longer};
ghost use Rattle.number_set.specs.Next.{IsNext};
ghost use Rattle.amount_forest.specs.Lists.{list_at, numbers_at};
ghost use Rattle.due_items.specs.Kept.{KeepsDue};
ghost use Rattle.ready_items.specs.Normals.{HavePayments, IsAmount, IsArrived, IsEntered, IsFirstFit, IsListed, IsPassed, IsPayment, amount_of, fits_normal, is_normal_pay, payer, place_of, put_in, spot_at, written};

use amount_forest::AmountForest;
use cash_amounts::{AccountNumber, Memory, MessageNumber};
use due_items::DueItems;
use refused_memory::with_capacity;
use rule_book::parts::{account_count, is_high, item_move, message_count};
use rule_book::sorts::is_pay;
use rule_book::{Item, Setting};
use std::alloc::Global;
use std::marker::Model;

/// Whether message n is a payment that is neither urgent nor high.
pub fn is_normal(setting: &Setting, n: MessageNumber) -> bool
    ensures { result ≡ is_normal_pay setting.now.day n }
{
    is_pay(setting, n) && !is_high(setting, n)
}

/// The account that a payment debits; 0 where the name is no account's.
pub fn payer(setting: &Setting, n: MessageNumber) -> u32
    ensures { result ≡ payer setting.now.day n }
{
    match item_move(setting, n, 0) {
        Some(found) => found.debit,
        None => 0,
    }
}

// ---- places

// A place of a list, and which push it was: where that isn't so, no more than time is lost.
#[derive(Clone, Copy)]
pub struct Spot {
    pub place: u32,
    pub order: u32,
}

fn no_spot() -> Spot
    ensures { result ≡ record { place = 0; order = 0 } }
{
    Spot { place: 0, order: 0 }
}

fn spot_at(spots: &[Spot], n: u32) -> Spot
    ensures { result ≡ spot_at spots.now n }
{
    match spots.get((n as usize).saturating_sub(1)) {
        Some(spot) => *spot,
        None => no_spot(),
    }
}

// ---- amounts

// A number at the end of a list, without an amount.
fn enter(amounts: &mut AmountForest, a: u32, number: u32) -> Spot
    requires { 0 < amounts.old.spare }
    ensures listed { a < length amounts.old.lists → IsListed a number result.place amounts.old amounts.new }
    ensures spare { amounts.old.spare ≤ amounts.new.spare + 1 }
{
    if a >= amounts.lists() {
        return no_spot();
    }
    let place = amounts.len(a);
    let order = amounts.push(a, number, None);
    Spot { place, order }
}

// The amount at a place of a list, or none.
fn set(amounts: &mut AmountForest, a: u32, spot: Spot, amount: Option<u64>)
    ensures lists { a < length amounts.old.lists → spot.place < length (list_at amounts.old.lists a)
        → amounts.new.lists ≡ written amounts.old.lists a spot.place amount }
    ensures numbers { amounts.new.numbers ≡ amounts.old.numbers }
    ensures spare { amounts.new.spare ≡ amounts.old.spare }
{
    if a >= amounts.lists() {
        return;
    }
    if spot.place >= amounts.len(a) {
        return;
    }
    match amount {
        Some(amount) => amounts.put(a, spot.place, spot.order, amount),
        None => amounts.take(a, spot.place, spot.order),
    }
}

// The first number of a list, from this one on, whose amount is at most this much.
fn first(amounts: &AmountForest, a: u32, from: u32, most: u64) -> Option<u32>
    ensures { length (list_at amounts.now.lists a) ≡ length (numbers_at amounts.now.numbers a)
        → IsStrictlyIncreasing (numbers_at amounts.now.numbers a)
        → IsFirstFit (numbers_at amounts.now.numbers a) (list_at amounts.now.lists a) from most result }
{
    if a >= amounts.lists() {
        return None;
    }
    match amounts.first(a, amounts.place(a, from), most) {
        Some(place) => Some(amounts.number(a, place)),
        None => None,
    }
}

// ---- payments

#[derive(Drop)]
pub struct Normals {
    // By account the amounts of its normal payments, in the order of the messages, each with the number of its item.
    amounts: AmountForest,
    // By message where a normal payment stands in the list of its account.
    spots: Vec<Spot>,
    // How many more messages there is room for.
    room: u32,
}

impl Model for Normals {
    ghost use Rattle.std.specs.Prelude.{◌≤◌, ◌+◌, vec_len, vec_capacity};
    ghost use Rattle.ready_items.specs.Normals.{Normals};

    ghost Value = { Normals };

    ghost view = { λ normals. record {
      lists = normals.amounts.lists;
      numbers = normals.amounts.numbers;
      spots = normals.spots.items;
      room = normals.room;
    } };

    ghost invariant = { λ normals. (normals.room ≤ normals.amounts.spare)
        × (vec_len normals.spots + normals.room ≤ vec_capacity normals.spots) };
}

impl Normals {
    // No message, and room for so many, on so many accounts and the number 0.
    pub fn empty(alloc: Global, accounts: u32, messages: u32) -> Result<Normals, Memory>
        ensures { IfOk result (λ normals. normals ≡ record {
          lists = replicate accounts [];
          numbers = replicate accounts [];
          spots = [];
          room = messages;
        }) }
    {
        let amounts = AmountForest::with_room(alloc, accounts, messages)?;
        let spots = with_capacity(alloc, messages as usize)?;
        Ok(Normals {
            amounts,
            spots,
            room: messages,
        })
    }

    // A payment of an account, without an amount.
    fn push(&mut self, a: u32, number: u32)
        requires { 0 < self.old.room }
        ensures entered { a < length self.old.lists → IsEntered a number self.old self.new }
        ensures room { self.new.room + 1 ≡ self.old.room }
    {
        let spot = enter(&mut self.amounts, a, number);
        self.spots.push(spot).unwrap();
        self.room -= 1;
    }

    // A message that is no normal payment.
    fn pass(&mut self)
        requires { 0 < self.old.room }
        ensures passed { IsPassed self.old self.new }
        ensures room { self.new.room + 1 ≡ self.old.room }
    {
        self.spots.push(no_spot()).unwrap();
        self.room -= 1;
    }

    // The next message comes, of a day that may go on. Takes no memory, but room for one.
    pub fn arrive(&mut self, setting: &Setting, due: &DueItems, n: MessageNumber)
        requires { 0 < self.old.room }
        ensures arrived { (day : Day) (ms : List Message) (ss : List ℕ) (J : History)
            → setting.now.day ≡ longer day ms ss → KeepsDue day J due.now → (count : ℕ)
            → n ≡ count + 1 → n ≤ length day.messages → HavePayments day count self.old
            → IsArrived day n self.old self.new }
        ensures room { self.new.room + 1 ≡ self.old.room }
    {
        if !is_normal(setting, n) {
            self.pass();
            return;
        }
        match due.number(Item { msg: n, entry: 0 }) {
            Some(i) => self.push(payer(setting, n), i),
            None => self.pass(),
        }
    }

    // None is pending.
    pub fn with_room(alloc: Global, setting: &Setting, due: &DueItems) -> Result<Normals, Memory>
        requires { KeepsDue setting.now.day [] due.now }
        ensures payments { IfOk result (λ normals. HavePayments setting.now.day (length setting.now.day.messages) normals) }
        ensures none { IfOk result (λ normals. (n : ℕ) → IsPayment setting.now.day (length setting.now.day.messages) n
            → amount_of setting.now.day normals n ≡ None) }
    {
        let count = message_count(setting);
        let mut normals = Normals::empty(alloc, account_count(setting) + 1, count)?;
        for before in 0..count {
            normals.arrive(setting, due, before + 1);
        }
        Ok(normals)
    }

    // The amount of the normal payment n, which debits account a, or none.
    pub fn put(&mut self, a: AccountNumber, n: MessageNumber, amount: Option<u64>)
        ensures room { self.new.room ≡ self.old.room }
        ensures put { a < length self.old.lists → place_of self.old n < length (list_at self.old.lists a)
            → self.new ≡ put_in a (place_of self.old n) amount self.old }
    {
        let spot = spot_at(self.spots.as_slice(), n);
        set(&mut self.amounts, a, spot, amount);
    }

    // The first number from this one on of a normal payment that is pending on account a, and of at most this much.
    pub fn find(&self, a: AccountNumber, from: u32, most: u64) -> Option<u32>
        ensures { (day : Day) (J : History) → HavePayments day (length day.messages) self.now
            → ((n : ℕ) → 1 ≤ n → n ≤ length day.messages → is_normal_pay day n ≡ true
            → IsAmount day J self.now n) → IsNext (fits_normal day J a most) from result }
    {
        first(&self.amounts, a, from, most)
    }
}
