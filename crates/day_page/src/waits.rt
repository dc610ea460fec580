//! What waits over the clock, by priority.
ghost use Rattle.std.specs.Prelude.{◌≡◌, ◌≤◌, ◌^◌, ℕ, if◌then◌else◌};
ghost use Rattle.commit_journal.specs.Histories.{oldest};
ghost use Rattle.machine.specs.Records.Messages.{is_b, is_debit, sort_of};
ghost use Rattle.machine.specs.Stages.Pending.{priority_as};
ghost use Rattle.day_page.specs.Waits.{cents_of, entry_cents, has_priority, item_of, most_taken, one_if, part_cents, taken_by, waits};

use crate::parties::owns_account;
use crate::past::Past;
use crate::words::Request;
use commit_journal::Move;
use rule_book::batches::is_debit;
use rule_book::parts::{entry_count, is_high, item_move};
use rule_book::sorts::{is_b, is_pay};
use rule_book::{Item, Setting};

/// How many items wait, and what they take once they are booked, in cents.
#[derive(Clone, Copy, Debug, PartialEq, Eq)]
pub struct Queue {
    pub count: u64,
    pub cents: u128,
}

/// What waits at a stop of the clock, by priority.
#[derive(Clone, Copy, Debug, PartialEq, Eq)]
pub struct Waiting {
    pub clock: u32,
    pub urgent: Queue,
    pub high: Queue,
    pub normal: Queue,
}

// ---- an entry

fn taken_by(setting: &Setting, request: &Request, one: &Move) -> u64
    ensures value { result ≡ taken_by setting.now.day request.now one.now }
    ensures small { result ≤ 10 ^ 18 }
{
    if owns_account(setting, request, one.debit) {
        one.amount.get()
    } else {
        0
    }
}

fn part_cents(setting: &Setting, request: &Request, n: u32, k: u32) -> u64
    ensures value { result ≡ part_cents setting.now.day request.now n k }
    ensures small { result ≤ 10 ^ 18 }
{
    match item_move(setting, n, k) {
        Some(one) => taken_by(setting, request, &one),
        None => 0,
    }
}

// Whether entry k counts: of a batch of B its debits do.
fn counts(setting: &Setting, n: u32, k: u32) -> bool
    ensures { (cents : ℕ) → (if result then cents else 0)
        ≡ (if is_b (sort_of setting.now.day n) then
        (if is_debit setting.now.day n k then cents else 0) else cents) }
{
    if is_b(setting, n) {
        is_debit(setting, n, k)
    } else {
        true
    }
}

fn entry_cents(setting: &Setting, request: &Request, n: u32, k: u32) -> u64
    ensures value { result ≡ entry_cents setting.now.day request.now n k }
    ensures small { result ≤ 10 ^ 18 }
{
    if counts(setting, n, k) {
        part_cents(setting, request, n, k)
    } else {
        0
    }
}

fn item_of(setting: &Setting, n: u32, k: u32) -> Item
    ensures { result ≡ item_of setting.now.day n k }
{
    if is_b(setting, n) {
        Item { msg: n, entry: 0 }
    } else {
        Item { msg: n, entry: k }
    }
}

/// What an item takes from the accounts of the party once it is booked, in cents, where it waits; and 0 else.
pub fn waits(past: &Past, request: &Request, n: u32, k: u32) -> u64
    ensures value { result ≡ waits past.now.setting.now.day request.now
        (oldest past.now.journal.now.history past.now.place) n k }
    ensures small { result ≤ 10 ^ 18 }
{
    if past.is_pending(item_of(past.setting, n, k)) {
        entry_cents(past.setting, request, n, k)
    } else {
        0
    }
}

// ---- a message

/// What the items of message n that wait take once they are booked, in cents.
pub fn cents_of(past: &Past, request: &Request, n: u32) -> u128
    ensures value { result ≡ cents_of past.now.setting.now.day request.now
        (oldest past.now.journal.now.history past.now.place) n }
    ensures small { result ≤ most_taken }
{
    let mut sum = 0;
    for k in 0..entry_count(past.setting, n) + 1 {
        sum += u128::from(waits(past, request, n, k));
    }
    sum
}

/// 1 of an amount, and 0 of none.
pub fn one_if(cents: u128) -> u32
    ensures value { result ≡ one_if cents }
    ensures small { result ≤ 1 }
{
    if 0 < cents { 1 } else { 0 }
}

// ---- a priority

fn priority(setting: &Setting, n: u32) -> u32
    ensures { result ≡ priority_as (sort_of setting.now.day n) setting.now.day n }
{
    if !is_pay(setting, n) {
        return 0;
    }
    if is_high(setting, n) { 1 } else { 2 }
}

/// Whether message n has a priority: 0 is urgent, 1 is high, 2 is normal.
pub fn has_priority(setting: &Setting, p: u32, n: u32) -> bool
    ensures { result ≡ has_priority setting.now.day p n }
{
    priority(setting, n) == p
}
