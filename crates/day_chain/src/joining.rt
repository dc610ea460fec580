//! How a day joins the one before it.
ghost use Rattle.std.specs.Prelude.{◌≡◌, ◌≤◌, ◌<◌, ◌^◌, not, length, nat_eq, None, MatchOption, Some, true, unwrap_or};
ghost use Rattle.std.specs.List.{find, list_all, range_with_len};
ghost use Rattle.cash_amounts.specs.declared.limits.TheConstants.{MAX_ACCOUNTS, MAX_SYSTEMS};
ghost use Rattle.batch_records.specs.DayRecord.{Day};
ghost use Rattle.batch_records.specs.Sound.{is_sound};
ghost use Rattle.machine.specs.Records.Setup.{account_numbers, opening};
ghost use Rattle.machine.specs.Words.{is_technical, numbered, some_passes};
ghost use Rattle.day_chain.specs.Joining.{differs, first_difference, join_fault, same_option, same_system, same_systems, same_terms, setup_of_two};
ghost use Rattle.day_chain.specs.Ledgers.{carried_by, IsLeftBy};
ghost use Rattle.day_chain.specs.NextDay.{is_next};

use account_book::{Holdings, OneTill};
use batch_records::{Accounts, Day, Systems};
use cash_amounts::{AccountKind, AccountNumber, AccountRecord, SystemRecord};
use period_calendar::BusinessDate;
use rule_book::parts::account;

/// Why a day doesn't join the one before it: the first thing that is wrong.
#[derive(Clone, Copy, Debug, PartialEq, Eq)]
pub enum JoinFault {
    /// Its date isn't the next open day.
    Gap,
    /// Other systems, where the account is 0; else the first account, by its number from 1, that differs in more than its
    /// opening or that only one of the days has.
    Setup { account: u32 },
    /// The first account that doesn't open with what the day before left it.
    Open { account: u32 },
}

/// What of a settled day the next one has to join: its date, its accounts and systems, and what its accounts hold at the end.
#[derive(Drop)]
pub struct DayBefore {
    pub date: BusinessDate,
    pub accounts: Accounts,
    pub systems: Systems,
    pub till: OneTill,
}

// ---- dates

// Whether the later date is the next open day.
fn is_next(date: BusinessDate, later: BusinessDate) -> bool
    ensures { result ≡ is_next date later }
{
    match date.next() {
        Some(next) => next == later,
        None => false,
    }
}

// ---- systems and accounts

fn same_terms(before: &AccountRecord, later: &AccountRecord) -> bool
    ensures { result ≡ same_terms before.now later.now }
{
    before.name == later.name
        && before.kind == later.kind
        && before.owner == later.owner
        && before.system == later.system
        && before.procedure == later.procedure
}

fn numbered_account(accounts: &[AccountRecord], a: u32) -> Option<&AccountRecord>
    ensures { MatchOption result (numbered accounts.now a ≡ None)
        (λ r. numbered accounts.now a ≡ Some r.now) }
{
    if a == 0 {
        return None;
    }
    accounts.get(a as usize - 1)
}

fn differs(before: &[AccountRecord], later: &[AccountRecord], a: u32) -> bool
    ensures { result ≡ differs before.now later.now a }
{
    match (numbered_account(before, a), numbered_account(later, a)) {
        (Some(old), Some(new)) => !same_terms(old, new),
        (None, None) => false,
        _ => true,
    }
}

// The first account that differs or is missing on one side.
fn first_difference(before: &[AccountRecord], later: &[AccountRecord]) -> Option<u32>
    requires few { length before.now ≤ MAX_ACCOUNTS }
    requires few_later { length later.now ≤ MAX_ACCOUNTS }
    ensures { result ≡ first_difference before.now later.now }
{
    let most = before.len().max(later.len()) as u32;
    (1..most + 1).find(|a| differs(before, later, *a))
}

fn same_system(before: &SystemRecord, later: &SystemRecord) -> bool
    ensures { result ≡ same_system before.now later.now }
{
    before.name == later.name && before.procedures == later.procedures
}

fn numbered_system(systems: &[SystemRecord], s: u32) -> Option<&SystemRecord>
    ensures { MatchOption result (numbered systems.now s ≡ None)
        (λ r. numbered systems.now s ≡ Some r.now) }
{
    if s == 0 {
        return None;
    }
    systems.get(s as usize - 1)
}

fn same_system_at(before: &[SystemRecord], later: &[SystemRecord], s: u32) -> bool
    ensures { result ≡ same_option same_system (numbered before.now s) (numbered later.now s) }
{
    match (numbered_system(before, s), numbered_system(later, s)) {
        (Some(old), Some(new)) => same_system(old, new),
        (None, None) => true,
        _ => false,
    }
}

fn all_same_systems(before: &[SystemRecord], later: &[SystemRecord], count: u32) -> bool
    requires { count < 2 ^ 31 }
    ensures { result ≡ list_all
        (λ s. same_option same_system (numbered before.now s) (numbered later.now s))
        (range_with_len 1 count) }
{
    (1..count + 1).all(|s| same_system_at(before, later, s))
}

fn same_systems(before: &[SystemRecord], later: &[SystemRecord]) -> bool
    requires { length later.now ≤ MAX_SYSTEMS }
    ensures { result ≡ same_systems before.now later.now }
{
    if before.len() != later.len() {
        return false;
    }
    all_same_systems(before, later, later.len() as u32)
}

// 0 where the systems differ, else the first account that does.
fn setup_difference(before: &DayBefore, day: &Day) -> Option<u32>
    requires few { length before.now.accounts ≤ MAX_ACCOUNTS }
    requires sound { is_sound day.now ≡ true }
    ensures { result ≡ setup_of_two before.now.accounts before.now.systems day.now.accounts
        day.now.systems }
{
    if same_systems(before.systems.as_slice(), day.systems()) {
        first_difference(before.accounts.as_slice(), day.accounts())
    } else {
        Some(0)
    }
}

// ---- openings

pub fn is_technical(accounts: &[AccountRecord], a: AccountNumber) -> bool
    ensures { result ≡ some_passes (λ r. is_technical r.kind) (numbered accounts.now a) }
{
    match numbered_account(accounts, a) {
        Some(record) => matches!(record.kind, AccountKind::Tech),
        None => false,
    }
}

fn held(till: &OneTill, a: u32) -> u64
    ensures { result ≡ unwrap_or (numbered till.now a) 0 }
{
    if till.has(a) {
        till.balance(a).get()
    } else {
        0
    }
}

// With what an account opens the next day.
fn carried(before: &DayBefore, a: u32) -> u64
    ensures { result ≡ carried_by before.now a }
{
    if is_technical(before.accounts.as_slice(), a) {
        0
    } else {
        held(&before.till, a)
    }
}

fn opening(day: &Day, a: u32) -> u64
    ensures { result ≡ opening day.now a }
{
    match account(day, a) {
        Some(record) => record.opening.get(),
        None => 0,
    }
}

fn opens_otherwise(before: &DayBefore, day: &Day, a: u32) -> bool
    ensures { result ≡ not (nat_eq (opening day.now a) (carried_by before.now a)) }
{
    opening(day, a) != carried(before, a)
}

// The first account that doesn't open with what the day before left it.
fn other_opening(before: &DayBefore, day: &Day) -> Option<u32>
    requires { is_sound day.now ≡ true }
    ensures { result ≡ find (λ a. not (nat_eq (opening day.now a) (carried_by before.now a)))
        (account_numbers day.now) }
{
    let count = day.accounts().len() as u32;
    (1..count + 1).find(|a| opens_otherwise(before, day, *a))
}

/// The first thing that is wrong with a day after this one; none where it joins.
pub fn fault_between(before: &DayBefore, day: &Day) -> Option<JoinFault>
    requires few { length before.now.accounts ≤ MAX_ACCOUNTS }
    requires sound { is_sound day.now ≡ true }
    ensures { (last : Day) → IsLeftBy last before.now → result ≡ join_fault last day.now }
{
    if !is_next(before.date, day.date()) {
        return Some(JoinFault::Gap);
    }
    if let Some(account) = setup_difference(before, day) {
        return Some(JoinFault::Setup { account });
    }
    match other_opening(before, day) {
        Some(account) => Some(JoinFault::Open { account }),
        None => None,
    }
}
