//! What moves and items take from the accounts of a bank, and what they bring to them.
ghost use Rattle.batch_records.specs.Flat.{body_with_entries};
ghost use Rattle.std.specs.Prelude.{◌≡◌, ◌≤◌, ◌^◌, ◌*◌, length, sum_by, unwrap_or, if◌then◌else◌, []};
ghost use Rattle.std.specs.Option.{option_map_or};
ghost use Rattle.cash_amounts.specs.declared.limits.TheConstants.{MAX_ACCOUNTS, MAX_ENTRIES};
ghost use Rattle.machine.specs.Records.Messages.{entry_at, part, transfer, transfer_in};
ghost use Rattle.machine.specs.Records.Setup.{account_named};
ghost use Rattle.liquidity_view.specs.Figures.{account_on, begun_with, entry_share, is_entry_on, is_own, item_share, opening_of, share, whole_share};
ghost use Rattle.liquidity_view.specs.Shares.{share_on};

use crate::sides::Side;
use batch_records::{Entry, RecordBody};
use cash_amounts::{AccountKind, Cents, EntryNumber, MessageNumber, Name};
use commit_journal::Move;
use rule_book::Setting;
use rule_book::batches::pays_technical;
use rule_book::parts::{
    account, account_count, account_named, entries, entry, message, move_of, opening,
};
use rule_book::sorts::is_b;

// Whether the account is a dedicated cash account of the name.
fn is_own(setting: &Setting, name: &Name, a: u32) -> bool
    ensures { result ≡ is_own setting.now.day name.now a }
{
    match account(&setting.day, a) {
        Some(record) => matches!(record.kind, AccountKind::Dca) && record.owner == *name,
        None => false,
    }
}

// ---- what the accounts begin with

fn own_opening(setting: &Setting, name: &Name, a: u32) -> u64
    ensures value { result ≡ opening_of setting.now.day name.now a }
    ensures small { result ≤ 10 ^ 18 }
{
    if is_own(setting, name, a) {
        opening(setting, a)
    } else {
        0
    }
}

/// What the dedicated cash accounts of the name hold before the first line, in cents.
pub fn begun_with(setting: &Setting, name: &Name) -> u128
    ensures value { result ≡ begun_with setting.now.day name.now }
    ensures small { result ≤ 10 ^ 18 * MAX_ACCOUNTS }
{
    let mut sum = 0;
    for before in 0..account_count(setting) {
        sum += u128::from(own_opening(setting, name, before + 1));
    }
    sum
}

// ---- moves

fn account_on(side: Side, one: &Move) -> u32
    ensures { result ≡ account_on side one.now }
{
    match side {
        Side::Out => one.debit,
        Side::In => one.credit,
    }
}

// What a move takes from the accounts, or brings to them, in cents.
fn share(setting: &Setting, name: &Name, side: Side, one: &Move) -> u64
    ensures value { result ≡ share side setting.now.day name.now one.now }
    ensures small { result ≤ 10 ^ 18 }
{
    if is_own(setting, name, account_on(side, one)) {
        one.amount.get()
    } else {
        0
    }
}

/// What moves take from the dedicated cash accounts of the name, or bring to them, in cents.
pub fn moved(setting: &Setting, name: &Name, side: Side, moves: &[Move]) -> u128
    ensures { result ≡ sum_by (share side setting.now.day name.now) moves.now }
{
    moves
        .iter()
        .map(|one| u128::from(share(setting, name, side, one)))
        .sum()
}

// ---- entries of a batch of B

fn entry_share(setting: &Setting, name: &Name, side: Side, entry: &Entry) -> u64
    ensures value { result ≡ entry_share side setting.now.day name.now entry.now }
    ensures small { result ≤ 10 ^ 18 }
{
    share(setting, name, side, &move_of(setting, entry))
}

fn is_entry_on(setting: &Setting, side: Side, n: u32, entry: &Entry) -> bool
    ensures { result ≡ is_entry_on side setting.now.day n entry.now }
{
    match side {
        Side::Out => pays_technical(setting, n, entry),
        Side::In => !pays_technical(setting, n, entry),
    }
}

// What an entry takes or brings, where it is one of this side.
fn share_on(setting: &Setting, name: &Name, side: Side, n: u32, entry: &Entry) -> u64
    ensures value { result ≡ share_on side setting.now.day name.now n entry.now }
    ensures small { result ≤ 10 ^ 18 }
{
    if is_entry_on(setting, side, n, entry) {
        entry_share(setting, name, side, entry)
    } else {
        0
    }
}

fn whole_share(setting: &Setting, name: &Name, side: Side, n: u32) -> u128
    ensures value { result ≡ whole_share side setting.now.day name.now n }
    ensures small { result ≤ 10 ^ 18 * MAX_ENTRIES }
{
    let listed = entries(&setting.day, n);
    let mut sum = 0;
    for entry in listed {
        sum += u128::from(share_on(setting, name, side, n, entry));
    }
    sum
}

// ---- one item

// The number of the account of a name; 0 where it is no account's.
fn account_number(setting: &Setting, name: &Name) -> u32
    ensures { result ≡ unwrap_or (account_named setting.now.day name.now) 0 }
{
    match account_named(setting, name) {
        Some(a) => a,
        None => 0,
    }
}

// What a move between accounts of these names takes or brings.
fn named_share(
    setting: &Setting,
    name: &Name,
    side: Side,
    debit: &Name,
    credit: &Name,
    amount: Cents,
) -> u64
    ensures value { result ≡ entry_share side setting.now.day name.now
        (record { debit = debit.now; credit = credit.now; amount = amount }) }
    ensures small { result ≤ 10 ^ 18 }
{
    let one = Move {
        debit: account_number(setting, debit),
        credit: account_number(setting, credit),
        amount,
    };
    share(setting, name, side, &one)
}

// What the transfer of a payment or of a liquidity transfer takes or brings.
fn transfer_in(setting: &Setting, name: &Name, side: Side, body: &RecordBody) -> u64
    ensures value { result ≡ option_map_or (entry_share side setting.now.day name.now)
        (transfer_in (body_with_entries body.now [])) 0 }
    ensures small { result ≤ 10 ^ 18 }
{
    match body {
        RecordBody::Pay {
            debit,
            credit,
            amount,
            ..
        } => named_share(setting, name, side, debit, credit, *amount),
        RecordBody::Liquidity {
            debit,
            credit,
            amount,
        } => named_share(setting, name, side, debit, credit, *amount),
        _ => 0,
    }
}

fn transfer_share(setting: &Setting, name: &Name, side: Side, n: u32) -> u64
    ensures value { result ≡ option_map_or (entry_share side setting.now.day name.now)
        (transfer setting.now.day n) 0 }
    ensures small { result ≤ 10 ^ 18 }
{
    match message(&setting.day, n) {
        Some(message) => transfer_in(setting, name, side, &message.body),
        None => 0,
    }
}

fn numbered_share(setting: &Setting, name: &Name, side: Side, n: u32, k: u32) -> u64
    ensures value { result ≡ option_map_or (entry_share side setting.now.day name.now)
        (entry_at setting.now.day n k) 0 }
    ensures small { result ≤ 10 ^ 18 }
{
    match entry(&setting.day, n, k) {
        Some(entry) => entry_share(setting, name, side, entry),
        None => 0,
    }
}

fn part_share(setting: &Setting, name: &Name, side: Side, n: u32, k: u32) -> u64
    ensures value { result ≡ option_map_or (entry_share side setting.now.day name.now)
        (part setting.now.day n k) 0 }
    ensures small { result ≤ 10 ^ 18 }
{
    if k == 0 {
        transfer_share(setting, name, side, n)
    } else {
        numbered_share(setting, name, side, n, k)
    }
}

/// What item k of message n takes from the dedicated cash accounts of the name, or brings to them, once it is booked, in cents.
/// A batch of B is one item with all its entries.
pub fn item_share(
    setting: &Setting,
    name: &Name,
    side: Side,
    n: MessageNumber,
    k: EntryNumber,
) -> u128
    ensures value { result ≡ item_share side setting.now.day name.now n k }
    ensures small { result ≤ 10 ^ 18 * MAX_ENTRIES }
{
    if is_b(setting, n) {
        whole_share(setting, name, side, n)
    } else {
        u128::from(part_share(setting, name, side, n, k))
    }
}
