//! What the procedures ask of a batch: the accounts of its system, the sides of its entries, and the tests of an intake
//! that several procedures share.
ghost use Rattle.std.specs.Prelude.{◌≡◌, true, nat_eq, ◌≤◌, ◌<◌, ◌^◌, ◌*◌, ◌&&◌, ◌||◌, None, Some, length, IfSome, filter, is_some, slice_get, sum_by};
ghost use Rattle.std.specs.List.{list_all};
ghost use Rattle.account_book.specs.Directory.{system_name};
ghost use Rattle.first_of_key.specs.First.{IsFirstOf};
ghost use Rattle.machine.specs.Words.{same_account};
ghost use Rattle.machine.specs.Records.Setup.{account_named, fund, is_system, system_named, technical, uses};
ghost use Rattle.machine.specs.Records.Messages.{BatchA, is_b, sort_of, entries, earliest, info_end, fund_account, fund_of, is_credit, is_debit, pays_technical, stated_count, stated_sum, technical_account, technical_of};
ghost use Rattle.rule_book.specs.Settings.{accounts_of};
ghost use Rattle.machine.specs.Telling.Facts.{is_party};
ghost use Rattle.machine.specs.Stages.Intake.{amount_of, are_crossed, count_is_wrong, earliest_is_wrong, entry_fits, info_is_wrong, sides_differ, sum_is_wrong, times_are_wrong};
ghost use Rattle.machine.specs.Making.Lines.{gross, is_short_debtor};
ghost use Rattle.rule_book.specs.Owed.{debtor_key, debtor_of};
ghost use Rattle.rule_book.specs.Moves.{comes_from, goes_to, joins, moved_amount};

use crate::book_names;
use crate::desk::Desk;
use crate::parts::{
    account, earliest, entries, entry_move, entry_moves, info_end, is_dca_account, is_owned_by,
    message, settlement_end,
};
use crate::setting::Setting;
use crate::sorts::{is_b, is_batch};
use crate::system_accounts::{SystemAccounts, accounts_of};
use batch_records::{Entry, RecordBody};
use cash_amounts::{AccountNumber, EntryNumber, MessageNumber, Name, Procedure};
use commit_journal::Move;

// The number of the system of this name.
fn system_number(setting: &Setting, name: &[u8]) -> Option<u32>
    ensures number { result ≡ system_named setting.now.day name.now }
    ensures name { IfSome result (λ s. system_name setting.now.book.systems s ≡ name.now) }
    ensures within { IfSome result (λ s. (0 < s) × (s ≤ length setting.now.book.systems)) }
{
    book_names::system_number(&setting.day, &setting.book, name)
}

/// Whether the name is a system's.
pub fn is_system(setting: &Setting, name: &[u8]) -> bool
    ensures { result ≡ is_system setting.now.day name.now }
{
    system_number(setting, name).is_some()
}

/// The technical account of a system for a procedure.
pub fn technical(setting: &Setting, system: &[u8], procedure: Procedure) -> Option<u32>
    ensures { result ≡ technical setting.now.day system.now procedure }
{
    book_names::technical(&setting.day, &setting.book, system, procedure)
}

/// The guarantee fund account of a system.
pub fn fund(setting: &Setting, system: &[u8]) -> Option<u32>
    ensures { result ≡ fund setting.now.day system.now }
{
    book_names::fund(&setting.day, &setting.book, system)
}

// The accounts of the sender of message n, as a system.
fn sender_accounts(setting: &Setting, n: u32) -> SystemAccounts
    ensures { result ≡ accounts_of setting.now.day n }
{
    if n == 0 {
        return accounts_of(&setting.day, &setting.book, n);
    }
    match setting.found.accounts.as_slice().get(n as usize - 1) {
        Some(found) => *found,
        None => accounts_of(&setting.day, &setting.book, n),
    }
}

/// The guarantee fund account of a message's sender.
pub fn fund_of(setting: &Setting, n: MessageNumber) -> Option<u32>
    ensures { result ≡ fund_of setting.now.day n }
{
    sender_accounts(setting, n).fund
}

/// The number of the fund account of a batch's system; 0 where there is none.
pub fn fund_account(setting: &Setting, n: MessageNumber) -> u32
    ensures { result ≡ fund_account setting.now.day n }
{
    match fund_of(setting, n) {
        Some(a) => a,
        None => 0,
    }
}

/// The technical account of a batch.
pub fn technical_of(setting: &Setting, n: MessageNumber) -> Option<u32>
    ensures { result ≡ technical_of setting.now.day n }
{
    sender_accounts(setting, n).technical
}

/// The number of the technical account of a batch; 0 where there is none.
pub fn technical_account(setting: &Setting, n: MessageNumber) -> u32
    ensures { result ≡ technical_account setting.now.day n }
{
    match technical_of(setting, n) {
        Some(a) => a,
        None => 0,
    }
}

/// Whether a system uses a procedure: it lists it, and for all but E it has the technical account.
pub fn uses(setting: &Setting, system: &[u8], procedure: Procedure) -> bool
    ensures { result ≡ uses setting.now.day system.now procedure }
{
    match system_number(setting, system) {
        Some(s) => setting.book.uses(s, procedure),
        None => false,
    }
}

// ---- sides

// Whether the account of a name is this one. A name is compared with that of the account, and not looked up.
fn is_account(setting: &Setting, name: &Name, account: Option<u32>) -> bool
    ensures { result ≡ same_account (account_named setting.now.day name.now) account }
{
    match account {
        Some(a) => has_name(setting, a, name),
        None => false,
    }
}

// Whether account a has this name.
fn has_name(setting: &Setting, a: u32, name: &Name) -> bool
    ensures { result ≡ same_account (account_named setting.now.day name.now) (Some a) }
{
    match account(&setting.day, a) {
        Some(record) => record.name == *name,
        None => false,
    }
}

/// Whether an entry pays to the technical account of the batch.
pub fn pays_technical(setting: &Setting, n: MessageNumber, entry: &Entry) -> bool
    ensures { result ≡ pays_technical setting.now.day n entry.now }
{
    is_account(setting, &entry.credit, technical_of(setting, n))
}

// Whether an account is this one.
fn is_technical(a: u32, technical: Option<u32>) -> bool
    ensures { result ≡ same_account (Some a) technical }
{
    match technical {
        Some(technical) => a == technical,
        None => false,
    }
}

/// Whether a move goes to the technical account, where there is one: so does that of a debit entry.
pub fn goes_to(found: &Move, technical: Option<AccountNumber>) -> bool
    ensures { result ≡ goes_to technical found.now }
{
    is_technical(found.credit, technical)
}

/// Whether a move comes from the technical account, where there is one.
pub fn comes_from(found: &Move, technical: Option<AccountNumber>) -> bool
    ensures { result ≡ comes_from technical found.now }
{
    is_technical(found.debit, technical)
}

/// Whether entry k of a batch of A or B is a debit entry: one that pays to the technical account.
pub fn is_debit(setting: &Setting, n: MessageNumber, k: EntryNumber) -> bool
    ensures { result ≡ is_debit setting.now.day n k }
{
    match entry_move(setting, n, k) {
        Some(found) => goes_to(&found, technical_of(setting, n)),
        None => false,
    }
}

/// Whether entry k of a batch of A or B is a credit entry: one that isn't a debit entry.
pub fn is_credit(setting: &Setting, n: MessageNumber, k: EntryNumber) -> bool
    ensures { result ≡ is_credit setting.now.day n k }
{
    match entry_move(setting, n, k) {
        Some(found) => !goes_to(&found, technical_of(setting, n)),
        None => false,
    }
}

// What the moves take from account a that go to the technical account.
fn taken_from(moves: &[Move], technical: Option<u32>, a: u32) -> u128
    ensures { result ≡ sum_by moved_amount
        (filter (λ m. nat_eq m.debit a) (filter (goes_to technical) moves.now)) }
{
    moves
        .iter()
        .filter(|found| goes_to(found, technical))
        .filter(|found| found.debit == a)
        .map(|found| u128::from(found.amount.get()))
        .sum()
}

// What the debit entries of a batch take from account a in all, entry by entry.
fn walked_gross(setting: &Setting, n: u32, a: u32) -> u128
    ensures { result ≡ gross setting.now.day n a }
{
    taken_from(entry_moves(setting, n), technical_of(setting, n), a)
}

// The same of a batch of procedure B, where it is found at once.
fn found_gross(setting: &Setting, n: u32, a: u32) -> u64
    requires { is_b (sort_of setting.now.day n) ≡ true }
    ensures { result ≡ gross setting.now.day n a }
{
    setting.tables.debts.at(n, a)
}

/// What the debit entries of a batch take from account a in all, in cents. What the batch brings to it doesn't count. Of a
/// batch of procedure B that was found once.
pub fn gross(setting: &Setting, n: MessageNumber, a: AccountNumber) -> u128
    ensures { result ≡ gross setting.now.day n a }
{
    if is_b(setting, n) {
        u128::from(found_gross(setting, n, a))
    } else {
        walked_gross(setting, n, a)
    }
}

/// The number under which account a of batch n, of procedure B, is entered among those that such batches debit; those of one batch stand
/// one after another. None exactly where it isn't one of them.
pub fn debtor_number(setting: &Setting, n: MessageNumber, a: AccountNumber) -> Option<u32>
    ensures { IsFirstOf setting.now.tables.debts.keys (debtor_key n a) result }
{
    setting.tables.debts.number(n, a)
}

/// The account that is entered under a number, where it is one of batch n.
pub fn debtor(setting: &Setting, n: MessageNumber, i: u32) -> Option<AccountNumber>
    ensures { result ≡ debtor_of n (slice_get setting.now.tables.debts.keys i) }
{
    setting.tables.debts.debtor(n, i)
}

/// Whether account a holds less than the debit entries of batch n take from it in all. What the batch brings to it doesn't count.
pub fn is_short_debtor<D: Desk>(desk: &D, n: MessageNumber, a: AccountNumber) -> bool
    requires { D.held desk.now a ≡ true }
    ensures { result ≡ is_short_debtor (D.day desk.now) (D.past desk.now) n a }
{
    u128::from(desk.balance(a).get()) < gross(desk.setting(), n, a)
}

/// Whether the bank owns an account of the entry.
pub fn is_party(setting: &Setting, bank: &[u8], entry: &Entry) -> bool
    ensures { result ≡ is_party setting.now.day bank.now entry.now }
{
    is_owned_by(setting, bank, &entry.debit) || is_owned_by(setting, bank, &entry.credit)
}

// ---- tests of an intake

// The count that a batch states; 0, where the message is no batch.
fn stated_count(setting: &Setting, n: u32) -> u32
    ensures { result ≡ stated_count setting.now.day n }
{
    match message(&setting.day, n) {
        Some(message) => match message.body {
            RecordBody::Batch { count, .. } => count,
            _ => 0,
        },
        None => 0,
    }
}

// The control sum that a batch states, in cents; 0, where the message is no batch.
fn stated_sum(setting: &Setting, n: u32) -> u64
    ensures { result ≡ stated_sum setting.now.day n }
{
    match message(&setting.day, n) {
        Some(message) => match &message.body {
            RecordBody::Batch { sum, .. } => sum.get(),
            _ => 0,
        },
        None => 0,
    }
}

/// Whether a batch has no entries, or another number of them than it states.
pub fn count_is_wrong(setting: &Setting, n: MessageNumber) -> bool
    ensures { result ≡ count_is_wrong setting.now.day n }
{
    let entries = entries(&setting.day, n);
    is_batch(setting, n)
        && (entries.is_empty() || entries.len() != stated_count(setting, n) as usize)
}

// The sum of the amounts of entries, in cents.
fn sum_of(entries: &[Entry]) -> u128
    ensures sum { result ≡ sum_by amount_of entries.now }
    ensures small { result ≤ 10 ^ 18 * length entries.now }
{
    let mut sum = 0;
    for entry in entries {
        sum += u128::from(entry.amount.get());
    }
    sum
}

/// Whether the amounts of a batch's entries have another sum than it states.
pub fn sum_is_wrong(setting: &Setting, n: MessageNumber) -> bool
    ensures { result ≡ sum_is_wrong setting.now.day n }
{
    is_batch(setting, n) && sum_of(entries(&setting.day, n)) != u128::from(stated_sum(setting, n))
}

// What moves bring to the technical account, in cents.
fn paid_in(moves: &[Move], technical: Option<u32>) -> u128
    ensures { result ≡ sum_by moved_amount (filter (goes_to technical) moves.now) }
{
    moves
        .iter()
        .filter(|found| goes_to(found, technical))
        .map(|found| u128::from(found.amount.get()))
        .sum()
}

// What they take from it.
fn paid_out(moves: &[Move], technical: Option<u32>) -> u128
    ensures { result ≡ sum_by moved_amount (filter (comes_from technical) moves.now) }
{
    moves
        .iter()
        .filter(|found| comes_from(found, technical))
        .map(|found| u128::from(found.amount.get()))
        .sum()
}

/// Whether the entries of a batch pay another sum to its technical account than from it. An entry between the account and
/// itself counts on both sides.
pub fn sides_differ(setting: &Setting, n: MessageNumber) -> bool
    ensures { result ≡ sides_differ setting.now.day n }
{
    let technical = technical_of(setting, n);
    let moves = entry_moves(setting, n);
    paid_in(moves, technical) != paid_out(moves, technical)
}

// Whether a move goes from a dedicated cash account to the technical account, or the other way.
fn joins(setting: &Setting, technical: Option<u32>, found: &Move) -> bool
    ensures { result ≡ joins setting.now.day technical found.now }
{
    is_dca_account(setting, found.debit) && goes_to(found, technical)
        || comes_from(found, technical) && is_dca_account(setting, found.credit)
}

fn all_join(setting: &Setting, technical: Option<u32>, moves: &[Move]) -> bool
    ensures { result ≡ list_all (joins setting.now.day technical) moves.now }
{
    moves.iter().all(|found| joins(setting, technical, found))
}

/// Whether each entry of a batch has the form of A and B: from a dedicated cash account to the technical account of the
/// batch, or the other way.
pub fn all_join_technical(setting: &Setting, n: MessageNumber) -> bool
    ensures { result ≡ list_all (entry_fits BatchA setting.now.day n) (entries setting.now.day n) }
{
    all_join(setting, technical_of(setting, n), entry_moves(setting, n))
}

// Whether a stated end of the information period isn't between now and the settlement end.
fn info_is_wrong<D: Desk>(desk: &D, n: u32) -> bool
    ensures { result ≡ info_is_wrong (D.day desk.now) (D.past desk.now) n
        (info_end (D.day desk.now) n) }
{
    let day = &desk.setting().day;
    match info_end(day, n) {
        Some(info) => !(desk.clock() < info && info < settlement_end(day, n)),
        None => false,
    }
}

// Whether a stated earliest time isn't between now and the settlement end.
fn earliest_is_wrong<D: Desk>(desk: &D, n: u32) -> bool
    ensures { result ≡ earliest_is_wrong (D.day desk.now) (D.past desk.now) n
        (earliest (D.day desk.now) n) }
{
    let day = &desk.setting().day;
    match earliest(day, n) {
        Some(from) => !(desk.clock() < from && from < settlement_end(day, n)),
        None => false,
    }
}

// Whether an information end is above an earliest time.
fn are_crossed(info: Option<u32>, from: Option<u32>) -> bool
    ensures { result ≡ are_crossed info from }
{
    match (info, from) {
        (Some(info), Some(from)) => from < info,
        _ => false,
    }
}

/// Whether the times of a batch of A, B or E don't allow that it is taken now: its settlement end isn't above the clock, a
/// stated end of its information period or a stated earliest time isn't between the two, or the former is above the latter.
pub fn times_are_wrong<D: Desk>(desk: &D, n: MessageNumber) -> bool
    ensures { result ≡ times_are_wrong BatchA (D.day desk.now) (D.past desk.now) n }
{
    let day = &desk.setting().day;
    !(desk.clock() < settlement_end(day, n))
        || info_is_wrong(desk, n)
        || earliest_is_wrong(desk, n)
        || are_crossed(info_end(day, n), earliest(day, n))
}
