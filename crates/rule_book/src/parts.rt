//! The parts of a day: messages, entries and accounts by their numbers and names.
ghost use Rattle.std.specs.Prelude.{◌≡◌, ◌≤◌, ◌<◌, ◌&&◌, ◌^◌, None, Some, [], length, is_some, option_map, unwrap_or, IfSome, MatchOption, slice_get};
ghost use Rattle.cash_amounts.specs.Kinds.{is_dca, is_sub, is_technical, same_procedure};
ghost use Rattle.cash_amounts.specs.declared.limits.TheConstants.{MAX_ACCOUNTS, MAX_ENTRIES, MAX_MESSAGES};
ghost use Rattle.cash_amounts.specs.declared.records.Procedure.TheVariants.{D};
ghost use Rattle.cash_amounts.specs.Tests.{same_name, some_passes};
ghost use Rattle.batch_records.specs.Flat.{with_entries};
ghost use Rattle.batch_records.specs.Parts.{entries_at};
ghost use Rattle.batch_records.specs.Repeats.{is_repeat, message_at};
ghost use Rattle.batch_records.specs.RepeatsInWords.{earlier};
ghost use Rattle.machine.specs.Records.Setup.{account_at, account_named, first_dca, is_bank, is_sub_account, opening, owner, owns};
ghost use Rattle.machine.specs.Records.Reserves.{kept, must_leave};
ghost use Rattle.machine.specs.Records.Messages.{credit_account, debit_account, earliest, entries, entry_at, info_end, is_high, move_of, part, sender, settlement_end, settlement_start, stated_end};
ghost use Rattle.rule_book.specs.Moves.{entry_moves, is_dca_at, passes_at};
ghost use Rattle.rule_book.specs.Senders.{IsSentBefore};

use crate::setting::Setting;
use crate::sorts::is_pay;
use batch_records::{Day, Entry, MessageRecord, RecordBody};
use cash_amounts::{
    AccountKind, AccountNumber, AccountRecord, EntryNumber, MessageNumber, Name, Procedure,
};
use commit_journal::Move;
use period_calendar::MIDNIGHT;

// The message at an index, without the entries of a batch.
fn message_in(day: &Day, i: usize) -> Option<&MessageRecord>
    ensures { MatchOption result (slice_get day.now.messages i ≡ None)
        (λ m. slice_get day.now.messages i
        ≡ Some (with_entries m.now (entries_at day.now.messages i))) }
{
    if i >= day.message_count() {
        return None;
    }
    Some(day.message(i))
}

/// The message of a number, without the entries of a batch.
pub fn message(day: &Day, n: MessageNumber) -> Option<&MessageRecord>
    ensures { MatchOption result (message_at day.now n ≡ None)
        (λ m. message_at day.now n ≡ Some (with_entries m.now (entries day.now n))) }
{
    if n == 0 {
        return None;
    }
    message_in(day, n as usize - 1)
}

/// How many messages the day has: at most `MAX_MESSAGES`.
pub fn message_count(setting: &Setting) -> u32
    ensures count { result ≡ length setting.now.day.messages }
    ensures few { result ≤ MAX_MESSAGES }
{
    setting.day.message_count() as u32
}

/// How many accounts the day has: at most `MAX_ACCOUNTS`.
pub fn account_count(setting: &Setting) -> u32
    ensures count { result ≡ length setting.now.day.accounts }
    ensures few { result ≤ MAX_ACCOUNTS }
{
    setting.day.accounts().len() as u32
}

/// The entries of a batch; none of another message.
pub fn entries(day: &Day, n: MessageNumber) -> &[Entry]
    ensures { result.now ≡ entries day.now n }
{
    if n == 0 {
        return &[];
    }
    day.entries(n as usize - 1)
}

/// How many entries a batch has: at most `MAX_ENTRIES`.
pub fn entry_count(setting: &Setting, n: MessageNumber) -> u32
    ensures count { result ≡ length (entries setting.now.day n) }
    ensures few { result ≤ MAX_ENTRIES }
{
    entries(&setting.day, n).len() as u32
}

/// The entry of a number.
pub fn entry(day: &Day, n: MessageNumber, k: EntryNumber) -> Option<&Entry>
    ensures { MatchOption result (entry_at day.now n k ≡ None)
        (λ e. entry_at day.now n k ≡ Some e.now) }
{
    if k == 0 {
        return None;
    }
    entries(day, n).get(k as usize - 1)
}

/// The sender of a message, empty where there is none.
pub fn sender(day: &Day, n: MessageNumber) -> &[u8]
    ensures { result.now ≡ sender day.now n }
{
    match message(day, n) {
        Some(message) => message.sender.as_bytes(),
        None => b"",
    }
}

/// The end of the information period that a batch states, in seconds.
pub fn info_end(day: &Day, n: MessageNumber) -> Option<u32>
    ensures { result ≡ info_end day.now n }
{
    match message(day, n) {
        Some(message) => match message.body {
            RecordBody::Batch { info, .. } => info,
            _ => None,
        },
        None => None,
    }
}

/// The time before which a batch isn't settled, in seconds, where it states one.
pub fn earliest(day: &Day, n: MessageNumber) -> Option<u32>
    ensures { result ≡ earliest day.now n }
{
    match message(day, n) {
        Some(message) => match message.body {
            RecordBody::Batch { from, .. } => from,
            _ => None,
        },
        None => None,
    }
}

/// The time at which the settlement of a batch begins, in seconds, where it states one: its earliest time, and else the end of its
/// information period.
pub fn settlement_start(day: &Day, n: MessageNumber) -> Option<u32>
    ensures { result ≡ settlement_start day.now n }
{
    match earliest(day, n) {
        Some(from) => Some(from),
        None => info_end(day, n),
    }
}

/// The settlement end that a batch states, in seconds.
pub fn stated_end(day: &Day, n: MessageNumber) -> Option<u32>
    ensures { result ≡ stated_end day.now n }
{
    match message(day, n) {
        Some(message) => match message.body {
            RecordBody::Batch { till, .. } => till,
            _ => None,
        },
        None => None,
    }
}

/// The settlement end, which is midnight where none is stated.
pub fn settlement_end(day: &Day, n: MessageNumber) -> u32
    ensures { result ≡ settlement_end day.now n }
{
    match stated_end(day, n) {
        Some(end) => end,
        None => MIDNIGHT,
    }
}

// ---- accounts

/// The account of a number.
pub fn account(day: &Day, a: AccountNumber) -> Option<&AccountRecord>
    ensures { MatchOption result (account_at day.now a ≡ None)
        (λ r. account_at day.now a ≡ Some r.now) }
{
    if a == 0 {
        return None;
    }
    day.accounts().get(a as usize - 1)
}

/// The number of the account of a name.
pub fn account_named(setting: &Setting, name: &Name) -> Option<u32>
    ensures { result ≡ account_named setting.now.day name.now }
{
    setting.book.find(name)
}

/// The number of an entry's debit account; 0 where its name is no account's.
pub fn debit_account(setting: &Setting, entry: &Entry) -> u32
    ensures { result ≡ debit_account setting.now.day entry.now }
{
    match account_named(setting, &entry.debit) {
        Some(a) => a,
        None => 0,
    }
}

/// The number of an entry's credit account; 0 where its name is no account's.
pub fn credit_account(setting: &Setting, entry: &Entry) -> u32
    ensures { result ≡ credit_account setting.now.day entry.now }
{
    match account_named(setting, &entry.credit) {
        Some(a) => a,
        None => 0,
    }
}

/// The move of an entry.
pub fn move_of(setting: &Setting, entry: &Entry) -> Move
    ensures { result ≡ move_of setting.now.day entry.now }
{
    Move {
        debit: debit_account(setting, entry),
        credit: credit_account(setting, entry),
        amount: entry.amount,
    }
}

/// What item k of message n moves: entry k of a batch, or with 0 a payment or a liquidity transfer itself. `None` where there
/// is no such item, or it moves nothing by itself.
pub fn item_move(setting: &Setting, n: MessageNumber, k: EntryNumber) -> Option<Move>
    ensures { result ≡ option_map (move_of setting.now.day) (part setting.now.day n k) }
{
    setting.found.moves.at(n, k)
}

/// What entry k of a batch moves.
pub fn entry_move(setting: &Setting, n: MessageNumber, k: EntryNumber) -> Option<Move>
    ensures { result ≡ option_map (move_of setting.now.day) (entry_at setting.now.day n k) }
{
    if k == 0 {
        return None;
    }
    item_move(setting, n, k)
}

/// What the entries of a batch move, in file order; of another message nothing.
pub fn entry_moves(setting: &Setting, n: MessageNumber) -> &[Move]
    ensures { result.now ≡ entry_moves setting.now.day n }
{
    setting.found.moves.entries(n)
}

// The debit account of an entry that has the same name as entry k of message n.
fn known_debit(setting: &Setting, n: u32, k: u32, name: &Name) -> Option<u32>
    ensures { IfSome result (λ a. a ≡ unwrap_or (account_named setting.now.day name.now) 0) }
{
    let entry = entry(&setting.day, n, k)?;
    if entry.debit != *name {
        return None;
    }
    match entry_move(setting, n, k) {
        Some(found) => Some(found.debit),
        None => None,
    }
}

/// The number of the debit account of an entry, which is found at once where it is entry k of message n; 0 where its name is
/// no account's.
pub fn debit_account_at(setting: &Setting, n: MessageNumber, k: EntryNumber, entry: &Entry) -> u32
    ensures { result ≡ debit_account setting.now.day entry.now }
{
    match known_debit(setting, n, k, &entry.debit) {
        Some(a) => a,
        None => debit_account(setting, entry),
    }
}

/// Whether the account is a dedicated cash account.
pub fn is_dca_account(setting: &Setting, a: AccountNumber) -> bool
    ensures { result ≡ is_dca_at setting.now.day a }
{
    match account(&setting.day, a) {
        Some(record) => matches!(record.kind, AccountKind::Dca),
        None => false,
    }
}

/// Whether the account is a dedicated cash account of this bank.
pub fn is_dca_of(setting: &Setting, bank: &[u8], a: AccountNumber) -> bool
    ensures { result ≡ passes_at setting.now.day
        (λ r. is_dca r.kind && same_name r.owner bank.now) a }
{
    match account(&setting.day, a) {
        Some(record) => {
            matches!(record.kind, AccountKind::Dca) && record.owner.as_bytes() == bank
        }
        None => false,
    }
}

/// Whether the account is a sub-account of this bank.
pub fn is_sub_of(setting: &Setting, bank: &[u8], a: AccountNumber) -> bool
    ensures { result ≡ passes_at setting.now.day
        (λ r. is_sub r.kind && same_name r.owner bank.now) a }
{
    match account(&setting.day, a) {
        Some(record) => {
            matches!(record.kind, AccountKind::Sub) && record.owner.as_bytes() == bank
        }
        None => false,
    }
}

// Whether an account is a sub-account that is dedicated to the system.
fn is_dedicated(entered: &AccountRecord, system: &[u8]) -> bool
    ensures { result ≡ (is_sub entered.now.kind
        && some_passes (λ link. same_name link system.now) entered.now.system) }
{
    matches!(entered.kind, AccountKind::Sub)
        && match &entered.system {
            Some(link) => link.as_bytes() == system,
            None => false,
        }
}

/// Whether the account is a sub-account that is dedicated to the system.
pub fn is_sub_for(setting: &Setting, system: &[u8], a: AccountNumber) -> bool
    ensures { result ≡ passes_at setting.now.day
        (λ r. is_sub r.kind && some_passes (λ link. same_name link system.now) r.system) a }
{
    match account(&setting.day, a) {
        Some(entered) => is_dedicated(entered, system),
        None => false,
    }
}

fn is_for_d(entered: &AccountRecord) -> bool
    ensures { result ≡ (is_technical entered.now.kind
        && some_passes (λ p. same_procedure p D) entered.now.procedure) }
{
    matches!(entered.kind, AccountKind::Tech) && matches!(entered.procedure, Some(Procedure::D))
}

/// Whether the account is a technical account for procedure D, of any system.
pub fn is_technical_d(setting: &Setting, a: AccountNumber) -> bool
    ensures { result ≡ passes_at setting.now.day
        (λ r. is_technical r.kind && some_passes (λ p. same_procedure p D) r.procedure) a }
{
    match account(&setting.day, a) {
        Some(record) => is_for_d(record),
        None => false,
    }
}

/// Whether the name is that of an account of the owner of this name.
pub fn is_owned_by(setting: &Setting, owner: &[u8], name: &Name) -> bool
    ensures { result ≡ owns setting.now.day owner.now name.now }
{
    match account_named(setting, name) {
        Some(a) => match account(&setting.day, a) {
            Some(record) => record.owner.as_bytes() == owner,
            None => false,
        },
        None => false,
    }
}

/// Whether the name is that of an account of this owner.
pub fn owns(setting: &Setting, owner: &Name, name: &Name) -> bool
    ensures { result ≡ owns setting.now.day owner.now name.now }
{
    is_owned_by(setting, owner.as_bytes(), name)
}

/// The owner of an account: a bank, of a dedicated cash account or a sub-account, else a system. None where there is no
/// such account.
pub fn owner_of(setting: &Setting, a: AccountNumber) -> Option<&Name>
    ensures { MatchOption result (account_at setting.now.day a ≡ None)
        (λ o. owner setting.now.day a ≡ o.now) }
{
    match account(&setting.day, a) {
        Some(record) => Some(&record.owner),
        None => None,
    }
}

/// Whether the account is a sub-account.
pub fn is_sub_account(setting: &Setting, a: AccountNumber) -> bool
    ensures { result ≡ is_sub_account setting.now.day a }
{
    match account(&setting.day, a) {
        Some(record) => matches!(record.kind, AccountKind::Sub),
        None => false,
    }
}

/// The balance with which an account begins the day, in cents; 0 where there is no such account.
pub fn opening(setting: &Setting, a: AccountNumber) -> u64
    ensures value { result ≡ opening setting.now.day a }
    ensures small { result ≤ 10 ^ 18 }
{
    match account(&setting.day, a) {
        Some(record) => record.opening.get(),
        None => 0,
    }
}

// ---- what accounts keep

/// What a payment of this priority must leave on an account, in cents; 0 where there is no such account.
pub fn kept(setting: &Setting, a: AccountNumber, high: bool) -> u64
    ensures value { result ≡ kept setting.now.day a high }
    ensures small { result ≤ 10 ^ 18 }
{
    if a == 0 {
        return 0;
    }
    if account_count(setting) < a {
        return 0;
    }
    setting.kept(a, high).get()
}

/// Whether message n is a payment of high priority.
pub fn is_high(setting: &Setting, n: MessageNumber) -> bool
    ensures { result ≡ is_high setting.now.day n }
{
    match message(&setting.day, n) {
        Some(message) => match message.body {
            RecordBody::Pay { high, .. } => high,
            _ => false,
        },
        None => false,
    }
}

/// What an item of message n must leave on account a, from which it is paid, in cents: a payment what is kept there from its
/// priority, every other item nothing.
pub fn must_leave(setting: &Setting, n: MessageNumber, a: AccountNumber) -> u64
    ensures value { result ≡ must_leave setting.now.day n a }
    ensures small { result ≤ 10 ^ 18 }
{
    if is_pay(setting, n) {
        kept(setting, a, is_high(setting, n))
    } else {
        0
    }
}

// ---- banks

/// The number of the first dedicated cash account of a bank.
pub fn first_dca(setting: &Setting, bank: &Name) -> Option<u32>
    ensures { result ≡ first_dca setting.now.day bank.now }
{
    setting.book.first_dca(bank)
}

/// Whether the name is a bank's: that of the owner of a dedicated cash account.
pub fn is_bank(setting: &Setting, name: &[u8]) -> bool
    ensures { result ≡ is_bank setting.now.day name.now }
{
    match Name::read(name) {
        Some(bank) => first_dca(setting, &bank).is_some(),
        None => false,
    }
}

// ---- messages of one sender

/// The last message before message n that its sender sent. None exactly where it sent none before. Of a message of the day; told at once.
pub fn sent_before(setting: &Setting, n: MessageNumber) -> Option<u32>
    requires one { 1 ≤ n }
    requires within { n ≤ length setting.now.day.messages }
    ensures { IsSentBefore setting.now.day n result }
{
    match setting.found.repeats.before(n - 1) {
        Some(i) => Some(i + 1),
        None => None,
    }
}

// ---- repeats

/// The first message with the sender and the identification of message n, where that is an earlier one.
pub fn earlier(setting: &Setting, n: MessageNumber) -> Option<u32>
    ensures { result ≡ earlier setting.now.day n }
{
    if n == 0 {
        return None;
    }
    match setting.found.repeats.as_slice().get(n as usize - 1) {
        Some(first) => *first,
        None => None,
    }
}

/// Whether an earlier message has the sender and the identification of message n.
pub fn is_repeat(setting: &Setting, n: MessageNumber) -> bool
    ensures { result ≡ is_repeat setting.now.day n }
{
    earlier(setting, n).is_some()
}
