//! The kinds of records, and the fields that each kind has.

ghost use Rattle.std.specs.Prelude.{◌≡◌, ◌≤◌, [], get_or, not};
ghost use Rattle.std.specs.List.{list_any};
ghost use Rattle.cash_amounts.specs.Names.{is_id, is_name};
ghost use Rattle.cash_amounts.specs.declared.cents.TheConstants.{MAX_CENTS};
ghost use Rattle.batch_records.specs.Amounts.{amount_in, cents_of};
ghost use Rattle.batch_records.specs.declared.kinds.RecordKind.TheVariants as record_kinds;
ghost use Rattle.batch_records.specs.Kinds.{fields_in, has_bad_amount, has_bad_date, has_bad_id, has_bad_name, has_bad_number, account_kind_in, has_closing_date, has_other_fields, has_other_link, has_other_word, is_closing_date, is_message_kind, is_no_date, is_paid, kind_named, link_names};

use crate::count_text::count_of;
use crate::versions::{count_field, has_labels, has_stated_times, sum_field};
use crate::words::{
    account_kind_named, is_answer, is_cycle, is_priority, is_procedures, is_version_word, is_word,
    procedure_named, technical_named,
};
use cash_amounts::{AccountKind, Cents, MsgId, Name, read_cents};
use period_calendar::{BusinessDate, DateFault};
use record_rows::Row;

/// The kinds of records.
#[derive(Clone, Copy, PartialEq, Eq)]
pub enum RecordKind {
    Ver,
    Day,
    As,
    Acc,
    Res,
    Bat,
    Ent,
    Pay,
    Liq,
    Obj,
    Cnf,
    Cyc,
    Tim,
    End,
}

// Whether records of this kind are messages.
pub fn is_message(kind: RecordKind) -> bool
    ensures { result ≡ is_message_kind kind }
{
    matches!(
        kind,
        RecordKind::Bat
            | RecordKind::Pay
            | RecordKind::Liq
            | RecordKind::Obj
            | RecordKind::Cnf
            | RecordKind::Cyc
    )
}

// Whether a text is a name.
pub fn is_name(text: &[u8]) -> bool
    ensures { result ≡ is_name text.now }
{
    Name::read(text).is_some()
}

// Whether a text is an identification.
pub fn is_id(text: &[u8]) -> bool
    ensures { result ≡ is_id text.now }
{
    MsgId::read(text).is_some()
}

// The amount of a text, where it is an amount's.
pub fn cents_of(text: &[u8]) -> Option<Cents>
    ensures { result ≡ cents_of text.now }
{
    read_cents(text).ok()
}

// The cents of a text, 0 where it is no amount's.
pub fn amount_in(text: &[u8]) -> u64
    ensures same { result ≡ amount_in text.now }
    ensures within { result ≤ MAX_CENTS }
{
    match cents_of(text) {
        Some(cents) => cents.get(),
        None => 0,
    }
}

// Whether there is an amount that a message may move: 0.01 to 99999999999.99.
fn is_paid(amount: Option<Cents>) -> bool
    ensures { result ≡ is_paid amount }
{
    match amount {
        Some(cents) => 0 < cents.get() && cents.get() < 10_000_000_000_000,
        None => false,
    }
}

// The field at a place, empty where there is none.
pub fn field(row: &Row, i: usize) -> &[u8]
    ensures { result.now ≡ get_or row.now i [] }
{
    row.field(i)
}

// The kind that a word names.
#[tactic(auto, unfolding(crate::specs::Kinds::kind_named))]
pub fn kind_named(word: &[u8]) -> Option<RecordKind>
    ensures { result ≡ kind_named word.now }
{
    if is_word(word, b"VER") {
        Some(RecordKind::Ver)
    } else if is_word(word, b"DAY") {
        Some(RecordKind::Day)
    } else if is_word(word, b"AS") {
        Some(RecordKind::As)
    } else if is_word(word, b"ACC") {
        Some(RecordKind::Acc)
    } else if is_word(word, b"BAT") {
        Some(RecordKind::Bat)
    } else if is_word(word, b"ENT") {
        Some(RecordKind::Ent)
    } else if is_word(word, b"PAY") {
        Some(RecordKind::Pay)
    } else if is_word(word, b"LIQ") {
        Some(RecordKind::Liq)
    } else if is_word(word, b"OBJ") {
        Some(RecordKind::Obj)
    } else if is_word(word, b"CNF") {
        Some(RecordKind::Cnf)
    } else if is_word(word, b"CYC") {
        Some(RecordKind::Cyc)
    } else if is_word(word, b"TIM") {
        Some(RecordKind::Tim)
    } else if is_word(word, b"END") {
        Some(RecordKind::End)
    } else if is_word(word, b"RES") {
        Some(RecordKind::Res)
    } else {
        None
    }
}

// How many fields a record of a kind has; a batch in a day of version 1.
#[tactic(auto, unfolding(crate::specs::Kinds::fields_in))]
fn fields_in(kind: RecordKind) -> usize
    ensures { result ≡ fields_in kind }
{
    match kind {
        RecordKind::Ver => 2,
        RecordKind::Day => 2,
        RecordKind::As => 3,
        RecordKind::Acc => 6,
        RecordKind::Res => 4,
        RecordKind::Bat => 8,
        RecordKind::Ent => 4,
        RecordKind::Pay => 7,
        RecordKind::Liq => 6,
        RecordKind::Obj => 5,
        RecordKind::Cnf => 5,
        RecordKind::Cyc => 4,
        RecordKind::Tim => 2,
        RecordKind::End => 1,
    }
}

// Whether a batch has other fields than a batch of a day of this version.
#[tactic(auto, unfolding(crate::specs::Kinds::has_other_fields))]
fn has_other_form(version: u8, row: &Row) -> bool
    ensures { result ≡ has_other_fields version record_kinds.Bat row.now }
{
    if has_labels(version) {
        !has_stated_times(row)
    } else {
        row.len() != fields_in(RecordKind::Bat)
    }
}

// Whether a record of a day of this version has other fields than its kind; RES in a day of version 1 is of no kind.
#[tactic(auto, unfolding(crate::specs::Kinds::has_other_fields))]
pub fn has_other_fields(version: u8, kind: RecordKind, row: &Row) -> bool
    ensures { result ≡ has_other_fields version kind row.now }
{
    match kind {
        RecordKind::Bat => has_other_form(version, row),
        RecordKind::Res => has_labels(version) && row.len() != fields_in(RecordKind::Res),
        _ => row.len() != fields_in(kind),
    }
}

// The kind of an account, and any where the record names none.
pub fn account_kind_in(row: &Row) -> AccountKind
    ensures { result ≡ account_kind_in row.now }
{
    account_kind_named(field(row, 2)).unwrap_or(AccountKind::Dca)
}

// Whether the link of an account has to be one of some words and is none of them.
#[tactic(auto, unfolding(crate::specs::Kinds::has_other_link))]
fn has_other_link(kind: AccountKind, row: &Row) -> bool
    ensures { result ≡ has_other_link kind row.now }
{
    match kind {
        AccountKind::Tech => technical_named(field(row, 4)).is_none(),
        _ => false,
    }
}

// Whether a field that has to be one of some words is none of them; RES itself is no word in a day of version 1.
#[tactic(auto, unfolding(crate::specs::Kinds::has_other_word))]
pub fn has_other_word(version: u8, kind: RecordKind, row: &Row) -> bool
    ensures { result ≡ has_other_word version kind row.now }
{
    match kind {
        RecordKind::Ver => !is_version_word(field(row, 1)),
        RecordKind::As => !is_procedures(field(row, 2)),
        RecordKind::Acc => {
            account_kind_named(field(row, 2)).is_none() || has_other_link(account_kind_in(row), row)
        }
        RecordKind::Res => !has_labels(version),
        RecordKind::Bat => procedure_named(field(row, 3)).is_none(),
        RecordKind::Pay => !is_priority(field(row, 3)),
        RecordKind::Cnf => !is_answer(field(row, 4)),
        RecordKind::Cyc => !is_cycle(field(row, 3)),
        _ => false,
    }
}

// Whether a date was refused, and not for the reason that it is a closing day.
fn is_no_date(date: Result<BusinessDate, DateFault>) -> bool
    ensures { result ≡ is_no_date date }
{
    match date {
        Ok(_) | Err(DateFault::Closed) => false,
        Err(_) => true,
    }
}

fn is_closing_date(date: Result<BusinessDate, DateFault>) -> bool
    ensures { result ≡ is_closing_date date }
{
    match date {
        Err(DateFault::Closed) => true,
        _ => false,
    }
}

// Whether a date is none, or one of a year that isn't read.
#[tactic(auto, unfolding(crate::specs::Kinds::has_bad_date))]
pub fn has_bad_date(kind: RecordKind, row: &Row) -> bool
    ensures { result ≡ has_bad_date kind row.now }
{
    match kind {
        RecordKind::Day => is_no_date(BusinessDate::read(field(row, 1))),
        _ => false,
    }
}

// Whether a date is a closing day.
#[tactic(auto, unfolding(crate::specs::Kinds::has_closing_date))]
pub fn has_closing_date(kind: RecordKind, row: &Row) -> bool
    ensures { result ≡ has_closing_date kind row.now }
{
    match kind {
        RecordKind::Day => is_closing_date(BusinessDate::read(field(row, 1))),
        _ => false,
    }
}

// Whether the link of an account has to be a name and is none.
fn has_bad_link(kind: AccountKind, row: &Row) -> bool
    ensures { result ≡ list_any (λ f. not (is_name f)) (link_names kind row.now) }
{
    match kind {
        AccountKind::Sub => !is_name(field(row, 4)),
        _ => false,
    }
}

// Whether a field that has to be a name is none.
#[tactic(auto, unfolding(crate::specs::Kinds::has_bad_name))]
pub fn has_bad_name(kind: RecordKind, row: &Row) -> bool
    ensures { result ≡ has_bad_name kind row.now }
{
    match kind {
        RecordKind::As => !is_name(field(row, 1)),
        RecordKind::Acc => {
            !is_name(field(row, 1))
                || !is_name(field(row, 3))
                || has_bad_link(account_kind_in(row), row)
        }
        RecordKind::Res | RecordKind::Bat | RecordKind::Cnf | RecordKind::Cyc => {
            !is_name(field(row, 1))
        }
        RecordKind::Ent => !is_name(field(row, 1)) || !is_name(field(row, 2)),
        RecordKind::Pay => {
            !is_name(field(row, 1)) || !is_name(field(row, 4)) || !is_name(field(row, 5))
        }
        RecordKind::Liq => {
            !is_name(field(row, 1)) || !is_name(field(row, 3)) || !is_name(field(row, 4))
        }
        RecordKind::Obj => !is_name(field(row, 1)) || !is_name(field(row, 3)),
        _ => false,
    }
}

// Whether a field that has to be an identification is none.
#[tactic(auto, unfolding(crate::specs::Kinds::has_bad_id))]
pub fn has_bad_id(kind: RecordKind, row: &Row) -> bool
    ensures { result ≡ has_bad_id kind row.now }
{
    match kind {
        RecordKind::Bat | RecordKind::Pay | RecordKind::Liq | RecordKind::Cyc => !is_id(field(
            row, 2,
        )),
        RecordKind::Obj => !is_id(field(row, 2)) || !is_id(field(row, 4)),
        RecordKind::Cnf => !is_id(field(row, 2)) || !is_id(field(row, 3)),
        _ => false,
    }
}

// Whether the count of a batch is none.
#[tactic(auto, unfolding(crate::specs::Kinds::has_bad_number))]
pub fn has_bad_number(version: u8, kind: RecordKind, row: &Row) -> bool
    ensures { result ≡ has_bad_number version kind row.now }
{
    match kind {
        RecordKind::Bat => count_of(count_field(version, row)).is_none(),
        _ => false,
    }
}

// Whether a field that has to be an amount is none, or one that its record may not have.
#[tactic(auto, unfolding(crate::specs::Kinds::has_bad_amount))]
pub fn has_bad_amount(version: u8, kind: RecordKind, row: &Row) -> bool
    ensures { result ≡ has_bad_amount version kind row.now }
{
    match kind {
        RecordKind::Acc => cents_of(field(row, 5)).is_none(),
        RecordKind::Res => cents_of(field(row, 2)).is_none() || cents_of(field(row, 3)).is_none(),
        RecordKind::Bat => cents_of(sum_field(version, row)).is_none(),
        RecordKind::Ent => !is_paid(cents_of(field(row, 3))),
        RecordKind::Pay => !is_paid(cents_of(field(row, 6))),
        RecordKind::Liq => !is_paid(cents_of(field(row, 5))),
        _ => false,
    }
}
