//! What a record states.

ghost use Rattle.std.specs.Prelude.{◌≡◌, ◌<◌, ◌^◌, [], get_or, is_some, length, true};
ghost use Rattle.cash_amounts.specs.Names.{is_id, is_name};
ghost use Rattle.period_calendar.specs.Times.{time_of_text};
ghost use Rattle.batch_records.specs.Amounts.{amount_in, cents_of};
ghost use Rattle.batch_records.specs.Flat.{body_with_entries, with_entries};
ghost use Rattle.batch_records.specs.Made.{account_from, answer_from, batch_from, cycle_from, date_in, entry_from, message_from, objection_from, payment_from, procedure_in, procedure_linked, reserve_from, stop_from, system_from, system_linked, transfer_from};
ghost use Rattle.batch_records.specs.Versions.{sum_field};
ghost use Rattle.batch_records.specs.Step.{IsAccount, IsAnswer, IsBatch, IsCycle, IsEntry, IsLink, IsObjection, IsPayment, IsReserve, IsSystem, IsTransfer};

use crate::count_text::count_in;
use crate::day::{Entry, MessageRecord, RecordBody, Reserve};
use crate::kinds::{account_kind_in, cents_of, field};
use crate::register::Register;
use crate::versions::{count_field, from_text, info_text, sum_field, till_text, time_in};
use crate::words::{is_high, is_start, is_yes, listed, procedure_named, technical_named};
use cash_amounts::{AccountKind, AccountRecord, Cents, MsgId, Name, Procedure, SystemRecord};
use period_calendar::{BusinessDate, read_time};
use record_rows::Row;

// The name at a place.
fn name_at(row: &Row, i: usize) -> Name
    requires { is_name (get_or row.now i []) ≡ true }
    ensures { result ≡ get_or row.now i [] }
{
    Name::read(field(row, i)).unwrap()
}

// The identification at a place.
fn id_at(row: &Row, i: usize) -> MsgId
    requires { is_id (get_or row.now i []) ≡ true }
    ensures { result ≡ get_or row.now i [] }
{
    MsgId::read(field(row, i)).unwrap()
}

// The amount at a place.
fn cents_at(row: &Row, i: usize) -> Cents
    requires { is_some (cents_of (get_or row.now i [])) ≡ true }
    ensures { result ≡ amount_in (get_or row.now i []) }
{
    cents_of(field(row, i)).unwrap()
}

// The date that a record states.
pub fn date_in(row: &Row) -> Option<BusinessDate>
    ensures { result ≡ date_in row.now }
{
    BusinessDate::read(field(row, 1)).ok()
}

// The stop that a record states.
pub fn stop_from(row: &Row) -> u32
    requires { is_some (time_of_text (get_or row.now 1 [])) ≡ true }
    ensures { result ≡ stop_from row.now }
{
    read_time(field(row, 1)).unwrap()
}

// The system that a record states.
pub fn system_from(row: &Row) -> SystemRecord
    requires { IsSystem row.now }
    ensures { result ≡ system_from row.now }
{
    SystemRecord {
        name: name_at(row, 1),
        procedures: listed(field(row, 2)),
    }
}

fn system_linked(kind: AccountKind, row: &Row) -> Option<Name>
    requires { IsLink kind (get_or row.now 4 []) }
    ensures { result ≡ system_linked kind (get_or row.now 4 []) }
{
    match kind {
        AccountKind::Sub => Some(name_at(row, 4)),
        _ => None,
    }
}

fn procedure_linked(kind: AccountKind, row: &Row) -> Option<Procedure>
    ensures { result ≡ procedure_linked kind (get_or row.now 4 []) }
{
    match kind {
        AccountKind::Tech => technical_named(field(row, 4)),
        _ => None,
    }
}

// The account that a record states.
pub fn account_from(row: &Row) -> AccountRecord
    requires { IsAccount row.now }
    ensures { result ≡ account_from row.now }
{
    let kind = account_kind_in(row);
    AccountRecord {
        name: name_at(row, 1),
        kind,
        owner: name_at(row, 3),
        system: system_linked(kind, row),
        procedure: procedure_linked(kind, row),
        opening: cents_at(row, 5),
    }
}

// What a record states that an account keeps, with these accounts before it.
pub fn reserve_from(accounts: &Register, row: &Row) -> Reserve
    requires amounts { IsReserve row.now }
    requires few { length accounts.now < 2 ^ 32 }
    ensures { result ≡ reserve_from accounts.now row.now }
{
    Reserve {
        account: accounts.number(field(row, 1)).unwrap_or(0) as u32,
        urgent: cents_at(row, 2),
        high: cents_at(row, 3),
    }
}

// The entry that a record states.
pub fn entry_from(row: &Row) -> Entry
    requires { IsEntry row.now }
    ensures { result ≡ entry_from row.now }
{
    Entry {
        debit: name_at(row, 1),
        credit: name_at(row, 2),
        amount: cents_at(row, 3),
    }
}

// The procedure of a batch, and any where the record names none.
fn procedure_in(row: &Row) -> Procedure
    ensures { result ≡ procedure_in row.now }
{
    procedure_named(field(row, 3)).unwrap_or(Procedure::E)
}

// The message of a record with this many stops before it, which asks for this.
fn message(round: u32, body: RecordBody, row: &Row) -> MessageRecord
    requires sender { is_name (get_or row.now 1 []) ≡ true }
    requires id { is_id (get_or row.now 2 []) ≡ true }
    ensures { with_entries result []
        ≡ message_from round (body_with_entries body []) row.now }
{
    MessageRecord {
        round,
        sender: name_at(row, 1),
        id: id_at(row, 2),
        body,
    }
}

// The sum of a batch.
fn sum_in(version: u8, row: &Row) -> Cents
    requires { is_some (cents_of (sum_field version row.now)) ≡ true }
    ensures { result ≡ amount_in (sum_field version row.now) }
{
    cents_of(sum_field(version, row)).unwrap()
}

// The batch of this version that a record states, with this many stops before it.
pub fn batch_from(version: u8, round: u32, row: &Row) -> MessageRecord
    requires { IsBatch version row.now }
    ensures { with_entries result [] ≡ batch_from version round [] row.now }
{
    message(
        round,
        RecordBody::Batch {
            procedure: procedure_in(row),
            info: time_in(info_text(version, row)),
            from: time_in(from_text(version, row)),
            till: time_in(till_text(version, row)),
            count: count_in(count_field(version, row)),
            sum: sum_in(version, row),
        },
        row,
    )
}

// The payment that a record states, with this many stops before it.
pub fn payment_from(round: u32, row: &Row) -> MessageRecord
    requires { IsPayment row.now }
    ensures { with_entries result [] ≡ payment_from round row.now }
{
    message(
        round,
        RecordBody::Pay {
            high: is_high(field(row, 3)),
            debit: name_at(row, 4),
            credit: name_at(row, 5),
            amount: cents_at(row, 6),
        },
        row,
    )
}

// The liquidity transfer that a record states, with this many stops before it.
pub fn transfer_from(round: u32, row: &Row) -> MessageRecord
    requires { IsTransfer row.now }
    ensures { with_entries result [] ≡ transfer_from round row.now }
{
    message(
        round,
        RecordBody::Liquidity {
            debit: name_at(row, 3),
            credit: name_at(row, 4),
            amount: cents_at(row, 5),
        },
        row,
    )
}

// The objection that a record states, with this many stops before it.
pub fn objection_from(round: u32, row: &Row) -> MessageRecord
    requires { IsObjection row.now }
    ensures { with_entries result [] ≡ objection_from round row.now }
{
    message(
        round,
        RecordBody::Object {
            system: name_at(row, 3),
            batch: id_at(row, 4),
        },
        row,
    )
}

// The answer that a record states, with this many stops before it.
pub fn answer_from(round: u32, row: &Row) -> MessageRecord
    requires { IsAnswer row.now }
    ensures { with_entries result [] ≡ answer_from round row.now }
{
    message(
        round,
        RecordBody::Confirm {
            batch: id_at(row, 3),
            yes: is_yes(field(row, 4)),
        },
        row,
    )
}

// The start or end of a cycle that a record states, with this many stops before it.
pub fn cycle_from(round: u32, row: &Row) -> MessageRecord
    requires { IsCycle row.now }
    ensures { with_entries result [] ≡ cycle_from round row.now }
{
    message(
        round,
        RecordBody::Cycle {
            start: is_start(field(row, 3)),
        },
        row,
    )
}
