//! The places of the objections that revoked items.
ghost use Rattle.batch_records.specs.declared.day.Entry.{Entry};
ghost use Rattle.batch_records.specs.Flat.{body_with_entries};
ghost use Rattle.std.specs.Prelude.{◌≡◌, ◌+◌, ◌<◌, ◌≤◌, length, List};
ghost use Rattle.batch_records.specs.Repeats.{message_at};
ghost use Rattle.machine.specs.Records.Messages.{entries, sort_of};
ghost use Rattle.rule_book.specs.Parties.{HasParts};
ghost use Rattle.day_facts.specs.Listed.{with_rows};
ghost use Rattle.day_facts.specs.Lists.{changed};
ghost use Rattle.day_facts.specs.Told.{is_party_at, item_for, parts_of, revoked_in, revoked_rule, revoked_with, rows_objected, places_revoked, ruled_by, ruled_on};

use crate::places::PlaceRows;
use batch_records::{MessageRecord, RecordBody};
use cash_amounts::{EntryNumber, LinePlace, MessageNumber, Name, Procedure};
use rule_book::Setting;
use rule_book::parties::{entry_of, is_party_at, party_keys};
use rule_book::parts::{entry_count, message};
use rule_book::sorts::procedure_of_batch;

// Places the entries of which the bank is a party.
fn revoke_parts(rows: &mut PlaceRows, setting: &Setting, n: u32, bank: &Name, place: u32)
    requires { 0 < place }
    ensures { rows.new ≡ with_rows (changed n
        (revoked_with (is_party_at setting.now.day n bank.now) place 0) rows.old.rows) rows.old }
{
    for k in 1..entry_count(setting, n) + 1 {
        if is_party_at(setting, n, bank, k) {
            rows.put(n, k, place);
        }
    }
}

// The same, where each of these entries is one of the keys.
fn revoke_listed(
    rows: &mut PlaceRows,
    setting: &Setting,
    n: u32,
    bank: &Name,
    keys: &[u64],
    place: u32,
)
    requires parts { HasParts setting.now.day n bank.now keys.now }
    requires place { 0 < place }
    ensures { rows.new ≡ with_rows (changed n
        (revoked_with (is_party_at setting.now.day n bank.now) place 0) rows.old.rows) rows.old }
{
    for key in keys {
        let k = entry_of(*key);
        if is_party_at(setting, n, bank, k) {
            rows.put(n, k, place);
        }
    }
}

fn revoke_entries(rows: &mut PlaceRows, setting: &Setting, n: u32, bank: &Name, place: u32)
    requires { 0 < place }
    ensures { rows.new ≡ with_rows (changed n
        (revoked_with (is_party_at setting.now.day n bank.now) place 0) rows.old.rows) rows.old }
{
    match party_keys(setting, n, bank) {
        Some(keys) => revoke_listed(rows, setting, n, bank, keys, place),
        None => revoke_parts(rows, setting, n, bank, place),
    }
}

// An objection of the bank to the batch n is accepted.
fn revoke(rows: &mut PlaceRows, setting: &Setting, n: u32, bank: &Name, place: u32)
    requires { 0 < place }
    ensures { rows.new ≡ with_rows (rows_objected (sort_of setting.now.day n) setting.now.day n
        bank.now place rows.old.rows) rows.old }
{
    match procedure_of_batch(setting, n) {
        Some(Procedure::A) | Some(Procedure::B) => rows.put(n, 0, place),
        Some(Procedure::E) => revoke_entries(rows, setting, n, bank, place),
        _ => {}
    }
}

fn put_revoked(rows: &mut PlaceRows, setting: &Setting, b: u32, place: u32, message: &MessageRecord)
    requires { 0 < place }
    ensures { (own : List Entry) → rows.new ≡ with_rows (places_revoked setting.now.day place b
        message.now.sender (body_with_entries message.now.body own) rows.old.rows) rows.old }
{
    match &message.body {
        RecordBody::Object { .. } => revoke(rows, setting, b, &message.sender, place),
        _ => {}
    }
}

// A message on the batch b is accepted.
fn rule(rows: &mut PlaceRows, setting: &Setting, b: u32, place: u32, message: &MessageRecord)
    requires { 0 < place }
    ensures { (own : List Entry) → rows.new ≡ with_rows (changed b
        (revoked_rule setting.now.day place b message.now.sender
        (body_with_entries message.now.body own)) rows.old.rows) rows.old }
{
    put_revoked(rows, setting, b, place, message);
}

fn rule_by(rows: &mut PlaceRows, setting: &Setting, b: u32, place: u32, m: u32)
    requires { 0 < place }
    ensures { rows.new ≡ with_rows (ruled_by (revoked_rule setting.now.day place) b
        (message_at setting.now.day m) rows.old.rows) rows.old }
{
    match message(&setting.day, m) {
        Some(message) => rule(rows, setting, b, place, message),
        None => {}
    }
}

// Notes a line that accepts message m on the batch, where there is one.
pub fn note_revoked(
    rows: &mut PlaceRows,
    setting: &Setting,
    aim: Option<u32>,
    place: LinePlace,
    m: MessageNumber,
)
    requires { 0 < place }
    ensures { rows.new ≡ with_rows (ruled_on (revoked_rule setting.now.day place) aim
        (message_at setting.now.day m) rows.old.rows) rows.old }
{
    match aim {
        Some(b) => rule_by(rows, setting, b, place, m),
        None => {}
    }
}

// How many items of message n have places of their own.
pub fn parts(setting: &Setting, n: u32) -> u32
    ensures count { result ≡ parts_of (sort_of setting.now.day n) setting.now.day n }
    ensures few { result ≤ length (entries setting.now.day n) + 1 }
{
    match procedure_of_batch(setting, n) {
        Some(Procedure::E) => entry_count(setting, n) + 1,
        _ => 1,
    }
}

fn which_item(setting: &Setting, n: u32, k: u32) -> u32
    ensures { result ≡ item_for (sort_of setting.now.day n) k }
{
    match procedure_of_batch(setting, n) {
        Some(Procedure::A) | Some(Procedure::B) => 0,
        _ => k,
    }
}

// The place of the objection that revoked item k of message n first.
pub fn revoked_at(
    rows: &PlaceRows,
    setting: &Setting,
    n: MessageNumber,
    k: EntryNumber,
) -> Option<u32>
    ensures { result ≡ revoked_in setting.now.day rows.now.rows n k }
{
    rows.at(n, which_item(setting, n, k))
}
