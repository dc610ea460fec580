//! What is left to be booked of each message.
ghost use Rattle.batch_records.specs.declared.day.Entry.{Entry};
ghost use Rattle.batch_records.specs.Flat.{body_with_entries};
ghost use Rattle.std.specs.Prelude.{◌≡◌, ◌<◌, ◌&&◌, [], None, Some, IfOk, List};
ghost use Rattle.batch_records.specs.Repeats.{message_at};
ghost use Rattle.machine.specs.Words.{numbered};
ghost use Rattle.machine.specs.Records.Messages.{sort_of};
ghost use Rattle.rule_book.specs.Parties.{HasParts};
ghost use Rattle.day_facts.specs.Listed.{pushed, with_items, with_rows};
ghost use Rattle.day_facts.specs.Lists.{changed};
ghost use Rattle.day_facts.specs.Left.{books_debit, fallen, last_after, last_in, row_booked, row_rule, rows_booked, rows_revoked, rows_ruled};
ghost use Rattle.day_facts.specs.Told.{is_party_at, ruled_by, ruled_on};

use crate::booked::is_book;
use crate::flags::FlagRows;
use batch_records::{MessageRecord, RecordBody};
use cash_amounts::{LinePlace, Memory, MessageNumber, Name, Procedure};
use commit_journal::Head;
use refused_memory::with_capacity;
use rule_book::Setting;
use rule_book::parties::{entry_of, is_party_at, party_keys};
use rule_book::parts::{entry_count, message};
use rule_book::sorts::procedure_of_batch;
use std::alloc::Global;
use std::marker::Model;

// ---- one more line

fn fell_booked(rows: &mut FlagRows, head: Head)
    ensures { rows.new ≡ with_rows (rows_booked head rows.old.rows) rows.old }
{
    if is_book(head.kind) {
        rows.fell(head.msg, head.entry);
    }
}

// The flag of the item that the line books falls.
pub fn note_booking(rows: &mut FlagRows, head: Head)
    ensures { rows.new ≡ with_rows (changed head.msg (row_booked head) rows.old.rows) rows.old }
{
    fell_booked(rows, head);
}

// Lets the flags of the bank's entries fall.
fn revoke_parts(rows: &mut FlagRows, setting: &Setting, n: u32, bank: &Name)
    ensures { rows.new ≡ with_rows (changed n
        (fallen (is_party_at setting.now.day n bank.now) 0) rows.old.rows) rows.old }
{
    for k in 1..entry_count(setting, n) + 1 {
        if is_party_at(setting, n, bank, k) {
            rows.fell(n, k);
        }
    }
}

// The same, where each of these entries is one of the keys.
fn revoke_listed(rows: &mut FlagRows, setting: &Setting, n: u32, bank: &Name, keys: &[u64])
    requires { HasParts setting.now.day n bank.now keys.now }
    ensures { rows.new ≡ with_rows (changed n
        (fallen (is_party_at setting.now.day n bank.now) 0) rows.old.rows) rows.old }
{
    for key in keys {
        let k = entry_of(*key);
        if is_party_at(setting, n, bank, k) {
            rows.fell(n, k);
        }
    }
}

fn revoke_entries(rows: &mut FlagRows, setting: &Setting, n: u32, bank: &Name)
    ensures { rows.new ≡ with_rows (changed n
        (fallen (is_party_at setting.now.day n bank.now) 0) rows.old.rows) rows.old }
{
    match party_keys(setting, n, bank) {
        Some(keys) => revoke_listed(rows, setting, n, bank, keys),
        None => revoke_parts(rows, setting, n, bank),
    }
}

// An objection of the bank to the batch n is accepted.
fn revoke(rows: &mut FlagRows, setting: &Setting, n: u32, bank: &Name)
    ensures { rows.new ≡ with_rows (rows_revoked (sort_of setting.now.day n) setting.now.day n
        bank.now rows.old.rows) rows.old }
{
    match procedure_of_batch(setting, n) {
        Some(Procedure::E) => revoke_entries(rows, setting, n, bank),
        _ => {}
    }
}

fn fell_revoked(rows: &mut FlagRows, setting: &Setting, b: u32, message: &MessageRecord)
    ensures { (entries : List Entry) → rows.new ≡ with_rows (rows_ruled setting.now.day b
        message.now.sender (body_with_entries message.now.body entries) rows.old.rows) rows.old }
{
    match &message.body {
        RecordBody::Object { .. } => revoke(rows, setting, b, &message.sender),
        _ => {}
    }
}

// A message on the batch b is accepted.
fn rule(rows: &mut FlagRows, setting: &Setting, b: u32, message: &MessageRecord)
    ensures { (entries : List Entry) → rows.new ≡ with_rows (changed b
        (row_rule setting.now.day b message.now.sender
        (body_with_entries message.now.body entries)) rows.old.rows) rows.old }
{
    fell_revoked(rows, setting, b, message);
}

fn rule_by(rows: &mut FlagRows, setting: &Setting, b: u32, m: u32)
    ensures { rows.new ≡ with_rows (ruled_by (row_rule setting.now.day) b
        (message_at setting.now.day m) rows.old.rows) rows.old }
{
    match message(&setting.day, m) {
        Some(message) => rule(rows, setting, b, message),
        None => {}
    }
}

// The flags of the entries fall that a line revokes which accepts message m on the batch, where there is one.
pub fn note_objection(rows: &mut FlagRows, setting: &Setting, aim: Option<u32>, m: MessageNumber)
    ensures { rows.new ≡ with_rows (ruled_on (row_rule setting.now.day) aim
        (message_at setting.now.day m) rows.old.rows) rows.old }
{
    match aim {
        Some(b) => rule_by(rows, setting, b, m),
        None => {}
    }
}

// ---- the debit that was booked last

// Of each message the place of the debit that was booked last, or 0.
#[derive(Drop)]
pub struct LastDebits {
    items: Vec<u32>,
}

impl Model for LastDebits {
    ghost use Rattle.std.specs.Prelude.{ℕ, ◌-◌, vec_capacity, vec_len};
    ghost use Rattle.day_facts.specs.Listed.{Listed};

    ghost Value = { Listed ℕ };

    ghost view = { λ lasts. record {
      items = lasts.items.items;
      room = vec_capacity lasts.items - vec_len lasts.items;
    } };
}

// Whether the line books a debit that wasn't booked before.
fn books_debit(debits: &FlagRows, head: Head) -> bool
    ensures { result ≡ books_debit head debits.now.rows }
{
    is_book(head.kind) && debits.stands(head.msg, head.entry)
}

fn put_last(lasts: &mut [u32], n: u32, place: u32)
    ensures { lasts.new ≡ changed n (λ last. place) lasts.old }
{
    if n == 0 || n as usize > lasts.len() {
        return;
    }
    lasts[n as usize - 1] = place;
}

impl LastDebits {
    // No messages, with room for so many.
    pub fn with_room(alloc: Global, most: u32) -> Result<LastDebits, Memory>
        ensures { IfOk result (λ lasts. lasts ≡ record { items = []; room = most }) }
    {
        let items = with_capacity(alloc, most as usize)?;
        Ok(LastDebits { items })
    }

    // Takes the next message, of which no debit is booked. Takes no memory.
    pub fn arrive(&mut self)
        requires { 0 < self.old.room }
        ensures { self.new ≡ pushed 0 self.old }
    {
        self.items.push_reserved(0);
    }

    // Notes a line, before the flags of debits do.
    pub fn note(&mut self, debits: &FlagRows, place: LinePlace, head: Head)
        ensures { self.new
            ≡ with_items (last_after place head debits.now.rows self.old.items) self.old }
    {
        if books_debit(debits, head) {
            put_last(self.items.as_mut_slice(), head.msg, place);
        }
    }

    // That of message n.
    pub fn at(&self, n: MessageNumber) -> u32
        ensures { result ≡ last_in self.now.items n }
    {
        if n == 0 {
            return 0;
        }
        match self.items.get(n as usize - 1) {
            Some(last) => *last,
            None => 0,
        }
    }
}
