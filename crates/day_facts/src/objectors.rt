//! Objections that repeat an accepted one of the same bank to the same batch: they revoke nothing more.
ghost use Rattle.batch_records.specs.declared.day.Entry.{Entry};
ghost use Rattle.batch_records.specs.Flat.{body_with_entries};
ghost use Rattle.std.specs.Prelude.{◌≡◌, ◌&&◌, List};
ghost use Rattle.batch_records.specs.Repeats.{message_at};
ghost use Rattle.day_facts.specs.Objectors.{are_alike, is_alike, repeats_objection};
ghost use Rattle.machine.specs.Words.{same_name};

use crate::own::OwnTable;
use batch_records::{MessageRecord, RecordBody};
use cash_amounts::{Memory, MessageNumber};
use commit_journal::Code;
use refused_memory::with_capacity;
use rule_book::Setting;
use rule_book::parties::party_place;
use rule_book::parts::message;
use std::alloc::Global;

// For each bank in each batch an objection of the bank that was accepted, or 0. It is a guess, which whoever takes it tries.
#[derive(Drop)]
pub struct Objectors {
    items: Vec<u32>,
}

// Where the guess of the sender of message m in batch b stands.
fn place(setting: &Setting, b: u32, m: u32) -> Option<usize> {
    match message(&setting.day, m) {
        Some(message) => party_place(setting, b, &message.sender),
        None => None,
    }
}

fn put(items: &mut [u32], i: usize, m: u32) {
    if i < items.len() {
        items[i] = m;
    }
}

impl Objectors {
    // No batches, with room for twice as many banks in them.
    pub fn with_room(alloc: Global, most: u32) -> Result<Objectors, Memory> {
        let items = with_capacity(alloc, 2 * most as usize)?;
        Ok(Objectors { items })
    }

    // Makes a place for each bank in each batch of the day, as far as there is room: beyond that nothing is guessed. Takes no
    // memory.
    pub fn arrive(&mut self, setting: &Setting) {
        for _place in self.items.len()..setting.tables.parties.count() {
            if self.items.len() < self.items.capacity() {
                self.items.push_reserved(0);
            }
        }
    }

    // What is guessed of the sender of message m in batch b.
    pub fn at(&self, setting: &Setting, b: MessageNumber, m: MessageNumber) -> MessageNumber {
        match place(setting, b, m) {
            Some(i) => match self.items.get(i) {
                Some(earlier) => *earlier,
                None => 0,
            },
            None => 0,
        }
    }

    // Message m on the batch is accepted, where there is one.
    pub fn note(&mut self, setting: &Setting, aim: Option<u32>, m: MessageNumber) {
        if let Some(b) = aim {
            if let Some(i) = place(setting, b, m) {
                put(self.items.as_mut_slice(), i, m);
            }
        }
    }
}

// ---- whether an objection repeats another

fn are_alike(a: &RecordBody, b: &RecordBody) -> bool
    ensures { (e f : List Entry) → result
        ≡ are_alike (body_with_entries a.now e) (body_with_entries b.now f) }
{
    match (a, b) {
        (
            RecordBody::Object { system, batch },
            RecordBody::Object {
                system: other,
                batch: named,
            },
        ) => system == other && batch == named,
        _ => false,
    }
}

fn is_same_objection(a: &MessageRecord, b: &MessageRecord) -> bool
    ensures { (e f : List Entry) → result
        ≡ (same_name a.now.sender b.now.sender
        && are_alike (body_with_entries a.now.body e) (body_with_entries b.now.body f)) }
{
    a.sender == b.sender && are_alike(&a.body, &b.body)
}

fn is_alike(setting: &Setting, m: u32, n: u32) -> bool
    ensures { result ≡ is_alike (message_at setting.now.day m) (message_at setting.now.day n) }
{
    match message(&setting.day, m) {
        Some(a) => match message(&setting.day, n) {
            Some(b) => is_same_objection(a, b),
            None => false,
        },
        None => false,
    }
}

// Whether message n objects as the accepted message m did.
pub fn repeats_objection(
    own: &OwnTable,
    setting: &Setting,
    m: MessageNumber,
    n: MessageNumber,
) -> bool
    ensures { result ≡ repeats_objection setting.now.day own.now.items m n }
{
    matches!(own.code(m), Some(Code::Ok)) && is_alike(setting, m, n)
}
