//! What messages that object to a batch, or confirm it, say of it.
ghost use Rattle.batch_records.specs.declared.day.Entry.{Entry};
ghost use Rattle.batch_records.specs.Flat.{body_with_entries};
ghost use Rattle.std.specs.Prelude.{◌≡◌, ◌<◌, ℕ, [], None, Some, IfOk, MatchOption, List};
ghost use Rattle.std.specs.Option.{option_or};
ghost use Rattle.batch_records.specs.Repeats.{message_at};
ghost use Rattle.machine.specs.Words.{numbered};
ghost use Rattle.machine.specs.Records.Messages.{sort_of};
ghost use Rattle.day_facts.specs.Listed.{pushed, with_items};
ghost use Rattle.day_facts.specs.Lists.{changed};
ghost use Rattle.day_facts.specs.Told.{kept_answer, answered_in, ruled, ruled_by, ruled_on, is_taken_well, told_of, told_rule};

use crate::places::or_here;
use batch_records::RecordBody;
use cash_amounts::{LinePlace, Memory, MessageNumber};
use commit_journal::{Code, Head, Kind};
use refused_memory::with_capacity;
use rule_book::Setting;
use rule_book::parts::message;
use std::alloc::Global;
use std::marker::Model;

// What accepted messages on a batch say of it.
#[derive(Drop)]
pub struct Told {
    // The place of the accepted answer on it, and the answer.
    pub answered: Option<u32>,
    pub answer: Option<bool>,
}

fn answer_or_here(found: Option<bool>, here: bool) -> Option<bool>
    ensures { result ≡ option_or found (Some here) }
{
    match found {
        None => Some(here),
        _ => found,
    }
}

impl Told {
    // What no lines say of a message.
    fn new(setting: &Setting) -> Told
        ensures { (n : ℕ) → result ≡ told_of setting.now.day [] n }
    {
        let _day = &setting.day;
        Told {
            answered: None,
            answer: None,
        }
    }

    // Notes that a message on the batch n is accepted.
    fn rule(&mut self, place: u32, body: &RecordBody)
        ensures { (entries : List Entry) → self.new
            ≡ ruled place (body_with_entries body.now entries) self.old }
    {
        match body {
            RecordBody::Confirm { yes, .. } => {
                self.answered = or_here(self.answered, true, place);
                self.answer = answer_or_here(self.answer, *yes);
            }
            _ => {}
        }
    }
}

// ---- of all messages

// What accepted messages say of each batch.
#[derive(Drop)]
pub struct ToldTable {
    items: Vec<Told>,
}

impl Model for ToldTable {
    ghost use Rattle.std.specs.Prelude.{◌-◌, vec_capacity, vec_len};
    ghost use Rattle.day_facts.specs.Listed.{Listed};
    ghost use Rattle.day_facts.specs.declared.told.Told.{Told};

    ghost Value = { Listed Told };

    ghost view = { λ table. record {
      items = table.items.items;
      room = vec_capacity table.items - vec_len table.items;
    } };
}

// What stands there of message n.
fn told_at(tolds: &[Told], n: u32) -> Option<&Told>
    ensures { MatchOption result (numbered tolds.now n ≡ None)
        (λ told. numbered tolds.now n ≡ Some told.now) }
{
    if n == 0 {
        return None;
    }
    tolds.get(n as usize - 1)
}

fn rule_one(tolds: &mut [Told], b: u32, place: u32, body: &RecordBody)
    ensures { (entries : List Entry) → tolds.new
        ≡ changed b (ruled place (body_with_entries body.now entries)) tolds.old }
{
    if b == 0 || b as usize > tolds.len() {
        return;
    }
    let told = &mut tolds[b as usize - 1];
    told.rule(place, body);
}

fn rule_by(tolds: &mut [Told], setting: &Setting, b: u32, place: u32, m: u32)
    ensures { tolds.new ≡ ruled_by (told_rule place) b (message_at setting.now.day m) tolds.old }
{
    match message(&setting.day, m) {
        Some(message) => rule_one(tolds, b, place, &message.body),
        None => {}
    }
}

fn rule_on(tolds: &mut [Told], setting: &Setting, aim: Option<u32>, place: u32, m: u32)
    ensures { tolds.new ≡ ruled_on (told_rule place) aim (message_at setting.now.day m) tolds.old }
{
    match aim {
        Some(b) => rule_by(tolds, setting, b, place, m),
        None => {}
    }
}

/// Whether a line of this head accepts a message: whether it takes one with code OK.
pub fn takes_well(head: Head) -> bool
    ensures { result ≡ is_taken_well head }
{
    matches!(head.kind, Kind::In) && matches!(head.code, Code::Ok)
}

impl ToldTable {
    // No messages, with room for so many.
    pub fn with_room(alloc: Global, most: u32) -> Result<ToldTable, Memory>
        ensures { IfOk result (λ table. table ≡ record { items = []; room = most }) }
    {
        let items = with_capacity(alloc, most as usize)?;
        Ok(ToldTable { items })
    }

    // Takes the next message, of which no lines say anything. Takes no memory.
    pub fn arrive(&mut self, setting: &Setting)
        requires { 0 < self.old.room }
        ensures { (n : ℕ) → self.new ≡ pushed (told_of setting.now.day [] n) self.old }
    {
        self.items.push_reserved(Told::new(setting));
    }

    // Notes a line that accepts message m on the batch, where there is one.
    pub fn note(&mut self, setting: &Setting, aim: Option<u32>, place: LinePlace, m: MessageNumber)
        ensures { self.new ≡ with_items (ruled_on (told_rule place) aim
            (message_at setting.now.day m) self.old.items) self.old }
    {
        rule_on(self.items.as_mut_slice(), setting, aim, place, m);
    }

    // The place of the accepted answer on batch n.
    pub fn answered(&self, n: MessageNumber) -> Option<u32>
        ensures { result ≡ answered_in self.now.items n }
    {
        match told_at(self.items.as_slice(), n) {
            Some(told) => told.answered,
            None => None,
        }
    }

    // The accepted answer on batch n.
    pub fn answer(&self, n: MessageNumber) -> Option<bool>
        ensures { result ≡ kept_answer self.now.items n }
    {
        match told_at(self.items.as_slice(), n) {
            Some(told) => told.answer,
            None => None,
        }
    }
}
