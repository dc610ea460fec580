//! What the lines about a message say of it.
ghost use Rattle.std.specs.Prelude.{◌≡◌, ◌<◌, ℕ, [], None, Some, IfOk, MatchOption};
ghost use Rattle.std.specs.Option.{option_or};
ghost use Rattle.machine.specs.Words.{numbered, when};
ghost use Rattle.machine.specs.Telling.History.{is_all, is_ask, is_cover, is_expire_or_refuse, is_in};
ghost use Rattle.day_facts.specs.Listed.{pushed, with_items};
ghost use Rattle.day_facts.specs.Lists.{changed};
ghost use Rattle.day_facts.specs.Own.{code_in, noted, own_of, place_in};

use crate::places::or_here;
use cash_amounts::{LinePlace, Memory, MessageNumber};
use commit_journal::{Code, Head, Kind};
use refused_memory::with_capacity;
use std::alloc::Global;
use std::marker::Model;

// What the lines about a message say of it.
#[derive(Drop)]
pub struct Own {
    // The places of its In, All, Ask, Cover line, and of its Expire or Refuse line; the code of its In line.
    pub taken: Option<u32>,
    pub code: Option<Code>,
    pub whole: Option<u32>,
    pub asked: Option<u32>,
    pub covered: Option<u32>,
    pub closed: Option<u32>,
}

// ---- sorts of lines

fn is_in(kind: Kind) -> bool
    ensures { result ≡ is_in kind }
{
    matches!(kind, Kind::In)
}

fn is_all(kind: Kind) -> bool
    ensures { result ≡ is_all kind }
{
    matches!(kind, Kind::All)
}

fn is_ask(kind: Kind) -> bool
    ensures { result ≡ is_ask kind }
{
    matches!(kind, Kind::Ask)
}

fn is_cover(kind: Kind) -> bool
    ensures { result ≡ is_cover kind }
{
    matches!(kind, Kind::Cover)
}

fn is_closing(kind: Kind) -> bool
    ensures { result ≡ is_expire_or_refuse kind }
{
    matches!(kind, Kind::Expire | Kind::Refuse)
}

// The code found before, else this one where the line passes.
fn code_or_here(found: Option<Code>, passes: bool, code: Code) -> Option<Code>
    ensures { result ≡ option_or found (when passes code) }
{
    match found {
        None if passes => Some(code),
        _ => found,
    }
}

impl Own {
    // What no lines say of a message.
    fn new() -> Own
        ensures { (n : ℕ) → result ≡ own_of [] n }
    {
        Own {
            taken: None,
            code: None,
            whole: None,
            asked: None,
            covered: None,
            closed: None,
        }
    }

    // Notes a line about the message.
    fn note(&mut self, place: u32, head: Head)
        ensures { self.new ≡ noted place head self.old }
    {
        self.taken = or_here(self.taken, is_in(head.kind), place);
        self.code = code_or_here(self.code, is_in(head.kind), head.code);
        self.whole = or_here(self.whole, is_all(head.kind), place);
        self.asked = or_here(self.asked, is_ask(head.kind), place);
        self.covered = or_here(self.covered, is_cover(head.kind), place);
        self.closed = or_here(self.closed, is_closing(head.kind), place);
    }
}

// What the lines say of each message about it.
#[derive(Drop)]
pub struct OwnTable {
    items: Vec<Own>,
}

impl Model for OwnTable {
    ghost use Rattle.std.specs.Prelude.{◌-◌, vec_capacity, vec_len};
    ghost use Rattle.day_facts.specs.Listed.{Listed};
    ghost use Rattle.day_facts.specs.declared.own.Own.{Own};

    ghost Value = { Listed Own };

    ghost view = { λ table. record {
      items = table.items.items;
      room = vec_capacity table.items - vec_len table.items;
    } };
}

// What stands there of message n.
fn own_at(owns: &[Own], n: u32) -> Option<&Own>
    ensures { MatchOption result (numbered owns.now n ≡ None)
        (λ own. numbered owns.now n ≡ Some own.now) }
{
    if n == 0 {
        return None;
    }
    owns.get(n as usize - 1)
}

fn note_line(owns: &mut [Own], place: u32, head: Head)
    ensures { owns.new ≡ changed head.msg (noted place head) owns.old }
{
    if head.msg == 0 || head.msg as usize > owns.len() {
        return;
    }
    let own = &mut owns[head.msg as usize - 1];
    own.note(place, head);
}

impl OwnTable {
    // No messages, with room for so many.
    pub fn with_room(alloc: Global, most: u32) -> Result<OwnTable, Memory>
        ensures { IfOk result (λ table. table ≡ record { items = []; room = most }) }
    {
        let items = with_capacity(alloc, most as usize)?;
        Ok(OwnTable { items })
    }

    // Takes the next message, of which no lines say anything. Takes no memory.
    pub fn arrive(&mut self)
        requires { 0 < self.old.room }
        ensures { (n : ℕ) → self.new ≡ pushed (own_of [] n) self.old }
    {
        self.items.push_reserved(Own::new());
    }

    // Notes a line.
    pub fn note(&mut self, place: LinePlace, head: Head)
        ensures { self.new ≡ with_items (changed head.msg (noted place head) self.old.items) self.old }
    {
        note_line(self.items.as_mut_slice(), place, head);
    }

    pub fn taken(&self, n: MessageNumber) -> Option<u32>
        ensures { result ≡ place_in (λ own. own.taken) self.now.items n }
    {
        match own_at(self.items.as_slice(), n) {
            Some(own) => own.taken,
            None => None,
        }
    }

    pub fn code(&self, n: MessageNumber) -> Option<Code>
        ensures { result ≡ code_in self.now.items n }
    {
        match own_at(self.items.as_slice(), n) {
            Some(own) => own.code,
            None => None,
        }
    }

    pub fn settled_whole(&self, n: MessageNumber) -> Option<u32>
        ensures { result ≡ place_in (λ own. own.whole) self.now.items n }
    {
        match own_at(self.items.as_slice(), n) {
            Some(own) => own.whole,
            None => None,
        }
    }

    pub fn asked(&self, n: MessageNumber) -> Option<u32>
        ensures { result ≡ place_in (λ own. own.asked) self.now.items n }
    {
        match own_at(self.items.as_slice(), n) {
            Some(own) => own.asked,
            None => None,
        }
    }

    pub fn covered(&self, n: MessageNumber) -> Option<u32>
        ensures { result ≡ place_in (λ own. own.covered) self.now.items n }
    {
        match own_at(self.items.as_slice(), n) {
            Some(own) => own.covered,
            None => None,
        }
    }

    pub fn closed(&self, n: MessageNumber) -> Option<u32>
        ensures { result ≡ place_in (λ own. own.closed) self.now.items n }
    {
        match own_at(self.items.as_slice(), n) {
            Some(own) => own.closed,
            None => None,
        }
    }
}
