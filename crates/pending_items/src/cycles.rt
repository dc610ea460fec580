//! The batches of C whose cycle lasts.
ghost use Rattle.std.specs.Prelude.{◌≡◌, ◌≤◌, ◌<◌, ◌+◌, ◌*◌, ◌&&◌, false, true, if◌then◌else◌, length, IfOk};
ghost use Rattle.cash_amounts.specs.declared.limits.TheConstants.{MAX_MESSAGES, MAX_SYSTEMS};
ghost use Rattle.commit_journal.specs.Line.{History};
ghost use Rattle.machine.specs.Records.Messages.{is_c, sort_of};
ghost use Rattle.day_facts.specs.Facts.{StandsFor};
ghost use Rattle.day_facts.specs.Told.{is_taken_well};
ghost use Rattle.number_set.specs.Members.{has};
ghost use Rattle.pending_items.specs.Items.{RenewsBy};
ghost use Rattle.pending_items.specs.Cycles.{AreLeft, AreLeftIn, block, index_of, no_batches, system_of, taken_off, with_batch};

use crate::rows::ItemRows;
use cash_amounts::{Memory, MessageNumber};
use commit_journal::Head;
use day_facts::{DayFacts, takes_well};
use number_set::NumberSet;
use rule_book::Setting;
use rule_book::parts::message;
use rule_book::sorts::is_c;
use std::alloc::Global;
use std::marker::Model;

// The number of the system that sent a message; 0 where none did.
fn system_of(setting: &Setting, n: u32) -> u32
    ensures { result ≡ system_of setting.now.day n }
{
    match message(&setting.day, n) {
        Some(message) => match setting.book.system(&message.sender) {
            Some(s) => s,
            None => 0,
        },
        None => 0,
    }
}

fn block(setting: &Setting, size: u32, n: u32) -> u32
    requires { size ≤ MAX_MESSAGES + 1 }
    ensures { result ≡ block size setting.now.day n }
{
    size * system_of(setting, n)
}

fn index_of(setting: &Setting, size: u32, n: u32) -> u32
    requires { size ≤ MAX_MESSAGES + 1 }
    ensures { result ≡ index_of size setting.now.day n }
{
    block(setting, size, n).saturating_add(n)
}

// How many numbers all blocks have: one block for each system, and that of messages that no system sent.
fn set_size(systems: u32, size: u32) -> u32
    requires few { systems ≤ MAX_SYSTEMS }
    requires size { size ≤ MAX_MESSAGES + 1 }
    ensures { result ≡ size * (systems + 1) }
{
    size * (systems + 1)
}

fn enter(batches: &mut NumberSet, i: u32)
    ensures { batches.new ≡ taken_off i true batches.old }
{
    if i < batches.bound() {
        batches.insert(i);
    }
}

fn enter_if(batches: &mut NumberSet, i: u32, begun: bool)
    ensures { batches.new ≡ (if begun then taken_off i true batches.old else batches.old) }
{
    if begun {
        enter(batches, i);
    }
}

fn take_off(batches: &mut NumberSet, i: u32)
    ensures { batches.new ≡ taken_off i false batches.old }
{
    if i < batches.bound() {
        batches.remove(i);
    }
}

fn take_off_if(batches: &mut NumberSet, i: u32, ended: bool)
    ensures { batches.new ≡ (if ended then taken_off i false batches.old else batches.old) }
{
    if ended {
        take_off(batches, i);
    }
}

fn is_begun(setting: &Setting, head: Head) -> bool
    ensures { result ≡ (is_taken_well head && is_c (sort_of setting.now.day head.msg)) }
{
    takes_well(head) && is_c(setting, head.msg)
}

// The rows of the batches of a block; those whose cycle has ended are no longer kept.
fn renew_block(
    rows: &mut ItemRows,
    batches: &mut NumberSet,
    setting: &Setting,
    facts: &DayFacts,
    first: u32,
    size: u32,
)
    ensures rows { RenewsBy setting.now.day facts.now
        (λ J x. (x.msg < size) × (has batches.old (first + x.msg) ≡ true)) rows.old rows.new }
    ensures batches { (J : History) → StandsFor setting.now.day J facts.now
        → AreLeftIn setting.now.day J size first batches.old batches.new }
{
    let mut from = first;
    while let Some(i) = batches.next(from) {
        if i - first >= size {
            return;
        }
        rows.renew_message(setting, facts, i - first);
        take_off_if(batches, i, facts.cycle_ended(setting, i - first));
        from = i + 1;
    }
}

// The messages of each system have a block of numbers of their own, as long as there can be messages.
#[derive(Drop)]
pub struct Batches {
    set: NumberSet,
    size: u32,
}

impl Model for Batches {
    ghost use Rattle.std.specs.Prelude.{◌≤◌, ◌+◌};
    ghost use Rattle.cash_amounts.specs.declared.limits.TheConstants.{MAX_MESSAGES};
    ghost use Rattle.pending_items.specs.Cycles.{Batches};

    ghost Value = { Batches };

    ghost view = { λ batches. record { set = batches.set; size = batches.size } };

    ghost invariant = { λ batches. batches.size ≤ MAX_MESSAGES + 1 };
}

impl Batches {
    // No batches, and room for those of all systems, in blocks of this size.
    pub fn empty(alloc: Global, systems: u32, size: u32) -> Result<Batches, Memory>
        requires few { systems ≤ MAX_SYSTEMS }
        requires size { size ≤ MAX_MESSAGES + 1 }
        ensures { IfOk result (λ batches. batches ≡ no_batches systems size) }
    {
        let set = NumberSet::with_room(alloc, set_size(systems, size))?;
        Ok(Batches { set, size })
    }

    // A batch of C that the line accepts is taken up.
    pub fn note(&mut self, setting: &Setting, head: Head)
        ensures { self.new ≡ with_batch setting.now.day head self.old }
    {
        enter_if(
            &mut self.set,
            index_of(setting, self.size, head.msg),
            is_begun(setting, head),
        );
    }

    // The rows of the batches of the system that sent a message; those whose cycle has ended are no longer kept.
    pub fn renew(
        &mut self,
        rows: &mut ItemRows,
        setting: &Setting,
        facts: &DayFacts,
        m: MessageNumber,
    )
        ensures rows { RenewsBy setting.now.day facts.now
            (λ J x. (x.msg < self.old.size)
            × (has self.old.set (block self.old.size setting.now.day m + x.msg) ≡ true)) rows.old rows.new }
        ensures batches { (J : History) → StandsFor setting.now.day J facts.now
            → AreLeft setting.now.day J m self.old self.new }
    {
        let first = block(setting, self.size, m);
        renew_block(rows, &mut self.set, setting, facts, first, self.size);
    }
}
