//! Which flags a line brings up to date, by its head.
ghost use Rattle.std.specs.Prelude.{◌≡◌, ◌≤◌, true};
ghost use Rattle.commit_journal.specs.Line.{History};
ghost use Rattle.machine.specs.Records.Messages.{is_confirm, sort_of};
ghost use Rattle.machine.specs.Telling.History.{is_book, is_time};
ghost use Rattle.day_facts.specs.Facts.{StandsFor};
ghost use Rattle.due_items.specs.Noting.{IsAbout, IsAnswered, IsBooked, IsCycled, IsEnding, IsMet, IsTold, frees, is_of_cycle};
ghost use Rattle.due_items.specs.Chains.{is_cycle_end};
ghost use Rattle.due_items.specs.Renewing.{RenewsBy};

use crate::chain::{Key, is_cycle_end, system_of};
use crate::flags::Flags;
use crate::index::Index;
use crate::renewing::{renew_all, renew_cycle, renew_down, renew_item, renew_message};
use batch_records::RecordBody;
use commit_journal::{Head, Kind};
use day_facts::{DayFacts, batch_named, takes_well};
use period_calendar::MIDNIGHT;
use rule_book::Setting;
use rule_book::batches::is_debit;
use rule_book::parts::message;
use rule_book::sorts::is_a;

fn is_confirm(setting: &Setting, n: u32) -> bool
    ensures { result ≡ is_confirm (sort_of setting.now.day n) }
{
    match message(&setting.day, n) {
        Some(message) => matches!(message.body, RecordBody::Confirm { .. }),
        None => false,
    }
}

// Whether entry k is a debit of a batch of A of which no debit is left.
fn frees_credits(setting: &Setting, facts: &DayFacts, n: u32, k: u32) -> bool
    ensures { (J : History) → StandsFor setting.now.day J facts.now
        → result ≡ frees setting.now.day J n k }
{
    is_a(setting, n) && is_debit(setting, n, k) && facts.debits_left(n) == 0
}

// Of a Book line.
fn note_book(flags: &mut Flags, index: &Index, setting: &Setting, facts: &DayFacts, n: u32, k: u32)
    ensures { RenewsBy setting.now.day facts.now index.now (λ K. IsBooked setting.now.day K n k)
        flags.old flags.new }
{
    renew_item(flags, index, setting, facts, n, k);
    if frees_credits(setting, facts, n, k) {
        renew_message(flags, index, setting, facts, n);
    }
}

// Of a Time line. At midnight each message of which anything is left comes to its end.
fn note_time(flags: &mut Flags, index: &Index, setting: &Setting, facts: &DayFacts, time: u32)
    ensures { RenewsBy setting.now.day facts.now index.now (λ K. IsEnding setting.now.day time)
        flags.old flags.new }
{
    if time >= MIDNIGHT {
        renew_all(flags, index, setting, facts);
        return;
    }
    renew_down(
        flags,
        index,
        Key::Info,
        setting,
        facts,
        index.newest(Key::Info, time),
    );
    renew_down(
        flags,
        index,
        Key::From,
        setting,
        facts,
        index.newest(Key::From, time),
    );
    renew_down(
        flags,
        index,
        Key::Till,
        setting,
        facts,
        index.newest(Key::Till, time),
    );
}

// Of an answer that is accepted.
fn note_answer(flags: &mut Flags, index: &Index, setting: &Setting, facts: &DayFacts, n: u32)
    ensures { RenewsBy setting.now.day facts.now index.now (λ K. IsAnswered setting.now.day n)
        flags.old flags.new }
{
    if !is_confirm(setting, n) {
        return;
    }
    if let Some(batch) = batch_named(setting, n) {
        renew_message(flags, index, setting, facts, batch);
    }
}

// The batches of C of the cycle that message n ends: those of its system before it, back to the end before it.
fn renew_cycles(flags: &mut Flags, index: &Index, setting: &Setting, facts: &DayFacts, n: u32)
    requires end { is_cycle_end setting.now.day n ≡ true }
    requires there { 1 ≤ n }
    ensures { RenewsBy setting.now.day facts.now index.now
        (λ K m j. is_of_cycle setting.now.day K n m ≡ true) flags.old flags.new }
{
    if system_of(setting, n) > MIDNIGHT {
        renew_all(flags, index, setting, facts);
        return;
    }
    let last = index.older(Key::Cycle, n);
    renew_cycle(flags, index, setting, facts, n, last);
}

// Of a message of a cycle that is accepted.
fn note_cycle(flags: &mut Flags, index: &Index, setting: &Setting, facts: &DayFacts, n: u32)
    ensures { RenewsBy setting.now.day facts.now index.now (λ K. IsCycled setting.now.day K n)
        flags.old flags.new }
{
    if n == 0 {
        return;
    }
    if is_cycle_end(setting, n) {
        renew_cycles(flags, index, setting, facts, n);
    }
}

// Of a message that is accepted.
fn note_told(flags: &mut Flags, index: &Index, setting: &Setting, facts: &DayFacts, n: u32)
    ensures { RenewsBy setting.now.day facts.now index.now (λ K. IsTold setting.now.day K n) flags.old
        flags.new }
{
    note_answer(flags, index, setting, facts, n);
    note_cycle(flags, index, setting, facts, n);
}

// Of any line that is neither a Book line nor a Time line.
fn note_about(flags: &mut Flags, index: &Index, setting: &Setting, facts: &DayFacts, head: Head)
    ensures { RenewsBy setting.now.day facts.now index.now (λ K. IsAbout setting.now.day K head)
        flags.old flags.new }
{
    renew_message(flags, index, setting, facts, head.msg);
    if takes_well(head) {
        note_told(flags, index, setting, facts, head.msg);
    }
}

fn is_book(kind: Kind) -> bool
    ensures { result ≡ is_book kind }
{
    matches!(kind, Kind::Book)
}

fn is_time(kind: Kind) -> bool
    ensures { result ≡ is_time kind }
{
    matches!(kind, Kind::Time)
}

// Of any line.
pub fn note_line(flags: &mut Flags, index: &Index, setting: &Setting, facts: &DayFacts, head: Head)
    ensures { RenewsBy setting.now.day facts.now index.now (λ K. IsMet setting.now.day K head)
        flags.old flags.new }
{
    if is_book(head.kind) {
        note_book(flags, index, setting, facts, head.msg, head.entry);
        return;
    }
    if is_time(head.kind) {
        note_time(flags, index, setting, facts, head.entry);
        return;
    }
    note_about(flags, index, setting, facts, head);
}
