//! Batches over the clock, by their phases.
ghost use Rattle.std.specs.Prelude.{◌≡◌, ◌++◌, ◌∷◌, [], IfOk, bytes_eq, if◌then◌else◌, not};
ghost use Rattle.std.specs.List.{list_any};
ghost use Rattle.commit_journal.specs.Histories.{oldest};
ghost use Rattle.machine.specs.Records.Messages.{entries, move_of};
ghost use Rattle.day_page.specs.Bars;
ghost use Rattle.day_page.specs.Bars.{changes_of, has_part, is_bar, is_change, mark, marks_at, phase_word};
ghost use Rattle.day_page.specs.Parties.{touches};

use crate::movers::push_if;
use crate::parties::{sent, touches};
use crate::past::Past;
use crate::words::Request;
use batch_records::Entry;
use cash_amounts::Memory;
use refused_memory::push;
use rule_book::parts::{entries, message_count, move_of};
use rule_book::sorts::is_batch;
use rule_book::{Phase, Setting};
use std::alloc::Global;

/// How far a batch has come at a stop of the clock.
#[derive(Clone, Copy, Debug, PartialEq, Eq)]
pub struct Mark {
    pub msg: u32,
    pub clock: u32,
    pub phase: Phase,
}

fn entry_touches(setting: &Setting, request: &Request, entry: &Entry) -> bool
    ensures { result ≡ touches setting.now.day request.now (move_of setting.now.day entry.now) }
{
    touches(setting, request, &move_of(setting, entry))
}

fn any_entry(setting: &Setting, request: &Request, entries: &[Entry]) -> bool
    ensures { result ≡ list_any
        (λ e. touches setting.now.day request.now (move_of setting.now.day e)) entries.now }
{
    entries
        .iter()
        .any(|entry| entry_touches(setting, request, entry))
}

fn has_part(setting: &Setting, request: &Request, n: u32) -> bool
    ensures { result ≡ has_part setting.now.day request.now n }
{
    sent(setting, request, n) || any_entry(setting, request, entries(&setting.day, n))
}

fn is_bar(past: &Past, request: &Request, n: u32) -> bool
    ensures { result ≡ is_bar past.now.setting.now.day request.now
        (oldest past.now.journal.now.history past.now.place) n }
{
    is_batch(past.setting, n) && past.is_accepted(n) && has_part(past.setting, request, n)
}

fn batches(alloc: Global, past: &Past, request: &Request) -> Result<Vec<u32>, Memory>
    ensures { IfOk result (λ batches. batches.items
        ≡ Bars.batches past.now.setting.now.day request.now
        (oldest past.now.journal.now.history past.now.place)) }
{
    let mut batches = Vec::new(alloc);
    for before in 0..message_count(past.setting) {
        push_if(&mut batches, is_bar(past, request, before + 1), before + 1)?;
    }
    Ok(batches)
}

/// The accepted batches of the party that are drawn, by their numbers.
pub fn bars(alloc: Global, past: &Past, request: &Request) -> Result<Vec<u32>, Memory>
    ensures { IfOk result (λ bars. bars.items
        ≡ Bars.bars past.now.setting.now.day request.now
        (oldest past.now.journal.now.history past.now.place)) }
{
    let mut batches = batches(alloc, past, request)?;
    batches.truncate(100);
    Ok(batches)
}

fn mark_at(past: &Past, n: u32) -> Mark
    ensures { result ≡ mark past.now.setting.now.day
        (oldest past.now.journal.now.history past.now.place) n }
{
    Mark {
        msg: n,
        clock: past.clock(),
        phase: past.phase(n),
    }
}

/// Puts how far the batches have come, after the other marks.
pub fn put_marks(past: &Past, bars: &[u32], marks: &mut Vec<Mark>) -> Result<(), Memory>
    ensures { IfOk result (λ put. marks.new.items
        ≡ marks.old.items
        ++ marks_at past.now.setting.now.day bars.now
        (oldest past.now.journal.now.history past.now.place)) }
{
    for n in bars {
        push(marks, mark_at(past, *n))?;
    }
    Ok(())
}

// ---- when a batch came to another phase

/// The word for a phase.
pub fn phase_word<'a>(phase: Phase) -> &'a [u8]
    ensures { result.now ≡ phase_word phase }
{
    match phase {
        Phase::Untaken => b"untaken",
        Phase::Rejected => b"rejected",
        Phase::Closed => b"closed",
        Phase::Revoked => b"revoked",
        Phase::Settled => b"settled",
        Phase::Covered => b"covered",
        Phase::Answered => b"answered",
        Phase::Asking => b"asking",
        Phase::Information => b"information",
        Phase::Waiting => b"waiting",
        Phase::Open => b"open",
        Phase::Overdue => b"overdue",
    }
}

fn differs(phase: Phase, before: Phase) -> bool
    ensures { result ≡ not (bytes_eq (phase_word phase) (phase_word before)) }
{
    phase_word(phase) != phase_word(before)
}

fn is_change(n: u32, before: Phase, mark: &Mark) -> bool
    ensures { result ≡ is_change n before mark.now }
{
    mark.msg == n && differs(mark.phase, before)
}

// Puts a mark, where it is one of another phase, and tells the phase after it.
fn put_change(n: u32, before: Phase, mark: &Mark, changes: &mut Vec<Mark>) -> Result<Phase, Memory>
    ensures phase { IfOk result (λ phase. phase
        ≡ (if is_change n before mark.now then mark.now.phase else before)) }
    ensures put { IfOk result (λ phase. changes.new.items
        ≡ changes.old.items ++ (if is_change n before mark.now then mark.now ∷ [] else [])) }
{
    if is_change(n, before, mark) {
        push(changes, *mark)?;
        return Ok(mark.phase);
    }
    Ok(before)
}

fn put_changes(marks: &[Mark], n: u32, changes: &mut Vec<Mark>) -> Result<(), Memory>
    ensures { IfOk result (λ put. changes.new.items ≡ changes.old.items ++ changes_of marks.now n) }
{
    let mut before = Phase::Untaken;
    for mark in marks {
        before = put_change(n, before, mark, changes)?;
    }
    Ok(())
}

/// Of each batch that is drawn the marks at which it came to another phase.
pub fn changes(alloc: Global, marks: &[Mark], bars: &[u32]) -> Result<Vec<Mark>, Memory>
    ensures { IfOk result (λ changes. changes.items ≡ Bars.changes marks.now bars.now) }
{
    let mut changes = Vec::new(alloc);
    for n in bars {
        put_changes(marks, *n, &mut changes)?;
    }
    Ok(changes)
}
