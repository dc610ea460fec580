//! The batches that are drawn, and how far they have come at each stop.
ghost use Rattle.std.specs.Prelude.{◌≡◌, ◌≤◌, ◌-◌, ◌++◌, [], IfOk, OnOk, length, if◌then◌else◌};
ghost use Rattle.std.specs.List.{flat_map};
ghost use Rattle.commit_journal.specs.Histories.{oldest};
ghost use Rattle.machine.specs.Telling.History.{clock};
ghost use Rattle.machine.specs.Legal.{IsLegal};
ghost use Rattle.day_facts.specs.Facts.{StandsFor};
ghost use Rattle.day_page.specs.Bars;
ghost use Rattle.day_page.specs.Bars.{marks_at};
ghost use Rattle.day_page.specs.Stops.{earlier_stops, leaves_slot};

use crate::bars::{Mark, bars, put_marks};
use crate::courses::leaves_slot;
use crate::past::Past;
use crate::words::Request;
use cash_amounts::Memory;
use commit_journal::{Head, Journal};
use day_facts::{DayFacts, note_at};
use rule_book::Setting;
use std::alloc::Global;

// ---- the batches

/// The batches that are drawn, by their numbers. The facts stand for the whole journal.
pub fn bars_of(
    alloc: Global,
    setting: &Setting,
    request: &Request,
    journal: &Journal,
    facts: &DayFacts,
) -> Result<Vec<u32>, Memory>
    requires stands { StandsFor setting.now.day
        (oldest journal.now.history (length journal.now.history)) facts.now }
    ensures { IfOk result (λ bars. bars.items
        ≡ Bars.bars setting.now.day request.now
        (oldest journal.now.history (length journal.now.history))) }
{
    let past = Past {
        setting,
        journal,
        place: journal.len(),
        facts,
    };
    bars(alloc, &past, request)
}

// ---- how far batches have come at each stop

// Puts how far they have come, where the next line moves the clock out of the five minutes in which it stands.
fn mark_before(past: &Past, head: Head, bars: &[u32], marks: &mut Vec<Mark>) -> Result<(), Memory>
    ensures { IfOk result (λ marked. marks.new.items
        ≡ marks.old.items
        ++ (if leaves_slot (clock (oldest past.now.journal.now.history past.now.place)) head then
        marks_at past.now.setting.now.day bars.now
        (oldest past.now.journal.now.history past.now.place) else [])) }
{
    if leaves_slot(past.clock(), head) {
        return put_marks(past, bars, marks);
    }
    Ok(())
}

// The same by the facts of the lines before a place.
fn mark_at(
    setting: &Setting,
    journal: &Journal,
    place: u32,
    facts: &DayFacts,
    bars: &[u32],
    marks: &mut Vec<Mark>,
) -> Result<(), Memory>
    requires from { 1 ≤ place }
    requires to { place ≤ length journal.now.history }
    requires stands { StandsFor setting.now.day (oldest journal.now.history (place - 1)) facts.now }
    requires marks { marks.old.items
        ≡ flat_map (marks_at setting.now.day bars.now)
        (earlier_stops (oldest journal.now.history (place - 1))) }
    ensures { IfOk result (λ marked. marks.new.items
        ≡ flat_map (marks_at setting.now.day bars.now)
        (earlier_stops (oldest journal.now.history place))) }
{
    let (head, _) = journal.line(place);
    let past = Past {
        setting,
        journal,
        place: place - 1,
        facts,
    };
    mark_before(&past, head, bars, marks)
}

// Goes along the journal, and looks at each stop but the last.
fn mark_along(
    setting: &Setting,
    journal: &Journal,
    facts: &mut DayFacts,
    bars: &[u32],
    marks: &mut Vec<Mark>,
) -> Result<(), Memory>
    requires legal { IsLegal setting.now.day journal.now.history }
    requires first { StandsFor setting.now.day [] facts.old }
    requires no_marks { marks.old.items ≡ [] }
    ensures stands { OnOk result (StandsFor setting.now.day
        (oldest journal.now.history (length journal.now.history)) facts.new) }
    ensures marks { IfOk result (λ marked. marks.new.items
        ≡ flat_map (marks_at setting.now.day bars.now)
        (earlier_stops (oldest journal.now.history (length journal.now.history)))) }
{
    for before in 0..journal.len() {
        mark_at(setting, journal, before + 1, facts, bars, marks)?;
        note_at(setting, journal, facts, before + 1);
    }
    Ok(())
}

fn mark_last(
    setting: &Setting,
    journal: &Journal,
    facts: &DayFacts,
    bars: &[u32],
    marks: &mut Vec<Mark>,
) -> Result<(), Memory>
    requires stands { StandsFor setting.now.day
        (oldest journal.now.history (length journal.now.history)) facts.now }
    requires marks { marks.old.items
        ≡ flat_map (marks_at setting.now.day bars.now)
        (earlier_stops (oldest journal.now.history (length journal.now.history))) }
    ensures { IfOk result (λ marked. marks.new.items
        ≡ Bars.marks setting.now.day bars.now
        (oldest journal.now.history (length journal.now.history))) }
{
    let past = Past {
        setting,
        journal,
        place: journal.len(),
        facts,
    };
    put_marks(&past, bars, marks)
}

/// How far the batches have come at each stop. The facts stand for no lines, and then for the whole journal.
pub fn watch(
    setting: &Setting,
    journal: &Journal,
    facts: &mut DayFacts,
    bars: &[u32],
    marks: &mut Vec<Mark>,
) -> Result<(), Memory>
    requires legal { IsLegal setting.now.day journal.now.history }
    requires first { StandsFor setting.now.day [] facts.old }
    requires no_marks { marks.old.items ≡ [] }
    ensures stands { OnOk result (StandsFor setting.now.day
        (oldest journal.now.history (length journal.now.history)) facts.new) }
    ensures marks { IfOk result (λ marked. marks.new.items
        ≡ Bars.marks setting.now.day bars.now
        (oldest journal.now.history (length journal.now.history))) }
{
    mark_along(setting, journal, facts, bars, marks)?;
    mark_last(setting, journal, facts, bars, marks)
}
