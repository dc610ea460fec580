//! The figures of a page.
ghost use Rattle.std.specs.Prelude.{◌≡◌, ◌≤◌, [], IfOk, length};
ghost use Rattle.commit_journal.specs.Histories.{oldest};
ghost use Rattle.machine.specs.Legal.{IsLegal};
ghost use Rattle.day_facts.specs.Facts.{StandsFor};
ghost use Rattle.day_page.specs.Bars;
ghost use Rattle.day_page.specs.Courses.{all_points, courses};
ghost use Rattle.day_page.specs.Peaks.{peaks};
ghost use Rattle.day_page.specs.Sheets.{AreWatched, HaveCourses};
ghost use Rattle.day_page.specs.Waits.{all_waiting};

use crate::bars::{Mark, changes};
use crate::courses::{Balances, balances_of};
use crate::movers::shown;
use crate::peaks::{Peaks, Tides, tides_of};
use crate::waits::Waiting;
use crate::watching::{bars_of, watch};
use crate::words::Request;
use cash_amounts::Memory;
use commit_journal::Journal;
use day_facts::DayFacts;
use rule_book::Setting;
use std::alloc::Global;

/// What waits at each stop and its highest sums over every line, the batches that are drawn, when they came to another phase, and the facts of the whole journal.
#[derive(Drop)]
pub struct Watched {
    pub facts: DayFacts,
    pub waits: Vec<Waiting>,
    pub peaks: Peaks,
    pub bars: Vec<u32>,
    pub changes: Vec<Mark>,
}

/// The balances of the accounts that are shown.
pub fn shown_balances(
    alloc: Global,
    setting: &Setting,
    request: &Request,
    journal: &Journal,
) -> Result<Balances, Memory>
    requires legal { IsLegal setting.now.day journal.now.history }
    ensures { IfOk result (λ b. HaveCourses setting.now.day request.now journal.now.history
        b.courses.items b.points.items) }
{
    let shown = shown(alloc, setting, request, journal)?;
    balances_of(alloc, setting, journal, shown.as_slice())
}

// What waits, and the batches that are drawn, by facts that stand for no lines.
fn tides_and_bars_by(
    alloc: Global,
    setting: &Setting,
    request: &Request,
    journal: &Journal,
    facts: &mut DayFacts,
) -> Result<(Tides, Vec<u32>), Memory>
    requires legal { IsLegal setting.now.day journal.now.history }
    requires first { StandsFor setting.now.day [] facts.old }
    ensures waits { IfOk result (λ r. r.0.waits.items ≡ all_waiting setting.now.day request.now
        (oldest journal.now.history (length journal.now.history))) }
    ensures peaks { IfOk result (λ r. r.0.peaks ≡ peaks setting.now.day request.now
        (oldest journal.now.history (length journal.now.history))) }
    ensures bars { IfOk result (λ r. r.1.items ≡ Bars.bars setting.now.day request.now
        (oldest journal.now.history (length journal.now.history))) }
{
    let tides = tides_of(alloc, setting, request, journal, facts)?;
    match bars_of(alloc, setting, request, journal, facts) {
        Ok(bars) => Ok((tides, bars)),
        Err(e) => Err(e),
    }
}

fn tides_and_bars(
    alloc: Global,
    setting: &Setting,
    request: &Request,
    journal: &Journal,
) -> Result<(Tides, Vec<u32>), Memory>
    requires legal { IsLegal setting.now.day journal.now.history }
    ensures waits { IfOk result (λ r. r.0.waits.items ≡ all_waiting setting.now.day request.now
        (oldest journal.now.history (length journal.now.history))) }
    ensures peaks { IfOk result (λ r. r.0.peaks ≡ peaks setting.now.day request.now
        (oldest journal.now.history (length journal.now.history))) }
    ensures bars { IfOk result (λ r. r.1.items ≡ Bars.bars setting.now.day request.now
        (oldest journal.now.history (length journal.now.history))) }
{
    match DayFacts::with_room(alloc, setting) {
        Ok(mut facts) => {
            let made = tides_and_bars_by(alloc, setting, request, journal, &mut facts);
            drop(facts);
            made
        }
        Err(memory) => Err(memory),
    }
}

// With these, and facts that stand for no lines, what is looked at.
fn watched_with(
    alloc: Global,
    setting: &Setting,
    request: &Request,
    journal: &Journal,
    tides: Tides,
    bars: Vec<u32>,
    mut facts: DayFacts,
) -> Result<Watched, Memory>
    requires legal { IsLegal setting.now.day journal.now.history }
    requires first { StandsFor setting.now.day [] facts }
    requires waits { tides.waits.items ≡ all_waiting setting.now.day request.now
        (oldest journal.now.history (length journal.now.history)) }
    requires peaks { tides.peaks ≡ peaks setting.now.day request.now
        (oldest journal.now.history (length journal.now.history)) }
    requires bars { bars.items ≡ Bars.bars setting.now.day request.now
        (oldest journal.now.history (length journal.now.history)) }
    ensures { IfOk result (λ w. AreWatched setting.now.day request.now
        (oldest journal.now.history (length journal.now.history)) w.facts w.waits.items w.peaks
        w.bars.items w.changes.items) }
{
    let mut marks = Vec::new(alloc);
    match watch(setting, journal, &mut facts, bars.as_slice(), &mut marks) {
        Ok(()) => {}
        Err(e) => {
            drop(facts);
            return Err(e);
        }
    }
    match changes(alloc, marks.as_slice(), bars.as_slice()) {
        Ok(changes) => Ok(Watched {
            facts,
            waits: tides.waits,
            peaks: tides.peaks,
            bars,
            changes,
        }),
        Err(e) => {
            drop(facts);
            Err(e)
        }
    }
}

/// What is looked at from the first line to the last.
pub fn watch_all(
    alloc: Global,
    setting: &Setting,
    request: &Request,
    journal: &Journal,
) -> Result<Watched, Memory>
    requires legal { IsLegal setting.now.day journal.now.history }
    ensures { IfOk result (λ w. AreWatched setting.now.day request.now journal.now.history w.facts
        w.waits.items w.peaks w.bars.items w.changes.items) }
{
    let (tides, bars) = tides_and_bars(alloc, setting, request, journal)?;
    match DayFacts::with_room(alloc, setting) {
        Ok(facts) => watched_with(alloc, setting, request, journal, tides, bars, facts),
        Err(memory) => {
            drop(tides);
            drop(bars);
            Err(memory)
        }
    }
}
