//! What waits at each stop, and the highest sums that waited over every line.
ghost use Rattle.std.specs.Prelude.{◌≡◌, ◌≤◌, ◌-◌, ◌++◌, ◌∷◌, [], IfOk, OnOk, length, map, if◌then◌else◌};
ghost use Rattle.batch_records.specs.DayRecord.{Day};
ghost use Rattle.commit_journal.specs.Line.{History, Line};
ghost use Rattle.commit_journal.specs.Histories.{oldest};
ghost use Rattle.machine.specs.Legal.{IsLegal};
ghost use Rattle.machine.specs.Telling.History.{clock};
ghost use Rattle.day_facts.specs.Facts.{StandsFor};
ghost use Rattle.due_items.specs.Kept.{KeepsDue};
ghost use Rattle.day_page.specs.Peaks.{peaks};
ghost use Rattle.day_page.specs.Stakes.{IsKept};
ghost use Rattle.day_page.specs.Stops.{earlier_stops, leaves_slot};
ghost use Rattle.day_page.specs.Waits.{all_waiting, waiting};

use crate::courses::leaves_slot;
use crate::ledger::Ledger;
use crate::past::Past;
use crate::waits::Waiting;
use crate::words::Request;
use cash_amounts::Memory;
use commit_journal::{Head, Journal};
use day_facts::{DayFacts, note_at};
use due_items::DueItems;
use refused_memory::push;
use rule_book::Setting;
use std::alloc::Global;

/// The highest sum of what waited of each priority, over every line, in cents.
#[derive(Clone, Copy, Debug, PartialEq, Eq)]
pub struct Peaks {
    pub urgent: u128,
    pub high: u128,
    pub normal: u128,
}

/// What waits at each stop, and the highest sums over every line.
#[derive(Drop)]
pub struct Tides {
    pub waits: Vec<Waiting>,
    pub peaks: Peaks,
}

// ---- after some lines

fn waiting_at(past: &Past, request: &Request, ledger: &Ledger) -> Waiting
    requires { IsKept past.now.setting.now.day request.now
        (oldest past.now.journal.now.history past.now.place) ledger.now }
    ensures { result ≡ waiting past.now.setting.now.day request.now
        (oldest past.now.journal.now.history past.now.place) }
{
    Waiting {
        clock: past.clock(),
        urgent: ledger.urgent,
        high: ledger.high,
        normal: ledger.normal,
    }
}

fn first_peaks(ledger: &Ledger) -> Peaks
    ensures { (day : Day) (r : Request) → IsKept day r [] ledger.now → result ≡ peaks day r [] }
{
    Peaks {
        urgent: ledger.urgent.cents,
        high: ledger.high.cents,
        normal: ledger.normal.cents,
    }
}

// The highest sums with what waits after one more line.
fn raised(top: Peaks, ledger: &Ledger) -> Peaks
    ensures { (day : Day) (r : Request) (J : History) (l : Line) → IsKept day r (l ∷ J) ledger.now
        → top ≡ peaks day r J → result ≡ peaks day r (l ∷ J) }
{
    Peaks {
        urgent: top.urgent.max(ledger.urgent.cents),
        high: top.high.max(ledger.high.cents),
        normal: top.normal.max(ledger.normal.cents),
    }
}

// ---- one line

// Puts what waits, where the next line moves the clock out of the five minutes in which it stands.
fn put_before(
    past: &Past,
    head: Head,
    request: &Request,
    ledger: &Ledger,
    waits: &mut Vec<Waiting>,
) -> Result<(), Memory>
    requires { IsKept past.now.setting.now.day request.now
        (oldest past.now.journal.now.history past.now.place) ledger.now }
    ensures { IfOk result (λ put. waits.new.items
        ≡ waits.old.items
        ++ (if leaves_slot (clock (oldest past.now.journal.now.history past.now.place)) head then
        waiting past.now.setting.now.day request.now
        (oldest past.now.journal.now.history past.now.place) ∷ [] else [])) }
{
    if leaves_slot(past.clock(), head) {
        push(waits, waiting_at(past, request, ledger))?;
    }
    Ok(())
}

// The same by what is known of the lines before a place.
fn put_at(
    setting: &Setting,
    journal: &Journal,
    place: u32,
    facts: &DayFacts,
    request: &Request,
    ledger: &Ledger,
    waits: &mut Vec<Waiting>,
) -> Result<(), Memory>
    requires from { 1 ≤ place }
    requires to { place ≤ length journal.now.history }
    requires stands { StandsFor setting.now.day (oldest journal.now.history (place - 1)) facts.now }
    requires kept { IsKept setting.now.day request.now (oldest journal.now.history (place - 1))
        ledger.now }
    requires waits { waits.old.items
        ≡ map (waiting setting.now.day request.now)
        (earlier_stops (oldest journal.now.history (place - 1))) }
    ensures { IfOk result (λ put. waits.new.items
        ≡ map (waiting setting.now.day request.now)
        (earlier_stops (oldest journal.now.history place))) }
{
    let (head, _) = journal.line(place);
    let past = Past {
        setting,
        journal,
        place: place - 1,
        facts,
    };
    put_before(&past, head, request, ledger, waits)
}

// Brings all that is known up to date with the line at a place.
fn note(
    setting: &Setting,
    journal: &Journal,
    place: u32,
    facts: &mut DayFacts,
    due: &mut DueItems,
    request: &Request,
    ledger: &mut Ledger,
)
    requires legal { IsLegal setting.now.day (oldest journal.now.history place) }
    requires from { 1 ≤ place }
    requires to { place ≤ length journal.now.history }
    requires stands { StandsFor setting.now.day (oldest journal.now.history (place - 1)) facts.old }
    requires due { KeepsDue setting.now.day (oldest journal.now.history (place - 1)) due.old }
    requires kept { IsKept setting.now.day request.now (oldest journal.now.history (place - 1))
        ledger.old }
    ensures line { (l : Line)
        × (oldest journal.now.history place ≡ l ∷ oldest journal.now.history (place - 1)) }
    ensures stands { StandsFor setting.now.day (oldest journal.now.history place) facts.new }
    ensures due { KeepsDue setting.now.day (oldest journal.now.history place) due.new }
    ensures kept { IsKept setting.now.day request.now (oldest journal.now.history place) ledger.new }
{
    let (head, _) = journal.line(place);
    note_at(setting, journal, facts, place);
    due.note(setting, facts, head);
    let past = Past {
        setting,
        journal,
        place,
        facts,
    };
    ledger.renew(&past, request, due);
}

// ---- the whole journal

// Goes along the journal, puts what waits at each stop but the last, and tells the highest sums.
fn run(
    setting: &Setting,
    journal: &Journal,
    facts: &mut DayFacts,
    due: &mut DueItems,
    request: &Request,
    ledger: &mut Ledger,
    waits: &mut Vec<Waiting>,
) -> Result<Peaks, Memory>
    requires legal { IsLegal setting.now.day journal.now.history }
    requires first { StandsFor setting.now.day [] facts.old }
    requires due { KeepsDue setting.now.day [] due.old }
    requires kept { IsKept setting.now.day request.now [] ledger.old }
    requires no_waits { waits.old.items ≡ [] }
    ensures stands { OnOk result (StandsFor setting.now.day
        (oldest journal.now.history (length journal.now.history)) facts.new) }
    ensures kept { OnOk result (IsKept setting.now.day request.now
        (oldest journal.now.history (length journal.now.history)) ledger.new) }
    ensures peaks { IfOk result (λ top. top
        ≡ peaks setting.now.day request.now
        (oldest journal.now.history (length journal.now.history))) }
    ensures waits { IfOk result (λ top. waits.new.items
        ≡ map (waiting setting.now.day request.now)
        (earlier_stops (oldest journal.now.history (length journal.now.history)))) }
{
    let mut top = first_peaks(ledger);
    for before in 0..journal.len() {
        put_at(setting, journal, before + 1, facts, request, ledger, waits)?;
        note(setting, journal, before + 1, facts, due, request, ledger);
        top = raised(top, ledger);
    }
    Ok(top)
}

// The same, with what waits at the last stop.
fn run_out(
    setting: &Setting,
    journal: &Journal,
    facts: &mut DayFacts,
    due: &mut DueItems,
    request: &Request,
    ledger: &mut Ledger,
    waits: &mut Vec<Waiting>,
) -> Result<Peaks, Memory>
    requires legal { IsLegal setting.now.day journal.now.history }
    requires first { StandsFor setting.now.day [] facts.old }
    requires due { KeepsDue setting.now.day [] due.old }
    requires kept { IsKept setting.now.day request.now [] ledger.old }
    requires no_waits { waits.old.items ≡ [] }
    ensures stands { OnOk result (StandsFor setting.now.day
        (oldest journal.now.history (length journal.now.history)) facts.new) }
    ensures peaks { IfOk result (λ top. top
        ≡ peaks setting.now.day request.now
        (oldest journal.now.history (length journal.now.history))) }
    ensures waits { IfOk result (λ top. waits.new.items
        ≡ all_waiting setting.now.day request.now
        (oldest journal.now.history (length journal.now.history))) }
{
    let top = run(setting, journal, facts, due, request, ledger, waits)?;
    let past = Past {
        setting,
        journal,
        place: journal.len(),
        facts,
    };
    push(waits, waiting_at(&past, request, ledger))?;
    Ok(top)
}

fn ledger_of(
    alloc: Global,
    setting: &Setting,
    journal: &Journal,
    facts: &DayFacts,
    due: &DueItems,
    request: &Request,
) -> Result<Ledger, Memory>
    requires first { StandsFor setting.now.day [] facts.now }
    requires due { KeepsDue setting.now.day [] due.now }
    ensures { IfOk result (λ ledger. IsKept setting.now.day request.now [] ledger) }
{
    let past = Past {
        setting,
        journal,
        place: 0,
        facts,
    };
    Ledger::over(alloc, &past, request, due)
}

fn tides_with(
    alloc: Global,
    setting: &Setting,
    request: &Request,
    journal: &Journal,
    facts: &mut DayFacts,
    due: &mut DueItems,
) -> Result<Tides, Memory>
    requires legal { IsLegal setting.now.day journal.now.history }
    requires first { StandsFor setting.now.day [] facts.old }
    requires due { KeepsDue setting.now.day [] due.old }
    ensures stands { OnOk result (StandsFor setting.now.day
        (oldest journal.now.history (length journal.now.history)) facts.new) }
    ensures peaks { IfOk result (λ tides. tides.peaks
        ≡ peaks setting.now.day request.now
        (oldest journal.now.history (length journal.now.history))) }
    ensures waits { IfOk result (λ tides. tides.waits.items
        ≡ all_waiting setting.now.day request.now
        (oldest journal.now.history (length journal.now.history))) }
{
    let mut ledger = ledger_of(alloc, setting, journal, facts, due, request)?;
    let mut waits = Vec::new(alloc);
    let peaks = run_out(
        setting,
        journal,
        facts,
        due,
        request,
        &mut ledger,
        &mut waits,
    )?;
    Ok(Tides { waits, peaks })
}

/// What waits on the accounts of the party at each stop, and the highest such sums. The facts stand for no lines, and then for the
/// whole journal. `Memory` says that there wasn't enough of it.
pub fn tides_of(
    alloc: Global,
    setting: &Setting,
    request: &Request,
    journal: &Journal,
    facts: &mut DayFacts,
) -> Result<Tides, Memory>
    requires legal { IsLegal setting.now.day journal.now.history }
    requires first { StandsFor setting.now.day [] facts.old }
    ensures stands { OnOk result (StandsFor setting.now.day
        (oldest journal.now.history (length journal.now.history)) facts.new) }
    ensures peaks { IfOk result (λ tides. tides.peaks
        ≡ peaks setting.now.day request.now
        (oldest journal.now.history (length journal.now.history))) }
    ensures waits { IfOk result (λ tides. tides.waits.items
        ≡ all_waiting setting.now.day request.now
        (oldest journal.now.history (length journal.now.history))) }
{
    match DueItems::with_room(alloc, setting) {
        Ok(mut due) => {
            let tides = tides_with(alloc, setting, request, journal, facts, &mut due);
            drop(due);
            tides
        }
        Err(memory) => Err(memory),
    }
}
