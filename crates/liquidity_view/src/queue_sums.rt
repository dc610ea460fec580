//! What is queued on the accounts of a bank, kept line by line.
ghost use Rattle.std.specs.Prelude.{◌≡◌, ◌≤◌, ◌<◌, ◌-◌, ◌^◌, ℕ, [], true, length, slice_set, IfOk, List};
ghost use Rattle.batch_records.specs.DayRecord.{Day};
ghost use Rattle.commit_journal.specs.Line.{History};
ghost use Rattle.commit_journal.specs.Histories.{oldest};
ghost use Rattle.machine.specs.Legal.{IsLegal};
ghost use Rattle.number_set.specs.Members.{IsEmpty, has};
ghost use Rattle.scan_laws.specs.Numbers.{item_count};
ghost use Rattle.due_items.specs.Kept.{KeepsDue};
ghost use Rattle.liquidity_view.specs.declared.sides.Side.TheVariants as sides;
ghost use Rattle.liquidity_view.specs.Counted.{AddsUp, Recounts, most_of_all, none_counted, pending_at};
ghost use Rattle.liquidity_view.specs.Figures.{queued};
ghost use Rattle.liquidity_view.specs.Views.{QueueStands};

use crate::counted::Counted;
use crate::past::Past;
use cash_amounts::{LinePlace, Memory, Name};
use commit_journal::Journal;
use day_facts::{DayFacts, note_at};
use due_items::DueItems;
use rule_book::Setting;
use std::alloc::Global;
use std::marker::Model;

// ---- what a line changes

// The item of a number is counted where it is pending.
fn recount_one(counted: &mut Counted, due: &DueItems, past: &Past, name: &Name, number: u32)
    requires due { KeepsDue past.now.setting.now.day
        (oldest past.now.journal.now.history past.now.place) due.now }
    requires sums { AddsUp past.now.setting.now.day name.now counted.old }
    requires within { number < item_count past.now.setting.now.day }
    ensures set { counted.new.set ≡ slice_set counted.old.set number
        (pending_at past.now.setting.now.day (oldest past.now.journal.now.history past.now.place)
        number) }
    ensures sums { AddsUp past.now.setting.now.day name.now counted.new }
{
    match due.item(number) {
        Some(item) => counted.put(past.setting, name, number, item, past.is_pending(item)),
        None => {}
    }
}

// Each item that was brought up to date is counted where it is pending, and is no longer to be asked for.
fn recount(counted: &mut Counted, due: &mut DueItems, past: &Past, name: &Name)
    requires due { KeepsDue past.now.setting.now.day
        (oldest past.now.journal.now.history past.now.place) due.old }
    requires sums { AddsUp past.now.setting.now.day name.now counted.old }
    ensures due { KeepsDue past.now.setting.now.day
        (oldest past.now.journal.now.history past.now.place) due.new }
    ensures sums { AddsUp past.now.setting.now.day name.now counted.new }
    ensures renewed { Recounts past.now.setting.now.day
        (oldest past.now.journal.now.history past.now.place) (λ i. has due.old.renewed i ≡ true)
        counted.old.set counted.new.set }
    ensures forgotten { IsEmpty due.new.renewed }
{
    let mut from = 0;
    while let Some(number) = due.next_renewed(from) {
        recount_one(counted, due, past, name, number);
        due.forget(number);
        from = number + 1;
    }
}

// ---- the sums

// Nothing is due, and nothing counted.
fn nothing_queued(alloc: Global, setting: &Setting) -> Result<(DueItems, Counted), Memory>
    ensures due { IfOk result (λ r. KeepsDue setting.now.day [] r.0) }
    ensures counted { IfOk result (λ r. r.1 ≡ none_counted (item_count setting.now.day)) }
    ensures few { IfOk result (λ r. length r.1.set < 2 ^ 32) }
{
    let due = DueItems::with_room(alloc, setting)?;
    match Counted::with_room(alloc, due.count()) {
        Ok(counted) => Ok((due, counted)),
        Err(e) => {
            drop(due);
            Err(e)
        }
    }
}

/// What is queued after some lines of a journal: which items are pending, what they would take from the accounts of a bank, and what
/// they would bring to them. Contracts see these, and `QueueStands` says over which lines they are.
#[derive(Drop)]
pub struct QueueSums {
    facts: DayFacts,
    // They tell which items a line concerns.
    due: DueItems,
    counted: Counted,
}

impl Model for QueueSums {
    ghost use Rattle.liquidity_view.specs.Views.{OnQueue};

    ghost Value = { OnQueue };

    ghost view = { λ queue. record {
      facts = queue.facts;
      due = queue.due;
      counted = queue.counted;
    } };
}

impl QueueSums {
    /// The sums over no lines, which are those of any name. All memory that is needed is taken here.
    pub fn open(alloc: Global, setting: &Setting) -> Result<QueueSums, Memory>
        ensures { IfOk result (λ queue. (name : List ℕ)
            → QueueStands setting.now.day name [] queue) }
    {
        let (due, counted) = nothing_queued(alloc, setting)?;
        match DayFacts::with_room(alloc, setting) {
            Ok(facts) => Ok(QueueSums {
                facts,
                due,
                counted,
            }),
            Err(memory) => Err(memory),
        }
    }

    /// Takes the line of a journal at a place, where the sums are those of this name over the lines before it.
    pub fn take(&mut self, setting: &Setting, journal: &Journal, place: LinePlace, name: &Name)
        requires legal { IsLegal setting.now.day journal.now.history }
        requires from { 1 ≤ place }
        requires to { place ≤ length journal.now.history }
        requires stands { QueueStands setting.now.day name.now
            (oldest journal.now.history (place - 1)) self.old }
        ensures { QueueStands setting.now.day name.now (oldest journal.now.history place) self.new }
    {
        let (head, _) = journal.line(place);
        note_at(setting, journal, &mut self.facts, place);
        self.due.note(setting, &self.facts, head);
        let past = Past {
            setting,
            journal,
            place,
            facts: &self.facts,
        };
        recount(&mut self.counted, &mut self.due, &past, name);
    }

    /// What the pending items would take from the accounts, in cents.
    pub fn leaving(&self) -> u128
        ensures value { (day : Day) (name : List ℕ) (J : History) → QueueStands day name J self.now
            → result ≡ queued sides.Out day name J }
        ensures small { result ≤ most_of_all }
    {
        self.counted.leaving()
    }

    /// What the pending items would bring to the accounts, in cents.
    pub fn coming(&self) -> u128
        ensures value { (day : Day) (name : List ℕ) (J : History) → QueueStands day name J self.now
            → result ≡ queued sides.In day name J }
        ensures small { result ≤ most_of_all }
    {
        self.counted.coming()
    }
}
