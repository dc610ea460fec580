//! A bank's liquidity, kept line by line.
ghost use Rattle.std.specs.Prelude.{◌≡◌, ◌≤◌, ◌-◌, ◌+ℤ◌, ◌-ℤ◌, ℕ, pos, [], length, IfOk};
ghost use Rattle.batch_records.specs.DayRecord.{Day};
ghost use Rattle.commit_journal.specs.Line.{History};
ghost use Rattle.commit_journal.specs.Histories.{oldest};
ghost use Rattle.machine.specs.Legal.{IsLegal};
ghost use Rattle.liquidity_view.specs.Counted.{most_of_all};
ghost use Rattle.liquidity_view.specs.Figures.{figures, settled};
ghost use Rattle.liquidity_view.specs.Views.{AreSmall, StandsFor, most_settled};

use crate::queue_sums::QueueSums;
use crate::shares::{begun_with, moved};
use crate::sides::Side;
use cash_amounts::{LinePlace, Memory, Name};
use commit_journal::Journal;
use rule_book::Setting;
use std::alloc::Global;
use std::marker::Model;

/// What a bank's dedicated cash accounts say after some lines, in cents.
#[derive(Clone, Copy, Debug, PartialEq, Eq)]
pub struct Figures {
    /// What left them.
    pub out: i128,
    /// What came to them.
    pub into: i128,
    /// What all pending items would take from them.
    pub queued_out: i128,
    /// What these would bring to them.
    pub queued_in: i128,
    /// What they hold.
    pub position: i128,
    /// What they would hold if all pending items were booked. It may be below zero.
    pub projected: i128,
}

/// The liquidity of a bank after some lines of a journal. The sums are kept, and each line changes them by what it moves and by
/// what it puts into the queue or takes out of it. Contracts see the sums, and `StandsFor` says over which lines they are.
#[derive(Drop)]
pub struct LiquidityView {
    name: Name,
    queue: QueueSums,
    begun: u128,
    out: u128,
    into: u128,
}

impl Model for LiquidityView {
    ghost use Rattle.liquidity_view.specs.Views.{AreSmall, OnView};

    ghost Value = { OnView };

    ghost view = { λ view. record {
      name = view.name;
      queue = view.queue;
      begun = view.begun;
      out = view.out;
      into = view.into;
    } };

    ghost invariant = { λ view. AreSmall view.begun view.out view.into };
}

// What was settled on a side up to a place of a journal, in cents: what was settled before, and what the line there moves.
fn settled_at(
    setting: &Setting,
    journal: &Journal,
    place: u32,
    name: &Name,
    side: Side,
    before: u128,
) -> u128
    requires legal { IsLegal setting.now.day journal.now.history }
    requires from { 1 ≤ place }
    requires to { place ≤ length journal.now.history }
    requires before { before ≡ settled side setting.now.day name.now
        (oldest journal.now.history (place - 1)) }
    ensures value { result ≡ settled side setting.now.day name.now
        (oldest journal.now.history place) }
    ensures small { result ≤ most_settled }
{
    let (_, moves) = journal.line(place);
    before + moved(setting, name, side, moves)
}

// The figures of these sums.
fn figures_of(begun: u128, out: u128, into: u128, leaving: u128, coming: u128) -> Figures
    requires settled { AreSmall begun out into }
    requires leaving { leaving ≤ most_of_all }
    requires coming { coming ≤ most_of_all }
    ensures { result ≡ record {
      out = pos out;
      into = pos into;
      queued_out = pos leaving;
      queued_in = pos coming;
      position = (pos begun +ℤ pos into) -ℤ pos out;
      projected = (((pos begun +ℤ pos into) -ℤ pos out) -ℤ pos leaving) +ℤ pos coming;
    } }
{
    let position = begun as i128 + into as i128 - out as i128;
    Figures {
        out: out as i128,
        into: into as i128,
        queued_out: leaving as i128,
        queued_in: coming as i128,
        position,
        projected: position - leaving as i128 + coming as i128,
    }
}

impl LiquidityView {
    /// The view of the empty journal, for the bank of this name. A name that is no bank's has no dedicated cash account, and its
    /// figures are 0. All memory that is needed is taken here, and `Memory` says that there wasn't that much.
    pub fn open(alloc: Global, setting: &Setting, name: &Name) -> Result<LiquidityView, Memory>
        ensures stands { IfOk result (λ view. StandsFor setting.now.day [] view) }
        ensures name { IfOk result (λ view. view.name ≡ name.now) }
    {
        match QueueSums::open(alloc, setting) {
            Ok(queue) => Ok(LiquidityView {
                name: name.copy(),
                queue,
                begun: begun_with(setting, name),
                out: 0,
                into: 0,
            }),
            Err(memory) => Err(memory),
        }
    }

    /// Takes the line of a journal at a place, where the view stands for the lines before it. Then it stands for these and it.
    /// Takes no memory.
    pub fn take(&mut self, setting: &Setting, journal: &Journal, place: LinePlace)
        requires legal { IsLegal setting.now.day journal.now.history }
        requires from { 1 ≤ place }
        requires to { place ≤ length journal.now.history }
        requires stands { StandsFor setting.now.day (oldest journal.now.history (place - 1))
            self.old }
        ensures stands { StandsFor setting.now.day (oldest journal.now.history place) self.new }
        ensures name { self.new.name ≡ self.old.name }
    {
        let out = settled_at(setting, journal, place, &self.name, Side::Out, self.out);
        let into = settled_at(setting, journal, place, &self.name, Side::In, self.into);
        self.queue.take(setting, journal, place, &self.name);
        self.out = out;
        self.into = into;
    }

    /// What the bank's dedicated cash accounts say after the lines that the view stands for.
    pub fn figures(&self) -> Figures
        ensures { (day : Day) (J : History) → StandsFor day J self.now
            → result ≡ figures day self.now.name J }
    {
        figures_of(
            self.begun,
            self.out,
            self.into,
            self.queue.leaving(),
            self.queue.coming(),
        )
    }
}
