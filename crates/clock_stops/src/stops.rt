//! The times at which the clock may stop.
ghost use Rattle.std.specs.Prelude.{◌≡◌, ◌+◌, ◌<◌, ◌∷◌, [], false, fold, length, replicate, IfOk};
ghost use Rattle.period_calendar.specs.declared.time.TheConstants.{MIDNIGHT};
ghost use Rattle.batch_records.specs.DayRecord.{Day};
ghost use Rattle.commit_journal.specs.Line.{Line, History};
ghost use Rattle.machine.specs.Telling.History.{clock};
ghost use Rattle.machine.specs.Legal.{IsLegal};
ghost use Rattle.machine.specs.Making.Lines.{next_stop};
ghost use Rattle.live_order.specs.Coming.{setup};
ghost use Rattle.live_order.specs.Longer.{SpeaksOf, longer};
ghost use Rattle.clock_stops.specs.Entered.{noted, with_end, with_ends, with_stop};
ghost use Rattle.clock_stops.specs.Kept.{KeepsStops};
ghost use Rattle.clock_stops.specs.Stops.{accepts_batch};

use batch_records::Day;
use cash_amounts::{Memory, Seconds};
use commit_journal::{Code, Head, Kind};
use number_set::NumberSet;
use period_calendar::MIDNIGHT;
use rule_book::Setting;
use rule_book::parts::{earliest, info_end, stated_end};
use rule_book::sorts::is_batch;
use std::alloc::Global;
use std::marker::Model;

/// The seconds of a day at which the clock may stop: the stops that the day states, and the ends and earliest times that its accepted
/// batches state. Those that the clock has passed are among them.
#[derive(Drop)]
pub struct ClockStops {
    times: NumberSet,
}

impl Model for ClockStops {
    ghost use Rattle.std.specs.Prelude.{List, Bool};

    ghost Value = { List Bool };

    ghost view = { λ stops. stops.times };
}

// ---- entering

// Enters a time of the day.
fn enter(times: &mut NumberSet, time: u32)
    ensures { times.new ≡ with_stop times.old time }
{
    if time < times.bound() {
        times.insert(time);
    }
}

fn enter_end(times: &mut NumberSet, end: Option<u32>)
    ensures { times.new ≡ with_end end times.old }
{
    match end {
        Some(time) => enter(times, time),
        None => {}
    }
}

// Enters the times that batch n states.
fn enter_ends(times: &mut NumberSet, day: &Day, n: u32)
    ensures { times.new ≡ with_ends day.now n times.old }
{
    enter_end(times, info_end(day, n));
    enter_end(times, earliest(day, n));
    enter_end(times, stated_end(day, n));
}

// One for each second from 0 to midnight.
fn seconds() -> u32
    ensures { result ≡ MIDNIGHT + 1 }
{
    MIDNIGHT + 1
}

// ---- noting

// Whether a line of this head accepts a batch.
fn accepts_batch(setting: &Setting, head: Head) -> bool
    ensures { result ≡ accepts_batch setting.now.day head }
{
    matches!(head.kind, Kind::In) && matches!(head.code, Code::Ok) && is_batch(setting, head.msg)
}

fn note_line(times: &mut NumberSet, setting: &Setting, head: Head)
    ensures { times.new ≡ noted setting.now.day head times.old }
{
    if accepts_batch(setting, head) {
        enter_ends(times, &setting.day, head.msg);
    }
}

// ---- the stops that a day states

// All of them, in their order.
fn stated_stops(alloc: Global, stops: &[u32]) -> Result<ClockStops, Memory>
    ensures { IfOk result (λ times. times ≡ fold with_stop (replicate (MIDNIGHT + 1) false) stops.now) }
{
    let mut times = ClockStops::empty(alloc)?;
    for stop in stops {
        times.stop(*stop);
    }
    Ok(times)
}

impl ClockStops {
    /// No stop has come, of any day. All memory that is needed is taken here, and `Memory` says that there wasn't that much.
    pub fn empty(alloc: Global) -> Result<ClockStops, Memory>
        ensures none { IfOk result (λ stops. stops ≡ replicate (MIDNIGHT + 1) false) }
        ensures keeps { (day : Day) → IfOk result (λ stops. KeepsStops (setup day) [] stops) }
    {
        let times = NumberSet::with_room(alloc, seconds())?;
        Ok(ClockStops { times })
    }

    /// Over no lines: the stops that the day states. All memory that is needed is taken here, and `Memory` says that there
    /// wasn't that much.
    pub fn with_room(alloc: Global, setting: &Setting) -> Result<ClockStops, Memory>
        ensures { IfOk result (λ stops. KeepsStops setting.now.day [] stops) }
    {
        let stops = stated_stops(alloc, setting.day.stops())?;
        Ok(stops)
    }

    /// The next stop of the day comes, a time of the day in seconds. Where these were the stops of the day as it was, they are those of
    /// the day with this one after its own. Takes no memory.
    pub fn stop(&mut self, time: Seconds)
        ensures times { self.new ≡ with_stop self.old time }
        ensures stops { (day : Day) (J : History) → time < MIDNIGHT + 1 → SpeaksOf (length day.messages) J
            → KeepsStops day J self.old → KeepsStops (longer day [] (time ∷ [])) J self.new }
    {
        enter(&mut self.times, time);
    }

    /// Notes the next line, of which the head is enough. Where these were the stops of the lines before it, they are those of
    /// these and it. Only a line that accepts a batch changes them.
    pub fn note(&mut self, setting: &Setting, head: Head)
        ensures { (J : History) (l : Line) → l.head ≡ head → IsLegal setting.now.day (l ∷ J)
            → KeepsStops setting.now.day J self.old → KeepsStops setting.now.day (l ∷ J) self.new }
    {
        note_line(&mut self.times, setting, head);
    }

    /// The next stop of the clock, which stands at this time, in seconds: the first one after it, or midnight.
    pub fn next(&self, at: u32) -> u32
        ensures { (day : Day) (J : History) → KeepsStops day J self.now → at ≡ clock J
            → result ≡ next_stop day J }
    {
        if at >= MIDNIGHT {
            return MIDNIGHT;
        }
        match self.times.next(at + 1) {
            Some(time) => time,
            None => MIDNIGHT,
        }
    }
}
