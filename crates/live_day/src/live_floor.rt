//! The floor of a live day, whose lines are told as soon as they are made.
ghost use Rattle.std.specs.Prelude.{◌≡◌, ◌+◌, ℕ, IfOk, OnOk, not, suc};
ghost use Rattle.outside_io.specs.Calls.{Puts};
ghost use Rattle.batch_records.specs.Made.{last_stop};
ghost use Rattle.live_records.specs.Ears.{calls_said, ends_run};
ghost use Rattle.live_day.specs.Events.{events_in};
ghost use Rattle.live_day.specs.LiveFloors.{came_in};
ghost use Rattle.live_day.specs.Told.{told_calls, told_end, told_event};
ghost use Rattle.live_day.specs.Working.{HasTold, IsOver, LacksMessage, LacksSaid, LacksStop};

use crate::making::{reach_last, run_out, take_last};
use crate::refusals::{put_bad, put_refused};
use crate::telling::tell_behind;
use account_book::OneTill;
use cash_amounts::Seconds;
use closing_balances::put_closing;
use live_records::Outcome;
use outside_io::{Sink, WriteFault};
use rule_book::Setting;
use rule_book::parts::message_count;
use settle_floor::Floor;
use status_messages::{StatusWalk, stop_changes_no_walk};

/// A floor with the balances of its day's accounts, and a walk along its lines, which are told as soon as they are made. Each call with a
/// setting needs one of its day.
#[derive(Drop)]
pub(crate) struct LiveFloor {
    pub(crate) floor: Floor,
    pub(crate) till: OneTill,
    pub(crate) walk: StatusWalk,
}

// The last stop of a day.
fn last_stop(setting: &Setting) -> Seconds
    ensures { result ≡ last_stop setting.now.day.stops }
{
    setting.day.stops().last().copied().unwrap_or(0)
}

impl LiveFloor {
    /// Takes the last message of the day, lets what can settle then settle, and tells the lines. At an error a write failed, and a front
    /// of this was written; nothing more is to be told then. Takes no memory.
    pub(crate) fn take<S: Sink>(
        &mut self,
        setting: &Setting,
        sink: &mut S,
    ) -> Result<(), WriteFault>
        requires { LacksMessage setting.now.day self.old }
        ensures texts { (k : ℕ) → suc k ≡ came_in setting.now.day
            → Puts (S.state sink.old) (S.state sink.new) (told_event setting.now.day k) result }
        ensures told { OnOk result (HasTold setting.now.day self.new) }
    {
        let n = message_count(setting);
        let first = self.floor.journal().len();
        self.walk.arrive(setting, n);
        take_last(setting, &mut self.floor, &mut self.till, n);
        tell_behind(&mut self.walk, setting, self.floor.journal(), first, sink)
    }

    // Lets the clock come to the last stop of the day, at this time, and what can settle then settle, and tells the lines.
    fn reach<S: Sink>(
        &mut self,
        setting: &Setting,
        time: Seconds,
        sink: &mut S,
    ) -> Result<(), WriteFault>
        requires { LacksStop setting.now.day time self.old }
        ensures texts { (k : ℕ) → suc k ≡ came_in setting.now.day
            → Puts (S.state sink.old) (S.state sink.new) (told_event setting.now.day k) result }
        ensures told { OnOk result (HasTold setting.now.day self.new) }
    {
        stop_changes_no_walk();
        let first = self.floor.journal().len();
        reach_last(setting, &mut self.floor, &mut self.till, time);
        tell_behind(&mut self.walk, setting, self.floor.journal(), first, sink)
    }

    /// Makes what is said of the record of this number, and tells it. False where it ends the run. At an error a write failed, and a front of
    /// this was written; nothing more is to be told then. Takes no memory.
    pub(crate) fn answer<S: Sink>(
        &mut self,
        setting: &Setting,
        said: Outcome,
        number: u64,
        sink: &mut S,
    ) -> Result<bool, WriteFault>
        requires { LacksSaid said setting.now.day self.old }
        ensures texts { (k : ℕ) → k + events_in (calls_said number said) ≡ came_in setting.now.day
            → Puts (S.state sink.old) (S.state sink.new)
            (told_calls setting.now.day k (calls_said number said)) result }
        ensures told { OnOk result (HasTold setting.now.day self.new) }
        ensures ends { IfOk result (λ goes. goes ≡ not (ends_run said)) }
    {
        match said {
            Outcome::Nothing => Ok(true),
            Outcome::Takes => {
                self.take(setting, sink)?;
                Ok(true)
            }
            Outcome::Stops => {
                self.reach(setting, last_stop(setting), sink)?;
                Ok(true)
            }
            Outcome::Refuses(code) => {
                put_refused(number, code, sink)?;
                Ok(true)
            }
            Outcome::Breaks(code) => {
                put_bad(number, code, sink)?;
                Ok(false)
            }
        }
    }

    // Makes and tells the rest of the lines.
    fn finish<S: Sink>(&mut self, setting: &Setting, sink: &mut S) -> Result<(), WriteFault>
        requires { HasTold setting.now.day self.old }
        ensures texts { Puts (S.state sink.old) (S.state sink.new)
            (told_event setting.now.day (came_in setting.now.day)) result }
        ensures over { IsOver setting.now.day self.new }
    {
        let first = self.floor.journal().len();
        run_out(setting, &mut self.floor, &mut self.till);
        tell_behind(&mut self.walk, setting, self.floor.journal(), first, sink)
    }

    /// Makes and tells the rest of the lines, where the day is over, and then what each account holds and how many lines there are. At an
    /// error a write failed, and a front of this was written. Takes no memory.
    pub(crate) fn end<S: Sink>(&mut self, setting: &Setting, sink: &mut S) -> Result<(), WriteFault>
        requires { HasTold setting.now.day self.old }
        ensures { Puts (S.state sink.old) (S.state sink.new) (told_end setting.now.day) result }
    {
        self.finish(setting, sink)?;
        put_closing(setting, self.floor.journal(), &self.till, sink)
    }
}
