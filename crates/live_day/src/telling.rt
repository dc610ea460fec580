//! The lines of a journal are told: each with its moves, and after it what it tells the parties.
ghost use Rattle.std.specs.Prelude.{◌≤◌, ◌-◌, OnOk, length, ℕ};
ghost use Rattle.outside_io.specs.Calls.{Puts};
ghost use Rattle.commit_journal.specs.Histories.{oldest};
ghost use Rattle.day_facts.specs.Room.{HasRoom};
ghost use Rattle.machine.specs.Legal.{IsLegal};
ghost use Rattle.status_messages.specs.Walks.{Stands};
ghost use Rattle.live_day.specs.Told.{told_at, told_behind};

use cash_amounts::LinePlace;
use commit_journal::{Journal, put_line};
use outside_io::{Sink, WriteFault};
use rule_book::Setting;
use status_messages::StatusWalk;

// Tells the line at a place.
fn tell_line<S: Sink>(
    walk: &mut StatusWalk,
    setting: &Setting,
    journal: &Journal,
    place: LinePlace,
    sink: &mut S,
) -> Result<(), WriteFault>
    requires legal { IsLegal setting.now.day journal.now.history }
    requires from { 1 ≤ place }
    requires to { place ≤ length journal.now.history }
    requires stands { Stands setting.now.day (oldest journal.now.history (place - 1)) walk.old }
    ensures texts { Puts (S.state sink.old) (S.state sink.new)
        (told_at setting.now.day journal.now.history place) result }
    ensures stands { OnOk result (Stands setting.now.day (oldest journal.now.history place)
        walk.new) }
    ensures room { (messages more : ℕ) → HasRoom messages more walk.old.facts
        → HasRoom messages more walk.new.facts }
{
    let (head, moves) = journal.line(place);
    put_line(place, head, moves, sink)?;
    walk.say(setting, journal, place, sink)
}

/// Tells the lines of a journal after its first so many, with a walk that stands for these. The walk then stands for all of them, and the
/// room for what is still to come stays. At an error a write failed, and a front of this was written; the walk is good for no more lines
/// then.
pub(crate) fn tell_behind<S: Sink>(
    walk: &mut StatusWalk,
    setting: &Setting,
    journal: &Journal,
    first: u32,
    sink: &mut S,
) -> Result<(), WriteFault>
    requires legal { IsLegal setting.now.day journal.now.history }
    requires few { first ≤ length journal.now.history }
    requires stands { Stands setting.now.day (oldest journal.now.history first) walk.old }
    ensures texts { Puts (S.state sink.old) (S.state sink.new)
        (told_behind setting.now.day first journal.now.history) result }
    ensures stands { OnOk result (Stands setting.now.day journal.now.history walk.new) }
    ensures room { (messages more : ℕ) → HasRoom messages more walk.old.facts
        → HasRoom messages more walk.new.facts }
{
    for before in first..journal.len() {
        tell_line(walk, setting, journal, before + 1, sink)?;
    }
    Ok(())
}
