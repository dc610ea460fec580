//! The texts of the status messages that all lines of a journal tell.
ghost use Rattle.std.specs.Prelude.{◌≡◌, [], OnOk};
ghost use Rattle.outside_io.specs.Calls.{Puts};
ghost use Rattle.machine.specs.Legal.{IsLegal};
ghost use Rattle.status_messages.specs.Telling.{statuses_text};
ghost use Rattle.status_messages.specs.Walks.{Stands};

use crate::walk::StatusWalk;
use commit_journal::Journal;
use outside_io::{Sink, WriteFault};
use rule_book::Setting;

/// Writes the texts of the status messages that the lines of a journal tell, in the order of the lines, with a walk that
/// stands before the first of them. The walk then stands for all of them. At an error a front of the texts was written, and
/// the sink's count of faults has risen; the walk is good for no more lines then. Takes no memory.
pub fn put_statuses<S: Sink>(
    walk: &mut StatusWalk,
    setting: &Setting,
    journal: &Journal,
    sink: &mut S,
) -> Result<(), WriteFault>
    requires legal { IsLegal setting.now.day journal.now.history }
    requires first { Stands setting.now.day [] walk.old }
    ensures texts { Puts (S.state sink.old) (S.state sink.new)
        (statuses_text setting.now.day journal.now.history) result }
    ensures stands { OnOk result (Stands setting.now.day journal.now.history walk.new) }
{
    for before in 0..journal.len() {
        walk.say(setting, journal, before + 1, sink)?;
    }
    Ok(())
}
