//! The texts that this program alone writes.
ghost use Rattle.std.specs.Prelude.{◌≡◌, ◌++◌, []};
ghost use Rattle.outside_io.specs.Calls.{Puts};
ghost use Rattle.settle_floor.specs.Floors.{IsBalanced};
ghost use Rattle.closing_balances.specs.Closing.{closing_text};
ghost use Rattle.rtgs_engine.specs.Answers.{legal_text};
ghost use Rattle.rtgs_engine.specs.CommandLines.{usage_text};
ghost use Rattle.rtgs_engine.specs.Outputs.{output};
ghost use Rattle.status_messages.specs.Telling.{statuses_text};
ghost use Rattle.status_messages.specs.Walks.{Stands};

use crate::run::Settled;
use account_book::Holdings;
use closing_balances::put_closing;
use commit_journal::put_journal;
use itoa::Buffer;
use outside_io::{Sink, WriteFault, put_fields};
use status_messages::{StatusWalk, put_statuses};

// What the parties are told, and what follows.
fn put_told<T: Holdings, S: Sink>(
    walk: &mut StatusWalk,
    settled: &Settled<T>,
    sink: &mut S,
) -> Result<(), WriteFault>
    requires balanced { IsBalanced settled.now.setting.day settled.now.journal
        (T.holdings settled.now.till) }
    requires first { Stands settled.now.setting.day [] walk.old }
    ensures { Puts (S.state sink.old) (S.state sink.new)
        (statuses_text settled.now.setting.day settled.now.journal.history
        ++ closing_text settled.now.setting.day settled.now.journal.history) result }
{
    put_statuses(walk, &settled.setting, &settled.journal, sink)?;
    put_closing(&settled.setting, &settled.journal, &settled.till, sink)
}

/// Writes the output of a settled day, with a walk that stands before the first line of its journal.
#[tactic(auto, unfolding(crate::specs::Outputs::output))]
pub fn put_output<T: Holdings, S: Sink>(
    walk: &mut StatusWalk,
    settled: &Settled<T>,
    sink: &mut S,
) -> Result<(), WriteFault>
    requires balanced { IsBalanced settled.now.setting.day settled.now.journal
        (T.holdings settled.now.till) }
    requires first { Stands settled.now.setting.day [] walk.old }
    ensures { Puts (S.state sink.old) (S.state sink.new)
        (output settled.now.setting.day settled.now.journal.history) result }
{
    put_journal(&settled.journal, sink)?;
    put_told(walk, settled, sink)
}

/// Writes that a journal is legal, and how many lines it has.
pub fn put_legal<S: Sink>(lines: u32, sink: &mut S) -> Result<(), WriteFault>
    ensures { Puts (S.state sink.old) (S.state sink.new) (legal_text lines) result }
{
    let mut digits = Buffer::new();
    let fields: [&[u8]; 2] = [b"LEGAL", digits.format(lines).as_bytes()];
    put_fields(sink, &fields)
}

/// The usage line.
pub fn usage() -> &'static [u8]
    ensures { result.now ≡ usage_text }
{
    b"usage: rtgs settle [--workers N] | check | migrate | replay | follow NAME | trial SEED BATCHES [--workers N]\n"
}
