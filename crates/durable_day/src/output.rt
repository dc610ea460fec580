//! The texts that this program alone writes.
ghost use Rattle.std.specs.Prelude.{◌++◌};
ghost use Rattle.outside_io.specs.Calls.{Puts};
ghost use Rattle.durable_day.specs.Answers.{foreign_text, shown_text};

use commit_journal::{Journal, put_journal};
use itoa::Buffer;
use outside_io::{Sink, WriteFault, put_fields};
use program_answers::put_ok;

/// Writes at which place a store has no line of a legal journal.
pub(crate) fn put_foreign<S: Sink>(place: u32, sink: &mut S) -> Result<(), WriteFault>
    ensures { Puts (S.state sink.old) (S.state sink.new) (foreign_text place) result }
{
    let mut digits = Buffer::new();
    let fields: [&[u8]; 2] = [b"FOREIGN", digits.format(place).as_bytes()];
    put_fields(sink, &fields)
}

/// Writes the text of each line of a journal, and how many they are.
pub(crate) fn put_shown<S: Sink>(journal: &Journal, sink: &mut S) -> Result<(), WriteFault>
    ensures { Puts (S.state sink.old) (S.state sink.new) (shown_text journal.now.history) result }
{
    put_journal(journal, sink)?;
    put_ok(journal.len(), sink)
}
